// Check 1, `check_assignments` of scheduler/feasibility.rs: each booking under a task of the sheet names one of its activities, takes no more units than
// the activity's requirements, lasts as long as its work, and starts no earlier than the releases.
#![tactic(auto)]

ghost use Rattle.std.specs.Prelude.{◌≡◌, ◌+◌, ◌<◌, ◌≤◌, true, false, ltb, pos};
ghost use Rattle.std.specs.Int.Signed.{lt_z};
ghost use Rattle.loops.specs.Lists.{option, is_some};
ghost use Rattle.rows.specs.Cells.{row_count, num, is};
ghost use Rattle.sheet.specs.Places.{task_place};
ghost use Rattle.calendar.specs.Clock.{clock};
ghost use Rattle.findings.specs.inner.Told.{so_far, tell};
ghost use Rattle.model.specs.Sheet.{sheet};
ghost use Rattle.model.specs.Task.{find_task};
ghost use Rattle.model.specs.Activity.{split, needed_ms};
ghost use Rattle.model.specs.Schedule.{assignments_below};
ghost use Rattle.model.specs.inner.Records.{activity_of, assignment_of};
ghost use Rattle.definition.specs.Pieces.{is_held, runs_on};
ghost use Rattle.definition.specs.CheckAssignments.{misplaced, units, uses, check_known, check_assignment_at, check_assignments};
ghost use Rattle.check1_assignments.specs.inner.Bookings.{Booked, quantities, takes_unit};

use derived_times::TimedSheet;
use findings::{Findings, Violation, ViolationKind};
use owners::{LinkIndex, OwnerIndex};
use pieces::HeldMarks;
use rows::Kind;
use sheet::{Found, KindIndex, Rows};

// ---- a booking of an activity of the sheet

// By the rows of the two.
#[derive(Drop)]
struct KnownBooking<'a> {
    rows: &'a TimedSheet<'a>,
    activity: usize,
    row: usize,
    ghost booked: { Booked rows.now activity row },
}

impl<'a> KnownBooking<'a> {
    // Whether its activity is split.
    #[tactic(auto, using(crate::proofs::Placing::activity_most, crate::proofs::Placing::activity_place_lem, crate::proofs::Finding::split_told))]
    fn is_split(&self) -> bool
        ensures { result ≡ is_some (split (sheet self.now.rows.now) (num self.now.rows.now self.now.activity 1)) }
    {
        self.rows.has_owned(self.activity, Kind::Split)
    }

    // What its activity's requirements take; a quantity may be negative.
    #[tactic(auto, using(crate::proofs::Placing::activity_most, crate::proofs::Placing::activity_place_lem, chains::proofs::PlaceLaws::left_all, crate::proofs::Summing::sum_left))]
    fn quantity(&self) -> i64
        ensures { result ≡ quantities self.now.rows.now self.now.activity }
    {
        let mut sum = 0;
        for q in self.rows.owned_by(self.activity, Kind::Requirement) {
            sum += self.rows.cell(q, 3);
        }
        sum
    }

    // Whether so many bookings are more than its activity's units, which are at least 1.
    #[tactic(auto, using(crate::proofs::Summing::over_told))]
    fn is_over(&self, used: u64) -> bool
        requires { used ≤ 801 }
        ensures { result ≡ lt_z (units (sheet self.now.rows.now) (num self.now.rows.now self.now.activity 1)) (pos used) }
    {
        1 < used && self.quantity() < used as i64
    }

    // Whether it names another task than its activity's, or a part where that is not split.
    #[tactic(auto, using(model::proofs::Accepting::accepted, crate::proofs::Placing::misplaced_told))]
    fn is_misplaced(&self) -> bool
        ensures { result ≡ misplaced (sheet self.now.rows.now) (activity_of self.now.rows.now self.now.activity) (assignment_of self.now.rows.now self.now.row) }
    {
        !self.rows.has(self.row, 2, self.rows.num(self.activity, 2))
            || (!self.rows.is_none(self.row, 7) && !self.is_split())
    }

    // Whether booking j takes a unit of its piece. It is not misplaced, so another booking of its piece is misplaced only where that names another task. This
    // is a clause of `judge` and of its two steps: a second type would be made in `check` alone.
    #[tactic(auto, using(model::proofs::Accepting::accepted, crate::proofs::Counting::takes_told))]
    fn takes_unit(&self, j: usize) -> bool
        requires { (misplaced (sheet self.now.rows.now) (activity_of self.now.rows.now self.now.activity) (assignment_of self.now.rows.now self.now.row) ≡ false) × (j < row_count self.now.rows.now) }
        ensures { result ≡ takes_unit self.now.rows.now self.now.activity self.now.row j }
    {
        pieces::in_piece(self.rows.as_slice(), self.row, j)
            && self.rows.has(j, 2, self.rows.num(self.activity, 2))
            && !self.rows.is_held(j)
    }

    // How many bookings before it take a unit of its piece.
    #[tactic(auto, using(crate::proofs::Placing::activity_most, chains::proofs::PlaceLaws::left_all, crate::proofs::Counting::uses_left, crate::proofs::Counting::uses_most), unfolding(loops::specs::Lists::count_of))]
    fn uses_before(&self) -> u64
        requires { misplaced (sheet self.now.rows.now) (activity_of self.now.rows.now self.now.activity) (assignment_of self.now.rows.now self.now.row) ≡ false }
        ensures count { result ≡ uses (sheet self.now.rows.now) (activity_of self.now.rows.now self.now.activity) (assignment_of self.now.rows.now self.now.row) (assignments_below (sheet self.now.rows.now) self.now.row) }
        ensures bound { result ≤ 800 }
    {
        let mut used = 0;
        for j in self
            .rows
            .owned_above(self.activity, Kind::Booking, self.row)
        {
            used += u64::from(self.takes_unit(j));
        }
        used
    }

    // Whether it ends before its setup and the rest of its work are done. The setup is the one that it records, not its activity's.
    #[tactic(auto, using(model::proofs::Accepting::accepted, crate::proofs::Judging::start_small, crate::proofs::Judging::setup_small))]
    fn is_short(&self) -> bool
        ensures { result ≡ ltb (num self.now.rows.now self.now.row 5) (num self.now.rows.now self.now.row 4 + needed_ms (sheet self.now.rows.now) (activity_of self.now.rows.now self.now.activity) (assignment_of self.now.rows.now self.now.row) (runs_on (sheet self.now.rows.now) (assignment_of self.now.rows.now self.now.row))) }
    {
        let setup = self.rows.num(self.row, 6);
        let rest = self.rows.rest_ms(self.activity, self.row);
        self.rows.num(self.row, 5) < self.rows.num(self.row, 4) + (setup + rest)
    }

    // Whether it starts before the release in column c of row r; a release that is none counts as 0, before every start. By its place, and no Option
    // as in `check2_time_only::is_early`: that a task is not in the sheet, and so has no place, is answered before.
    fn is_early(&self, r: usize, c: usize) -> bool
        ensures { result ≡ ltb (num self.now.rows.now self.now.row 4) (num self.now.rows.now r c) }
    {
        self.rows.num(self.row, 4) < self.rows.num(r, c)
    }

    // Whether it starts before the release of its activity's task.
    #[tactic(auto, using(crate::proofs::Placing::activity_within, crate::proofs::Placing::activity_kind))]
    fn is_early_in_task(&self) -> bool
        ensures { result ≡ option (task_place self.now.rows.now (num self.now.rows.now self.now.activity 2)) false (λ t. ltb (num self.now.rows.now self.now.row 4) (num self.now.rows.now t 3)) }
    {
        let Some(t) = self.rows.task_of(self.activity) else {
            return false;
        };
        self.is_early(t, 3)
    }

    // What is found of it where it is neither misplaced nor held.
    #[tactic(auto, using(crate::proofs::Placing::activity_place_lem))]
    fn judge(&self, found: &mut Findings)
        requires { (misplaced (sheet self.now.rows.now) (activity_of self.now.rows.now self.now.activity) (assignment_of self.now.rows.now self.now.row) ≡ false) × (is_held (sheet self.now.rows.now) (assignment_of self.now.rows.now self.now.row) ≡ false) }
        ensures { so_far found.new ≡ tell (so_far found.old) (check_known clock (sheet self.now.rows.now) (assignments_below (sheet self.now.rows.now) self.now.row) (assignment_of self.now.rows.now self.now.row) (activity_of self.now.rows.now self.now.activity)) }
    {
        let id = self.rows.num(self.row, 1);
        let used = self.uses_before();
        let over = self.is_over(used + 1);
        found.report(over, Violation::of(1, ViolationKind::UnknownActivity, id));
        let short = self.is_short();
        found.report(short, Violation::of(1, ViolationKind::DurationTooShort, id));
        let early = Violation::of(1, ViolationKind::EarlyStart, id);
        found.report(self.is_early(self.activity, 8), early);
        found.report(self.is_early_in_task(), early);
    }

    // What is found of it.
    #[tactic(auto, using(crate::proofs::Judging::known_misplaced, crate::proofs::Judging::held_as))]
    fn check(&self, found: &mut Findings)
        ensures { so_far found.new ≡ tell (so_far found.old) (check_known clock (sheet self.now.rows.now) (assignments_below (sheet self.now.rows.now) self.now.row) (assignment_of self.now.rows.now self.now.row) (activity_of self.now.rows.now self.now.activity)) }
    {
        if self.is_misplaced() {
            let id = self.rows.num(self.row, 1);
            found.tell(Violation::of(1, ViolationKind::UnknownActivity, id));
        } else if !self.rows.is_held(self.row) {
            self.judge(found);
        }
    }
}

// ---- the check

#[tactic(auto, using(crate::proofs::Judging::task_known))]
fn is_task(rows: &TimedSheet, id: u64) -> bool
    ensures { result ≡ is_some (find_task (sheet rows.now) id) }
{
    rows.find_task(id).is_some()
}

// Booking k. One of an activity that is not in the sheet is an external booking, unless its task is.
#[tactic(auto, using(owners::proofs::Links::books, crate::proofs::Placing::booked, crate::proofs::Judging::answer_none, crate::proofs::Judging::answer_some))]
fn check_assignment(rows: &TimedSheet, k: usize, found: &mut Findings)
    requires { (k < row_count rows.now) × (is rows.now k 0 23 ≡ true) }
    ensures { so_far found.new ≡ tell (so_far found.old) (check_assignment_at clock (sheet rows.now) k) }
{
    let Found::At(a) = rows.activity_of(k) else {
        let f = Violation::of(1, ViolationKind::UnknownActivity, rows.num(k, 1));
        found.report(is_task(rows, rows.num(k, 2)), f);
        return;
    };
    let booking = KnownBooking {
        rows,
        activity: a,
        row: k,
    };
    booking.check(found);
}

#[tactic(auto, using(chains::proofs::PlaceLaws::left_all, model::proofs::Accepting::accepted, crate::proofs::Judging::assignments_told), unfolding(sheet::specs::Places::of_kind))]
pub fn check_assignments(rows: &TimedSheet, found: &mut Findings)
    ensures { so_far found.new ≡ tell (so_far found.old) (check_assignments clock (sheet rows.now)) }
{
    for k in rows.of_kind(Kind::Booking) {
        check_assignment(rows, k, found);
    }
}
