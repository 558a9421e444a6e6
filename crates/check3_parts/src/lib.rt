// Check 3, `check_parts`: the parts that a split activity is booked in. The activity's row goes as a place, of which each function asks what a walk asks, that
// it is no more than the number of rows: a struct of sheet and row would save that clause, and name the two fields in every other.
#![tactic(auto)]

ghost use Rattle.std.specs.Prelude.{◌≡◌, true, ◌&&◌, ◌||◌, [], ◌<◌, ◌≤◌, eqb, ℕ, pos};
ghost use Rattle.std.specs.Int.Signed.{lt_z};
ghost use Rattle.rows.specs.Cells.{row_count, cell, num};
ghost use Rattle.owners.specs.inner.Owners.{owned_by};
ghost use Rattle.findings.specs.inner.Told.{so_far, tell};
ghost use Rattle.model.specs.Sheet.{sheet};
ghost use Rattle.pieces.specs.inner.Bookings.{key_at};
ghost use Rattle.definition.specs.CheckParts.{work_of, two_works, check_parts};
ghost use Rattle.check3_parts.specs.inner.Booked.{has_part, part_at, parts_below, parts_in, whole_in, outside_at, some_outside, total_findings, short_parts, split_findings, activity_findings, task_findings};
ghost use Rattle.check3_parts.specs.inner.Measure.{IsMeasure, measured, short_of};

use findings::{Findings, Violation, ViolationKind};
use model::Sheet;
use owners::OwnerIndex;
use rows::Kind;
use sheet::{KindIndex, Rows};

// ---- a booking

#[tactic(auto, unfolding(crate::specs::inner::Booked::has_part))]
fn has_part(rows: &Sheet, k: usize) -> bool
    ensures { result ≡ has_part rows.now k }
{
    !rows.is_none(k, 7)
}

// Whether booking i is of booking k's part.
fn is_same_part(rows: &Sheet, i: usize, k: usize) -> bool
    ensures { result ≡ (has_part rows.now i && eqb (key_at rows.now i) (key_at rows.now k)) }
{
    has_part(rows, i) && pieces::key_at(rows.as_slice(), i) == pieces::key_at(rows.as_slice(), k)
}

// The work that bookings above row k gave booking k's part last.
#[tactic(auto, using(crate::proofs::Works::work_given), unfolding(crate::specs::inner::Booked::given_by))]
fn work_before(rows: &Sheet, o: usize, k: usize) -> Option<u64>
    requires { (o ≤ row_count rows.now) × (k < row_count rows.now) × (owned_by rows.now o 23 k ≡ true) × (has_part rows.now k ≡ true) }
    ensures { result ≡ work_of (parts_below rows.now o k) (cell rows.now k 7) }
{
    let mut work = None;
    for i in rows.owned_above(o, Kind::Booking, k) {
        if is_same_part(rows, i, k) {
            work = Some(rows.num(i, 8));
        }
    }
    work
}

// ---- two works for one index

#[tactic(auto, using(crate::proofs::Works::work_told, crate::proofs::Works::work_quiet, findings::proofs::SinkLaws::emit_none))]
fn check_work(rows: &Sheet, o: usize, k: usize, found: &mut Findings)
    requires { (o ≤ row_count rows.now) × (k < row_count rows.now) × (owned_by rows.now o 23 k ≡ true) }
    ensures { so_far found.new ≡ tell (so_far found.old) (two_works (num rows.now o 1) (parts_below rows.now o k) (part_at rows.now o k)) }
{
    if has_part(rows, k) {
        let before = work_before(rows, o, k);
        let work = rows.num(k, 8);
        found.report(
            before.is_some_and(|w| w != work),
            Violation::of(3, ViolationKind::UnknownActivity, rows.num(o, 1)),
        );
    }
}

#[tactic(auto, using(chains::proofs::PlaceLaws::left_all, crate::proofs::Works::works_told))]
fn check_works(rows: &Sheet, o: usize, found: &mut Findings)
    requires { o ≤ row_count rows.now }
    ensures { so_far found.new ≡ tell (so_far found.old) (two_works (num rows.now o 1) [] (parts_below rows.now o (row_count rows.now))) }
{
    for k in rows.owned_by(o, Kind::Booking) {
        check_work(rows, o, k, found);
    }
}

// ---- sums over the parts

// What the measure gives of the work of each part, added up: a booking's work stands for that which its part had before.
fn sum_of<F: Fn(u64) -> u64>(rows: &Sheet, o: usize, measure: F) -> u64
    requires within { o ≤ row_count rows.now }
    requires callable { F.IsAlwaysCallable measure }
    requires steady { (m : ℕ → ℕ) × IsMeasure (F.post measure) m }
    ensures { (m : ℕ → ℕ) → IsMeasure (F.post measure) m → result ≡ measured m (parts_in rows.now o) }
{
    let mut sum = 0;
    for k in rows.owned_by(o, Kind::Booking) {
        if has_part(rows, k) {
            sum += measure(rows.num(k, 8));
            if let Some(work) = work_before(rows, o, k) {
                sum -= measure(work);
            }
        }
    }
    sum
}

fn part_count(rows: &Sheet, o: usize) -> u64
    requires { o ≤ row_count rows.now }
    ensures { result ≡ measured (λ _. 1) (parts_in rows.now o) }
{
    sum_of(rows, o, |_| 1)
}

// The works of the parts, added up.
fn total_work(rows: &Sheet, o: usize) -> u64
    requires { o ≤ row_count rows.now }
    ensures { result ≡ measured (λ work. work) (parts_in rows.now o) }
{
    sum_of(rows, o, |work| work)
}

// How many parts have less work than there is to be.
fn short_count(rows: &Sheet, o: usize, least: u64) -> u64
    requires { o ≤ row_count rows.now }
    ensures { result ≡ measured (short_of least) (parts_in rows.now o) }
{
    sum_of(rows, o, |work| u64::from(work < least))
}

// ---- the findings of an activity

// Whether a booking is of the whole activity.
fn is_whole(rows: &Sheet, o: usize) -> bool
    requires { o ≤ row_count rows.now }
    ensures { result ≡ whole_in rows.now o }
{
    rows.owned_by(o, Kind::Booking).any(|k| !has_part(rows, k))
}

// Whether booking k is of a part that the split at row x does not have.
#[tactic(auto, unfolding(crate::specs::inner::Booked::outside_at))]
fn is_outside(rows: &Sheet, x: usize, k: usize) -> bool
    ensures { result ≡ outside_at rows.now x k }
{
    has_part(rows, k) && !(0..rows.cell(x, 2)).contains(&rows.cell(k, 7))
}

// Whether there are more parts than the split at row x has, or one that it does not have.
fn is_beyond(rows: &Sheet, o: usize, x: usize, count: u64) -> bool
    requires { (o ≤ row_count rows.now) × (0 < count) }
    ensures { result ≡ (lt_z (cell rows.now x 2) (pos count) || some_outside rows.now x (parts_in rows.now o)) }
{
    rows.num(x, 2) < count
        || rows
            .owned_by(o, Kind::Booking)
            .any(|k| is_outside(rows, x, k))
}

// What is wrong with the parts together.
#[tactic(auto, using(findings::proofs::SinkLaws::emit_then), unfolding(crate::specs::inner::Booked::total_findings))]
fn check_totals(rows: &Sheet, o: usize, x: usize, count: u64, found: &mut Findings)
    requires { (o ≤ row_count rows.now) × (0 < count) × (count ≡ measured (λ _. 1) (parts_in rows.now o)) }
    ensures { so_far found.new ≡ tell (so_far found.old) (total_findings rows.now x o) }
{
    let process = rows.num(o, 5);
    let work = total_work(rows, o);
    let activity = rows.num(o, 1);
    let unknown = Violation::of(3, ViolationKind::UnknownActivity, activity);
    let short = Violation::of(3, ViolationKind::DurationTooShort, activity);
    found.report(is_whole(rows, o), unknown);
    found.report(is_beyond(rows, o, x, count), unknown);
    found.report(work < process, short);
    found.report(process < work, unknown);
}

// Each part that is too short.
#[tactic(auto, using(findings::proofs::SinkLaws::emit_none, findings::proofs::SinkLaws::emit_then, crate::proofs::Sums::repeated_none, crate::proofs::Sums::repeated_more))]
fn check_minimum(rows: &Sheet, o: usize, x: usize, found: &mut Findings)
    requires { o ≤ row_count rows.now }
    ensures { so_far found.new ≡ tell (so_far found.old) (short_parts rows.now x o) }
{
    let short = Violation::of(3, ViolationKind::DurationTooShort, rows.num(o, 1));
    for _ in 0..short_count(rows, o, rows.num(x, 3)) {
        found.tell(short);
    }
}

#[tactic(auto, using(findings::proofs::SinkLaws::emit_none, findings::proofs::SinkLaws::emit_then, crate::proofs::Findings::split_none, crate::proofs::Findings::split_one, crate::proofs::Findings::split_more))]
fn check_split(rows: &Sheet, o: usize, x: usize, found: &mut Findings)
    requires { o ≤ row_count rows.now }
    ensures { so_far found.new ≡ tell (so_far found.old) (split_findings rows.now x o) }
{
    let count = part_count(rows, o);
    if count == 0 {
        return;
    }
    check_totals(rows, o, x, count, found);
    if 1 < count {
        check_minimum(rows, o, x, found);
    }
}

#[tactic(auto, using(findings::proofs::SinkLaws::emit_none, findings::proofs::SinkLaws::emit_then), unfolding(crate::specs::inner::Booked::activity_findings))]
fn check_activity(rows: &Sheet, o: usize, found: &mut Findings)
    requires { o ≤ row_count rows.now }
    ensures { so_far found.new ≡ tell (so_far found.old) (activity_findings rows.now o) }
{
    let Some(x) = rows.find_owned(o, Kind::Split) else {
        return;
    };
    check_works(rows, o, found);
    check_split(rows, o, x, found);
}

// The activities of the task of row t: by task in two functions, as `check4_requirements::check_task` says.
#[tactic(auto, using(chains::proofs::PlaceLaws::left_all, crate::proofs::Whole::activities_told))]
fn check_task(rows: &Sheet, t: usize, found: &mut Findings)
    requires { t ≤ row_count rows.now }
    ensures { so_far found.new ≡ tell (so_far found.old) (task_findings rows.now t) }
{
    for o in rows.owned_by(t, Kind::Activity) {
        check_activity(rows, o, found);
    }
}

#[tactic(auto, using(chains::proofs::PlaceLaws::left_all, crate::proofs::Whole::tasks_told))]
pub fn check_parts(rows: &Sheet, found: &mut Findings)
    ensures { so_far found.new ≡ tell (so_far found.old) (check_parts (sheet rows.now)) }
{
    for t in rows.of_kind(Kind::Task) {
        check_task(rows, t, found);
    }
}
