// The derived times of the bookings, found once for a sheet, and refusal 6. What takes rows by owner asks in a clause that they are `Accepted`: a `Sheet`,
// whose type says more than that, would also ask for the tables of kinds and names.
#![tactic(auto)]

ghost use Rattle.std.specs.Prelude.{◌≡◌, ◌<◌, ◌≤◌, true, false, not, ◌&&◌, Some, None, OnOk, replicate};
ghost use Rattle.loops.specs.Lists.{any_of};
ghost use Rattle.loops.specs.Range.{fold};
ghost use Rattle.rows.specs.Cells.{row_count, num, is};
ghost use Rattle.sheet.specs.Places.{place_of};
ghost use Rattle.sheet.specs.Refusals.{refusal_of};
ghost use Rattle.owners.specs.inner.Owners.{own_place};
ghost use Rattle.refusals.specs.Refusals.{verdict_of};
ghost use Rattle.sheet.specs.inner.Accepted.{Accepted};
ghost use Rattle.resource_timing.specs.Durations.{TimedSoFar, start};
ghost use Rattle.resource_timing.specs.inner.Limits.{within, timed_of, PieceAmounts};
ghost use Rattle.model.specs.Sheet.{sheet};
ghost use Rattle.model.specs.Activity.{piece_of};
ghost use Rattle.model.specs.Schedule.{assignment_at};
ghost use Rattle.model.specs.inner.Records.{activity_of, assignment_of};
ghost use Rattle.pieces.specs.inner.Bookings.{in_piece};
ghost use Rattle.pieces.specs.inner.Held.{held_at, Held};
ghost use Rattle.derived_times.specs.inner.Rows.{columns_of, part_at, timing_of, timing_place, earlier_of, timed_at, Timings};
ghost use Rattle.derived_times.specs.Times.{derived, is_too_large, time_refusal};
ghost use Rattle.derived_times.specs.inner.Needs.{rest_ms, derived_at, rest_at, Times, Needs};

pub mod timed_sheet;

use model::Sheet;
use owners::{ByOwner, LinkIndex, OwnerIndex, Owners};
use pieces::{HeldMarks, MarkedRows};
use refusals::{Reason, Verdict};
use resource_timing::{ActivityDuration, Derived, Piece, ResourceTiming, Timed};
use rounding::TooLarge;
use rows::Kind;
use sheet::{Found, Rows};
pub use timed_sheet::TimedSheet;

// 2^53, which no time reaches that is not refused, stands for one that is. With an Option at each row, all who read the table after refusal 6 would
// take apart a case that cannot be there any more.
const REFUSED: u64 = 9007199254740992;

// ---- timings

// The earlier of two places, where there is one. Not Option's own `min`: None is below every place there, and here it is no place. The same line of the library
// stands in freebusy_components (`lesser`): a crate below both layers for one line would be more.
fn earlier(x: Option<usize>, y: Option<usize>) -> Option<usize>
    ensures { result ≡ earlier_of x y }
{
    x.into_iter().chain(y).min()
}

// The row of the timing of booking k's activity on its resource.
#[tactic(auto, using(crate::proofs::Parts::row_none, crate::proofs::Parts::row_unknown, owners::proofs::Links::books))]
fn timing_row(rows: &Owners, k: usize) -> Option<usize>
    requires { Accepted rows.now × (k < row_count rows.now) }
    ensures { result ≡ timing_place rows.now k }
{
    if !rows.is_of_kind(k, Kind::Booking) {
        return None;
    }
    let Found::At(o) = rows.activity_of(k) else {
        return None;
    };
    let by_owner = rows.by_owner();
    let a = rows.num(k, 1);
    let b = rows.num(k, 3);
    let speed = pieces::find_naming(&by_owner, o, Kind::Speed, a, b);
    let fixed = pieces::find_naming(&by_owner, o, Kind::FixedTiming, a, b);
    earlier(speed, fixed)
}

// The row of booking k's timing, kept for row k: a place for each of at most 800 rows, since there is no heap.
#[tactic(auto, using(crate::proofs::Parts::timings_turn, crate::proofs::Parts::timings_end, crate::proofs::Parts::timing_found))]
pub fn timings_of(rows: &Owners) -> [u16; 800]
    requires { Accepted rows.now }
    ensures { Timings rows.now result }
{
    let mut t = [0u16; 800];
    for k in 0..rows.row_count() {
        sheet::keep_place(rows.as_slice(), &mut t, k, timing_row(rows, k));
    }
    t
}

// A duration in three columns from c on.
fn duration_at(rows: &[i64], k: usize, c: usize) -> ActivityDuration
    requires { c < 8 }
    ensures { result ≡ columns_of rows.now k c }
{
    ActivityDuration {
        setup_ms: rows::num_at(rows, k, c),
        process_ms: rows::num_at(rows, k, c + 1),
        teardown_ms: rows::num_at(rows, k, c + 2),
    }
}

// The timing of row i, a speed or a fixed timing.
#[tactic(auto, unfolding(crate::specs::inner::Rows::timing_of))]
fn timing_at(rows: &[i64], i: usize) -> ResourceTiming
    ensures { result ≡ timing_of rows.now i }
{
    if rows::is_of_kind(rows, i, Kind::Speed) {
        ResourceTiming::Speed(rounding::float_from_bits(rows::num_at(rows, i, 3)))
    } else {
        ResourceTiming::Duration(duration_at(rows, i, 3))
    }
}

// Processing and teardown; 2^53 where the time is refused.
fn rest_ms(d: Derived) -> u64
    requires { rest_ms d ≤ 9007199254740992 }
    ensures { result ≡ rest_ms d }
{
    match d {
        Ok(d) => d.process_ms + d.teardown_ms,
        Err(TooLarge) => REFUSED,
    }
}

// ---- the bookings

// The bookings of rows by owner, with who is held and their timings: what a derived duration is found by once the row of the activity is known.
#[derive(Drop)]
struct TimedBookings<'a> {
    rows: &'a ByOwner<'a>,
    held: &'a [bool; 800],
    timings: &'a [u16; 800],
    ghost accepted: { Accepted rows.now },
    ghost marked: { Held rows.now held.now },
    ghost timed: { Timings rows.now timings.now },
}

impl<'a> TimedBookings<'a> {
    // The row of booking k's timing.
    #[tactic(auto, using(crate::proofs::Parts::timing_kept))]
    fn timing_of(&self, k: usize) -> Option<usize>
        requires { k < row_count self.now.rows.now }
        ensures { result ≡ timing_place self.now.rows.now k }
    {
        sheet::kept_place(self.rows.as_slice(), self.timings, k)
    }

    // What booking k's piece is judged as, of the activity of row o.
    #[tactic(auto, using(crate::proofs::Parts::piece_whole, crate::proofs::Parts::part_amounts))]
    fn piece_at(&self, o: usize, k: usize) -> Piece
        requires { (k < row_count self.now.rows.now) × (is self.now.rows.now k 0 23 ≡ true) × (place_of self.now.rows.now 2 (num self.now.rows.now k 1) ≡ Some o) }
        ensures piece { result ≡ piece_of (sheet self.now.rows.now) (activity_of self.now.rows.now o) (part_at self.now.rows.now k) }
        ensures amounts { PieceAmounts result }
    {
        let rows = self.rows;
        if rows.is_none(k, 7) {
            return Piece::Whole;
        }
        let Some(i) = rows.find_owned(o, Kind::Split) else {
            return Piece::Whole;
        };
        let index = rows.cell(k, 7);
        let work = rows.num(k, 8);
        let whole = rows.num(o, 5);
        let overhead = rows.num(i, 4);
        Piece::InPart(resource_timing::part_of(index, work, whole, overhead))
    }

    // Whether booking k's piece runs on booking j's resource.
    fn runs_on(&self, k: usize, j: usize) -> bool
        requires { j < row_count self.now.rows.now }
        ensures { result ≡ (in_piece self.now.rows.now k j && not (held_at self.now.rows.now j)) }
    {
        let rows = self.rows.as_slice();
        pieces::in_piece(rows, k, j) && !pieces::is_marked(rows, self.held, j)
    }

    // One booking more, where booking k's piece runs on it.
    fn timed_on(&self, k: usize, piece: Piece, f: Timed, j: usize) -> Timed
        requires { PieceAmounts piece × (j < row_count self.now.rows.now) }
        ensures { (g : TimedSoFar) → f ≡ timed_of g → result ≡ timed_of (timed_at self.now.rows.now k piece g j) }
    {
        if !self.runs_on(k, j) {
            return f;
        }
        match self.timing_of(j) {
            Some(i) => f.on(piece, timing_at(self.rows.as_slice(), i)),
            None => f,
        }
    }

    // All that booking k's piece, of the activity of row o, runs on.
    fn timed_of(&self, o: usize, k: usize, piece: Piece) -> Timed
        requires { (o < row_count self.now.rows.now) × (is self.now.rows.now k 0 23 ≡ true) × (o ≡ own_place self.now.rows.now k) × PieceAmounts piece }
        ensures { result ≡ timed_of (fold (timed_at self.now.rows.now k piece) start (row_count self.now.rows.now)) }
    {
        let mut f = Timed::new();
        for j in self.rows.owned_by(o, Kind::Booking) {
            f = self.timed_on(k, piece, f, j);
        }
        f
    }

    // The derived duration of booking k, of the activity of row o.
    #[tactic(auto, using(sheet::proofs::Lookups::place_within, model::proofs::OwnedLaws::booking_owner, crate::proofs::Derivation::duration_found))]
    fn duration_on(&self, o: usize, k: usize) -> Derived
        requires { (k < row_count self.now.rows.now) × (is self.now.rows.now k 0 23 ≡ true) × (place_of self.now.rows.now 2 (num self.now.rows.now k 1) ≡ Some o) }
        ensures { result ≡ within (derived (sheet self.now.rows.now) (assignment_of self.now.rows.now k) (activity_of self.now.rows.now o)) }
    {
        let piece = self.piece_at(o, k);
        let f = self.timed_of(o, k, piece);
        f.duration(piece, duration_at(self.rows.as_slice(), o, 4))
    }
}

// The derived duration of booking k, of the activity of row o: of rows by owner, who is held and the timings, without the table of owners.
pub fn duration_on(
    rows: &ByOwner,
    held: &[bool; 800],
    timings: &[u16; 800],
    o: usize,
    k: usize,
) -> Derived
    requires { Accepted rows.now × Held rows.now held.now × Timings rows.now timings.now × (k < row_count rows.now) × (is rows.now k 0 23 ≡ true) × (place_of rows.now 2 (num rows.now k 1) ≡ Some o) }
    ensures { result ≡ within (derived (sheet rows.now) (assignment_of rows.now k) (activity_of rows.now o)) }
{
    let bookings = TimedBookings {
        rows,
        held,
        timings,
    };
    bookings.duration_on(o, k)
}

// The bookings of an accepted sheet, with what their derived times are found by.
// The timings are found with the value and held in it: it is made once for a sheet, and no caller lends room for them.
#[derive(Drop)]
pub struct Bookings<'a> {
    rows: &'a MarkedRows<'a>,
    timings: [u16; 800],
    ghost accepted: { Accepted rows.now },
    ghost timed: { Timings rows.now timings },
}

impl<'a> Bookings<'a> {
    pub fn new(rows: &'a MarkedRows<'a>) -> Bookings<'a>
        requires { Accepted rows.now }
        ensures { result.rows.now ≡ rows.now }
    {
        Bookings {
            rows,
            timings: timings_of(rows.owners()),
        }
    }

    // The derived duration of booking k, of the activity of row o.
    pub fn duration_on(&self, o: usize, k: usize) -> Derived
        requires { (k < row_count self.now.rows.now) × (is self.now.rows.now k 0 23 ≡ true) × (place_of self.now.rows.now 2 (num self.now.rows.now k 1) ≡ Some o) }
        ensures { result ≡ within (derived (sheet self.now.rows.now) (assignment_of self.now.rows.now k) (activity_of self.now.rows.now o)) }
    {
        let by_owner = self.rows.owners().by_owner();
        duration_on(&by_owner, self.rows.held(), &self.timings, o, k)
    }

    // The same of row k, where it is a booking of a known activity.
    #[tactic(auto, using(crate::proofs::Refusing::derived_none, crate::proofs::Refusing::derived_unknown, crate::proofs::Refusing::derived_known, owners::proofs::Links::books))]
    pub fn derived_at(&self, k: usize) -> Option<Derived>
        requires { k < row_count self.now.rows.now }
        ensures { result ≡ derived_at self.now.rows.now k }
    {
        if !self.rows.is_of_kind(k, Kind::Booking) {
            return None;
        }
        let Found::At(o) = self.rows.activity_of(k) else {
            return None;
        };
        Some(self.duration_on(o, k))
    }

    // What row k needs besides its own setup; 2^53 where its time is refused.
    #[tactic(auto, using(crate::proofs::Refusing::derived_most), unfolding(crate::specs::inner::Needs::rest_at))]
    fn rest_at(&self, k: usize) -> u64
        requires { k < row_count self.now.rows.now }
        ensures { result ≡ rest_at self.now.rows.now k }
    {
        self.derived_at(k).map_or(0, rest_ms)
    }
}

// What each booking of a known activity needs besides its own setup, into a table that is lent: a number for each of at most 800 rows, since there is no heap.
// A loop of its own: `mark_into` of pieces puts at each row what a test says of it, and this is a number.
#[tactic(auto, using(loops::proofs::StoreLaws::filled_start, crate::proofs::Parts::times_next, crate::proofs::Parts::times_end))]
pub fn needs_into(rows: &MarkedRows, need: &mut [u64; 800])
    requires { Accepted rows.now }
    ensures { Times rows.now need.new }
{
    let bookings = Bookings::new(rows);
    *need = [0; 800];
    for k in 0..rows.row_count() {
        need[k] = bookings.rest_at(k);
    }
}

// ---- refusal 6

#[tactic(auto, using(crate::proofs::Refusing::large_here))]
fn is_too_large(rows: &[i64], need: &[u64; 800], k: usize) -> bool
    requires { Times rows.now need.now × (k < row_count rows.now) }
    ensures { result ≡ any_of (is_too_large (sheet rows.now)) (assignment_at (sheet rows.now) k) }
{
    REFUSED <= need[k]
}

// The first booking of a known activity whose derived time is not finite, or 2^53 or more. A loop of its own: `first_fault` of validation is handed the verdict
// on each row, which would be a function more here, as long as this loop.
#[tactic(auto, using(loops::proofs::SearchLaws::first_miss, crate::proofs::Refusing::refused_at, crate::proofs::Refusing::fault_some, crate::proofs::Refusing::fault_none, crate::proofs::Refusing::not_refused))]
pub fn refused(rows: &[i64], need: &[u64; 800]) -> Verdict
    requires { Times rows.now need.now }
    ensures { verdict_of result ≡ time_refusal rows.now }
{
    for k in 0..rows::row_count(rows) {
        if is_too_large(rows, need, k) {
            return Err(Reason::Stretched.at(k));
        }
    }
    Ok(())
}

// ---- the derived times of a sheet

// Who is held and what each booking needs besides its own setup, as one value. The library has no heap: whoever asks for them has them on the stack. Two
// arrays: check 4 asks who is held, of rows whose needs it does not know. The fields are public: who has the two otherwise may put them together.
#[derive(Drop)]
pub struct DerivedTimes {
    pub held: [bool; 800],
    pub need: [u64; 800],
}

impl DerivedTimes {
    // Of no sheet yet.
    pub fn new() -> DerivedTimes
        ensures held { result.held ≡ replicate 800 false }
        ensures need { result.need ≡ replicate 800 0 }
    {
        DerivedTimes {
            held: [false; 800],
            need: [0; 800],
        }
    }

    // Fills them for a sheet: refusal 6. A sheet that it lets pass is a `TimedSheet` with them.
    #[tactic(auto, using(model::proofs::Accepting::accepted, crate::proofs::Refusing::needs_passed))]
    pub fn fill(&mut self, sheet: &Sheet) -> Verdict
        ensures verdict { verdict_of result ≡ time_refusal sheet.now }
        ensures known { refusal_of sheet.now ≡ None }
        ensures held { Held sheet.now self.new.held }
        ensures times { Times sheet.now self.new.need }
        ensures needs { OnOk result (Needs sheet.now self.new.need) }
    {
        let owners = sheet.owners();
        pieces::held_into(&sheet.by_kind(), &owners, &mut self.held);
        needs_into(&MarkedRows::new(owners, &self.held), &mut self.need);
        refused(sheet.as_slice(), &self.need)
    }

    // The rows of the sheet that they were filled for, by owner and with who is held.
    pub fn marked_rows<'a>(&'a self, sheet: &'a Sheet<'a>) -> MarkedRows<'a>
        requires { Held sheet.now self.now.held }
        ensures { result ≡ sheet.now }
    {
        MarkedRows::new(sheet.owners(), &self.held)
    }
}
