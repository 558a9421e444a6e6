// Check 9, `check_constraints`: time windows, activities that may not overlap on a resource, activities that start together.
#![tactic(auto)]

ghost use Rattle.std.specs.Prelude.{◌≡◌, true, false, ◌+◌, ◌<◌, pos, length, None};
ghost use Rattle.calendar.specs.Clock.{clock};
ghost use Rattle.loops.specs.Lists.{each};
ghost use Rattle.loops.specs.Range.{collect};
ghost use Rattle.chains.specs.Places.{places};
ghost use Rattle.rows.specs.Cells.{row_count, is};
ghost use Rattle.sheet.specs.Places.{named};
ghost use Rattle.findings.specs.inner.Told.{so_far, tell};
ghost use Rattle.model.specs.Sheet.{sheet};
ghost use Rattle.model.specs.Constraint.{constraint_at};
ghost use Rattle.spans.specs.inner.Instants.{meant};
ghost use Rattle.definition.specs.CheckConstraints.{check_constraint_at, check_constraints};
ghost use Rattle.check9_constraints.specs.inner.Outside.{outside_at};
ghost use Rattle.check9_constraints.specs.inner.Bookings.{overlap_at, overlap_of, pairs_of};
ghost use Rattle.check9_constraints.specs.inner.Starts.{apart, unsynchronized};

mod member_bookings;

use findings::{Findings, Violation, ViolationKind};
use lent_room::LentList;
use rows::Kind;
use sheet::{ByKind, KindIndex, Rows};
use spans::ActivitySpan;

// ---- time windows

// Whether the activity of the time window in row k runs outside it.
#[tactic(auto, unfolding(crate::specs::inner::Outside::outside_at))]
fn is_outside(rows: &ByKind, k: usize) -> bool
    ensures { result ≡ outside_at rows.now k }
{
    let ActivitySpan::Between(span) = spans::activity_span(rows, rows.num(k, 1)) else {
        return false;
    };
    span.start < rows.num(k, 2) || rows.num(k, 3) < span.end
}

#[tactic(auto, using(crate::proofs::ConstraintRows::window_found))]
fn check_window(rows: &ByKind, k: usize, found: &mut Findings)
    requires { is rows.now k 0 19 ≡ true }
    ensures { so_far found.new ≡ tell (so_far found.old) (check_constraint_at clock (sheet rows.now) k) }
{
    let outside = is_outside(rows, k);
    found.report(
        outside,
        Violation::of(9, ViolationKind::TimeWindowViolation, rows.num(k, 1)),
    );
}

// ---- no overlap

// Whether the bookings of rows a and b overlap.
#[tactic(auto, unfolding(crate::specs::inner::Bookings::overlap_at))]
fn is_overlap(rows: &ByKind, a: usize, b: usize) -> bool
    ensures { result ≡ overlap_at rows.now a b }
{
    let start = rows.num(a, 4);
    let end = rows.num(a, 5);
    let from = rows.num(b, 4);
    let to = rows.num(b, 5);
    start < to && from < end
}

// The finding of the booking of row a with each later one that it overlaps.
fn check_later(rows: &ByKind, a: usize, later: &[usize], f: Violation, found: &mut Findings)
    requires { f.entity < 9223372036854775808 }
    ensures { so_far found.new ≡ tell (so_far found.old) (each (overlap_of rows.now f a) later.now) }
{
    for b in later {
        found.report(is_overlap(rows, a, *b), f);
    }
}

// The findings of each two bookings, in order. A loop by hand: a turn takes a booking and all that are left, which a `for` would cut out again by its place.
fn check_pairs(rows: &ByKind, bookings: &[usize], f: Violation, found: &mut Findings)
    requires { f.entity < 9223372036854775808 }
    ensures { so_far found.new ≡ tell (so_far found.old) (pairs_of rows.now f bookings.now) }
{
    let mut rest = bookings;
    while let Some((a, later)) = rest.split_first() {
        check_later(rows, *a, later, f, found);
        rest = later;
    }
}

// The findings of the constraint in row k; place is the number of constraints above it. It goes beside the row, here and below: the loop counts it over rows of
// all kinds, and members are asked for it.
#[tactic(auto, using(crate::proofs::Pairs::overlaps_found))]
fn check_overlaps(rows: &ByKind, k: usize, place: u64, found: &mut Findings)
    requires { (is rows.now k 0 20 ≡ true) × (place ≡ length (collect (constraint_at (sheet rows.now)) k)) }
    ensures { so_far found.new ≡ tell (so_far found.old) (check_constraint_at clock (sheet rows.now) k) }
{
    let resource = rows.num(k, 1);
    // No heap: room for a booking of each row.
    let mut room = [0usize; 800];
    let mut bookings = LentList::over(&mut room);
    member_bookings::gather_bookings(rows, place, resource, &mut bookings);
    let f = Violation::of(9, ViolationKind::CapacityExceeded, resource);
    check_pairs(rows, bookings.as_slice(), f, found);
}

// ---- synchronized starts

// Whether a start is another than the one before it, if there is one.
#[tactic(auto, using(loops::proofs::NumberLaws::neither_below), unfolding(crate::specs::inner::Starts::apart))]
fn is_apart(last: Option<u64>, start: u64) -> bool
    ensures { result ≡ apart (meant last) (pos start) }
{
    last.is_some_and(|x| x != start)
}

// Whether each member of the constraint has a span, and two neighbours start at different instants.
fn is_unsynchronized(rows: &ByKind, place: u64) -> bool
    ensures { result ≡ unsynchronized rows.now false None (places (named rows.now 22 place) (row_count rows.now)) }
{
    let mut last = None;
    let mut differing = false;
    for k in rows.named(Kind::Member, place) {
        let ActivitySpan::Between(span) = spans::activity_span(rows, rows.num(k, 2)) else {
            return false;
        };
        differing |= is_apart(last, span.start);
        last = Some(span.start);
    }
    differing
}

#[tactic(auto, using(crate::proofs::Together::synchronize_found))]
fn check_synchronize(rows: &ByKind, k: usize, place: u64, found: &mut Findings)
    requires { (is rows.now k 0 21 ≡ true) × (place ≡ length (collect (constraint_at (sheet rows.now)) k)) × (place < 9223372036854775808) }
    ensures { so_far found.new ≡ tell (so_far found.old) (check_constraint_at clock (sheet rows.now) k) }
{
    let unsynchronized = is_unsynchronized(rows, place);
    found.report(
        unsynchronized,
        Violation::of(9, ViolationKind::SynchronizeViolation, place),
    );
}

// ---- the check

// The findings of row k; place is the number of constraints above it.
fn check_constraint(rows: &ByKind, k: usize, place: u64, found: &mut Findings)
    requires { (place ≡ length (collect (constraint_at (sheet rows.now)) k)) × (place < 9223372036854775808) }
    ensures { so_far found.new ≡ tell (so_far found.old) (check_constraint_at clock (sheet rows.now) k) }
{
    if rows.is_of_kind(k, Kind::TimeWindow) {
        check_window(rows, k, found);
    } else if rows.is_of_kind(k, Kind::NoOverlap) {
        check_overlaps(rows, k, place, found);
    } else if rows.is_of_kind(k, Kind::Synchronize) {
        check_synchronize(rows, k, place, found);
    }
}

// The number of constraints above the row after row k.
#[tactic(auto, using(crate::proofs::ConstraintRows::count_one_more, crate::proofs::ConstraintRows::count_no_more))]
fn place_after(rows: &ByKind, k: usize, place: u64) -> u64
    requires { place < 9223372036854775808 }
    ensures { result ≡ place + length (constraint_at (sheet rows.now) k) }
{
    if sheet::is_constraint(rows.as_slice(), k) {
        return place + 1;
    }
    place
}

// The findings of all rows. Counted beside the for: the definition has a place for each row, the number of constraints above it, also for a row that is none.
pub fn check_constraints(rows: &ByKind, found: &mut Findings)
    ensures { so_far found.new ≡ tell (so_far found.old) (check_constraints clock (sheet rows.now)) }
{
    let mut place = 0;
    for k in 0..rows.row_count() {
        check_constraint(rows, k, place, found);
        place = place_after(rows, k, place);
    }
}
