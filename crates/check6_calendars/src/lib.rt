// Check 6, `check_calendars` of scheduler/feasibility.rs: a booking that may not pause is held whole by a window of its resource and of its activity;
// resumable work starts in the joint working time of its piece, and that time within its span covers it.
#![tactic(auto)]

ghost use Rattle.std.specs.Prelude.{◌≡◌, ◌<◌, ◌≤◌, true, not, ◌||◌, ltb, pos, Some};
ghost use Rattle.loops.specs.Lists.{given, each};
ghost use Rattle.rows.specs.Cells.{row_count, num, is};
ghost use Rattle.rows.specs.Kinds.{kind_number};
ghost use Rattle.sheet.specs.Places.{place_of};
ghost use Rattle.calendar.specs.Clock.{clock};
ghost use Rattle.calendar.specs.Calendar.{interval_fits, joint_working};
ghost use Rattle.calendar.specs.Amount.{joint_available_ms};
ghost use Rattle.calendar.specs.Layout.{calendars_of};
ghost use Rattle.findings.specs.inner.Told.{so_far, tell};
ghost use Rattle.model.specs.Sheet.{sheet};
ghost use Rattle.model.specs.Resource.{windows};
ghost use Rattle.model.specs.Schedule.{assignment_at, resource_unavailable, time_window_violation};
ghost use Rattle.model.specs.inner.Records.{activity_of, assignment_of};
ghost use Rattle.definition.specs.CheckCalendars.{piece_calendars, check_resumable, check_plain, check_booking, check_calendars};
ghost use Rattle.window_rows.specs.inner.Laid.{Holder};
ghost use Rattle.derived_times.specs.inner.Needs.{Needs};
ghost use Rattle.check6_calendars.specs.inner.Lacking.{uncovered_at, lacks_time, Lacking};

pub mod lacking_sheet;

use calendar::Calendars;
use check6_joint_calendars::PlacesList;
use findings::{Findings, Violation, ViolationKind};
pub use lacking_sheet::LackingSheet;
use model::Sheet;
use owners::LinkIndex;
use rows::Kind;
use sheet::{Found, KindIndex, Rows};
use window_rows::WindowList;

// ---- plain bookings

// Reports the violation unless booking k fits the windows of row o, of a resource or of an activity, whole.
fn report_unfit(
    rows: &Sheet,
    o: usize,
    kind: Kind,
    k: usize,
    violation: Violation,
    found: &mut Findings,
)
    requires { (o ≤ row_count rows.now) × Holder rows.now o (kind_number kind) × (violation.entity < 9223372036854775808) }
    ensures { so_far found.new ≡ tell (so_far found.old) (given (not (interval_fits clock (windows (sheet rows.now) (kind_number kind) (num rows.now o 1)) (pos (num rows.now k 4)) (pos (num rows.now k 5)))) violation) }
{
    let start = rows.num(k, 4);
    let end = rows.num(k, 5);
    let fits = window_rows::interval_fits(&rows.by_owner(), o, kind, start, end);
    found.report(!fits, violation);
}

// Booking k against the windows of its resource, at row o. `report_unfit` is what this and `check_activity` both do: whose windows they are, and which
// violation, is all that each adds.
#[tactic(auto, using(check6_joint_calendars::proofs::Whole::resource_holder, sheet::proofs::Lookups::place_low, crate::proofs::Plain::resource_fits))]
fn check_resource(rows: &Sheet, o: usize, k: usize, found: &mut Findings)
    requires { place_of rows.now 11 (num rows.now k 3) ≡ Some o }
    ensures { so_far found.new ≡ tell (so_far found.old) (given (not (interval_fits clock (windows (sheet rows.now) 15 (num rows.now k 3)) (pos (num rows.now k 4)) (pos (num rows.now k 5)))) (resource_unavailable 6 (num rows.now k 3))) }
{
    let unavailable = Violation::of(6, ViolationKind::ResourceUnavailable, rows.num(k, 3));
    report_unfit(rows, o, Kind::ResourceWindow, k, unavailable, found);
}

// Booking k against the windows of its activity, at row a.
#[tactic(auto, using(check6_joint_calendars::proofs::Whole::activity_holder, sheet::proofs::Lookups::place_low))]
fn check_activity(rows: &Sheet, a: usize, k: usize, found: &mut Findings)
    requires { place_of rows.now 2 (num rows.now k 1) ≡ Some a }
    ensures { so_far found.new ≡ tell (so_far found.old) (given (not (interval_fits clock (windows (sheet rows.now) 16 (num rows.now a 1)) (pos (num rows.now k 4)) (pos (num rows.now k 5)))) (time_window_violation 6 (num rows.now k 1))) }
{
    let outside = Violation::of(6, ViolationKind::TimeWindowViolation, rows.num(k, 1));
    report_unfit(rows, a, Kind::ActivityWindow, k, outside, found);
}

// Booking k, that may not pause, of the activity of row a, on the resource of row o. Here its activity's place is known, of one that may pause also its kind,
// which `lay_calendars` asks for: no one fact goes through both.
fn check_plain(rows: &Sheet, a: usize, o: usize, k: usize, found: &mut Findings)
    requires { (place_of rows.now 2 (num rows.now k 1) ≡ Some a) × (place_of rows.now 11 (num rows.now k 3) ≡ Some o) }
    ensures { so_far found.new ≡ tell (so_far found.old) (check_plain clock (sheet rows.now) (assignment_of rows.now k) (Some (activity_of rows.now a))) }
{
    check_resource(rows, o, k, found);
    check_activity(rows, a, k, found);
}

// ---- resumable bookings

// Whether so much work does not fit the joint working time of the calendars in [start, end), or starts outside it.
fn is_uncovered(calendars: Calendars, start: u64, end: u64, needed: u64) -> bool
    ensures { result ≡ (not (joint_working clock (calendars_of calendars.entry.windows.now calendars.entry.places.now) (pos start)) || ltb (joint_available_ms clock (calendars_of calendars.entry.windows.now calendars.entry.places.now) (pos start) (pos end)) needed) }
{
    !calendars.joint_working(start) || calendars.joint_available_ms(start, end) < needed
}

// Whether so much work of booking k, of the activity of row a, is not covered by the working time of its piece.
#[tactic(auto, using(crate::proofs::Resumable::laid_covered))]
fn lacks_time(
    rows: &Sheet,
    a: usize,
    k: usize,
    needed: u64,
    list: &mut WindowList,
    places: &mut PlacesList,
) -> bool
    requires { (k < row_count rows.now) × (is rows.now k 0 23 ≡ true) × (place_of rows.now 2 (num rows.now k 1) ≡ Some a) }
    ensures { result ≡ (not (joint_working clock (piece_calendars clock (sheet rows.now) (assignment_of rows.now k) (activity_of rows.now a)) (pos (num rows.now k 4))) || ltb (joint_available_ms clock (piece_calendars clock (sheet rows.now) (assignment_of rows.now k) (activity_of rows.now a)) (pos (num rows.now k 4)) (pos (num rows.now k 5))) needed) }
{
    check6_joint_calendars::lay_calendars(rows, a, k, list, places);
    let calendars = check6_joint_calendars::as_calendars(list, places);
    is_uncovered(calendars, rows.num(k, 4), rows.num(k, 5), needed)
}

// Whether booking k is on a resource of the sheet, of a resumable activity, and lacks working time for its own setup and the rest of its work.
#[tactic(auto, using(crate::proofs::Resumable::needed_is, owners::proofs::Links::books), unfolding(crate::specs::inner::Lacking::lacks_time))]
fn lacks_at(
    rows: &Sheet,
    need: &[u64; 800],
    k: usize,
    list: &mut WindowList,
    places: &mut PlacesList,
) -> bool
    requires { Needs rows.now need.now × (k < row_count rows.now) × (is rows.now k 0 23 ≡ true) }
    ensures { result ≡ lacks_time rows.now k }
{
    let Found::At(_) = rows.booked_resource(k) else {
        return false;
    };
    let Found::At(a) = rows.activity_of(k) else {
        return false;
    };
    rows.has(a, 7, 1) && lacks_time(rows, a, k, rows.num(k, 6) + need[k], list, places)
}

// Which bookings of resumable activities lack working time. Found once for a sheet, since it is the dearest question of all checks. Its calendars
// need room that the calls after it do not: apart, they share the stack that the header states. It is filled once, for it takes longer than most questions.
#[inline(never)]
#[tactic(auto, using(chains::proofs::PlaceLaws::left_all), unfolding(sheet::specs::Places::of_kind))]
pub fn lacking_of(rows: &Sheet, need: &[u64; 800]) -> [bool; 800]
    requires { Needs rows.now need.now }
    ensures { Lacking rows.now result }
{
    // No heap: room for a window, for a calendar and for a mark of each row.
    let mut window_room = [window_rows::NO_WINDOW; 800];
    let mut place_room = [calendar::NO_PLACES; 800];
    let mut list = WindowList::over(&mut window_room);
    let mut places = PlacesList::over(&mut place_room);
    let mut lacking = [false; 800];
    for k in rows.of_kind(Kind::Booking) {
        lacking[k] = lacks_at(rows, need, k, &mut list, &mut places);
    }
    lacking
}

// Booking k, that may pause, of the activity of row a.
#[tactic(auto, unfolding(definition::specs::CheckCalendars::check_resumable))]
fn check_resumable(rows: &LackingSheet, a: usize, k: usize, found: &mut Findings)
    requires { (k < row_count rows.now) × (lacks_time rows.now k ≡ uncovered_at rows.now a k) }
    ensures { so_far found.new ≡ tell (so_far found.old) (check_resumable clock (sheet rows.now) (assignment_of rows.now k) (activity_of rows.now a)) }
{
    found.report(
        rows.lacks_time(k),
        Violation::of(6, ViolationKind::ResourceUnavailable, rows.num(k, 3)),
    );
}

// ---- the check

// Booking k, if its resource is in the sheet.
#[tactic(auto, using(crate::proofs::Booking::booking_judged, owners::proofs::Links::books), unfolding(crate::proofs::Booking::judged, crate::specs::inner::Lacking::lacks_time))]
fn check_booking(rows: &LackingSheet, k: usize, found: &mut Findings)
    requires { (k < row_count rows.now) × (is rows.now k 0 23 ≡ true) }
    ensures { so_far found.new ≡ tell (so_far found.old) (each (check_booking clock (sheet rows.now)) (assignment_at (sheet rows.now) k)) }
{
    let Found::At(o) = rows.booked_resource(k) else {
        return;
    };
    let Found::At(a) = rows.activity_of(k) else {
        return check_resource(rows.sheet(), o, k, found);
    };
    if rows.has(a, 7, 1) {
        return check_resumable(rows, a, k, found);
    }
    check_plain(rows.sheet(), a, o, k, found);
}

#[tactic(auto, using(chains::proofs::PlaceLaws::left_all, crate::proofs::Booking::calendars_told), unfolding(sheet::specs::Places::of_kind))]
pub fn check_calendars(rows: &LackingSheet, found: &mut Findings)
    ensures { so_far found.new ≡ tell (so_far found.old) (check_calendars clock (sheet rows.now)) }
{
    for k in rows.of_kind(Kind::Booking) {
        check_booking(rows, k, found);
    }
}
