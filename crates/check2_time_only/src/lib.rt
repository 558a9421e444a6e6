// Check 2, `check_time_only`: the spans of the activities that hold no resource, and the activities among them that have none.
#![tactic(auto)]

ghost use Rattle.std.specs.Prelude.{◌≡◌, true, ◌<◌, ◌≤◌, map, Some};
ghost use Rattle.loops.specs.Lists.{is_empty, each};
ghost use Rattle.loops.specs.Range.{collect};
ghost use Rattle.calendar.specs.Clock.{clock};
ghost use Rattle.calendar.specs.Layout.{window_of};
ghost use Rattle.rows.specs.Cells.{row_count, num, is};
ghost use Rattle.sheet.specs.Places.{place_of};
ghost use Rattle.sheet.specs.inner.Found.{found_of};
ghost use Rattle.findings.specs.inner.Told.{so_far, tell};
ghost use Rattle.resource_timing.specs.Durations.{total_ms};
ghost use Rattle.model.specs.Sheet.{sheet};
ghost use Rattle.model.specs.Task.{tasks};
ghost use Rattle.model.specs.Activity.{requirements, activities_of};
ghost use Rattle.model.specs.Schedule.{time_only_below};
ghost use Rattle.model.specs.inner.Records.{activity_of, span_of};
ghost use Rattle.spans.specs.inner.Instants.{meant};
ghost use Rattle.definition.specs.CheckTimeOnly.{seen, check_first, check_span_at, check_unplaced, check_time_only};
ghost use Rattle.check2_time_only.specs.inner.Tests.{own_windows, too_short, outside_own, starts_before, release_of_task};
ghost use Rattle.check2_time_only.specs.inner.Known.{known_row};

use calendar::{Calendars, Places, TimeWindow};
use findings::{Findings, Violation, ViolationKind};
use model::Sheet;
use owners::{LinkIndex, OwnerIndex};
use rows::Kind;
use sheet::{Found, KindIndex, Rows};
use window_rows::WindowList;

// Whether the activity of row a holds no resource.
#[tactic(auto, using(sheet::proofs::Lookups::place_low, crate::proofs::Spans::free_told))]
fn is_free(rows: &Sheet, a: usize) -> bool
    requires { place_of rows.now 2 (num rows.now a 1) ≡ Some a }
    ensures { result ≡ is_empty (requirements (sheet rows.now) (num rows.now a 1)) }
{
    !rows.has_owned(a, Kind::Requirement)
}

// The row of the activity that the span of row k names, if it is one of the span's task and holds no resource.
#[tactic(auto, using(owners::proofs::Links::spans, model::proofs::Finds::found_self), unfolding(crate::specs::inner::Known::known_row))]
fn known(rows: &Sheet, k: usize) -> Found
    requires { (k < row_count rows.now) × (is rows.now k 0 24 ≡ true) }
    ensures { found_of result ≡ known_row rows.now k }
{
    let Found::At(a) = rows.activity_of(k) else {
        return Found::Nothing;
    };
    if is_free(rows, a) && rows.has(a, 2, rows.num(k, 2)) {
        return Found::At(a);
    }
    Found::Nothing
}

// Whether a known span above row k is of the activity of row a.
#[tactic(auto, using(sheet::proofs::Lookups::place_low))]
fn is_seen(rows: &Sheet, a: usize, k: usize) -> bool
    requires { (place_of rows.now 2 (num rows.now a 1) ≡ Some a) × (is_empty (requirements (sheet rows.now) (num rows.now a 1)) ≡ true) × (k ≤ row_count rows.now) }
    ensures { result ≡ seen (sheet rows.now) (time_only_below (sheet rows.now) k) (num rows.now a 1) }
{
    let task = rows.num(a, 2);
    rows.owned_above(a, Kind::TimeOnlySpan, k)
        .any(|i| rows.has(i, 2, task))
}

// What the activity of row a needs. Not by `ActivityDuration::total_ms`, which may refuse: the times of a row are bounded, and so is their sum.
#[tactic(auto, using(crate::proofs::Told::part_fits, crate::proofs::Told::work_fits, crate::proofs::Told::work_most))]
fn work_of(rows: &Sheet, a: usize) -> u64
    requires { is rows.now a 0 2 ≡ true }
    ensures value { result ≡ total_ms (activity_of rows.now a).duration }
    ensures bound { result ≤ 12000000000000 }
{
    let setup = rows.num(a, 4);
    let process = rows.num(a, 5);
    let teardown = rows.num(a, 6);
    setup + process + teardown
}

// Whether the span of row k has less working time than the activity of row a needs.
#[tactic(auto, using(crate::proofs::Told::end_fits, crate::proofs::Told::short_resumed, crate::proofs::Told::short_plain))]
fn is_short(rows: &Sheet, a: usize, k: usize, windows: &[TimeWindow]) -> bool
    requires { (is rows.now a 0 2 ≡ true) × (is rows.now k 0 24 ≡ true) × (map window_of windows.now ≡ own_windows rows.now a) }
    ensures { result ≡ too_short clock (span_of rows.now k) (activity_of rows.now a) (own_windows rows.now a) }
{
    let work = work_of(rows, a);
    let start = rows.num(k, 3);
    let end = rows.num(k, 4);
    if rows.has(a, 7, 1) {
        let calendar = Calendars {
            windows,
            places: &[Places::all(windows)],
        };
        return calendar.joint_available_ms(start, end) < work;
    }
    end < start + work
}

// Whether the span of row k lies outside the activity's windows.
#[tactic(auto, using(crate::proofs::Told::outside_resumed, crate::proofs::Told::outside_plain))]
fn is_outside(rows: &Sheet, a: usize, k: usize, windows: &[TimeWindow]) -> bool
    requires { map window_of windows.now ≡ own_windows rows.now a }
    ensures { result ≡ outside_own clock (span_of rows.now k) (activity_of rows.now a) (own_windows rows.now a) }
{
    let start = rows.num(k, 3);
    let end = rows.num(k, 4);
    if rows.has(a, 7, 1) {
        return !calendar::is_working_time(windows, start);
    }
    !calendar::interval_fits(windows, start, end)
}

// Whether the span of row k starts before a release: an Option, and no place as in `check1_assignments::KnownBooking::is_early`, since it is none too
// where the activity's task is not in the sheet.
#[tactic(auto, unfolding(crate::specs::inner::Tests::starts_before))]
fn is_early(rows: &Sheet, k: usize, release: Option<u64>) -> bool
    ensures { result ≡ starts_before rows.now k (meant release) }
{
    let start = rows.num(k, 3);
    release.is_some_and(|x| start < x)
}

// The release of the task that the activity of row a is of.
#[tactic(auto, unfolding(crate::specs::inner::Tests::release_of_task))]
fn task_release(rows: &Sheet, a: usize) -> Option<u64>
    requires { (a < row_count rows.now) × (is rows.now a 0 2 ≡ true) }
    ensures { meant result ≡ release_of_task rows.now a }
{
    spans::instant_at(rows.as_slice(), rows.task_of(a)?, 3)
}

// The findings of the first known span, of row k, of the activity of row a, whose windows are laid out in the list. Activity and span go as two rows: only here
// and in `is_short` something is asked of both; the others ask something of one alone, also where there is no span (`check_unplaced`).
#[tactic(auto, using(sheet::proofs::Lookups::place_within, sheet::proofs::Lookups::place_kind))]
fn check_first(rows: &Sheet, a: usize, k: usize, list: &mut WindowList, found: &mut Findings)
    requires { (is rows.now k 0 24 ≡ true) × (place_of rows.now 2 (num rows.now k 1) ≡ Some a) }
    ensures { so_far found.new ≡ tell (so_far found.old) (check_first clock (sheet rows.now) (span_of rows.now k) (activity_of rows.now a)) }
{
    let own = is_early(rows, k, spans::instant_at(rows.as_slice(), a, 8));
    let of_task = is_early(rows, k, task_release(rows, a));
    list.clear();
    window_rows::gather_windows(&rows.by_owner(), a, Kind::ActivityWindow, list);
    let windows = list.as_slice();
    let short = is_short(rows, a, k, windows);
    let outside = is_outside(rows, a, k, windows);
    let id = rows.num(k, 1);
    let early = Violation::of(2, ViolationKind::EarlyStart, id);
    found.report(short, Violation::of(2, ViolationKind::DurationTooShort, id));
    found.report(
        outside,
        Violation::of(2, ViolationKind::TimeWindowViolation, id),
    );
    found.report(own, early);
    found.report(of_task, early);
}

// The findings of the span of row k. A second span of an activity is one finding and no more.
#[tactic(auto, using(crate::proofs::Told::unknown_told, crate::proofs::Told::again_told, crate::proofs::Told::here_told, crate::proofs::Spans::known_place, crate::proofs::Spans::known_free, crate::proofs::Spans::known_self))]
fn check_span(rows: &Sheet, k: usize, list: &mut WindowList, found: &mut Findings)
    requires { (k < row_count rows.now) × (is rows.now k 0 24 ≡ true) }
    ensures { so_far found.new ≡ tell (so_far found.old) (check_span_at clock (sheet rows.now) k) }
{
    let unknown = Violation::of(2, ViolationKind::UnknownActivity, rows.num(k, 1));
    let Found::At(a) = known(rows, k) else {
        found.tell(unknown);
        return;
    };
    if is_seen(rows, a, k) {
        found.tell(unknown);
        return;
    }
    check_first(rows, a, k, list, found);
}

#[tactic(auto, using(chains::proofs::PlaceLaws::left_all, crate::proofs::Told::spans_told), unfolding(sheet::specs::Places::of_kind))]
fn check_spans(rows: &Sheet, found: &mut Findings)
    ensures { so_far found.new ≡ tell (so_far found.old) (collect (check_span_at clock (sheet rows.now)) (row_count rows.now)) }
{
    // No heap: room for a window of each row. It is filled once.
    let mut room = [window_rows::NO_WINDOW; 800];
    let mut list = WindowList::over(&mut room);
    for k in rows.of_kind(Kind::TimeOnlySpan) {
        check_span(rows, k, &mut list, found);
    }
}

// The activity of row a, if it holds no resource and has no span.
#[tactic(auto, unfolding(definition::specs::CheckTimeOnly::check_unplaced, model::specs::Schedule::time_only))]
fn check_unplaced(rows: &Sheet, a: usize, found: &mut Findings)
    requires { place_of rows.now 2 (num rows.now a 1) ≡ Some a }
    ensures { so_far found.new ≡ tell (so_far found.old) (check_unplaced clock (sheet rows.now) (activity_of rows.now a)) }
{
    let unplaced = is_free(rows, a) && !is_seen(rows, a, rows.row_count());
    found.report(
        unplaced,
        Violation::of(2, ViolationKind::TimeWindowViolation, rows.num(a, 1)),
    );
}

// The activities of the task of row t: by task in two functions, as `check4_requirements::check_task` says.
#[tactic(auto, using(chains::proofs::PlaceLaws::left_all, crate::proofs::Told::task_told, crate::proofs::Told::activity_itself), unfolding(owners::specs::inner::Owners::owned_by))]
fn check_task(rows: &Sheet, t: usize, found: &mut Findings)
    requires { (t < row_count rows.now) × (is rows.now t 0 1 ≡ true) }
    ensures { so_far found.new ≡ tell (so_far found.old) (each (check_unplaced clock (sheet rows.now)) (activities_of (sheet rows.now) (num rows.now t 1))) }
{
    for a in rows.owned_by(t, Kind::Activity) {
        check_unplaced(rows, a, found);
    }
}

#[tactic(auto, using(chains::proofs::PlaceLaws::left_all, crate::proofs::Told::tasks_told), unfolding(sheet::specs::Places::of_kind))]
fn check_tasks(rows: &Sheet, found: &mut Findings)
    ensures { so_far found.new ≡ tell (so_far found.old) (each (λ t. each (check_unplaced clock (sheet rows.now)) (activities_of (sheet rows.now) t.id)) (tasks (sheet rows.now))) }
{
    for t in rows.of_kind(Kind::Task) {
        check_task(rows, t, found);
    }
}

pub fn check_time_only(rows: &Sheet, found: &mut Findings)
    ensures { so_far found.new ≡ tell (so_far found.old) (check_time_only clock (sheet rows.now)) }
{
    check_spans(rows, found);
    check_tasks(rows, found);
}
