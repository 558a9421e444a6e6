// When a task completes and when an activity runs, of models/schedule.rs and `activity_span` of scheduler/feasibility.rs.
#![tactic(auto)]

ghost use Rattle.std.specs.Prelude.{◌≡◌, pos, None};
ghost use Rattle.calendar.specs.Clock.{clock};
ghost use Rattle.loops.specs.Range.{fold};
ghost use Rattle.loops.specs.inner.Chain.{only_at};
ghost use Rattle.rows.specs.Cells.{row_count};
ghost use Rattle.rows.specs.Kinds.{kind_number};
ghost use Rattle.sheet.specs.Places.{of_kind, named};
ghost use Rattle.model.specs.Sheet.{sheet};
ghost use Rattle.model.specs.inner.Records.{maybe_at};
ghost use Rattle.model.specs.Schedule.{task_completion_time};
ghost use Rattle.definition.specs.ActivitySpan.{activity_span};
ghost use Rattle.spans.specs.inner.Instants.{meant, end_if};
ghost use Rattle.spans.specs.inner.Activities.{span_found, span_meant, widened, widen_by};

use rows::Kind;
use sheet::{ByKind, KindIndex, Rows};

// The instant in column c of row k, which may be none.
pub fn instant_at(rows: &[i64], k: usize, c: usize) -> Option<u64>
    ensures { meant result ≡ maybe_at rows.now k c }
{
    u64::try_from(rows::cell_at(rows, k, c)).ok()
}

// The end in column c of row k, where the row is of the task, if it is later.
#[tactic(auto, unfolding(crate::specs::inner::Instants::end_if))]
fn end_if(rows: &ByKind, e: Option<u64>, k: usize, c: usize, task: u64) -> Option<u64>
    ensures { meant result ≡ end_if rows.now c task (meant e) k }
{
    if rows.has(k, 2, task) {
        e.max(Some(rows.num(k, c)))
    } else {
        e
    }
}

// The latest end, in column c, of the rows of a kind that are of the task.
#[tactic(auto, using(chains::proofs::PlaceLaws::foldl_only))]
fn latest_end(rows: &ByKind, from: Option<u64>, kind: Kind, c: usize, task: u64) -> Option<u64>
    ensures { meant result ≡ fold (only_at (of_kind rows.now (kind_number kind)) (end_if rows.now c task)) (meant from) (row_count rows.now) }
{
    let mut e = from;
    for k in rows.of_kind(kind) {
        e = end_if(rows, e, k, c, task);
    }
    e
}

// The latest end of a task's bookings and time-only spans.
#[tactic(auto, using(crate::proofs::Completion::completion))]
pub fn task_completion_time(rows: &ByKind, task: u64) -> Option<u64>
    ensures { meant result ≡ task_completion_time clock (sheet rows.now) task }
{
    let booked = latest_end(rows, None, Kind::Booking, 5, task);
    latest_end(rows, booked, Kind::TimeOnlySpan, 4, task)
}

// ---- when an activity runs

// From a start to an end.
#[derive(Clone, Copy)]
pub struct Span {
    pub start: u64,
    pub end: u64,
}

// When an activity runs, if it does. No Option: the project's paper asks for an enum of its own where an activity is looked up (docs/DECISIONS.md, 26). Sheet
// `Found` says why there are two.
#[derive(Clone, Copy)]
pub enum ActivitySpan {
    Between(Span),
    Nowhere,
}

impl From<Option<Span>> for ActivitySpan {
    ghost use Rattle.std.specs.Prelude.{◌≡◌};
    ghost use Rattle.spans.specs.inner.Activities.{span_found};

    ghost from_gives = { λ x r. span_found r ≡ x };

    fn from(x: Option<Span>) -> ActivitySpan {
        match x {
            Some(span) => ActivitySpan::Between(span),
            None => ActivitySpan::Nowhere,
        }
    }
}

// What there is, widened to hold the time from start to end.
fn widen(x: Option<Span>, start: u64, end: u64) -> Option<Span>
    ensures { span_meant result ≡ widened (span_meant x) (pos start) (pos end) }
{
    Some(x.map_or(
        Span { start, end },
        |a| Span {
            start: a.start.min(start),
            end: a.end.max(end),
        },
    ))
}

// From the earliest start to the latest end of an activity's bookings.
#[tactic(auto, using(chains::proofs::PlaceLaws::foldl_only))]
fn booked_span(rows: &ByKind, id: u64) -> Option<Span>
    ensures { span_meant result ≡ fold (only_at (named rows.now 23 id) (widen_by rows.now)) None (row_count rows.now) }
{
    let mut x = None;
    for k in rows.named(Kind::Booking, id) {
        x = widen(x, rows.num(k, 4), rows.num(k, 5));
    }
    x
}

// The first time-only span of an activity, or else from the earliest start to the latest end of its bookings.
#[tactic(auto, using(crate::proofs::Running::runs_booked, crate::proofs::Running::runs_timed))]
pub fn activity_span(rows: &ByKind, id: u64) -> ActivitySpan
    ensures { span_meant (span_found result) ≡ activity_span clock (sheet rows.now) id }
{
    let Some(k) = rows.find_named(Kind::TimeOnlySpan, id) else {
        return ActivitySpan::from(booked_span(rows, id));
    };
    ActivitySpan::Between(Span {
        start: rows.num(k, 3),
        end: rows.num(k, 4),
    })
}
