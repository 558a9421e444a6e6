// A step of a task against the one before it: `check_precedence` of scheduler/feasibility.rs, for one pair of its `windows(2)`.
#![tactic(auto)]

ghost use Rattle.std.specs.Prelude.{◌≡◌, true, ◌++◌, ◌≤◌, pos, nat_abs};
ghost use Rattle.loops.specs.Lists.{given};
ghost use Rattle.calendar.specs.Clock.{clock};
ghost use Rattle.rows.specs.Cells.{cell, num, is};
ghost use Rattle.findings.specs.inner.Told.{so_far, tell};
ghost use Rattle.overlap.specs.Bounds.{overlap_of, earliest_start, earliest_end};
ghost use Rattle.model.specs.Sheet.{sheet};
ghost use Rattle.model.specs.inner.Records.{activity_of};
ghost use Rattle.model.specs.Schedule.{precedence_violation};
ghost use Rattle.definition.specs.ActivitySpan.{activity_span};
ghost use Rattle.definition.specs.CheckPrecedence.{check_pair};
ghost use Rattle.spans.specs.inner.Activities.{span_found, span_meant};
ghost use Rattle.check7_pair.specs.inner.Tests.{starts_early, ends_early};

use check7_early_piece::ActivityPair;
use findings::{Findings, Violation, ViolationKind};
use overlap::Overlap;
use owners::OwnerIndex;
use rows::Kind;
use sheet::Rows;
use spans::{ActivitySpan, Span};

// When the activity of row k runs.
fn span_of(pair: &ActivityPair, k: usize) -> ActivitySpan
    ensures { span_meant (span_found result) ≡ activity_span clock (sheet pair.now.rows) (num pair.now.rows k 1) }
{
    spans::activity_span(&pair.kinds, pair.rows.num(k, 1))
}

// The one finding of a piece of the activity after that starts before the work, done at `from`, reaches it.
#[tactic(auto, unfolding(crate::specs::inner::Tests::starts_early))]
fn report_early(pair: &ActivityPair, from: u64, found: &mut Findings)
    requires { from ≤ 4000000000000 }
    ensures { so_far found.new ≡ tell (so_far found.old) (given (starts_early pair.now.rows (num pair.now.rows pair.now.before 1) (num pair.now.rows pair.now.after 1) (pos from)) (precedence_violation 7 (num pair.now.rows pair.now.after 1))) }
{
    let early = check7_early_piece::piece_is_early(pair, from);
    found.report(
        early,
        Violation::of(
            7,
            ViolationKind::PrecedenceViolation,
            pair.rows.num(pair.after, 1),
        ),
    );
}

// Whether the activity after ends before an instant and the move to where it runs.
#[tactic(auto, unfolding(crate::specs::inner::Tests::ends_early))]
fn ends_early(pair: &ActivityPair, earliest: i64) -> bool
    requires { nat_abs earliest ≤ 8000000000000 }
    ensures { result ≡ ends_early pair.now.rows (num pair.now.rows pair.now.before 1) (num pair.now.rows pair.now.after 1) earliest }
{
    let ActivitySpan::Between(span) = span_of(pair, pair.after) else {
        return false;
    };
    let moved = check7_transport::moved_between(&pair.rows, pair.before, pair.after);
    check7_end_to_start::is_before(span.end, moved, earliest)
}

// The one finding of the activity after where it ends before `earliest` and the move. Like `report_early` it is a report with a test of its own, which
// is the contract: handed the test, one function of both would be these lines again.
fn report_end(pair: &ActivityPair, earliest: i64, found: &mut Findings)
    requires { nat_abs earliest ≤ 8000000000000 }
    ensures { so_far found.new ≡ tell (so_far found.old) (given (ends_early pair.now.rows (num pair.now.rows pair.now.before 1) (num pair.now.rows pair.now.after 1) earliest) (precedence_violation 7 (num pair.now.rows pair.now.after 1))) }
{
    let early = ends_early(pair, earliest);
    found.report(
        early,
        Violation::of(
            7,
            ViolationKind::PrecedenceViolation,
            pair.rows.num(pair.after, 1),
        ),
    );
}

// The activity after against the one before, which runs for the span `previous`, where row k is the overlap.
// A span has no bounds by its type: `activity_span` answers for rows of any instants.
#[tactic(auto, using(crate::proofs::Overlapping::lag_most))]
fn check_overlapping(pair: &ActivityPair, previous: Span, k: usize, found: &mut Findings)
    requires { (previous.start ≤ 4000000000000) × (previous.end ≤ 4000000000000) × (is pair.now.rows k 0 3 ≡ true) }
    ensures { so_far found.new ≡ tell (so_far found.old) (given (starts_early pair.now.rows (num pair.now.rows pair.now.before 1) (num pair.now.rows pair.now.after 1) (earliest_start clock (overlap_of (num pair.now.rows k 2) (cell pair.now.rows k 3)) (pos previous.start) (pos previous.end))) (precedence_violation 7 (num pair.now.rows pair.now.after 1)) ++ given (ends_early pair.now.rows (num pair.now.rows pair.now.before 1) (num pair.now.rows pair.now.after 1) (earliest_end clock (overlap_of (num pair.now.rows k 2) (cell pair.now.rows k 3)) (pos previous.end))) (precedence_violation 7 (num pair.now.rows pair.now.after 1))) }
{
    let o = Overlap::new(pair.rows.num(k, 2), pair.rows.cell(k, 3));
    let from = o.earliest_start(previous.start, previous.end);
    report_early(pair, from, found);
    let earliest = o.earliest_end(previous.end);
    report_end(pair, earliest, found);
}

// The activity after against the one before, the step of the task before it.
pub fn check_pair(pair: &ActivityPair, found: &mut Findings)
    ensures { so_far found.new ≡ tell (so_far found.old) (check_pair clock (sheet pair.now.rows) (activity_of pair.now.rows pair.now.before) (activity_of pair.now.rows pair.now.after)) }
{
    let ActivitySpan::Between(previous) = span_of(pair, pair.before) else {
        return;
    };
    let Some(k) = pair.rows.find_owned(pair.after, Kind::Overlap) else {
        report_early(pair, previous.end, found);
        return;
    };
    check_overlapping(pair, previous, k, found);
}
