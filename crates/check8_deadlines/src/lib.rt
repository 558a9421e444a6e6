// Check 8, `check_deadlines`: each task with a deadline that completes after it.
#![tactic(auto)]

ghost use Rattle.std.specs.Prelude.{◌≡◌, true};
ghost use Rattle.calendar.specs.Clock.{clock};
ghost use Rattle.loops.specs.Lists.{each};
ghost use Rattle.rows.specs.Cells.{is};
ghost use Rattle.findings.specs.inner.Told.{so_far, tell};
ghost use Rattle.model.specs.Sheet.{sheet};
ghost use Rattle.model.specs.Task.{task_at};
ghost use Rattle.definition.specs.CheckDeadlines.{check_deadline, check_deadlines};
ghost use Rattle.check8_deadlines.specs.inner.Late.{late_at};

use findings::{Findings, Violation, ViolationKind};
use rows::Kind;
use sheet::{ByKind, KindIndex, Rows};

// Whether the task of row k completes after its deadline.
#[tactic(auto, using(crate::proofs::Lateness::tardy), unfolding(crate::specs::inner::Late::late_at))]
fn is_late(rows: &ByKind, k: usize) -> bool
    ensures { result ≡ late_at rows.now k }
{
    let Some(deadline) = spans::instant_at(rows.as_slice(), k, 2) else {
        return false;
    };
    let completion = spans::task_completion_time(rows, rows.num(k, 1));
    completion.is_some_and(|c| deadline < c)
}

// The finding of the task of row k. Beside check9_constraints `check_window`, which has the same two steps: the test, the violation and the definition are
// others, and one for both would take the three.
#[tactic(auto, using(crate::proofs::Lateness::deadline_found))]
fn check_deadline(rows: &ByKind, k: usize, found: &mut Findings)
    requires { is rows.now k 0 1 ≡ true }
    ensures { so_far found.new ≡ tell (so_far found.old) (each (check_deadline clock (sheet rows.now)) (task_at (sheet rows.now) k)) }
{
    let late = is_late(rows, k);
    found.report(
        late,
        Violation::of(8, ViolationKind::DeadlineMiss, rows.num(k, 1)),
    );
}

#[tactic(auto, using(chains::proofs::PlaceLaws::left_all, crate::proofs::Lateness::deadlines_told), unfolding(sheet::specs::Places::of_kind))]
pub fn check_deadlines(rows: &ByKind, found: &mut Findings)
    ensures { so_far found.new ≡ tell (so_far found.old) (check_deadlines clock (sheet rows.now)) }
{
    for k in rows.of_kind(Kind::Task) {
        check_deadline(rows, k, found);
    }
}
