// Activities that start before others that they follow: `end_to_start` of `check_precedence` in scheduler/feasibility.rs, for predecessors and
// precedence constraints.
#![tactic(auto)]

ghost use Rattle.std.specs.Prelude.{◌≡◌, true, ◌<◌, ◌≤◌, pos, ◌+ℤ◌, nat_abs};
ghost use Rattle.std.specs.Int.Signed.{lt_z};
ghost use Rattle.loops.specs.Lists.{each};
ghost use Rattle.calendar.specs.Clock.{clock};
ghost use Rattle.rows.specs.Cells.{row_count, num, is};
ghost use Rattle.sheet.specs.inner.Accepted.{Accepted};
ghost use Rattle.findings.specs.inner.Told.{so_far, tell};
ghost use Rattle.model.specs.Sheet.{sheet};
ghost use Rattle.model.specs.Activity.{activities_of, predecessors};
ghost use Rattle.model.specs.Constraint.{constraint_at, constraints};
ghost use Rattle.definition.specs.CheckPrecedence.{end_to_start, check_precedence_constraint};
ghost use Rattle.check7_end_to_start.specs.inner.Early.{starts_early};

use findings::{Findings, Violation, ViolationKind};
use owners::{ByOwner, OwnerIndex};
use rows::Kind;
use sheet::{ByKind, KindIndex, Rows};
use spans::ActivitySpan;

// Whether an instant is before another and a signed delay.
#[tactic(auto, using(loops::proofs::IntegerLaws::sum_mag))]
pub fn is_before(start: u64, end: u64, delay: i64) -> bool
    requires { (start ≤ 4000000000000) × (end ≤ 4000000000000) × (nat_abs delay ≤ 8000000000000) }
    ensures { result ≡ lt_z (pos start) (pos end +ℤ delay) }
{
    (start as i64) < end as i64 + delay
}

// Whether `after` starts before `delay` after `before` ends. `Accepted` is asked here and below, and no `Sheet`, which has that by its type: a `Sheet` would
// ask for the tables by owner too, of which an activity's span needs none.
#[tactic(auto, unfolding(crate::specs::inner::Early::starts_early))]
fn starts_early(rows: &ByKind, before: u64, after: u64, delay: i64) -> bool
    requires { Accepted rows.now × (nat_abs delay ≤ 8000000000000) }
    ensures { result ≡ starts_early rows.now before after delay }
{
    let ActivitySpan::Between(first) = spans::activity_span(rows, before) else {
        return false;
    };
    let ActivitySpan::Between(second) = spans::activity_span(rows, after) else {
        return false;
    };
    is_before(second.start, first.end, delay)
}

#[tactic(auto, using(crate::proofs::Told::early_found))]
fn end_to_start(rows: &ByKind, before: u64, after: u64, delay: i64, found: &mut Findings)
    requires { Accepted rows.now × (nat_abs delay ≤ 8000000000000) × (after < 9223372036854775808) }
    ensures { so_far found.new ≡ tell (so_far found.old) (end_to_start clock (sheet rows.now) before after delay) }
{
    let early = starts_early(rows, before, after, delay);
    found.report(
        early,
        Violation::of(7, ViolationKind::PrecedenceViolation, after),
    );
}

// The activity of row o against its predecessors. Both indexes and no `Sheet`, here and below, as `ActivityPair` (check7_early_piece) says; so a clause says that
// they are of the same rows.
#[tactic(auto, using(crate::proofs::Told::predecessors_told))]
fn check_predecessors(rows: &ByKind, owners: &ByOwner, o: usize, found: &mut Findings)
    requires { (owners.now ≡ rows.now) × Accepted rows.now × (o < row_count rows.now) × (is rows.now o 0 2 ≡ true) }
    ensures { so_far found.new ≡ tell (so_far found.old) (each (λ p. end_to_start clock (sheet rows.now) p (num rows.now o 1) (pos 0)) (predecessors (sheet rows.now) (num rows.now o 1))) }
{
    let after = rows.num(o, 1);
    for k in owners.owned_by(o, Kind::Predecessor) {
        end_to_start(rows, rows.num(k, 2), after, 0, found);
    }
}

// The activities of the task of row t against their predecessors: by task, since the steps of each task are compared before these.
#[tactic(auto, using(chains::proofs::PlaceLaws::left_all, crate::proofs::Told::activities_told, model::proofs::OwnedLaws::owned_kind))]
pub fn check_all_predecessors(rows: &ByKind, owners: &ByOwner, t: usize, found: &mut Findings)
    requires { (owners.now ≡ rows.now) × Accepted rows.now × (t < row_count rows.now) × (is rows.now t 0 1 ≡ true) }
    ensures { so_far found.new ≡ tell (so_far found.old) (each (λ a. each (λ p. end_to_start clock (sheet rows.now) p a.id (pos 0)) (predecessors (sheet rows.now) a.id)) (activities_of (sheet rows.now) (num rows.now t 1))) }
{
    for k in owners.owned_by(t, Kind::Activity) {
        check_predecessors(rows, owners, k, found);
    }
}

// The precedence constraint of row k.
#[tactic(auto, using(crate::proofs::Told::constraint_found, crate::proofs::Bounds::delay_most))]
fn check_precedence_constraint(rows: &ByKind, k: usize, found: &mut Findings)
    requires { Accepted rows.now × (is rows.now k 0 17 ≡ true) }
    ensures { so_far found.new ≡ tell (so_far found.old) (each (check_precedence_constraint clock (sheet rows.now)) (constraint_at (sheet rows.now) k)) }
{
    let before = rows.num(k, 1);
    let after = rows.num(k, 2);
    let delay = rows.cell(k, 3);
    end_to_start(rows, before, after, delay, found);
}

#[tactic(auto, using(chains::proofs::PlaceLaws::left_all, crate::proofs::Told::constraints_told), unfolding(sheet::specs::Places::of_kind))]
pub fn check_precedence_constraints(rows: &ByKind, found: &mut Findings)
    requires { Accepted rows.now }
    ensures { so_far found.new ≡ tell (so_far found.old) (each (check_precedence_constraint clock (sheet rows.now)) (constraints (sheet rows.now))) }
{
    for k in rows.of_kind(Kind::Precedence) {
        check_precedence_constraint(rows, k, found);
    }
}
