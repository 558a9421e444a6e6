// The time to move work between resources: `transport_to` and `transport_between` of models/resource.rs, for the resources that activities
// are booked on. The moves of a resource are found along its chain of rows.
#![tactic(auto)]

ghost use Rattle.std.specs.Prelude.{◌≡◌, true, [], ◌∷◌, ◌<◌, ◌≤◌};
ghost use Rattle.calendar.specs.Clock.{clock};
ghost use Rattle.rows.specs.Cells.{row_count, num, is};
ghost use Rattle.sheet.specs.inner.Accepted.{Accepted};
ghost use Rattle.model.specs.Sheet.{sheet};
ghost use Rattle.model.specs.Resource.{transport_to, transport_between};
ghost use Rattle.definition.specs.CheckPrecedence.{runs_on_all};

use owners::{LinkIndex, OwnerIndex, Owners};
use rows::Kind;
use sheet::{Found, Rows};

// The time to move work from the resource of booking i to resource b, 0 where none is given. `Accepted` is asked here and below, and no `Sheet`, which has that by
// its type: a `Sheet` would ask for the tables by kind and name too.
#[tactic(auto, using(crate::proofs::Moves::unmoved, crate::proofs::Moves::no_move, crate::proofs::Moves::move_is, crate::proofs::Moves::move_most))]
fn transport_to(rows: &Owners, i: usize, b: u64) -> u64
    requires { Accepted rows.now × (i < row_count rows.now) × (is rows.now i 0 23 ≡ true) }
    ensures value { result ≡ transport_to (sheet rows.now) (num rows.now i 3) b }
    ensures bound { result ≤ 4000000000000 }
{
    let Found::At(o) = rows.booked_resource(i) else {
        return 0;
    };
    let Some(k) = pieces::find_naming(&rows.by_owner(), o, Kind::Transport, rows.num(i, 3), b)
    else {
        return 0;
    };
    rows.num(k, 3)
}

// The longest move to resource b from a resource that the activity of row o is booked on.
#[tactic(auto, using(chains::proofs::PlaceLaws::left_all, crate::proofs::Longest::from_is, model::proofs::OwnedLaws::owned_kind))]
pub fn moved_to(rows: &Owners, o: usize, b: u64) -> u64
    requires { Accepted rows.now × (o < row_count rows.now) × (is rows.now o 0 2 ≡ true) }
    ensures value { result ≡ transport_between (sheet rows.now) (runs_on_all clock (sheet rows.now) (num rows.now o 1)) (b ∷ []) }
    ensures bound { result ≤ 4000000000000 }
{
    let mut t = 0;
    for i in rows.owned_by(o, Kind::Booking) {
        t = t.max(transport_to(rows, i, b));
    }
    t
}

// The longest move from a resource that the activity of row o is booked on to one that the activity of row p is booked on. One function for this
// loop and the one above would take a closure and need a clause on all that it answers, for a line less.
#[tactic(auto, using(crate::proofs::Longest::to_is))]
pub fn moved_between(rows: &Owners, o: usize, p: usize) -> u64
    requires { Accepted rows.now × (o < row_count rows.now) × (is rows.now o 0 2 ≡ true) × (p < row_count rows.now) × (is rows.now p 0 2 ≡ true) }
    ensures value { result ≡ transport_between (sheet rows.now) (runs_on_all clock (sheet rows.now) (num rows.now o 1)) (runs_on_all clock (sheet rows.now) (num rows.now p 1)) }
    ensures bound { result ≤ 4000000000000 }
{
    let mut t = 0;
    for i in rows.owned_by(p, Kind::Booking) {
        t = t.max(moved_to(rows, o, rows.num(i, 3)));
    }
    t
}
