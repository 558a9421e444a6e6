// Whether a piece of a step starts before the work of the step before it reaches it: the pieces that `check_precedence` of
// scheduler/feasibility.rs judges. A piece starts too early where one of its bookings starts before the work is moved to the resource of
// one of its bookings, so each booking is judged with those of its piece, and no map is made.
#![tactic(auto)]

ghost use Rattle.std.specs.Prelude.{◌≡◌, true, ◌<◌, ◌≤◌, pos};
ghost use Rattle.loops.specs.Lists.{any_of};
ghost use Rattle.loops.specs.Search.{any_below};
ghost use Rattle.chains.specs.Places.{places};
ghost use Rattle.calendar.specs.Clock.{clock};
ghost use Rattle.rows.specs.Cells.{row_count, num};
ghost use Rattle.owners.specs.inner.Owners.{owned_by};
ghost use Rattle.model.specs.Sheet.{sheet};
ghost use Rattle.model.specs.Resource.{transport_between};
ghost use Rattle.definition.specs.CheckPrecedence.{runs_on_all, pieces_of};
ghost use Rattle.check7_early_piece.specs.inner.Reached.{starts_at, unreached_at};

mod activity_pair;

pub use activity_pair::ActivityPair;
use owners::{OwnerIndex, Owners};
use rows::Kind;
use sheet::Rows;
use spans::ActivitySpan;

// Whether row j is a booking of booking k's piece that starts before an instant.
#[tactic(auto, unfolding(crate::specs::inner::Reached::starts_at))]
fn starts_at(rows: &[i64], k: usize, j: usize, bound: u64) -> bool
    ensures { result ≡ starts_at rows.now k bound j }
{
    pieces::in_piece(rows, k, j) && rows::num_at(rows, j, 4) < bound
}

// Whether a booking of booking k's piece starts before an instant; o is the row of its activity.
fn starts_before(rows: &Owners, o: usize, k: usize, bound: u64) -> bool
    requires { (o ≤ row_count rows.now) × (owned_by rows.now o 23 k ≡ true) }
    ensures { result ≡ any_below (starts_at rows.now k bound) (row_count rows.now) }
{
    rows.owned_by(o, Kind::Booking)
        .any(|j| starts_at(rows.as_slice(), k, j, bound))
}

// Whether booking k's piece starts before the work, done at `from` by the activity before, is moved to booking k's resource. `from` has no bound by its type:
// here and below it is asked, so that the sum with the move fits.
#[tactic(auto, using(crate::proofs::Judged::unreached_told))]
fn unreached_at(pair: &ActivityPair, from: u64, k: usize) -> bool
    requires { (from ≤ 4000000000000) × (owned_by pair.now.rows pair.now.after 23 k ≡ true) }
    ensures { result ≡ unreached_at pair.now.rows (num pair.now.rows pair.now.before 1) from k }
{
    let moved = check7_transport::moved_to(&pair.rows, pair.before, pair.rows.num(k, 3));
    starts_before(&pair.rows, pair.after, k, from + moved)
}

// Whether a piece of the activity after, which is booked, starts before the work reaches it.
fn any_unreached(pair: &ActivityPair, from: u64) -> bool
    requires { from ≤ 4000000000000 }
    ensures { result ≡ any_of (unreached_at pair.now.rows (num pair.now.rows pair.now.before 1) from) (places (owned_by pair.now.rows pair.now.after 23) (row_count pair.now.rows)) }
{
    pair.rows
        .owned_by(pair.after, Kind::Booking)
        .any(|k| unreached_at(pair, from, k))
}

// Whether a piece of the activity after starts before the work, done at `from` by the activity before, reaches it.
pub fn piece_is_early(pair: &ActivityPair, from: u64) -> bool
    requires { from ≤ 4000000000000 }
    ensures { result ≡ any_of (λ p. clock.before p.start (clock.plus (pos from) (pos (transport_between (sheet pair.now.rows) (runs_on_all clock (sheet pair.now.rows) (num pair.now.rows pair.now.before 1)) p.to)))) (pieces_of clock (sheet pair.now.rows) (num pair.now.rows pair.now.after 1)) }
{
    if pair.rows.has_owned(pair.after, Kind::Booking) {
        return any_unreached(pair, from);
    }
    let id = pair.rows.num(pair.after, 1);
    let ActivitySpan::Between(span) = spans::activity_span(&pair.kinds, id) else {
        return false;
    };
    span.start < from
}
