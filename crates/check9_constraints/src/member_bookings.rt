// The bookings of a constraint's members on a resource.
#![tactic(auto)]

ghost use Rattle.std.specs.Prelude.{◌≡◌, [], length};
ghost use Rattle.loops.specs.Search.{first_place};
ghost use Rattle.lent_room.specs.Listed.{listed, behind, past};
ghost use Rattle.rows.specs.Cells.{row_count};
ghost use Rattle.check9_constraints.specs.inner.Bookings.{booked_on, bookings_of};

use lent_room::LentList;
use rows::Kind;
use sheet::{ByKind, KindIndex, Rows};

// Each member's first booking on the resource, of the members that have one: their rows, in the members' order. The rest of the lent room stays.
// The list is empty, for its elements are paired afterwards: what stood there before would be paired too.
#[tactic(auto, using(chains::proofs::PlaceLaws::places_few, lent_room::proofs::Pushing::past_first), unfolding(crate::specs::inner::Bookings::booking_of, crate::specs::inner::Bookings::bookings_of, loops::specs::Lists::each))]
pub fn gather_bookings(rows: &ByKind, place: u64, resource: u64, list: &mut LentList<usize, 800>)
    requires { listed list.old ≡ [] }
    ensures gathered { listed list.new ≡ bookings_of rows.now place resource }
    ensures behind { behind list.new ≡ past (length (bookings_of rows.now place resource)) (behind list.old) }
{
    for k in rows.named(Kind::Member, place) {
        let Some(b) = first_on(rows, rows.num(k, 2), resource) else {
            continue;
        };
        list.push(b);
    }
}

// The first booking of the activity on the resource.
#[tactic(auto, using(crate::proofs::Pairs::first_kept), unfolding(loops::specs::Lists::keep))]
fn first_on(rows: &ByKind, activity: u64, resource: u64) -> Option<usize>
    ensures { result ≡ first_place (booked_on rows.now activity resource) (row_count rows.now) }
{
    rows.named(Kind::Booking, activity)
        .find_passing(|k| rows.has(k, 3, resource))
}
