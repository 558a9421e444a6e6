// The bookings of a resource, and what they take of it.
#![tactic(auto)]

ghost use Rattle.std.specs.Prelude.{◌≡◌, length, pos};
ghost use Rattle.std.specs.Int.Signed.{lt_z};
ghost use Rattle.lent_room.specs.Listed.{behind, past, whole};
ghost use Rattle.model.specs.Sheet.{sheet};
ghost use Rattle.load.specs.Load.{load_of, peak_of, bookings_on};
ghost use Rattle.load.specs.inner.Lent.{lent};

use crate::booking::Booking;
use lent_room::LentList;
use model::Sheet;
use rows::Kind;
use sheet::{KindIndex, Rows};

// As many bookings as a sheet has rows have room.
pub type Bookings<'a> = LentList<'a, Booking, 800>;

// The bookings of the resource x, in place of those that are in the list. The rest of the lent room stays.
#[tactic(auto, unfolding(sheet::specs::Places::of_kind))]
pub fn gather_bookings(rows: &Sheet, x: u64, bookings: &mut Bookings)
    ensures gathered { lent bookings.new ≡ bookings_on (sheet rows.now) x }
    ensures behind { behind bookings.new ≡ past (length (bookings_on (sheet rows.now) x)) (whole bookings.old) }
{
    bookings.clear();
    // out here, so that how many rows there are is not asked again for each booking
    let cells = rows.as_slice();
    for k in rows.of_kind(Kind::Booking) {
        if rows::is_at(cells, k, 3, x) {
            bookings.push(Booking::at(rows, k));
        }
    }
}

// The load at the instant t.
fn load_at(bookings: &Bookings, t: u64) -> u64
    ensures { result ≡ load_of lt_z (lent bookings.now) (pos t) }
{
    let mut load = 0;
    for b in bookings.as_slice() {
        load += b.taken_at(t);
    }
    load
}

// The greatest load: load only rises at a start, so that the starts are enough.
pub fn peak_of(bookings: &Bookings) -> u64
    ensures { result ≡ peak_of lt_z (lent bookings.now) }
{
    let mut most: u64 = 0;
    for b in bookings.as_slice() {
        most = most.max(load_at(bookings, b.start));
    }
    most
}
