// A booking, as the load reads it.
#![tactic(auto)]

ghost use Rattle.std.specs.Prelude.{◌≡◌, ◌≤◌, ◌<◌, true, pos};

use model::Sheet;
use sheet::Rows;

// A booking: it takes its units from its start on, up to its end and not with it. Its numbers are those of an accepted sheet.
#[derive(Clone, Copy)]
pub struct Booking {
    pub start: u64,
    pub end: u64,
    pub units: u64,
    pub ghost fit: { (start ≤ 4000000000000) × (end ≤ 4000000000000) × (units ≤ 1000000) },
}

// What stands in room before a booking is gathered there.
pub const NO_BOOKING: Booking = Booking {
    start: 0,
    end: 0,
    units: 0,
};

impl Booking {
    ghost use Rattle.std.specs.Int.Signed.{lt_z};
    ghost use Rattle.rows.specs.Cells.{row_count, is};
    ghost use Rattle.model.specs.Sheet.{sheet};
    ghost use Rattle.model.specs.inner.Records.{assignment_of};
    ghost use Rattle.load.specs.Load.{taken, booking_of};
    ghost use Rattle.load.specs.inner.Lent.{meant};

    // The booking of row k.
    #[tactic(auto, using(crate::proofs::Gathering::booking_fits))]
    pub(crate) fn at(rows: &Sheet, k: usize) -> Booking
        requires { (k < row_count rows.now) × (is rows.now k 0 23 ≡ true) }
        ensures { meant result ≡ booking_of (sheet rows.now) (assignment_of rows.now k) }
    {
        Booking {
            start: rows.num(k, 4),
            end: rows.num(k, 5),
            units: crate::usage_of(rows, k),
        }
    }

    // What it takes at the instant t.
    #[tactic(auto, unfolding(crate::specs::Load::taken))]
    pub(crate) fn taken_at(&self, t: u64) -> u64
        ensures { result ≡ taken lt_z (pos t) (meant self.now) }
    {
        if self.start <= t && t < self.end {
            self.units
        } else {
            0
        }
    }
}
