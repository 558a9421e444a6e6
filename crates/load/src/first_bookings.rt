// The booked resources, by their first bookings.
ghost use Rattle.std.specs.Prelude.{◌≡◌, true, ◌<◌, ◌≤◌};
ghost use Rattle.chains.specs.Places.{places};
ghost use Rattle.rows.specs.Cells.{row_count, is};
ghost use Rattle.load.specs.inner.Firsts.{is_first};

use chains::Walk;
use rows::Kind;
use sheet::by_kind::KindChain;
use sheet::{ByKind, KindIndex, Rows};
use std::marker::Model;

// Whether the booking of row k is the first of its resource.
#[tactic(auto, using(crate::proofs::Firsts::first_told))]
fn is_first(rows: &ByKind, k: usize) -> bool
    requires { (k < row_count rows.now) × (is rows.now k 0 23 ≡ true) }
    ensures { result ≡ is_first rows.now k }
{
    let x = rows.num(k, 3);
    rows.of_kind(Kind::Booking).find(|&i| rows.has(i, 3, x)) == Some(k)
}

// The bookings that are left; seen as the list of those that are the first of their resources.
#[derive(Drop)]
pub struct FirstBookings<'a> {
    rows: &'a ByKind<'a>,
    left: Walk<KindChain<'a>>,
}

impl<'a> Model for FirstBookings<'a> {
    ghost use Rattle.std.specs.Prelude.{List, ℕ};
    ghost use Rattle.loops.specs.Lists.{keep};
    ghost use Rattle.chains.specs.inner.Left.{Left};
    ghost use Rattle.rows.specs.Cells.{row_count};
    ghost use Rattle.sheet.specs.Places.{of_kind};
    ghost use Rattle.load.specs.inner.Firsts.{is_first};

    ghost Value = { List ℕ };

    ghost view = { λ b. keep (is_first b.rows.now) b.left };

    ghost invariant = { λ b. Left (of_kind b.rows.now 23) (row_count b.rows.now) b.left };
}

impl<'a> Iterator for FirstBookings<'a> {
    ghost use Rattle.std.specs.Iterator.{YieldsFirst, item_count};

    type Item = usize;

    ghost next_gives = { YieldsFirst (λ rest. rest) };

    ghost remaining = { item_count (λ rest. rest) };

    fn next(&mut self) -> Option<usize> {
        let rows = self.rows;
        self.left.find(|&k| is_first(rows, k))
    }
}

// The rows of the booked resources' first bookings.
pub fn booked<'a>(rows: &'a ByKind<'a>) -> FirstBookings<'a>
    ensures booked { result ≡ places (is_first rows.now) (row_count rows.now) }
    ensures known { row_count rows.now ≤ 800 }
{
    FirstBookings {
        rows,
        left: rows.of_kind(Kind::Booking),
    }
}
