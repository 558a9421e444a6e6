// The rows of a sheet with who is held as one value.
ghost use Rattle.std.specs.Prelude.{◌≡◌};
ghost use Rattle.pieces.specs.inner.Held.{Held};

use owners::Owners;
use std::marker::Model;
use std::ops::Deref;

// What has marks of who is held: rows, or a sheet.
pub trait HeldMarks {
    ghost use Rattle.std.specs.Prelude.{◌≡◌, ◌<◌, List, ℤ};
    ghost use Rattle.rows.specs.Cells.{row_count};
    ghost use Rattle.pieces.specs.inner.Held.{held_at, Held};

    // The rows that are marked.
    ghost marked: { Self → List ℤ };

    fn held(&self) -> &[bool; 800]
        ensures { Held (marked self.now) result.now };

    // Whether row k is a booking that is held.
    #[tactic(auto, using(crate::proofs::Marks::mark_is))]
    fn is_held(&self, k: usize) -> bool
        requires { k < row_count (marked self.now) }
        ensures { result ≡ held_at (marked self.now) k }
    {
        let held = self.held();
        held[k]
    }
}

// The rows by owner and their owners, with who is held; seen as the rows.
#[derive(Drop)]
pub struct MarkedRows<'a> {
    owners: Owners<'a>,
    held: &'a [bool; 800],
}

impl<'a> Model for MarkedRows<'a> {
    ghost use Rattle.std.specs.Prelude.{List, ℤ};
    ghost use Rattle.pieces.specs.inner.Held.{Held};

    ghost Value = { List ℤ };

    ghost view = { λ s. s.owners };

    ghost invariant = { λ s. Held s.owners s.held.now };
}

impl<'a> MarkedRows<'a> {
    pub fn new(owners: Owners<'a>, held: &'a [bool; 800]) -> MarkedRows<'a>
        requires { Held owners held.now }
        ensures { result ≡ owners.entry }
    {
        MarkedRows { owners, held }
    }

    // The rows without the marks.
    pub fn owners(&self) -> &Owners<'a>
        ensures { result.now ≡ self.now }
    {
        &self.owners
    }
}

impl<'a> Deref for MarkedRows<'a> {
    type Target = Owners<'a>;

    ghost deref_gives = { λ s x. x ≡ s };

    fn deref(&self) -> &Owners<'a> {
        &self.owners
    }
}

impl<'a> HeldMarks for MarkedRows<'a> {
    ghost marked = { λ s. s };

    fn held(&self) -> &[bool; 800] {
        self.held
    }
}
