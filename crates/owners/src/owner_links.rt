// The row that each row of a sheet belongs to.
ghost use Rattle.std.specs.Prelude.{◌≡◌};
ghost use Rattle.owners.specs.inner.Owners.{Linked};

use crate::RowLinks;
use sheet::{Found, Rows};
use std::marker::Model;

// Rows whose table of owners is filled.
pub trait LinkIndex: Rows {
    ghost use Rattle.std.specs.Prelude.{Some, ◌≡◌, ◌<◌, true};
    ghost use Rattle.rows.specs.Cells.{row_count, num, is};
    ghost use Rattle.sheet.specs.Places.{task_place, activity_place, resource_place};
    ghost use Rattle.sheet.specs.inner.Found.{found_of};
    ghost use Rattle.owners.specs.declared.Owner.{Owner};
    ghost use Rattle.owners.specs.inner.Owners.{owner_kind, owner_place, own_place, Linked};

    fn links(&self) -> &RowLinks
        ensures { Linked (Self.rows self.now) result.now };

    // The row that row k belongs to, or the number of rows: rows without an owner have a key among the chains by owner too.
    #[tactic(auto, using(crate::proofs::Tables::own_entry))]
    fn owner_of(&self, k: usize) -> usize
        requires { k < row_count (Self.rows self.now) }
        ensures { result ≡ own_place (Self.rows self.now) k }
    {
        usize::from(self.links().owners[k])
    }

    // The same, if there is one.
    #[tactic(auto, using(crate::proofs::Links::owner_read))]
    fn find_owner(&self, k: usize) -> Option<usize>
        requires { k < row_count (Self.rows self.now) }
        ensures { result ≡ owner_place (Self.rows self.now) k }
    {
        sheet::stored_place(self.as_slice(), self.owner_of(k))
    }

    // The row of the activity that row k, a booking or a time-only span, names.
    #[tactic(auto, using(crate::proofs::Links::activity_named))]
    fn activity_of(&self, k: usize) -> Found
        requires { (k < row_count (Self.rows self.now)) × (owner_kind (num (Self.rows self.now) k 0) ≡ Some Owner.ActivityRow) }
        ensures { found_of result ≡ activity_place (Self.rows self.now) (num (Self.rows self.now) k 1) }
    {
        Found::from(self.find_owner(k))
    }

    // The row of the task that activity k is of.
    #[tactic(auto, using(crate::proofs::Links::task_named))]
    fn task_of(&self, k: usize) -> Option<usize>
        requires { (k < row_count (Self.rows self.now)) × (is (Self.rows self.now) k 0 2 ≡ true) }
        ensures { result ≡ task_place (Self.rows self.now) (num (Self.rows self.now) k 2) }
    {
        self.find_owner(k)
    }

    // The row of the resource that booking k names.
    fn booked_resource(&self, k: usize) -> Found
        requires { (k < row_count (Self.rows self.now)) × (is (Self.rows self.now) k 0 23 ≡ true) }
        ensures { found_of result ≡ resource_place (Self.rows self.now) (num (Self.rows self.now) k 3) }
    {
        let place = usize::from(self.links().resources[k]);
        Found::from(sheet::stored_place(self.as_slice(), place))
    }
}

// The rows of a sheet with the table of owners; seen as the rows. There is no heap: tables are arrays that are lent.
#[derive(Drop)]
pub struct OwnerLinks<'a> {
    rows: &'a [i64],
    table: &'a RowLinks,
}

impl<'a> Model for OwnerLinks<'a> {
    ghost use Rattle.std.specs.Prelude.{List, ℤ};
    ghost use Rattle.owners.specs.inner.Owners.{Linked};

    ghost Value = { List ℤ };

    ghost view = { λ s. s.rows.now };

    ghost invariant = { λ s. Linked s.rows.now s.table.now };
}

impl<'a> OwnerLinks<'a> {
    pub fn new(rows: &'a [i64], table: &'a RowLinks) -> OwnerLinks<'a>
        requires { Linked rows.now table.now }
        ensures { result ≡ rows.now }
    {
        OwnerLinks { rows, table }
    }
}

impl<'a> Rows for OwnerLinks<'a> {
    ghost use Rattle.std.specs.Prelude.{◌≤◌};
    ghost use Rattle.rows.specs.Cells.{row_count};

    ghost rows = { λ s. s };

    ghost known = { λ rows. row_count rows ≤ 800 };

    fn as_slice(&self) -> &[i64] {
        self.rows
    }
}

impl<'a> LinkIndex for OwnerLinks<'a> {
    fn links(&self) -> &RowLinks {
        self.table
    }
}
