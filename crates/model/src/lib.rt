// The sheet with its index as one value. The typed sheet and the models that the checks are defined over are in specs/.
#![tactic(auto)]

ghost use Rattle.std.specs.Prelude.{None, ◌≡◌};
ghost use Rattle.sheet.specs.Refusals.{refusal_of};
ghost use Rattle.model.specs.inner.Indexed.{Indexed};

use chains::ChainTable;
pub use owners::SheetIndex;
use owners::{ByOwner, LinkIndex, OwnerIndex, Owners, RowLinks};
use sheet::{ByKind, KindIndex, KindTable, Rows};
use std::marker::Model;

// A sheet that refusals 1 to 5 let pass, with the tables that index its rows; seen as the rows. There is no heap: the tables are arrays of 16-bit places for
// at most 800 rows, lent by the call.
#[derive(Drop)]
pub struct Sheet<'a> {
    rows: &'a [i64],
    index: &'a SheetIndex,
}

impl<'a> Model for Sheet<'a> {
    ghost use Rattle.std.specs.Prelude.{List, ℤ};
    ghost use Rattle.model.specs.inner.Indexed.{Indexed};

    ghost Value = { List ℤ };

    ghost view = { λ s. s.rows.now };

    ghost invariant = { λ s. Indexed s.rows.now s.index.now };
}

impl<'a> Sheet<'a> {
    pub fn new(rows: &'a [i64], index: &'a SheetIndex) -> Sheet<'a>
        requires { Indexed rows.now index.now }
        ensures { result ≡ rows.now }
    {
        Sheet { rows, index }
    }

    // The rows by kind and by name alone.
    pub fn by_kind(&self) -> ByKind<'a>
        ensures rows { result ≡ self.now }
        ensures known { refusal_of self.now ≡ None }
    {
        self.index.by_kind(self.rows)
    }

    // The rows by owner alone.
    pub fn by_owner(&self) -> ByOwner<'a>
        ensures rows { result ≡ self.now }
        ensures known { refusal_of self.now ≡ None }
    {
        self.index.by_owner(self.rows)
    }

    // The rows by owner, and their owners.
    pub fn owners(&self) -> Owners<'a>
        ensures rows { result ≡ self.now }
        ensures known { refusal_of self.now ≡ None }
    {
        self.index.owners(self.rows)
    }
}

impl<'a> Rows for Sheet<'a> {
    ghost use Rattle.std.specs.Prelude.{None, ◌≡◌, ◌≤◌};
    ghost use Rattle.rows.specs.Cells.{row_count};
    ghost use Rattle.sheet.specs.Refusals.{refusal_of};

    ghost rows = { λ s. s };

    ghost known = { λ rows. (refusal_of rows ≡ None) × (row_count rows ≤ 800) };

    fn as_slice(&self) -> &[i64] {
        self.rows
    }
}

impl<'a> KindIndex for Sheet<'a> {
    fn kinds(&self) -> &KindTable {
        self.index.kinds()
    }
}

impl<'a> LinkIndex for Sheet<'a> {
    fn links(&self) -> &RowLinks {
        self.index.links()
    }
}

impl<'a> OwnerIndex for Sheet<'a> {
    fn owned(&self) -> &ChainTable<8810> {
        self.index.owned()
    }
}
