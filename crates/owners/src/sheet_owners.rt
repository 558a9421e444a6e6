// The rows of a sheet by the rows that they belong to, and the rows that they belong to.
ghost use Rattle.std.specs.Prelude.{◌≡◌};
ghost use Rattle.owners.specs.inner.Owners.{Linked, Owned};

use crate::{ByOwner, LinkIndex, OwnerIndex, RowLinks};
use chains::ChainTable;
use sheet::Rows;
use std::marker::Model;

// Three types of rows, by which tables are filled: `OwnerLinks`, `ByOwner`, and `Owners` with both. The table of a `ByOwner` is filled from an `OwnerLinks`
// (`owned_into`), whose own is filled from a `ByKind` (`links_into`), and whoever only walks, or only looks up owners, asks no more of a caller. One type for
// the three would have to say at each use which tables it has.

// The rows of a sheet with both tables of owners; seen as the rows.
#[derive(Drop)]
pub struct Owners<'a> {
    rows: &'a [i64],
    links: &'a RowLinks,
    owned: &'a ChainTable<8810>,
}

impl<'a> Model for Owners<'a> {
    ghost use Rattle.std.specs.Prelude.{List, ℤ};
    ghost use Rattle.owners.specs.inner.Owners.{Linked, Owned};

    ghost Value = { List ℤ };

    ghost view = { λ s. s.rows.now };

    ghost invariant = { λ s. Linked s.rows.now s.links.now × Owned s.rows.now s.owned.now };
}

impl<'a> Owners<'a> {
    pub fn new(rows: &'a [i64], links: &'a RowLinks, owned: &'a ChainTable<8810>) -> Owners<'a>
        requires { Linked rows.now links.now × Owned rows.now owned.now }
        ensures { result ≡ rows.now }
    {
        Owners { rows, links, owned }
    }

    // The rows by owner alone.
    pub fn by_owner(&self) -> ByOwner<'a>
        ensures { result ≡ self.now }
    {
        ByOwner::new(self.rows, self.owned)
    }
}

impl<'a> Rows for Owners<'a> {
    ghost use Rattle.std.specs.Prelude.{◌≤◌};
    ghost use Rattle.rows.specs.Cells.{row_count};

    ghost rows = { λ s. s };

    ghost known = { λ rows. row_count rows ≤ 800 };

    fn as_slice(&self) -> &[i64] {
        self.rows
    }
}

impl<'a> LinkIndex for Owners<'a> {
    fn links(&self) -> &RowLinks {
        self.links
    }
}

impl<'a> OwnerIndex for Owners<'a> {
    fn owned(&self) -> &ChainTable<8810> {
        self.owned
    }
}
