// The index of a sheet: the tables of its rows, as one value. The library has no heap: whoever checks a sheet has them on the stack, and lends them.
ghost use Rattle.std.specs.Prelude.{◌≡◌, replicate};
ghost use Rattle.sheet.specs.inner.Index.{Shaped};
ghost use Rattle.owners.specs.inner.Filled.{Filled};

use crate::{ByOwner, OwnerLinks, Owners, RowLinks};
use chains::ChainTable;
use sheet::{ByKind, KindTable};

// It has no reference to its rows, which are asked to be those that it was filled for; the two as one value are `model::Sheet`, which also says that the rows
// are accepted. The fields are public: who has the three tables otherwise may put them together.
#[derive(Drop)]
pub struct SheetIndex {
    pub kinds: KindTable,
    pub links: RowLinks,
    pub owned: ChainTable<8810>,
}

impl SheetIndex {
    // Of no sheet yet.
    pub fn new() -> SheetIndex
        ensures kinds { result.kinds.kinds ≡ replicate 832 0 }
        ensures names { result.kinds.names ≡ replicate 2848 0 }
        ensures owners { result.links.owners ≡ replicate 800 0 }
        ensures resources { result.links.resources ≡ replicate 800 0 }
        ensures owned { result.owned ≡ replicate 8810 0 }
    {
        SheetIndex {
            kinds: KindTable::new(),
            links: RowLinks::new(),
            owned: ChainTable::new(),
        }
    }

    // Fills them for rows that pass refusals 1 to 3.
    pub fn fill(&mut self, rows: &[i64])
        requires { Shaped rows.now }
        ensures { Filled rows.now self.new }
    {
        sheet::kinds_into(rows, &mut self.kinds);
        let by_kind = ByKind::new(rows, &self.kinds);
        crate::links_into(&by_kind, &mut self.links);
        let linked = OwnerLinks::new(rows, &self.links);
        crate::owned_into(&linked, &mut self.owned);
    }

    pub fn by_kind<'a>(&'a self, rows: &'a [i64]) -> ByKind<'a>
        requires { Filled rows.now self.now }
        ensures { result ≡ rows.now }
    {
        ByKind::new(rows, &self.kinds)
    }

    pub fn owner_links<'a>(&'a self, rows: &'a [i64]) -> OwnerLinks<'a>
        requires { Filled rows.now self.now }
        ensures { result ≡ rows.now }
    {
        OwnerLinks::new(rows, &self.links)
    }

    pub fn by_owner<'a>(&'a self, rows: &'a [i64]) -> ByOwner<'a>
        requires { Filled rows.now self.now }
        ensures { result ≡ rows.now }
    {
        ByOwner::new(rows, &self.owned)
    }

    pub fn owners<'a>(&'a self, rows: &'a [i64]) -> Owners<'a>
        requires { Filled rows.now self.now }
        ensures { result ≡ rows.now }
    {
        Owners::new(rows, &self.links, &self.owned)
    }

    pub fn kinds(&self) -> &KindTable
        ensures { result.now ≡ self.now.kinds }
    {
        &self.kinds
    }

    pub fn links(&self) -> &RowLinks
        ensures { result.now ≡ self.now.links }
    {
        &self.links
    }

    pub fn owned(&self) -> &ChainTable<8810>
        ensures { result.now ≡ self.now.owned }
    {
        &self.owned
    }
}
