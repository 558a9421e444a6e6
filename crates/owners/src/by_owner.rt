// The rows of a sheet by the rows that they belong to.
ghost use Rattle.std.specs.Prelude.{◌≡◌, suc, ◌+◌, ◌*◌, ◌%◌, ◌<◌, ◌≤◌};
ghost use Rattle.loops.specs.Search.{first_place};
ghost use Rattle.loops.specs.inner.Chain.{First, Stands, same};
ghost use Rattle.chains.specs.Places.{places};
ghost use Rattle.rows.specs.Kinds.{kind_number};
ghost use Rattle.rows.specs.Cells.{row_count};
ghost use Rattle.owners.specs.inner.Owners.{owned_by, owned_key, Owned};

use chains::{Chain, ChainTable, Walk};
use rows::Kind;
use sheet::Rows;
use std::marker::Model;

// Rows whose table of the rows by owner and kind is filled.
pub trait OwnerIndex: Rows {
    ghost use Rattle.std.specs.Prelude.{ℕ, Bool, ◌≡◌, ◌≤◌, ◌&&◌};
    ghost use Rattle.chains.specs.Places.{places};
    ghost use Rattle.loops.specs.Search.{first_place, any_below};
    ghost use Rattle.rows.specs.Kinds.{kind_number};
    ghost use Rattle.rows.specs.Cells.{row_count};
    ghost use Rattle.owners.specs.inner.Owners.{owned_by, Owned};

    fn owned(&self) -> &ChainTable<8810>
        ensures { Owned (Self.rows self.now) result.now };

    // The rows of a kind that belong to row o. These and the next two are as `named`, `named_above` and `find_named` of sheet, over the other chain.
    fn owned_by(&self, o: usize, kind: Kind) -> Walk<OwnedChain<'_>>
        requires { o ≤ row_count (Self.rows self.now) }
        ensures places { result ≡ places (owned_by (Self.rows self.now) o (kind_number kind)) (row_count (Self.rows self.now)) }
        ensures known { Self.known (Self.rows self.now) }
    {
        Walk::new(OwnedChain::new(self.as_slice(), self.owned(), o, kind))
    }

    // Those above row k.
    fn owned_above(&self, o: usize, kind: Kind, k: usize) -> Walk<OwnedChain<'_>>
        requires { (o ≤ row_count (Self.rows self.now)) × (k ≤ row_count (Self.rows self.now)) }
        ensures places { result ≡ places (owned_by (Self.rows self.now) o (kind_number kind)) k }
        ensures known { Self.known (Self.rows self.now) }
    {
        Walk::below(OwnedChain::new(self.as_slice(), self.owned(), o, kind), k)
    }

    // The first of them.
    fn find_owned(&self, o: usize, kind: Kind) -> Option<usize>
        requires { o ≤ row_count (Self.rows self.now) }
        ensures place { result ≡ first_place (owned_by (Self.rows self.now) o (kind_number kind)) (row_count (Self.rows self.now)) }
        ensures known { Self.known (Self.rows self.now) }
    {
        OwnedChain::new(self.as_slice(), self.owned(), o, kind).find_first()
    }

    // Whether a row of a kind that belongs to row o passes the test. Along the table itself, and the test before the kind: two kinds may share a chain, and a test
    // that asks for one number tells most rows by it. The walk's `any`, which looks for the next row before it tests one, took twice the time over 264 companions
    // of 528 bookings.
    fn any_owned<F: Fn(usize) -> bool>(&self, o: usize, kind: Kind, test: F) -> bool
        requires row { o ≤ row_count (Self.rows self.now) }
        requires callable { F.IsAlwaysCallable test }
        ensures { (f : ℕ → Bool) → ((k : ℕ) (b : Bool) → F.post test k b → b ≡ f k) → result ≡ any_below (λ k. owned_by (Self.rows self.now) o (kind_number kind) k && f k) (row_count (Self.rows self.now)) }
    {
        let (rows, owned) = (self.as_slice(), self.owned());
        let n = rows::row_count(rows);
        let first = owned.first(o * 10 + kind.number() as usize % 10);
        owned.find_from(first, n, |i| test(i) && rows::is_of_kind(rows, i, kind)) < n
    }

    // Whether a row of a kind belongs to row o.
    fn has_owned(&self, o: usize, kind: Kind) -> bool
        requires { o ≤ row_count (Self.rows self.now) }
        ensures { result ≡ any_below (owned_by (Self.rows self.now) o (kind_number kind)) (row_count (Self.rows self.now)) }
    {
        self.find_owned(o, kind).is_some()
    }
}

// The rows of a sheet with the table of the rows by owner and kind; seen as the rows.
#[derive(Drop)]
pub struct ByOwner<'a> {
    rows: &'a [i64],
    table: &'a ChainTable<8810>,
}

impl<'a> Model for ByOwner<'a> {
    ghost use Rattle.std.specs.Prelude.{List, ℤ};
    ghost use Rattle.owners.specs.inner.Owners.{Owned};

    ghost Value = { List ℤ };

    ghost view = { λ s. s.rows.now };

    ghost invariant = { λ s. Owned s.rows.now s.table.now };
}

impl<'a> ByOwner<'a> {
    pub fn new(rows: &'a [i64], table: &'a ChainTable<8810>) -> ByOwner<'a>
        requires { Owned rows.now table.now }
        ensures { result ≡ rows.now }
    {
        ByOwner { rows, table }
    }
}

impl<'a> Rows for ByOwner<'a> {
    ghost use Rattle.std.specs.Prelude.{◌≤◌};
    ghost use Rattle.rows.specs.Cells.{row_count};

    ghost rows = { λ s. s };

    ghost known = { λ rows. row_count rows ≤ 800 };

    fn as_slice(&self) -> &[i64] {
        self.rows
    }
}

impl<'a> OwnerIndex for ByOwner<'a> {
    fn owned(&self) -> &ChainTable<8810> {
        self.table
    }
}

// The rows of a kind that belong to a row. Beside sheet `NamedChain`, which has the same shape: what a chain shares is the trait `Chain` and its walk, and here
// the table, its keys and the test are others. One for both would take these three as parameters, with their laws. The kind by its number, any number: rows are
// asked for by one that stands for no kind too (`find_owned` and the two beside it).
#[derive(Drop)]
pub struct OwnedChain<'a> {
    rows: ByOwner<'a>,
    owner: usize,
    kind: usize,
}

impl<'a> Model for OwnedChain<'a> {
    ghost use Rattle.std.specs.Prelude.{List, ℤ, ℕ, ◌≤◌};
    ghost use Rattle.rows.specs.Cells.{row_count};

    ghost Value = { List ℤ × ℕ × ℕ };

    ghost view = { λ s. (s.rows, s.owner, s.kind) };

    ghost invariant = { λ s. s.owner ≤ row_count s.rows };
}

impl<'a> OwnedChain<'a> {
    fn new(rows: &'a [i64], table: &'a ChainTable<8810>, owner: usize, kind: Kind) -> OwnedChain<'a>
        requires { Owned rows.now table.now × (owner ≤ row_count rows.now) }
        ensures { result ≡ (rows.now, owner, kind_number kind) }
    {
        OwnedChain::numbered(rows, table, owner, kind.number() as usize)
    }

    fn numbered(
        rows: &'a [i64],
        table: &'a ChainTable<8810>,
        owner: usize,
        kind: usize,
    ) -> OwnedChain<'a>
        requires { Owned rows.now table.now × (owner ≤ row_count rows.now) }
        ensures { result ≡ (rows.now, owner, kind) }
    {
        OwnedChain {
            rows: ByOwner::new(rows, table),
            owner,
            kind,
        }
    }

    // The first row of the kind from row j on, along the chain of the owner. Two kinds may share a chain.
    fn find_from(&self, j: usize) -> usize
        requires { Stands (same (owned_key self.now.0) (self.now.1 * 10 + self.now.2 % 10)) (row_count self.now.0) j }
        ensures { First (owned_by self.now.0 self.now.1 self.now.2) j (row_count self.now.0) result }
    {
        let (rows, table, kind) = (self.rows.rows, self.rows.table, self.kind);
        table.find_from(
            j,
            rows::row_count(rows),
            |i| rows::is_at(rows, i, 0, kind as u64),
        )
    }
}

impl<'a> Chain for OwnedChain<'a> {
    ghost use Rattle.rows.specs.Cells.{row_count};
    ghost use Rattle.owners.specs.inner.Owners.{owned_by};

    ghost test = { λ s. owned_by s.0 s.1 s.2 };

    ghost end = { λ s. row_count s.0 };

    fn end_place(&self) -> usize {
        rows::row_count(self.rows.rows)
    }

    fn first_place(&self) -> usize {
        let digit = self.kind % 10;
        self.find_from(self.rows.table.first(self.owner * 10 + digit))
    }

    fn next_place(&self, i: usize) -> usize {
        self.find_from(self.rows.table.next(i))
    }
}

// ---- by the number of a kind, whatever it is: rows that are not of a sheet yet may have any number in column 0

// The rows of kind x that belong to row o.
pub fn owned_by_number<'a>(rows: &ByOwner<'a>, o: usize, x: usize) -> Walk<OwnedChain<'a>>
    requires { o ≤ row_count rows.now }
    ensures { result ≡ places (owned_by rows.now o x) (row_count rows.now) }
{
    Walk::new(OwnedChain::numbered(rows.rows, rows.table, o, x))
}

// The first of them, the number of rows for none.
pub fn first_owned(rows: &ByOwner, o: usize, x: usize) -> usize
    requires { o ≤ row_count rows.now }
    ensures { First (owned_by rows.now o x) 0 (row_count rows.now) result }
{
    OwnedChain::numbered(rows.rows, rows.table, o, x).first_place()
}

// The next one after row i, which is one.
#[tactic(auto, using(crate::proofs::Owning::owner_low))]
pub fn next_owned(rows: &ByOwner, o: usize, x: usize, i: usize) -> usize
    requires { Stands (owned_by rows.now o x) (row_count rows.now) i × (i < row_count rows.now) }
    ensures { First (owned_by rows.now o x) (suc i) (row_count rows.now) result }
{
    OwnedChain::numbered(rows.rows, rows.table, o, x).next_place(i)
}

// The first, if there is one.
pub fn find_owned(rows: &ByOwner, o: usize, x: usize) -> Option<usize>
    requires { o ≤ row_count rows.now }
    ensures { result ≡ first_place (owned_by rows.now o x) (row_count rows.now) }
{
    OwnedChain::numbered(rows.rows, rows.table, o, x).find_first()
}
