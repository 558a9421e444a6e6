// The rows of a sheet, and their walks by kind and by name.
ghost use Rattle.std.specs.Prelude.{◌≡◌, ◌≤◌};
ghost use Rattle.loops.specs.Search.{any_below};
ghost use Rattle.loops.specs.inner.Chain.{First, Stands, same};
ghost use Rattle.rows.specs.Kinds.{kind_number};
ghost use Rattle.rows.specs.Cells.{row_count};
ghost use Rattle.sheet.specs.Places.{named};
ghost use Rattle.sheet.specs.inner.Groups.{named_pair};
ghost use Rattle.sheet.specs.inner.Index.{name_hash, name_key, Kinds};

use crate::{Found, KindTable};
use chains::{Chain, Walk};
use rows::Kind;
use std::marker::Model;

// What holds the rows of a sheet.
pub trait Rows {
    ghost use Rattle.std.specs.Prelude.{◌≡◌, ◌<◌, ◌≤◌, List, ℤ};
    ghost use Rattle.rows.specs.Kinds.{kind_of, kind_number};
    ghost use Rattle.rows.specs.Cells.{row_count, cell, num, is};
    ghost use Rattle.rows.specs.Ranges.{is_none};

    ghost rows: { Self → List ℤ };

    // What is known of such rows.
    ghost known: { List ℤ → Type 0 };

    fn as_slice(&self) -> &[i64]
        ensures rows { result.now ≡ rows self.now }
        ensures known { known (rows self.now) };

    fn row_count(&self) -> usize
        ensures value { result ≡ row_count (rows self.now) }
        ensures known { known (rows self.now) }
    {
        rows::row_count(self.as_slice())
    }

    // Column c of row k, 0 outside.
    fn cell(&self, k: usize, c: usize) -> i64
        ensures { result ≡ cell (rows self.now) k c }
    {
        rows::cell_at(self.as_slice(), k, c)
    }

    // The same as a number that is never negative.
    fn num(&self, k: usize, c: usize) -> u64
        ensures value { result ≡ num (rows self.now) k c }
        ensures bound { result < 9223372036854775808 }
        ensures known { known (rows self.now) }
    {
        rows::num_at(self.as_slice(), k, c)
    }

    // Whether column c of row k is v.
    fn has(&self, k: usize, c: usize, v: u64) -> bool
        ensures { result ≡ is (rows self.now) k c v }
    {
        rows::is_at(self.as_slice(), k, c, v)
    }

    // The kind of row k, if its number stands for one.
    fn kind_at(&self, k: usize) -> Option<Kind>
        ensures { result ≡ kind_of (num (rows self.now) k 0) }
    {
        rows::kind_at(self.as_slice(), k)
    }

    fn is_of_kind(&self, k: usize, kind: Kind) -> bool
        ensures { result ≡ is (rows self.now) k 0 (kind_number kind) }
    {
        rows::is_of_kind(self.as_slice(), k, kind)
    }

    // Whether column c of row k stands for none.
    fn is_none(&self, k: usize, c: usize) -> bool
        ensures { result ≡ is_none (cell (rows self.now) k c) }
    {
        rows::is_none(self.cell(k, c))
    }
}

// Rows whose tables of kinds and names are filled.
pub trait KindIndex: Rows {
    ghost use Rattle.std.specs.Prelude.{◌≡◌, ◌≤◌};
    ghost use Rattle.chains.specs.Places.{places};
    ghost use Rattle.rows.specs.Kinds.{kind_number};
    ghost use Rattle.rows.specs.Cells.{row_count};
    ghost use Rattle.sheet.specs.Places.{of_kind, named, place_of, task_place, activity_place, resource_place};
    ghost use Rattle.loops.specs.Search.{any_below};
    ghost use Rattle.sheet.specs.inner.Found.{found_of};
    ghost use Rattle.sheet.specs.inner.Groups.{named_pair};
    ghost use Rattle.sheet.specs.inner.Index.{Kinds};

    fn kinds(&self) -> &KindTable
        ensures { Kinds (Self.rows self.now) result.now };

    // The rows of a kind.
    fn of_kind(&self, kind: Kind) -> Walk<KindChain<'_>>
        ensures places { result ≡ places (of_kind (Self.rows self.now) (kind_number kind)) (row_count (Self.rows self.now)) }
        ensures known { Self.known (Self.rows self.now) }
    {
        Walk::new(KindChain {
            rows: ByKind::new(self.as_slice(), self.kinds()),
            kind,
        })
    }

    // The rows of a kind with that number in column 1.
    fn named(&self, kind: Kind, id: u64) -> Walk<NamedChain<'_>>
        ensures places { result ≡ places (named (Self.rows self.now) (kind_number kind) id) (row_count (Self.rows self.now)) }
        ensures known { Self.known (Self.rows self.now) }
    {
        Walk::new(NamedChain::new(self.as_slice(), self.kinds(), kind, id))
    }

    // Those above row k.
    fn named_above(&self, kind: Kind, id: u64, k: usize) -> Walk<NamedChain<'_>>
        requires { k ≤ row_count (Self.rows self.now) }
        ensures places { result ≡ places (named (Self.rows self.now) (kind_number kind) id) k }
        ensures known { Self.known (Self.rows self.now) }
    {
        Walk::below(NamedChain::new(self.as_slice(), self.kinds(), kind, id), k)
    }

    // Whether an earlier row than k is of a kind, with that id.
    fn has_earlier(&self, kind: Kind, id: u64, k: usize) -> bool
        requires { k ≤ row_count (Self.rows self.now) }
        ensures { result ≡ any_below (named (Self.rows self.now) (kind_number kind) id) k }
    {
        NamedChain::new(self.as_slice(), self.kinds(), kind, id).has_earlier(k)
    }

    // Whether one of those has that number in column 2.
    fn has_earlier_pair(&self, kind: Kind, id: u64, other: u64, k: usize) -> bool
        requires { k ≤ row_count (Self.rows self.now) }
        ensures { result ≡ any_below (named_pair (Self.rows self.now) (kind_number kind) id other) k }
    {
        NamedChain::new(self.as_slice(), self.kinds(), kind, id).has_earlier_pair(other, k)
    }

    // The first row of a kind with that id.
    #[tactic(auto, unfolding(crate::specs::Places::place_of))]
    fn find_named(&self, kind: Kind, id: u64) -> Option<usize>
        ensures place { result ≡ place_of (Self.rows self.now) (kind_number kind) id }
        ensures known { Self.known (Self.rows self.now) }
    {
        NamedChain::new(self.as_slice(), self.kinds(), kind, id).find_first()
    }

    // The source's lookups by id. Two of them answer the enum that the project's paper asks for (docs/DECISIONS.md, 26).
    fn find_task(&self, id: u64) -> Option<usize>
        ensures place { result ≡ task_place (Self.rows self.now) id }
        ensures known { Self.known (Self.rows self.now) }
    {
        self.find_named(Kind::Task, id)
    }

    fn find_activity(&self, id: u64) -> Found
        ensures place { found_of result ≡ activity_place (Self.rows self.now) id }
        ensures known { Self.known (Self.rows self.now) }
    {
        Found::from(self.find_named(Kind::Activity, id))
    }

    fn find_resource(&self, id: u64) -> Found
        ensures place { found_of result ≡ resource_place (Self.rows self.now) id }
        ensures known { Self.known (Self.rows self.now) }
    {
        Found::from(self.find_named(Kind::Resource, id))
    }
}

// The rows of a sheet with the tables of the rows by kind and by name; seen as the rows. There is no heap: the tables are arrays that are lent.
#[derive(Drop)]
pub struct ByKind<'a> {
    rows: &'a [i64],
    table: &'a KindTable,
}

impl<'a> Model for ByKind<'a> {
    ghost use Rattle.std.specs.Prelude.{List, ℤ};
    ghost use Rattle.sheet.specs.inner.Index.{Kinds};

    ghost Value = { List ℤ };

    ghost view = { λ s. s.rows.now };

    ghost invariant = { λ s. Kinds s.rows.now s.table.now };
}

impl<'a> ByKind<'a> {
    pub fn new(rows: &'a [i64], table: &'a KindTable) -> ByKind<'a>
        requires { Kinds rows.now table.now }
        ensures { result ≡ rows.now }
    {
        ByKind { rows, table }
    }
}

impl<'a> Rows for ByKind<'a> {
    ghost use Rattle.std.specs.Prelude.{List, ℤ, ◌≤◌};
    ghost use Rattle.rows.specs.Cells.{row_count};

    ghost rows = { λ s. s };

    ghost known = { λ rows. row_count rows ≤ 800 };

    fn as_slice(&self) -> &[i64] {
        self.rows
    }
}

impl<'a> KindIndex for ByKind<'a> {
    fn kinds(&self) -> &KindTable {
        self.table
    }
}

// The rows of a kind.
#[derive(Drop)]
pub struct KindChain<'a> {
    rows: ByKind<'a>,
    kind: Kind,
}

impl<'a> Model for KindChain<'a> {
    ghost use Rattle.std.specs.Prelude.{List, ℤ, ℕ};
    ghost use Rattle.rows.specs.Kinds.{kind_number};

    ghost Value = { List ℤ × ℕ };

    ghost view = { λ s. (s.rows, kind_number s.kind) };
}

impl<'a> Chain for KindChain<'a> {
    ghost use Rattle.rows.specs.Cells.{row_count};
    ghost use Rattle.sheet.specs.Places.{of_kind};

    ghost test = { λ s. of_kind s.0 s.1 };

    ghost end = { λ s. row_count s.0 };

    fn end_place(&self) -> usize {
        self.rows.row_count()
    }

    fn first_place(&self) -> usize {
        self.rows.table.kinds.first(self.kind.number() as usize)
    }

    fn next_place(&self, i: usize) -> usize {
        self.rows.table.kinds.next(i)
    }
}

// The rows of a kind that have a number in column 1.
#[derive(Drop)]
pub struct NamedChain<'a> {
    rows: ByKind<'a>,
    kind: Kind,
    id: u64,
}

impl<'a> Model for NamedChain<'a> {
    ghost use Rattle.std.specs.Prelude.{List, ℤ, ℕ};
    ghost use Rattle.rows.specs.Kinds.{kind_number};

    ghost Value = { List ℤ × ℕ × ℕ };

    ghost view = { λ s. (s.rows, kind_number s.kind, s.id) };
}

impl<'a> NamedChain<'a> {
    fn new(rows: &'a [i64], table: &'a KindTable, kind: Kind, id: u64) -> NamedChain<'a>
        requires { Kinds rows.now table.now }
        ensures { result ≡ (rows.now, kind_number kind, id) }
    {
        NamedChain {
            rows: ByKind::new(rows, table),
            kind,
            id,
        }
    }

    // The first row of all that share the chain.
    fn first_hashed(&self) -> usize
        ensures { First (same (name_key self.now.0) (name_hash self.now.1 self.now.2)) 0 (row_count self.now.0) result }
    {
        let key = crate::name_key(self.kind.number() as usize, self.id);
        self.rows.table.names.first(key)
    }

    // The first row of the kind with the number from row j on, which shares the chain.
    fn find_from(&self, j: usize) -> usize
        requires { Stands (same (name_key self.now.0) (name_hash self.now.1 self.now.2)) (row_count self.now.0) j }
        ensures { First (named self.now.0 self.now.1 self.now.2) j (row_count self.now.0) result }
    {
        let (rows, kind, id) = (self.rows.rows, self.kind, self.id);
        self.rows
            .table
            .names
            .find_from(j, rows::row_count(rows), |i| is_named(rows, kind, id, i))
    }

    // Whether one of them is earlier than row k.
    fn has_earlier(&self, k: usize) -> bool
        requires { k ≤ row_count self.now.0 }
        ensures { result ≡ any_below (named self.now.0 self.now.1 self.now.2) k }
    {
        self.find_from(self.first_hashed()) < k
    }

    // Whether one of those has that number in column 2. Along all rows that share the chain: to test kind and id first, as the walk of the rows of a
    // name does, took 1.21 of the time over 800 speeds of one activity (docs/SPEED.md).
    fn has_earlier_pair(&self, other: u64, k: usize) -> bool
        requires { k ≤ row_count self.now.0 }
        ensures { result ≡ any_below (named_pair self.now.0 self.now.1 self.now.2 other) k }
    {
        let (rows, kind, id) = (self.rows.rows, self.kind, self.id);
        let first = self.first_hashed();
        self.rows
            .table
            .names
            .find_from(first, k, |i| is_pair(rows, kind, id, other, i))
            < k
    }
}

impl<'a> Chain for NamedChain<'a> {
    ghost use Rattle.rows.specs.Cells.{row_count};
    ghost use Rattle.sheet.specs.Places.{named};

    ghost test = { λ s. named s.0 s.1 s.2 };

    ghost end = { λ s. row_count s.0 };

    fn end_place(&self) -> usize {
        rows::row_count(self.rows.rows)
    }

    fn first_place(&self) -> usize {
        self.find_from(self.first_hashed())
    }

    fn next_place(&self, i: usize) -> usize {
        self.find_from(self.rows.table.names.next(i))
    }
}

#[tactic(auto, using(loops::proofs::BranchLaws::half_fails, loops::proofs::BranchLaws::half_holds), unfolding(crate::specs::Places::named))]
fn is_named(rows: &[i64], kind: Kind, id: u64, i: usize) -> bool
    ensures { result ≡ named rows.now (kind_number kind) id i }
{
    rows::is_at(rows, i, 1, id) && rows::is_of_kind(rows, i, kind)
}

// Column 2 first: of the rows of one name only that number tells them apart.
#[tactic(auto, using(loops::proofs::BranchLaws::half_fails, loops::proofs::BranchLaws::half_holds), unfolding(crate::specs::inner::Groups::named_pair))]
fn is_pair(rows: &[i64], kind: Kind, id: u64, other: u64, i: usize) -> bool
    ensures { result ≡ named_pair rows.now (kind_number kind) id other i }
{
    rows::is_at(rows, i, 2, other) && is_named(rows, kind, id, i)
}
