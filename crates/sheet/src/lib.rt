// The rows of a sheet by kind, and by kind and name: chains of places, which tables hold. A lookup answers an enum; a table of places holds what was found as a number.
#![tactic(auto)]

ghost use Rattle.std.specs.Prelude.{◌≡◌, ◌<◌, ◌≤◌, get_or, set, replicate};
ghost use Rattle.rows.specs.Cells.{row_count};
ghost use Rattle.loops.specs.Search.{first_place};
ghost use Rattle.sheet.specs.Places.{is_constraint, named, place_of};
ghost use Rattle.sheet.specs.inner.Found.{found_of};
ghost use Rattle.sheet.specs.inner.Kept.{IsRow};
ghost use Rattle.sheet.specs.inner.Index.{name_hash, name_key, or_end, stored_place, Shaped, Kinds};

pub mod by_kind;

pub use by_kind::{ByKind, KindIndex, Rows};
use chains::ChainTable;
use rows::Kind;

// What a lookup of an activity or a resource answers. No Option: the project's paper asks for an enum of its own (docs/DECISIONS.md, 26). And no generic one for
// this and for spans `ActivitySpan`: it would be Option by another name, where the cases of these two say what was looked for.
#[derive(Clone, Copy)]
pub enum Found {
    At(usize),
    Nothing,
}

impl From<Option<usize>> for Found {
    ghost use Rattle.std.specs.Prelude.{◌≡◌};
    ghost use Rattle.sheet.specs.inner.Found.{found_of};

    ghost from_gives = { λ x r. found_of r ≡ x };

    fn from(x: Option<usize>) -> Found {
        match x {
            Some(k) => Found::At(k),
            None => Found::Nothing,
        }
    }
}

impl Found {
    // The place that was found.
    pub fn or_none(self) -> Option<usize>
        ensures { result ≡ found_of self }
    {
        match self {
            Found::At(k) => Some(k),
            Found::Nothing => None,
        }
    }
}

// Whether row k is a constraint. The kinds of constraints follow one another: a range of their numbers tells all five, which a match would have to list.
#[tactic(auto, unfolding(crate::specs::Places::is_constraint))]
pub fn is_constraint(rows: &[i64], k: usize) -> bool
    ensures { result ≡ is_constraint rows.now k }
{
    let constraints = Kind::Precedence.number()..=Kind::Synchronize.number();
    constraints.contains(&rows::num_at(rows, k, 0))
}

// ---- tables of places

// A place as a number, the number of rows for none: tables of 16-bit places hold it so, and only who fills or reads one asks for it.
#[tactic(auto, unfolding(crate::specs::inner::Index::or_end))]
pub fn or_end(rows: &[i64], place: Option<usize>) -> usize
    ensures { result ≡ or_end rows.now place }
{
    place.unwrap_or(rows::row_count(rows))
}

// The row that a stored place names.
#[tactic(auto, using(crate::proofs::Stored::stored_some, crate::proofs::Stored::stored_none))]
pub fn stored_place(rows: &[i64], i: usize) -> Option<usize>
    ensures { result ≡ stored_place rows.now i }
{
    if i < rows::row_count(rows) {
        return Some(i);
    }
    None
}

// ---- rows by kind

// The tables of the rows by kind, and by kind and number in column 1: 32 chains, and 2,048.
#[derive(Drop)]
pub struct KindTable {
    kinds: ChainTable<832>,
    names: ChainTable<2848>,
}

impl KindTable {
    // Of no sheet yet.
    pub fn new() -> KindTable
        ensures kinds { result.kinds ≡ replicate 832 0 }
        ensures names { result.names ≡ replicate 2848 0 }
    {
        KindTable {
            kinds: ChainTable::new(),
            names: ChainTable::new(),
        }
    }
}

// The chain of a kind and a number in column 1; other pairs may share it. The kind by its number: the fill asks it of each row, and needs none of them to be a kind.
// The remainder of a power of two is a mask.
fn name_key(x: usize, id: u64) -> usize
    requires { x < 32 }
    ensures { result ≡ name_hash x id }
{
    ((id % 2048) as usize * 37 + x * 389) % 2048
}

// Fills the tables of the rows by kind.
pub fn kinds_into(rows: &[i64], t: &mut KindTable)
    requires { Shaped rows.now }
    ensures { Kinds rows.now t.new }
{
    let n = rows::row_count(rows);
    t.kinds.clear(n);
    t.names.clear(n);
    for i in (0..n).rev() {
        let x = rows::num_at(rows, i, 0) as usize;
        t.kinds.link(x, i);
        t.names.link(name_key(x, rows::num_at(rows, i, 1)), i);
    }
}

// The first row of a number in column 0 and one in column 1, among all rows.
#[tactic(auto, using(loops::proofs::SearchLaws::place_zero, loops::proofs::SearchLaws::place_miss, loops::proofs::SearchLaws::place_hit), unfolding(crate::specs::Places::named))]
fn look_for<T: Rows>(rows: &T, x: u64, id: u64) -> Option<usize>
    ensures { result ≡ first_place (named (T.rows rows.now) x id) (row_count (T.rows rows.now)) }
{
    for k in 0..rows.row_count() {
        if rows.has(k, 0, x) && rows.has(k, 1, id) {
            return Some(k);
        }
    }
    None
}

// The first row with that id of the kind with number x. Any number: where it stands for no kind, no chain is named by it, and all rows are looked through.
#[tactic(auto, unfolding(crate::specs::Places::place_of))]
pub fn find_named<T: KindIndex>(rows: &T, x: usize, id: u64) -> Option<usize>
    ensures { result ≡ place_of (T.rows rows.now) x id }
{
    match Kind::try_from(x as u64) {
        Ok(kind) => rows.find_named(kind, id),
        Err(_) => look_for(rows, x as u64, id),
    }
}

// ---- places that a caller keeps, one for each row

fn set_place(t: &mut [u16; 800], k: usize, i: usize)
    requires { (k < 800) × (i ≤ 800) }
    ensures { t.new ≡ set t.old k i }
{
    t[k] = i as u16;
}

// Keeps what was found for row k.
#[tactic(auto, using(crate::proofs::Keeping::kept_small, crate::proofs::Keeping::kept_set))]
pub fn keep_place(rows: &[i64], t: &mut [u16; 800], k: usize, place: Option<usize>)
    requires { (row_count rows.now ≤ 800) × (k < 800) × IsRow rows.now place }
    ensures { t.new ≡ set t.old k (or_end rows.now place) }
{
    set_place(t, k, or_end(rows, place));
}

// What was kept for row k.
#[tactic(auto, using(crate::proofs::Keeping::kept_read))]
pub fn kept_place(rows: &[i64], t: &[u16; 800], k: usize) -> Option<usize>
    requires { k < 800 }
    ensures { result ≡ stored_place rows.now (get_or t.now k 0) }
{
    stored_place(rows, usize::from(t[k]))
}
