// The pieces of the bookings, an activity or one of its parts, and who is held only as a companion: `piece_key` and `companions_among` of
// scheduler/feasibility.rs. Each is found along chains of rows; who is held is found once for a sheet. Rows by kind and by owner are asked in a clause to be
// `Accepted`, and to be the same rows: a `Sheet`, whose type says more than that, would ask more of callers.
#![tactic(auto)]

ghost use Rattle.std.specs.Prelude.{◌≡◌, ◌<◌, ◌≤◌, ℕ, Bool, true, not, ◌&&◌};
ghost use Rattle.loops.specs.inner.Chain.{Blind};
ghost use Rattle.loops.specs.inner.Tells.{TellsAs};
ghost use Rattle.loops.specs.Search.{any_below, first_place};
ghost use Rattle.rows.specs.Cells.{row_count, num, is};
ghost use Rattle.rows.specs.Kinds.{kind_number};
ghost use Rattle.sheet.specs.Places.{of_kind};
ghost use Rattle.sheet.specs.inner.Accepted.{Accepted};
ghost use Rattle.owners.specs.inner.Owners.{owned_by};
ghost use Rattle.pieces.specs.inner.Bookings.{index_key, key_at, in_piece, same_booking, first_on, names, holds_for};
ghost use Rattle.pieces.specs.inner.Held.{held_at, Held};
ghost use Rattle.pieces.specs.inner.Marks.{Marks};

pub mod marked_rows;

pub use marked_rows::{HeldMarks, MarkedRows};
use owners::{ByOwner, LinkIndex, OwnerIndex, Owners};
use rows::Kind;
use sheet::{ByKind, Found, KindIndex, Rows};

// A part index as a number: index + 1000001, and 0 for none, which comes before every index: so pieces are compared and ordered as numbers.
pub fn index_key(x: i64) -> u64
    ensures { result ≡ index_key x }
{
    if x < -1000000 {
        return 0;
    }
    if x < 0 {
        return (x + 1000001) as u64;
    }
    x as u64 + 1000001
}

// The part index of booking k.
#[tactic(auto, using(crate::proofs::Indices::key_read))]
pub fn key_at(rows: &[i64], k: usize) -> u64
    ensures { result ≡ key_at rows.now k }
{
    index_key(rows::cell_at(rows, k, 7))
}

// Whether row j is a booking of the piece of booking k.
#[tactic(auto, unfolding(crate::specs::inner::Bookings::in_piece))]
pub fn in_piece(rows: &[i64], k: usize, j: usize) -> bool
    ensures { result ≡ in_piece rows.now k j }
{
    rows::is_of_kind(rows, j, Kind::Booking)
        && rows::is_at(rows, j, 1, rows::num_at(rows, k, 1))
        && key_at(rows, j) == key_at(rows, k)
}

// ---- rows that name two

#[tactic(auto, unfolding(crate::specs::inner::Bookings::names))]
fn names_at(rows: &[i64], x: usize, a: u64, b: u64, i: usize) -> bool
    ensures { result ≡ names rows.now x a b i }
{
    rows::is_at(rows, i, 0, x as u64) && rows::is_at(rows, i, 1, a) && rows::is_at(rows, i, 2, b)
}

// The first row of a kind that names a and b, among the rows that belong to row o.
pub fn find_naming(rows: &ByOwner, o: usize, kind: Kind, a: u64, b: u64) -> Option<usize>
    requires { (o ≤ row_count rows.now) × Blind (owned_by rows.now o (kind_number kind)) (names rows.now (kind_number kind) a b) }
    ensures { result ≡ first_place (names rows.now (kind_number kind) a b) (row_count rows.now) }
{
    find_naming_by_number(rows, o, kind.number() as usize, a, b)
}

// The same by the number of the kind, whatever it is.
pub fn find_naming_by_number(rows: &ByOwner, o: usize, x: usize, a: u64, b: u64) -> Option<usize>
    requires { (o ≤ row_count rows.now) × Blind (owned_by rows.now o x) (names rows.now x a b) }
    ensures { result ≡ first_place (names rows.now x a b) (row_count rows.now) }
{
    owners::owned_by_number(rows, o, x).find(|k| names_at(rows.as_slice(), x, a, b, *k))
}

// ---- the first bookings

// Whether row j is a booking of booking k's piece, on the same resource.
#[tactic(auto, unfolding(crate::specs::inner::Bookings::same_booking))]
fn is_same(rows: &[i64], k: usize, j: usize) -> bool
    ensures { result ≡ same_booking rows.now k j }
{
    rows::is_at(rows, j, 3, rows::num_at(rows, k, 3)) && in_piece(rows, k, j)
}

// Whether no booking before booking k is of its piece and on its resource.
fn is_first(rows: &ByKind, k: usize) -> bool
    requires { k < row_count rows.now }
    ensures { result ≡ not (any_below (same_booking rows.now k) k) }
{
    rows.named_above(Kind::Booking, rows.num(k, 1), k)
        .find_passing(|j| is_same(rows.as_slice(), k, j))
        .is_none()
}

#[tactic(auto, unfolding(crate::specs::inner::Bookings::first_on))]
fn first_at(rows: &ByKind, k: usize) -> bool
    requires { k < row_count rows.now }
    ensures { result ≡ first_on rows.now k }
{
    rows.is_of_kind(k, Kind::Booking) && is_first(rows, k)
}

// Marks the rows that pass a test: true at each, false at the others and past the last one. There is no heap: a mark for each of at most 800 rows.
fn mark_into<F: Fn(usize) -> bool>(rows: &[i64], marks: &mut [bool; 800], test: F)
    requires few { row_count rows.now ≤ 800 }
    requires callable { (k : ℕ) → k < row_count rows.now → F.pre test k }
    ensures { (f : ℕ → Bool) → TellsAs (λ b. b) (row_count rows.now) (F.post test) f → Marks rows.now f marks.new }
{
    *marks = [false; 800];
    for k in 0..rows::row_count(rows) {
        marks[k] = test(k);
    }
}

// True at each booking that is the first of its piece on its resource.
fn firsts_of(rows: &ByKind) -> [bool; 800]
    ensures { Marks rows.now (first_on rows.now) result }
{
    let mut firsts = [false; 800];
    mark_into(rows.as_slice(), &mut firsts, |k| first_at(rows, k));
    firsts
}

// ---- who is held

// The rows of an accepted sheet, with which bookings are the first of their pieces on their resources: who holds whom is found by it.
#[derive(Drop)]
struct Holders<'a> {
    rows: &'a ByKind<'a>,
    owners: &'a Owners<'a>,
    firsts: [bool; 800],
    ghost accepted: { Accepted rows.now },
    ghost same_rows: { owners.now ≡ rows.now },
    ghost marked: { Marks rows.now (first_on rows.now) firsts },
}

impl<'a> Holders<'a> {
    fn new(rows: &'a ByKind<'a>, owners: &'a Owners<'a>) -> Holders<'a>
        requires { Accepted rows.now × (owners.now ≡ rows.now) }
        ensures { result.rows.now ≡ rows.now }
    {
        Holders {
            rows,
            owners,
            firsts: firsts_of(rows),
        }
    }

    // Whether r is a companion of the resource of booking j.
    fn is_companion(&self, j: usize, r: u64) -> bool
        requires { (j < row_count self.now.rows.now) × (is self.now.rows.now j 0 23 ≡ true) }
        ensures { result ≡ any_below (names self.now.rows.now 13 (num self.now.rows.now j 3) r) (row_count self.now.rows.now) }
    {
        let Found::At(o) = self.owners.booked_resource(j) else {
            return false;
        };
        let by_owner = self.owners.by_owner();
        find_naming(&by_owner, o, Kind::Companion, self.rows.num(j, 3), r).is_some()
    }

    // Whether booking j is of booking k's piece, on a resource that k's resource is a companion of.
    #[tactic(auto, unfolding(crate::specs::inner::Bookings::holds_for))]
    fn holds_for(&self, k: usize, j: usize) -> bool
        requires { (j < row_count self.now.rows.now) × (is self.now.rows.now j 0 23 ≡ true) }
        ensures { result ≡ holds_for self.now.rows.now k j }
    {
        let r = self.rows.num(k, 3);
        !self.rows.has(j, 3, r) && self.is_companion(j, r) && in_piece(self.rows.as_slice(), k, j)
    }

    // The same, where booking j is the first of its resource: the others hold what it holds.
    #[tactic(auto, using(crate::proofs::Chains::first_kind, crate::proofs::Marks::mark_is))]
    fn first_holds(&self, k: usize, j: usize) -> bool
        requires { j < row_count self.now.rows.now }
        ensures { result ≡ (first_on self.now.rows.now j && holds_for self.now.rows.now k j) }
    {
        self.firsts[j] && self.holds_for(k, j)
    }

    // Whether a booking of booking k's piece holds k's resource as a companion.
    fn is_held(&self, k: usize) -> bool
        ensures { result ≡ any_below (holds_for self.now.rows.now k) (row_count self.now.rows.now) }
    {
        self.rows
            .named(Kind::Booking, self.rows.num(k, 1))
            .find_passing(|j| self.first_holds(k, j))
            .is_some()
    }

    // Whether row k is a booking that is held.
    #[tactic(auto, using(crate::proofs::Companions::held_told))]
    fn held_at(&self, k: usize) -> bool
        requires { k < row_count self.now.rows.now }
        ensures { result ≡ held_at self.now.rows.now k }
    {
        self.rows.is_of_kind(k, Kind::Booking) && self.is_held(k)
    }
}

// Marks each booking that is held, each looked at.
fn mark_held(rows: &ByKind, owners: &Owners, held: &mut [bool; 800])
    requires { Accepted rows.now × (owners.now ≡ rows.now) }
    ensures { Held rows.now held.new }
{
    let holders = Holders::new(rows, owners);
    mark_into(rows.as_slice(), held, |k| holders.held_at(k));
}

// Whether the sheet has a row that names a companion.
#[tactic(auto, using(chains::proofs::WalkLaws::walk_some))]
fn names_companions(rows: &ByKind) -> bool
    ensures { result ≡ any_below (of_kind rows.now 13) (row_count rows.now) }
{
    rows.of_kind(Kind::Companion).next().is_some()
}

// Marks each booking that is held. Where the sheet names no companions that is none.
#[tactic(auto, using(crate::proofs::Companions::none_held))]
pub fn held_into(rows: &ByKind, owners: &Owners, held: &mut [bool; 800])
    requires { Accepted rows.now × (owners.now ≡ rows.now) }
    ensures { Held rows.now held.new }
{
    if names_companions(rows) {
        mark_held(rows, owners, held);
    } else {
        *held = [false; 800];
    }
}

// Whether booking k is held, by the marks. Of rows as a slice; `HeldMarks::is_held` is the same of rows that carry their marks.
#[tactic(auto, using(crate::proofs::Marks::mark_is))]
pub fn is_marked(rows: &[i64], held: &[bool; 800], k: usize) -> bool
    requires { Held rows.now held.now × (k < row_count rows.now) }
    ensures { result ≡ held_at rows.now k }
{
    held[k]
}
