// The row that each row belongs to, and the rows that belong to a row. Owners are found once and kept in a table; the rows of a kind that
// belong to a row are chains of places, as the rows of a kind are.
#![tactic(auto)]

ghost use Rattle.std.specs.Prelude.{Some, ◌≡◌, ◌+◌, ◌*◌, ◌%◌, ◌<◌, ◌≤◌, set, replicate};
ghost use Rattle.rows.specs.Cells.{row_count, num};
ghost use Rattle.sheet.specs.Places.{requirement_place, constraint_place};
ghost use Rattle.owners.specs.inner.Owners.{owner_kind, owner_place, own_place, res_place, owned_key, Numbered, Linked, Owned};

pub mod by_owner;
mod owner_links;
mod sheet_index;
mod sheet_owners;

pub use by_owner::{ByOwner, OwnerIndex, find_owned, first_owned, next_owned, owned_by_number};
use chains::ChainTable;
pub use owner_links::{LinkIndex, OwnerLinks};
use rows::Kind;
use sheet::{ByKind, KindIndex, Rows};
pub use sheet_index::SheetIndex;
pub use sheet_owners::Owners;

// ---- a row by its number: among the requirements of an activity, or among the constraints

// Requirement m, from 0, of an activity.
fn find_requirement(rows: &ByKind, activity: u64, m: u64) -> Option<usize>
    ensures { result ≡ requirement_place rows.now activity m }
{
    let mut left = rows.named(Kind::Requirement, activity);
    // Those before it are passed, and no place is looked for behind it: `nth(m)` would look on along a chain that other rows share, for each row that names it.
    if m > 0 {
        left.nth(m as usize - 1)?;
    }
    left.peek()
}

// The row of constraint place m at place m: `Numbered`, which the functions below ask of the table, as long as one fill needs it. The table is lent: one that is
// returned stands twice in the caller's frame. Counted beside the for: the invariant has both, the row and how many constraints lie above it.
#[tactic(auto, using(crate::proofs::Tables::numbering_low))]
fn number_rows(rows: &[i64], t: &mut [u16; 800])
    requires { (row_count rows.now ≤ 800) × (t.old ≡ replicate 800 (row_count rows.now)) }
    ensures { Numbered rows.now t.new }
{
    let n = rows::row_count(rows);
    let mut next = 0;
    for k in 0..n {
        if sheet::is_constraint(rows, k) {
            t[next] = k as u16;
            next += 1;
        }
    }
}

// The row of constraint place m.
#[tactic(auto, using(crate::proofs::Tables::number_read, crate::proofs::Tables::past_end))]
fn constraint_at(rows: &[i64], numbers: &[u16; 800], m: u64) -> Option<usize>
    requires { Numbered rows.now numbers.now }
    ensures { result ≡ constraint_place rows.now m }
{
    if m < 800 {
        return sheet::stored_place(rows, usize::from(numbers[m as usize]));
    }
    None
}

// ---- the row that a row belongs to

// What a row belongs to.
#[derive(Clone, Copy, PartialEq, Eq)]
pub enum Owner {
    TaskRow,
    ActivityRow,
    RequirementRow,
    ResourceRow,
    ConstraintRow,
}

// What the rows of a kind belong to. The kind by its number in column 0: a row is asked whatever that number is, and one that stands for no kind has no owner.
#[tactic(auto, unfolding(crate::specs::inner::Owners::owner_kind))]
pub fn owner_kind(kind: u64) -> Option<Owner>
    ensures { result ≡ owner_kind kind }
{
    match Kind::try_from(kind).ok()? {
        Kind::Activity => Some(Owner::TaskRow),
        Kind::Overlap
        | Kind::Split
        | Kind::Requirement
        | Kind::Predecessor
        | Kind::Speed
        | Kind::FixedTiming
        | Kind::ActivityWindow
        | Kind::Booking
        | Kind::TimeOnlySpan => Some(Owner::ActivityRow),
        Kind::Candidate | Kind::WantedSkill => Some(Owner::RequirementRow),
        Kind::Skill | Kind::Companion | Kind::Transport | Kind::ResourceWindow => {
            Some(Owner::ResourceRow)
        }
        Kind::Member => Some(Owner::ConstraintRow),
        _ => None,
    }
}

// The row that row k belongs to.
#[tactic(auto, unfolding(crate::specs::inner::Owners::owner_place, crate::specs::inner::Owners::owner_of))]
fn owner_place(rows: &ByKind, numbers: &[u16; 800], k: usize) -> Option<usize>
    requires { Numbered rows.now numbers.now }
    ensures { result ≡ owner_place rows.now k }
{
    match owner_kind(rows.num(k, 0))? {
        Owner::TaskRow => rows.find_task(rows.num(k, 2)),
        Owner::ActivityRow => rows.find_activity(rows.num(k, 1)).or_none(),
        Owner::RequirementRow => find_requirement(rows, rows.num(k, 1), rows.num(k, 2)),
        Owner::ResourceRow => rows.find_resource(rows.num(k, 1)).or_none(),
        Owner::ConstraintRow => constraint_at(rows.as_slice(), numbers, rows.num(k, 1)),
    }
}

// The same as a number, the number of rows for none.
#[tactic(auto, unfolding(crate::specs::inner::Owners::own_place))]
fn own_place(rows: &ByKind, numbers: &[u16; 800], k: usize) -> usize
    requires { Numbered rows.now numbers.now }
    ensures { result ≡ own_place rows.now k }
{
    sheet::or_end(rows.as_slice(), owner_place(rows, numbers, k))
}

// The row of the resource of row k, a booking: a number too, the number of rows for none and for other rows, as the table holds it.
#[tactic(auto, unfolding(crate::specs::inner::Owners::res_place))]
fn res_place(rows: &ByKind, k: usize) -> usize
    ensures { result ≡ res_place rows.now k }
{
    if rows.is_of_kind(k, Kind::Booking) {
        let resource = rows.find_resource(rows.num(k, 3));
        return sheet::or_end(rows.as_slice(), resource.or_none());
    }
    rows.row_count()
}

// The row that each row belongs to, and the row of each booking's resource. No heap: 16-bit places for at most 800 rows, where the number of rows stands for
// none. Two arrays, not one of pairs: whoever reads one asks for nothing of the other.
#[derive(Drop)]
pub struct RowLinks {
    owners: [u16; 800],
    resources: [u16; 800],
}

impl RowLinks {
    // Of no sheet yet.
    pub fn new() -> RowLinks
        ensures owners { result.owners ≡ replicate 800 0 }
        ensures resources { result.resources ≡ replicate 800 0 }
    {
        RowLinks {
            owners: [0u16; 800],
            resources: [0u16; 800],
        }
    }

    // The number of rows, which stands for none.
    fn clear(&mut self, n: usize)
        requires { n ≤ 800 }
        ensures owners { self.new.owners ≡ replicate 800 n }
        ensures resources { self.new.resources ≡ replicate 800 n }
    {
        self.owners.fill(n as u16);
        self.resources.fill(n as u16);
    }

    fn set(&mut self, k: usize, owner: usize, resource: usize)
        requires { (k < 800) × (owner ≤ 800) × (resource ≤ 800) }
        ensures owners { self.new.owners ≡ set self.old.owners k owner }
        ensures resources { self.new.resources ≡ set self.old.resources k resource }
    {
        self.owners[k] = owner as u16;
        self.resources[k] = resource as u16;
    }
}

// Fills the table of owners.
pub fn links_into(rows: &ByKind, t: &mut RowLinks)
    ensures { Linked rows.now t.new }
{
    let cells = rows.as_slice();
    let n = rows::row_count(cells);
    // No heap: a place for each of at most 800 rows.
    let mut numbers = [n as u16; 800];
    number_rows(cells, &mut numbers);
    t.clear(n);
    for k in 0..n {
        t.set(k, own_place(rows, &numbers, k), res_place(rows, k));
    }
}

// ---- the rows that belong to a row

// The rows as a slice tell that they are 800 at most, here and below.
#[tactic(auto, using(crate::proofs::Tables::own_times, crate::proofs::Tables::own_digit), unfolding(crate::specs::inner::Owners::owned_key))]
fn owned_key(rows: &OwnerLinks, k: usize) -> usize
    requires { k < row_count rows.now }
    ensures { result ≡ owned_key rows.now k }
{
    let own = rows.owner_of(k);
    let digit = rows::num_at(rows.as_slice(), k, 0) % 10;
    own * 10 + digit as usize
}

// Fills the table of the rows by owner and kind.
pub fn owned_into(rows: &OwnerLinks, t: &mut ChainTable<8810>)
    ensures { Owned rows.now t.new }
{
    let n = rows::row_count(rows.as_slice());
    t.clear(n);
    for i in (0..n).rev() {
        t.link(owned_key(rows, i), i);
    }
}
