// Which resources a requirement takes, and what an activity uses of a resource: `is_candidate` and `usage_on` of models/activity.rs.
#![tactic(auto)]

ghost use Rattle.std.specs.Prelude.{◌≡◌, true, ◌&&◌, ◌<◌, ◌≤◌, None, Some};
ghost use Rattle.loops.specs.Search.{any_below};
ghost use Rattle.rows.specs.Kinds.{kind_number};
ghost use Rattle.rows.specs.Cells.{row_count, num, is};
ghost use Rattle.sheet.specs.Places.{place_of};
ghost use Rattle.sheet.specs.Refusals.{refusal_of};
ghost use Rattle.model.specs.Sheet.{sheet};
ghost use Rattle.owners.specs.inner.Owners.{owned_by};
ghost use Rattle.model.specs.Activity.{is_candidate, usage_on};
ghost use Rattle.model.specs.inner.Records.{activity_of, requirement_of, resource_of};

use owners::{ByOwner, OwnerIndex};
use rows::Kind;
use sheet::Rows;

// Whether a row of a kind that belongs to row o has x in column c. That o is a row, or their number, is what `owned_by` asks of whoever calls it.
pub fn lists(rows: &ByOwner, o: usize, kind: Kind, c: usize, x: u64) -> bool
    requires { o ≤ row_count rows.now }
    ensures { result ≡ any_below (λ k. owned_by rows.now o (kind_number kind) k && is rows.now k c x) (row_count rows.now) }
{
    rows.any_owned(o, kind, |k| rows.has(k, c, x))
}

// Whether the resource of row k may fill the requirement of row q: one of its candidates or, where it lists none, one of its type.
#[tactic(auto, using(crate::proofs::Uses::by_list, crate::proofs::Uses::by_type))]
pub fn is_candidate(rows: &ByOwner, q: usize, k: usize) -> bool
    requires { (q < row_count rows.now) × (is rows.now q 0 5 ≡ true) }
    ensures { result ≡ is_candidate (sheet rows.now) (requirement_of rows.now q) (resource_of rows.now k) }
{
    if rows.has_owned(q, Kind::Candidate) {
        return lists(rows, q, Kind::Candidate, 3, rows.num(k, 1));
    }
    rows.has(k, 2, rows.num(q, 2))
}

// What the activity of row a uses of the resource of row k.
#[tactic(auto, using(chains::proofs::PlaceLaws::left_all, sheet::proofs::Lookups::place_low, crate::proofs::Uses::usage_found, crate::proofs::Uses::usage_most), unfolding(crate::proofs::Uses::first_usage, owners::specs::inner::Owners::owned_by))]
pub fn usage_on(rows: &ByOwner, a: usize, k: usize) -> u64
    requires { (refusal_of rows.now ≡ None) × (place_of rows.now 2 (num rows.now a 1) ≡ Some a) }
    ensures value { result ≡ usage_on (sheet rows.now) (activity_of rows.now a) (resource_of rows.now k) }
    ensures bound { result ≤ 1000000 }
{
    for q in rows.owned_by(a, Kind::Requirement) {
        if is_candidate(rows, q, k) {
            return rows.num(q, 4);
        }
    }
    1
}
