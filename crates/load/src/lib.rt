// The load of a resource: what its bookings take of it, its limit, and the walk over the booked resources.
#![tactic(auto)]

ghost use Rattle.std.specs.Prelude.{◌≡◌, true, ◌<◌, ◌≤◌};
ghost use Rattle.rows.specs.Cells.{row_count, is};
ghost use Rattle.model.specs.Sheet.{sheet};
ghost use Rattle.model.specs.inner.Records.{assignment_of};
ghost use Rattle.load.specs.Load.{usage, cap_override, base_of, cap_of};

mod booking;
mod bookings;
mod first_bookings;

pub use booking::{Booking, NO_BOOKING};
pub use bookings::{Bookings, gather_bookings, peak_of};
pub use first_bookings::{FirstBookings, booked};
use model::Sheet;
use owners::LinkIndex;
use rows::Kind;
use sheet::{ByKind, Found, KindIndex, Rows};

// What booking k takes of its resource.
#[tactic(auto, using(owners::proofs::Links::books, crate::proofs::Usages::own_place_lem, model::proofs::Finds::find_activity_lem, model::proofs::Finds::find_resource_lem), unfolding(crate::specs::Load::usage))]
fn usage_of(rows: &Sheet, k: usize) -> u64
    requires { (k < row_count rows.now) × (is rows.now k 0 23 ≡ true) }
    ensures value { result ≡ usage (sheet rows.now) (assignment_of rows.now k) }
    ensures bound { result ≤ 1000000 }
{
    let Found::At(a) = rows.activity_of(k) else {
        return 1;
    };
    let Found::At(x) = rows.booked_resource(k) else {
        return 1;
    };
    candidates::usage_on(&rows.by_owner(), a, x)
}

// ---- the limit of a resource

// At least 1, and 1 for an unknown resource.
#[tactic(auto, using(model::proofs::Finds::find_resource_lem, crate::proofs::Caps::one_or_more), unfolding(crate::specs::Load::base_of))]
fn base_of(rows: &ByKind, x: u64) -> i64
    ensures { result ≡ base_of (sheet rows.now) x }
{
    let Found::At(k) = rows.find_resource(x) else {
        return 1;
    };
    rows.cell(k, 3).max(1)
}

// The last capacity constraint of the resource.
#[tactic(auto, using(chains::proofs::PlaceLaws::left_all, crate::proofs::Caps::override_is), unfolding(crate::proofs::Caps::later_cap))]
fn cap_override(rows: &ByKind, x: u64) -> Option<i64>
    ensures { result ≡ cap_override (sheet rows.now) x }
{
    let mut last = None;
    for k in rows.of_kind(Kind::Capacity) {
        if rows.has(k, 1, x) {
            last = Some(rows.cell(k, 2));
        }
    }
    last
}

// The limit of the resource x.
#[tactic(auto, unfolding(crate::specs::Load::cap_of))]
pub fn cap_of(rows: &ByKind, x: u64) -> i64
    ensures { result ≡ cap_of (sheet rows.now) x }
{
    let base = base_of(rows, x);
    let Some(c) = cap_override(rows, x) else {
        return base;
    };
    base.min(c)
}
