// Check 5, `check_capacity`: each booked resource whose load exceeds its limit.
#![tactic(auto)]

ghost use Rattle.std.specs.Prelude.{◌≡◌, ◌<◌, pos};
ghost use Rattle.std.specs.Int.Signed.{lt_z};
ghost use Rattle.calendar.specs.Clock.{clock};
ghost use Rattle.findings.specs.inner.Told.{so_far, tell};
ghost use Rattle.model.specs.Sheet.{sheet};
ghost use Rattle.definition.specs.CheckCapacity.{check_resource, check_capacity};

use findings::{Findings, Violation, ViolationKind};
use load::{Bookings, NO_BOOKING};
use model::Sheet;
use sheet::Rows;

// Whether a load is above a limit; one below zero is below every load.
fn exceeds(load: u64, cap: i64) -> bool
    ensures { result ≡ lt_z cap (pos load) }
{
    u64::try_from(cap).ok().is_none_or(|c| c < load)
}

// The finding of the resource x.
#[tactic(auto, using(crate::proofs::Reported::resource_told))]
fn check_resource(rows: &Sheet, x: u64, bookings: &mut Bookings, found: &mut Findings)
    requires { x < 9223372036854775808 }
    ensures { so_far found.new ≡ tell (so_far found.old) (check_resource clock (sheet rows.now) x) }
{
    load::gather_bookings(rows, x, bookings);
    let over = exceeds(load::peak_of(bookings), load::cap_of(&rows.by_kind(), x));
    found.report(over, Violation::of(5, ViolationKind::CapacityExceeded, x));
}

// margin_lines walks the same resources to put lines: one function for both would take a closure that writes, and its contract would have to say
// of each such closure what it writes where.
#[tactic(auto, using(chains::proofs::PlaceLaws::left_all, crate::proofs::Reported::told_first, crate::proofs::Reported::capacity_told))]
pub fn check_capacity(rows: &Sheet, found: &mut Findings)
    ensures { so_far found.new ≡ tell (so_far found.old) (check_capacity clock (sheet rows.now)) }
{
    // No heap: room for a booking of each row.
    let mut room = [NO_BOOKING; 800];
    let mut bookings = Bookings::over(&mut room);
    let by_kind = rows.by_kind();
    for k in load::booked(&by_kind) {
        check_resource(rows, rows.num(k, 3), &mut bookings, found);
    }
}
