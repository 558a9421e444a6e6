// Refusals 4 and 5 of one row, which look at the others: an owner that is not in the sheet, a repeat of an earlier row.
#![tactic(auto)]

ghost use Rattle.std.specs.Prelude.{◌≡◌, ◌<◌, ◌≤◌, Some};
ghost use Rattle.rows.specs.Cells.{row_count};
ghost use Rattle.refusals.specs.Refusals.{verdict_of};
ghost use Rattle.sheet.specs.Refusals.{has_members, unowned, owner_fault, repeat_fault};
ghost use Rattle.sheet.specs.inner.Groups.{repeated_by};

use owners::{LinkIndex, Owner, OwnerLinks};
use refusals::{Reason, Verdict};
use rows::Kind;
use sheet::{ByKind, KindIndex, Rows};

// ---- 4

// Row k is of a kind that has members.
#[tactic(auto, using(std::proofs::lemmas::Bool::Decides::nat_tests), unfolding(sheet::specs::Refusals::has_members, rows::specs::Cells::is))]
fn has_members(rows: &OwnerLinks, k: usize) -> bool
    ensures { result ≡ has_members rows.now (Some k) }
{
    rows.is_of_kind(k, Kind::NoOverlap) || rows.is_of_kind(k, Kind::Synchronize)
}

// Row k names an owner that is not in the sheet. The requirement that a row names is of the row's activity. Whether it is there comes first: to go by the kinds
// first is a jump that differs from row to row, a twentieth of the validation of a week.
#[tactic(auto, using(owners::proofs::Absent::booked))]
fn is_unowned(rows: &OwnerLinks, k: usize) -> bool
    requires { k < row_count rows.now }
    ensures { result ≡ unowned rows.now k }
{
    let kind = rows.num(k, 0);
    let Some(o) = rows.find_owner(k) else {
        // Bookings and time-only spans, the last two kinds, may name what is not in the sheet. By the number: `owner_kind` asks for it, and one comparison
        // tells the two, which a match would list.
        return kind < Kind::Booking.number() && owners::owner_kind(kind).is_some();
    };
    let Some(owner) = owners::owner_kind(kind) else {
        return false;
    };
    match owner {
        Owner::RequirementRow => rows.find_owner(o).is_none(),
        Owner::ConstraintRow => !has_members(rows, o),
        _ => false,
    }
}

// Refusal 4 of row k. As refusal 5 below, two lines with a test of its own, which is the contract: handed the test, one function of both would be these
// lines again.
#[tactic(auto, unfolding(sheet::specs::Refusals::owner_fault))]
pub fn owner_fault(rows: &OwnerLinks, k: usize) -> Verdict
    requires { k < row_count rows.now }
    ensures { verdict_of result ≡ owner_fault rows.now k }
{
    if is_unowned(rows, k) {
        return Err(Reason::Stray.at(k));
    }
    Ok(())
}

// ---- 5

// Row k repeats an earlier row. A speed and a fixed timing repeat one another.
fn is_repeat(rows: &ByKind, k: usize) -> bool
    requires { k ≤ row_count rows.now }
    ensures { result ≡ repeated_by rows.now k }
{
    let Some(kind) = rows.kind_at(k) else {
        return false;
    };
    let id = rows.num(k, 1);
    let other = rows.num(k, 2);
    match kind {
        Kind::Task | Kind::Activity | Kind::Overlap | Kind::Split | Kind::Resource => {
            rows.has_earlier(kind, id, k)
        }
        Kind::Speed | Kind::FixedTiming => {
            rows.has_earlier_pair(Kind::Speed, id, other, k)
                || rows.has_earlier_pair(Kind::FixedTiming, id, other, k)
        }
        Kind::Transport => rows.has_earlier_pair(Kind::Transport, id, other, k),
        _ => false,
    }
}

// Refusal 5 of row k.
#[tactic(auto, using(crate::proofs::Repeats::repeat_read), unfolding(sheet::specs::Refusals::repeat_fault))]
pub fn repeat_fault(rows: &ByKind, k: usize) -> Verdict
    requires { k ≤ row_count rows.now }
    ensures { verdict_of result ≡ repeat_fault rows.now k }
{
    if is_repeat(rows, k) {
        return Err(Reason::Twice.at(k));
    }
    Ok(())
}
