// Refusals 2 and 3 of one row: its kind, the classes of its columns, half a part.
#![tactic(auto)]

ghost use Rattle.std.specs.Prelude.{◌≡◌};
ghost use Rattle.loops.specs.Search.{any_below};
ghost use Rattle.rows.specs.Cells.{cell};
ghost use Rattle.rows.specs.Ranges.{is_none};
ghost use Rattle.refusals.specs.Refusals.{verdict_of};
ghost use Rattle.sheet.specs.Refusals.{bad_cell, half_part, out_of_range, column_fault};

use refusals::{Reason, Verdict};
use rows::Kind;

#[tactic(auto, unfolding(sheet::specs::Refusals::bad_cell))]
fn is_bad_cell(rows: &[i64], k: usize, c: usize) -> bool
    ensures { result ≡ bad_cell rows.now k c }
{
    let class = rows::class_of(rows::num_at(rows, k, 0), c);
    !class.allows(rows::cell_at(rows, k, c))
}

fn has_bad_cell(rows: &[i64], k: usize) -> bool
    ensures { result ≡ any_below (bad_cell rows.now k) 10 }
{
    (0..10).any(|c| is_bad_cell(rows, k, c))
}

// As `is_none` of sheet's `Rows`, of rows that have no index yet.
fn is_none_at(rows: &[i64], k: usize, c: usize) -> bool
    ensures { result ≡ is_none (cell rows.now k c) }
{
    rows::is_none(rows::cell_at(rows, k, c))
}

// A part index without part work, or the other way round.
#[tactic(auto, unfolding(sheet::specs::Refusals::half_part))]
fn is_half(rows: &[i64], k: usize) -> bool
    ensures { result ≡ half_part rows.now k }
{
    rows::is_of_kind(rows, k, Kind::Booking) && is_none_at(rows, k, 7) != is_none_at(rows, k, 8)
}

#[tactic(auto, unfolding(sheet::specs::Refusals::out_of_range))]
fn is_out(rows: &[i64], k: usize) -> bool
    ensures { result ≡ out_of_range rows.now k }
{
    has_bad_cell(rows, k) || is_half(rows, k)
}

// Refusals 2 and 3 of row k.
#[tactic(auto, using(rows::proofs::KindNumbers::is_known), unfolding(sheet::specs::Refusals::column_fault, sheet::specs::Refusals::known_kind))]
pub fn column_fault(rows: &[i64], k: usize) -> Verdict
    ensures { verdict_of result ≡ column_fault rows.now k }
{
    if rows::kind_at(rows, k).is_none() {
        return Err(Reason::UnknownKind.at(k));
    }
    if is_out(rows, k) {
        return Err(Reason::OutOfRange.at(k));
    }
    Ok(())
}
