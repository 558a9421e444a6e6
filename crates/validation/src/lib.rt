// Refusals 1 to 5 of a sheet: the first that applies, with its place, and the index of a sheet that none of them refuses.
#![tactic(auto)]

ghost use Rattle.std.specs.Prelude.{ℕ, ◌≡◌, ◌<◌, Option};
ghost use Rattle.loops.specs.Search.{first};
ghost use Rattle.rows.specs.Cells.{row_count};
ghost use Rattle.refusals.specs.declared.Refusal.{Refusal};
ghost use Rattle.refusals.specs.Refusals.{verdict_of};
ghost use Rattle.sheet.specs.Refusals.{misshapen, refusal_of};
ghost use Rattle.validation.specs.inner.Answer.{shape_refusal, link_refusal, Tells, Indexing};

use owners::{OwnerLinks, SheetIndex};
use refusals::{Reason, Verdict};
use sheet::{ByKind, Rows};

// ---- 1 to 3, of the rows by themselves

fn is_misshapen(n: usize) -> bool
    ensures { result ≡ misshapen n }
{
    n % 10 != 0 || 8000 < n
}

// What a test says of the first of so many rows that it refuses.
fn first_fault<F: Fn(usize) -> Verdict>(count: usize, fault: F) -> Verdict
    requires { (k : ℕ) → k < count → F.pre fault k }
    ensures { (f : ℕ → Option Refusal) → Tells f count (F.post fault) → verdict_of result ≡ first f count }
{
    for k in 0..count {
        fault(k)?;
    }
    Ok(())
}

// Refusals 1 to 3.
#[tactic(auto, using(loops::proofs::BranchLaws::told, loops::proofs::BranchLaws::else_yes, loops::proofs::BranchLaws::else_no), unfolding(crate::specs::inner::Answer::shape_refusal))]
fn shape_fault(rows: &[i64]) -> Verdict
    ensures { verdict_of result ≡ shape_refusal rows.now }
{
    if is_misshapen(rows.len()) {
        return Err(Reason::Misshapen.at(0));
    }
    first_fault(
        rows::row_count(rows),
        |k| column_faults::column_fault(rows, k),
    )
}

// ---- 4 and 5, of the rows beside one another

// Refusals 4 and 5.
fn link_fault(rows: &ByKind, links: &OwnerLinks) -> Verdict
    requires { links.now ≡ rows.now }
    ensures { verdict_of result ≡ link_refusal rows.now }
{
    let count = rows.row_count();
    first_fault(count, |k| link_faults::owner_fault(links, k))?;
    first_fault(count, |k| link_faults::repeat_fault(rows, k))
}

// ---- the sheet

// The verdict on a sheet, and its index: the tables of its rows, also where 4 or 5 refuses it. A sheet that 1, 2 or 3 refuses has none, and leaves what was lent.
pub fn index(rows: &[i64], index: &mut SheetIndex) -> Verdict
    ensures { Indexing rows.now index.old result index.new }
{
    shape_fault(rows)?;
    index.fill(rows);
    link_fault(&index.by_kind(rows), &index.owner_links(rows))
}

// Whether refusals 1 to 5 refuse a sheet.
pub fn validate(rows: &[i64]) -> Verdict
    ensures { verdict_of result ≡ refusal_of rows.now }
{
    let mut index = SheetIndex::new();
    crate::index(rows, &mut index)
}
