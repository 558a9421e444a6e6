// Whether a sheet is accepted: refusals 1 to 6. A call begins so that needs no derived time beside them; the check keeps the times.
#![tactic(auto)]

ghost use Rattle.acceptance.specs.inner.Accepting.{Accepting};

use derived_times::DerivedTimes;
use model::{Sheet, SheetIndex};
use refusals::Verdict;

// The verdict, and the index of the rows, as `validation::index` leaves it.
pub fn accept(rows: &[i64], index: &mut SheetIndex) -> Verdict
    ensures { Accepting rows.now index.old result index.new }
{
    validation::index(rows, index)?;
    let sheet = Sheet::new(rows, index);
    DerivedTimes::new().fill(&sheet)
}
