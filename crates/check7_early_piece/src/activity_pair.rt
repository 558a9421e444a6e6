// The two activities that a step of check 7 compares, by their rows.
#![tactic(auto)]

ghost use Rattle.std.specs.Prelude.{◌≡◌, true, ◌<◌};
ghost use Rattle.rows.specs.Cells.{row_count, is};
ghost use Rattle.sheet.specs.inner.Accepted.{Accepted};

use owners::Owners;
use sheet::ByKind;

// Two activities of accepted rows, by their rows: the later one is judged by when the earlier one runs. With the two indexes that are looked into and no `Sheet`,
// whose tables are of one `SheetIndex`: that would ask more of who makes a pair.
#[derive(Drop)]
pub struct ActivityPair<'a> {
    pub rows: Owners<'a>,
    pub kinds: ByKind<'a>,
    pub before: usize,
    pub after: usize,
    pub ghost accepted: { Accepted rows },
    pub ghost same_rows: { kinds ≡ rows },
    pub ghost before_is: { (before < row_count rows) × (is rows before 0 2 ≡ true) },
    pub ghost after_is: { (after < row_count rows) × (is rows after 0 2 ≡ true) },
}
