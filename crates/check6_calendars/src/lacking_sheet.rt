// A sheet with which of its bookings lack working time as one value.
ghost use Rattle.std.specs.Prelude.{◌≡◌, ◌<◌};
ghost use Rattle.rows.specs.Cells.{row_count};
ghost use Rattle.check6_calendars.specs.inner.Lacking.{lacks_time, Lacking};

use model::Sheet;
use std::marker::Model;
use std::ops::Deref;

// An accepted sheet, with which of its bookings lack working time; seen as the rows.
#[derive(Drop)]
pub struct LackingSheet<'a> {
    sheet: &'a Sheet<'a>,
    lacking: &'a [bool; 800],
}

impl<'a> Model for LackingSheet<'a> {
    ghost use Rattle.std.specs.Prelude.{List, ℤ};
    ghost use Rattle.check6_calendars.specs.inner.Lacking.{Lacking};

    ghost Value = { List ℤ };

    ghost view = { λ s. s.sheet.now };

    ghost invariant = { λ s. Lacking s.sheet.now s.lacking.now };
}

impl<'a> LackingSheet<'a> {
    pub fn new(sheet: &'a Sheet<'a>, lacking: &'a [bool; 800]) -> LackingSheet<'a>
        requires { Lacking sheet.now lacking.now }
        ensures { result ≡ sheet.now }
    {
        LackingSheet { sheet, lacking }
    }

    // The sheet alone.
    pub fn sheet(&self) -> &'a Sheet<'a>
        ensures { result.now ≡ self.now }
    {
        self.sheet
    }

    // Whether row k is a booking of a resumable activity that lacks working time.
    #[tactic(auto, using(pieces::proofs::Marks::mark_is))]
    pub fn lacks_time(&self, k: usize) -> bool
        requires { k < row_count self.now }
        ensures { result ≡ lacks_time self.now k }
    {
        let lacking = self.lacking;
        lacking[k]
    }
}

impl<'a> Deref for LackingSheet<'a> {
    type Target = Sheet<'a>;

    ghost deref_gives = { λ s x. x ≡ s };

    fn deref(&self) -> &Sheet<'a> {
        self.sheet
    }
}
