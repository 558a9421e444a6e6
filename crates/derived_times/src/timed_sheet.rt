// A sheet with who is held and what each booking needs as one value.
ghost use Rattle.std.specs.Prelude.{◌≡◌, ◌+◌, ◌<◌, Some, true};
ghost use Rattle.rows.specs.Cells.{row_count, num, is};
ghost use Rattle.sheet.specs.Places.{place_of};
ghost use Rattle.model.specs.Sheet.{sheet};
ghost use Rattle.model.specs.Activity.{needed_ms};
ghost use Rattle.model.specs.inner.Records.{activity_of, assignment_of};
ghost use Rattle.definition.specs.Pieces.{runs_on};
ghost use Rattle.pieces.specs.inner.Held.{Held};
ghost use Rattle.derived_times.specs.inner.Needs.{Needs};

use crate::DerivedTimes;
use model::Sheet;
use pieces::HeldMarks;
use std::marker::Model;
use std::ops::Deref;

// A sheet that refusals 1 to 6 let pass, with who is held and what each booking needs; seen as the rows. As pieces `MarkedRows` and check6_calendars
// `LackingSheet` it is what it derefs to with one table more; what is known of the table is its type's own invariant.
#[derive(Drop)]
pub struct TimedSheet<'a> {
    sheet: &'a Sheet<'a>,
    times: &'a DerivedTimes,
}

impl<'a> Model for TimedSheet<'a> {
    ghost use Rattle.std.specs.Prelude.{List, ℤ};
    ghost use Rattle.pieces.specs.inner.Held.{Held};
    ghost use Rattle.derived_times.specs.inner.Needs.{Needs};

    ghost Value = { List ℤ };

    ghost view = { λ s. s.sheet.now };

    ghost invariant = { λ s. Held s.sheet.now s.times.now.held × Needs s.sheet.now s.times.now.need };
}

impl<'a> TimedSheet<'a> {
    pub fn new(sheet: &'a Sheet<'a>, times: &'a DerivedTimes) -> TimedSheet<'a>
        requires { Held sheet.now times.now.held × Needs sheet.now times.now.need }
        ensures { result ≡ sheet.now }
    {
        TimedSheet { sheet, times }
    }

    // The sheet alone.
    pub fn sheet(&self) -> &'a Sheet<'a>
        ensures { result.now ≡ self.now }
    {
        self.sheet
    }

    // What each booking needs besides its own setup.
    pub fn need(&self) -> &'a [u64; 800]
        ensures { Needs self.now result.now }
    {
        &self.times.need
    }

    // What booking k, of the activity of row a, needs besides its own setup.
    #[tactic(auto, using(crate::proofs::Refusing::rest_needed, crate::proofs::Refusing::rest_small))]
    pub fn rest_ms(&self, a: usize, k: usize) -> u64
        requires { (k < row_count self.now) × (is self.now k 0 23 ≡ true) × (place_of self.now 2 (num self.now k 1) ≡ Some a) }
        ensures value { num self.now k 6 + result ≡ needed_ms (sheet self.now) (activity_of self.now a) (assignment_of self.now k) (runs_on (sheet self.now) (assignment_of self.now k)) }
        ensures bound { result < 9007199254740992 }
    {
        let need = &self.times.need;
        need[k]
    }
}

impl<'a> Deref for TimedSheet<'a> {
    type Target = Sheet<'a>;

    ghost deref_gives = { λ s x. x ≡ s };

    fn deref(&self) -> &Sheet<'a> {
        self.sheet
    }
}

impl<'a> HeldMarks for TimedSheet<'a> {
    ghost marked = { λ s. s };

    fn held(&self) -> &[bool; 800] {
        &self.times.held
    }
}
