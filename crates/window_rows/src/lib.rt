// The windows of a resource or of an activity: whether they hold an interval, and laid out for the calendar functions.
#![tactic(auto)]

ghost use Rattle.std.specs.Prelude.{◌≡◌, ◌+◌, ◌≤◌, ◌++◌, pos, length};
ghost use Rattle.calendar.specs.Clock.{clock};
ghost use Rattle.calendar.specs.Calendar.{interval_fits};
ghost use Rattle.loops.specs.Search.{count_below};
ghost use Rattle.lent_room.specs.Listed.{behind, past};
ghost use Rattle.rows.specs.Cells.{row_count, num};
ghost use Rattle.rows.specs.Kinds.{kind_number};
ghost use Rattle.owners.specs.inner.Owners.{owned_by};
ghost use Rattle.model.specs.Sheet.{sheet};
ghost use Rattle.model.specs.Resource.{windows};
ghost use Rattle.window_rows.specs.Listed.{listed, calendar_in};
ghost use Rattle.window_rows.specs.inner.Laid.{Holder, window_here};

mod window_list;

use calendar::{Fit, TimeWindow, WindowKind};
use owners::{ByOwner, OwnerIndex};
use rows::Kind;
use sheet::Rows;
pub use window_list::{NO_WINDOW, WindowList};

// The window of row k.
#[tactic(auto, using(crate::proofs::WindowRows::window_is))]
fn window_of(rows: &ByOwner, k: usize) -> TimeWindow
    ensures { result ≡ window_here rows.now k }
{
    TimeWindow {
        kind: WindowKind::from(rows.num(k, 2)),
        start: rows.num(k, 3),
        end: rows.num(k, 4),
    }
}

// Lays out the windows (of a resource or of an activity) of row o, behind those that are laid out. The rest of the lent room stays. That row o is one whose
// windows are of that kind (`Holder`) is asked in a clause, here and above: who asks knows it of the row that a lookup found.
#[tactic(auto, using(crate::proofs::Laying::windows_are, sheet::proofs::Lookups::counted, lent_room::proofs::Pushing::past_none), unfolding(crate::specs::Listed::calendar_in))]
pub fn gather_windows(rows: &ByOwner, o: usize, kind: Kind, list: &mut WindowList)
    requires { (o ≤ row_count rows.now) × Holder rows.now o (kind_number kind) × (length (listed list.old) + count_below (owned_by rows.now o (kind_number kind)) (row_count rows.now) ≤ 800) }
    ensures laid { calendar_in list.new ≡ calendar_in list.old ++ windows (sheet rows.now) (kind_number kind) (num rows.now o 1) }
    ensures count { length (listed list.new) ≡ length (listed list.old) + count_below (owned_by rows.now o (kind_number kind)) (row_count rows.now) }
    ensures behind { behind list.new ≡ past (count_below (owned_by rows.now o (kind_number kind)) (row_count rows.now)) (behind list.old) }
{
    for k in rows.owned_by(o, kind) {
        list.push(window_of(rows, k));
    }
}

// Whether [a, e) fits the windows of row o whole.
#[tactic(auto, using(crate::proofs::Laying::windows_are))]
pub fn interval_fits(rows: &ByOwner, o: usize, kind: Kind, a: u64, e: u64) -> bool
    requires { (o ≤ row_count rows.now) × Holder rows.now o (kind_number kind) }
    ensures { result ≡ interval_fits clock (windows (sheet rows.now) (kind_number kind) (num rows.now o 1)) (pos a) (pos e) }
{
    let mut fit = Fit::over(a, e);
    for k in rows.owned_by(o, kind) {
        fit = fit.add(window_of(rows, k));
    }
    fit.fits()
}
