// The calendars of a piece, for `check_calendars` of scheduler/feasibility.rs: those of the resources that its bookings are on, each resource once,
// and that of its activity, laid out for the calendar functions.
#![tactic(auto)]

ghost use Rattle.std.specs.Prelude.{◌≡◌, ◌≤◌, ◌<◌, ◌+◌, suc, true, length, Some};
ghost use Rattle.loops.specs.Search.{count_below};
ghost use Rattle.lent_room.specs.Listed.{whole};
ghost use Rattle.rows.specs.Cells.{row_count, num, is};
ghost use Rattle.rows.specs.Kinds.{kind_number};
ghost use Rattle.calendar.specs.Layout.{calendars_of};
ghost use Rattle.sheet.specs.Places.{place_of};
ghost use Rattle.owners.specs.inner.Owners.{owned_by};
ghost use Rattle.model.specs.Sheet.{sheet};
ghost use Rattle.model.specs.Resource.{windows};
ghost use Rattle.window_rows.specs.Listed.{listed};
ghost use Rattle.window_rows.specs.inner.Laid.{Holder};
ghost use Rattle.check6_joint_calendars.specs.inner.Laid.{LaidOut, laid_calendars};
ghost use Rattle.check6_joint_calendars.specs.inner.Taken.{Marked};
ghost use Rattle.check6_joint_calendars.specs.inner.Laying.{Added};

use calendar::{Calendars, Places};
use lent_room::LentList;
use model::Sheet;
use owners::{ByOwner, LinkIndex, OwnerIndex};
use rows::Kind;
use sheet::{Found, KindIndex, Rows};
use window_rows::WindowList;

// The places of calendars among windows that are laid out: as many calendars as a sheet has rows have room.
pub type PlacesList<'a> = LentList<'a, Places, 800>;

// ---- the resources of a piece

// Marks the resource of row j, if j is a booking of booking k's piece and its resource is in the sheet.
#[tactic(auto, using(pieces::proofs::Chains::piece_booking, crate::proofs::Marking::mark_low, crate::proofs::Marking::mark_more, crate::proofs::Marking::mark_past))]
fn mark_resource(rows: &Sheet, k: usize, j: usize, marks: &mut [bool; 800])
    requires { (j < row_count rows.now) × Marked rows.now k j marks.old }
    ensures { Marked rows.now k (suc j) marks.new }
{
    if pieces::in_piece(rows.as_slice(), k, j) {
        let Found::At(r) = rows.booked_resource(j) else {
            return;
        };
        marks[r] = true;
    }
}

// True at the row of each resource that a booking of booking k's piece is on, a mark for each of at most 800 rows, since there is no heap. The activity of
// the piece is of row a.
#[tactic(auto, using(sheet::proofs::Lookups::place_low))]
fn mark_resources(rows: &Sheet, a: usize, k: usize) -> [bool; 800]
    requires { (is rows.now k 0 23 ≡ true) × (place_of rows.now 2 (num rows.now k 1) ≡ Some a) }
    ensures { Marked rows.now k (row_count rows.now) result }
{
    let mut marks = [false; 800];
    for j in rows.owned_by(a, Kind::Booking) {
        mark_resource(rows, k, j, &mut marks);
    }
    marks
}

// ---- calendars laid out

// Lays out the windows of row o, of a resource or of an activity, as one calendar more.
fn lay_calendar(
    rows: &ByOwner,
    o: usize,
    kind: Kind,
    list: &mut WindowList,
    places: &mut PlacesList,
)
    requires { (o ≤ row_count rows.now) × Holder rows.now o (kind_number kind) × (length (listed list.old) + count_below (owned_by rows.now o (kind_number kind)) (row_count rows.now) ≤ 800) × (length (listed places.old) < 800) }
    ensures { Added (windows (sheet rows.now) (kind_number kind) (num rows.now o 1)) (count_below (owned_by rows.now o (kind_number kind)) (row_count rows.now)) list.old list.new places.old places.new }
{
    let from = list.len();
    window_rows::gather_windows(rows, o, kind, list);
    let to = list.len();
    places.push(Places { from, to });
}

// The calendars of booking k's piece, of the activity of row a, one behind the other: their windows, and the places of each among these, in place of what
// is in the lists. The rest of the lent rooms stays. (Two lists, and not a struct of them: a caller's proof finds its rooms again only behind a list that
// it holds itself.)
pub fn lay_calendars(
    rows: &Sheet,
    a: usize,
    k: usize,
    list: &mut WindowList,
    places: &mut PlacesList,
)
    requires { (k < row_count rows.now) × (is rows.now k 0 23 ≡ true) × (place_of rows.now 2 (num rows.now k 1) ≡ Some a) }
    ensures laid { LaidOut (laid_calendars rows.now k a) (whole list.old) (whole places.old) list.new places.new }
    ensures calendars { calendars_of (listed list.new) (listed places.new) ≡ laid_calendars rows.now k a }
{
    let marks = mark_resources(rows, a, k);
    list.clear();
    places.clear();
    for r in rows.of_kind(Kind::Resource) {
        if marks[r] {
            lay_calendar(&rows.by_owner(), r, Kind::ResourceWindow, list, places);
        }
    }
    lay_calendar(&rows.by_owner(), a, Kind::ActivityWindow, list, places);
}

// As they are lent to the calendar functions.
pub fn as_calendars<'a>(list: &'a WindowList, places: &'a PlacesList) -> Calendars<'a>
    ensures { calendars_of result.windows.now result.places.now ≡ calendars_of (listed list.now) (listed places.now) }
{
    Calendars {
        windows: list.as_slice(),
        places: places.as_slice(),
    }
}
