// The work-end inquiry on a sheet: when work ends that is started on a resource and runs only in its working time.
#![tactic(auto)]

ghost use Rattle.std.specs.Prelude.{None, ◌≡◌, true, [], ◌∷◌};
ghost use Rattle.calendar.specs.Clock.{clock};
ghost use Rattle.calendar.specs.WorkEnd.{joint_work_end};
ghost use Rattle.sheet.specs.Refusals.{refusal_of};
ghost use Rattle.model.specs.Sheet.{sheet};
ghost use Rattle.model.specs.Resource.{windows};
ghost use Rattle.window_rows.specs.Listed.{listed, calendar_in};
ghost use Rattle.work_end_inquiry.specs.Inquiry.{ends, outcome_of, in_order, inquired_calendar, inquiry};
ghost use Rattle.work_end_inquiry.specs.inner.Near.{Near};
ghost use Rattle.work_end_inquiry.specs.inner.Said.{said};

use calendar::{Calendars, Places};
use model::{Sheet, SheetIndex};
use refusals::{Reason, Refusal};
use rows::{Class, Kind};
use sheet::{Found, KindIndex, Rows};
use window_rows::WindowList;

// The work ends at an instant; or the start is no working time; or too little working time follows. No Option or Result, as with `calendar::WorkEnd`: the
// last two are answers of their own, and no refusal.
#[derive(Clone, Copy, PartialEq, Eq)]
pub enum InquiryEnd {
    End(u64),
    Pause,
    Never,
}

pub type InquiryAnswer = Result<InquiryEnd, Refusal>;

#[tactic(auto, unfolding(crate::specs::Inquiry::in_order))]
fn in_order(start: i64, work: i64) -> bool
    ensures { result ≡ in_order start work }
{
    Class::Instant.allows(start) && Class::SignedTime.allows(work)
}

// Lays out the windows of the resource of that id: none where the sheet has no such resource. The list is empty, since it is made for this one calendar: laid
// out behind others it would not be the resource's.
#[tactic(auto, using(crate::proofs::Ends::laid_absent, crate::proofs::Ends::laid_found))]
fn resource_windows(rows: &Sheet, id: u64, list: &mut WindowList)
    requires { listed list.old ≡ [] }
    ensures windows { calendar_in list.new ≡ windows (sheet rows.now) 15 id }
    ensures known { refusal_of rows.now ≡ None }
{
    let Found::At(o) = rows.find_resource(id) else {
        return;
    };
    window_rows::gather_windows(&rows.by_owner(), o, Kind::ResourceWindow, list);
}

// Lays out the windows of the resource that a number names: none where it is no id.
#[tactic(auto, using(crate::proofs::Ends::laid_known, crate::proofs::Ends::laid_unknown, crate::proofs::Ends::laid_near, crate::proofs::Ends::none_near))]
fn resource_calendar(rows: &Sheet, resource: i64, list: &mut WindowList)
    requires { listed list.old ≡ [] }
    ensures windows { calendar_in list.new ≡ inquired_calendar rows.now resource }
    ensures near { Near (calendar_in list.new) }
{
    if Class::Id.allows(resource) {
        resource_windows(rows, rows::nat(resource), list);
    }
}

// In a sheet no end lies beyond the numbers of 64 bits.
fn answer_of(a: calendar::WorkEnd) -> InquiryAnswer
    ensures { result ≡ said a }
{
    match a {
        calendar::WorkEnd::End(e) => Ok(InquiryEnd::End(e)),
        calendar::WorkEnd::Pause => Ok(InquiryEnd::Pause),
        calendar::WorkEnd::Never | calendar::WorkEnd::Beyond => Ok(InquiryEnd::Never),
    }
}

#[tactic(auto, using(crate::proofs::Ends::ending_said))]
fn ending(rows: &Sheet, resource: i64, start: i64, work: i64) -> InquiryAnswer
    requires { in_order start work ≡ true }
    ensures { outcome_of result ≡ ends (joint_work_end clock (inquired_calendar rows.now resource ∷ []) start work) }
{
    // No heap: room for a window of each row.
    let mut room = [window_rows::NO_WINDOW; 800];
    let mut list = WindowList::over(&mut room);
    resource_calendar(rows, resource, &mut list);
    let windows = list.as_slice();
    let calendar = Calendars {
        windows,
        places: &[Places::all(windows)],
    };
    answer_of(calendar.joint_work_end(rows::nat(start), work))
}

#[tactic(auto, using(crate::proofs::Ends::no_refusal, crate::proofs::Ends::inquiry_own, crate::proofs::Ends::inquiry_ends))]
pub fn work_end(rows: &[i64], resource: i64, start: i64, work: i64) -> InquiryAnswer
    ensures { outcome_of result ≡ inquiry rows.now resource start work }
{
    let mut index = SheetIndex::new();
    validation::index(rows, &mut index)?;
    if !in_order(start, work) {
        return Err(Reason::OutOfRange.at(0));
    }
    ending(&Sheet::new(rows, &index), resource, start, work)
}
