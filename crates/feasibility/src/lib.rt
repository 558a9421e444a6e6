// `check_schedule` of scheduler/feasibility.rs: refusals 1 to 7, the nine checks in call order, and what is written to the lent buffer.
#![tactic(auto)]

ghost use Rattle.std.specs.Prelude.{◌/◌, ◌≡◌, length, None};
ghost use Rattle.findings.specs.inner.Sink.{sink, emit};
ghost use Rattle.check6_calendars.specs.inner.Lacking.{Lacking};
ghost use Rattle.definition.specs.CheckSchedule.{findings};
ghost use Rattle.acceptance.specs.Refusals.{sheet_refusal};
ghost use Rattle.feasibility.specs.Call.{check_answer, findings_after};

use check6_calendars::LackingSheet;
use derived_times::{DerivedTimes, TimedSheet};
use findings::Findings;
use line_buffer::Handed;
use model::{Sheet, SheetIndex};
use pieces::HeldMarks;
use refusals::{Answer, Reason};

// The nine checks, into a lent buffer: how many findings there are.
fn check_all(rows: &TimedSheet, lacking: &[bool; 800], out: &mut [i64]) -> usize
    requires { Lacking rows.now lacking.now }
    ensures { sink out.new result ≡ emit (sink out.old 0) (findings rows.now) }
{
    let sheet = rows.sheet();
    let lacking_sheet = LackingSheet::new(sheet, lacking);
    let mut found = Findings::new(out);
    check1_assignments::check_assignments(rows, &mut found);
    check2_time_only::check_time_only(sheet, &mut found);
    check3_parts::check_parts(sheet, &mut found);
    check4_requirements::check_requirements(sheet, rows.held(), &mut found);
    check5_capacity::check_capacity(sheet, &mut found);
    check6_calendars::check_calendars(&lacking_sheet, &mut found);
    check7_precedence::check_precedence(sheet, &mut found);
    check8_deadlines::check_deadlines(&sheet.by_kind(), &mut found);
    check9_constraints::check_constraints(&sheet.by_kind(), &mut found);
    found.len()
}

// The findings of an accepted sheet, where the buffer holds them. The checks run once, into a buffer of their own, so that nothing is written before
// the count is known; findings that it doesn't hold are written by running the checks again.
fn write_findings(rows: &TimedSheet, out: &mut [i64]) -> Answer
    requires { sheet_refusal rows.now ≡ None }
    ensures value { result ≡ check_answer rows.now (length out.old / 4) }
    ensures out_after { out.new ≡ findings_after rows.now out.old }
{
    let lacking = check6_calendars::lacking_of(rows.sheet(), rows.need());
    // No heap: room for 1,024 findings.
    let mut first = [0i64; 4096];
    let count = check_all(rows, &lacking, &mut first);
    let handed = line_buffer::hand_over(out, 4, count, &first);
    match handed {
        Handed::Over => Ok(count),
        Handed::Full => Err(Reason::Full.at(0)),
        Handed::Longer => Ok(check_all(rows, &lacking, out)),
    }
}

// Refusal 6, then the findings.
#[tactic(auto, using(acceptance::proofs::Order::by_none))]
fn check_times(rows: &Sheet, out: &mut [i64]) -> Answer
    ensures value { result ≡ check_answer rows.now (length out.old / 4) }
    ensures out_after { out.new ≡ findings_after rows.now out.old }
{
    let mut times = DerivedTimes::new();
    times.fill(rows)?;
    write_findings(&TimedSheet::new(rows, &times), out)
}

// Checks a sheet: any rows, any buffer.
pub fn check_schedule(rows: &[i64], out: &mut [i64]) -> Answer
    ensures value { result ≡ check_answer rows.now (length out.old / 4) }
    ensures out_after { out.new ≡ findings_after rows.now out.old }
{
    let mut index = SheetIndex::new();
    validation::index(rows, &mut index)?;
    check_times(&Sheet::new(rows, &index), out)
}
