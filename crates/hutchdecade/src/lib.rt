// The functions that programs in other languages call: a slice is passed as a pointer and a length.
#![tactic(auto)]

ghost use Rattle.std.specs.Prelude.{◌≡◌, ◌/◌, length};
ghost use Rattle.text.specs.Text.{answer_of, rows_after};
ghost use Rattle.freebusy.specs.Call.{freebusy_answer, freebusy_after};
ghost use Rattle.sheet.specs.Refusals.{refusal_of};
ghost use Rattle.work_end_inquiry.specs.Inquiry.{inquiry};
ghost use Rattle.outcomes.specs.Outcome.{of_answer, of_refusal, of_inquiry};
ghost use Rattle.feasibility.specs.Call.{check_answer, findings_after};
ghost use Rattle.margin_lines.specs.Call.{margins_answer, margins_after};

use outcomes::{Outcome, WorkEndOutcome};
use refusals::{Answer, Verdict};

// Reads a text to the lent rows.
#[unsafe(no_mangle)]
pub extern "C" fn sheet_read_text(text: &[u8], rows: &mut [i64]) -> Outcome
    ensures value { result ≡ of_answer (answer_of text.now (length rows.old / 10)) }
    ensures rows_after { rows.new ≡ rows_after (answer_of text.now (length rows.old / 10)) text.now rows.old }
{
    let answer: Answer = text::read_text(text, rows);
    Outcome::from(answer)
}

// Reads an office calendar's busy periods to the lent rows, as closed windows of the resource.
#[unsafe(no_mangle)]
pub extern "C" fn sheet_read_freebusy(text: &[u8], resource: i64, rows: &mut [i64]) -> Outcome
    ensures value { result ≡ of_answer (freebusy_answer text.now resource (length rows.old / 10)) }
    ensures rows_after { rows.new ≡ freebusy_after text.now resource rows.old }
{
    let answer: Answer = freebusy::read_freebusy(text, resource, rows);
    Outcome::from(answer)
}

// Refusals 1 to 5 on the rows.
#[unsafe(no_mangle)]
pub extern "C" fn sheet_validate(rows: &[i64]) -> Outcome
    ensures { result ≡ of_refusal (refusal_of rows.now) }
{
    let verdict: Verdict = validation::validate(rows);
    Outcome::from(verdict)
}

// The work-end inquiry.
#[unsafe(no_mangle)]
pub extern "C" fn sheet_work_end(
    rows: &[i64],
    resource: i64,
    start: i64,
    work: i64,
) -> WorkEndOutcome
    ensures { result ≡ of_inquiry (inquiry rows.now resource start work) }
{
    WorkEndOutcome::from(work_end_inquiry::work_end(rows, resource, start, work))
}

// The call: checks the rows, and writes the findings of an accepted sheet to the lent numbers.
#[unsafe(no_mangle)]
pub extern "C" fn sheet_check_schedule(rows: &[i64], findings: &mut [i64]) -> Outcome
    ensures value { result ≡ of_answer (check_answer rows.now (length findings.old / 4)) }
    ensures findings_after { findings.new ≡ findings_after rows.now findings.old }
{
    let answer: Answer = feasibility::check_schedule(rows, findings);
    Outcome::from(answer)
}

// The margins of the tasks and of the booked resources, as lines of three lent numbers.
#[unsafe(no_mangle)]
pub extern "C" fn sheet_margins(rows: &[i64], lines: &mut [i64]) -> Outcome
    ensures value { result ≡ of_answer (margins_answer rows.now (length lines.old / 3)) }
    ensures lines_after { lines.new ≡ margins_after rows.now lines.old }
{
    let answer: Answer = margin_lines::margins(rows, lines);
    Outcome::from(answer)
}
