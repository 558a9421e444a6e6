// Margins for the morning meeting: of each task with a deadline and a completion, and of each booked resource.
#![tactic(auto)]

ghost use Rattle.std.specs.Prelude.{◌≡◌, true, ◌/◌, ◌<◌, ◌≤◌, pos, ◌-ℤ◌, nat_abs, length, None};
ghost use Rattle.loops.specs.Lists.{each};
ghost use Rattle.calendar.specs.Clock.{clock};
ghost use Rattle.rows.specs.Cells.{is};
ghost use Rattle.model.specs.Sheet.{sheet};
ghost use Rattle.model.specs.Task.{task_at, tasks};
ghost use Rattle.load.specs.Load.{booked_resources};
ghost use Rattle.acceptance.specs.Refusals.{sheet_refusal};
ghost use Rattle.margin_lines.specs.Margins.{task_margin, resource_margin, margins};
ghost use Rattle.margin_lines.specs.Call.{margins_answer, margins_after};
ghost use Rattle.margin_lines.specs.inner.Sink.{sink, emit_margins};
ghost use Rattle.margin_lines.specs.inner.Told.{so_far, tell};

mod lines;

use line_buffer::Handed;
use lines::Lines;
pub use lines::{Margin, MarginKind};
use load::{Bookings, NO_BOOKING};
use model::{Sheet, SheetIndex};
use refusals::{Answer, Reason};
use rows::Kind;
use sheet::{KindIndex, Rows};

// What is left of a limit.
#[tactic(auto, using(crate::proofs::Bounds::left_fits, crate::proofs::Bounds::left_is))]
fn left_of(limit: i64, taken: u64) -> i64
    requires { (nat_abs limit ≤ 4000000000000) × (taken ≤ 4000000000000) }
    ensures { result ≡ limit -ℤ pos taken }
{
    limit - taken as i64
}

// ---- the tasks

// The margin of the task of row k, where it has a deadline and a completion.
fn put_task(rows: &Sheet, k: usize, lines: &mut Lines)
    requires { is rows.now k 0 1 ≡ true }
    ensures { so_far lines.new ≡ tell (so_far lines.old) (each (task_margin clock (sheet rows.now)) (task_at (sheet rows.now) k)) }
{
    let Some(d) = spans::instant_at(rows.as_slice(), k, 2) else {
        return;
    };
    let id = rows.num(k, 1);
    let Some(c) = spans::task_completion_time(&rows.by_kind(), id) else {
        return;
    };
    lines.put(Margin::of(MarginKind::Task, id, left_of(d as i64, c)));
}

#[tactic(auto, using(chains::proofs::PlaceLaws::left_all, crate::proofs::Told::tasks_told), unfolding(sheet::specs::Places::of_kind))]
fn put_tasks(rows: &Sheet, lines: &mut Lines)
    ensures { so_far lines.new ≡ tell (so_far lines.old) (each (task_margin clock (sheet rows.now)) (tasks (sheet rows.now))) }
{
    for k in rows.of_kind(Kind::Task) {
        put_task(rows, k, lines);
    }
}

// ---- the booked resources

// The margin of the resource x.
#[tactic(auto, using(load::proofs::Told::peak_is), unfolding(crate::specs::Margins::resource_margin))]
fn put_resource(rows: &Sheet, x: u64, bookings: &mut Bookings, lines: &mut Lines)
    requires { x < 9223372036854775808 }
    ensures { so_far lines.new ≡ tell (so_far lines.old) (resource_margin clock (sheet rows.now) x) }
{
    load::gather_bookings(rows, x, bookings);
    let limit = load::cap_of(&rows.by_kind(), x);
    let line = Margin::of(
        MarginKind::Resource,
        x,
        left_of(limit, load::peak_of(bookings)),
    );
    lines.put(line);
}

// Apart from its caller, so that the call keeps to the stack that the header states.
#[inline(never)]
#[tactic(auto, using(chains::proofs::PlaceLaws::left_all, crate::proofs::Told::resource_first, crate::proofs::Told::resources_told))]
fn put_resources(rows: &Sheet, lines: &mut Lines)
    ensures { so_far lines.new ≡ tell (so_far lines.old) (each (resource_margin clock (sheet rows.now)) (booked_resources (sheet rows.now))) }
{
    // No heap: room for a booking of each row.
    let mut room = [NO_BOOKING; 800];
    let mut bookings = Bookings::over(&mut room);
    let by_kind = rows.by_kind();
    for k in load::booked(&by_kind) {
        put_resource(rows, rows.num(k, 3), &mut bookings, lines);
    }
}

// ---- the call

// The lines of the tasks, then those of the resources.
#[tactic(auto, using(crate::proofs::Told::all_told))]
fn put_all(rows: &Sheet, lines: &mut Lines)
    ensures { so_far lines.new ≡ tell (so_far lines.old) (margins rows.now) }
{
    put_tasks(rows, lines);
    put_resources(rows, lines);
}

// The lines of a sheet, and how many.
fn put_margins(rows: &Sheet, out: &mut [i64]) -> usize
    ensures { sink out.new result ≡ emit_margins (sink out.old 0) (margins rows.now) }
{
    let mut lines = Lines::new(out);
    put_all(rows, &mut lines);
    lines.len()
}

// The lines of an accepted sheet, where the buffer holds them. They are written to a buffer of their own first, so that nothing is written before their
// count is known; that buffer holds a line for each row, and each line is of a row.
fn write_margins(rows: &Sheet, out: &mut [i64]) -> Answer
    requires { sheet_refusal rows.now ≡ None }
    ensures value { result ≡ margins_answer rows.now (length out.old / 3) }
    ensures out_after { out.new ≡ margins_after rows.now out.old }
{
    // No heap: room for a line of each row.
    let mut lines = [0i64; 2400];
    let count = put_margins(rows, &mut lines);
    match line_buffer::hand_over(out, 3, count, &lines) {
        Handed::Over => Ok(count),
        Handed::Full => Err(Reason::Full.at(0)),
        Handed::Longer => Err(Reason::Full.at(0)), // never: a line is of a row, and 800 lines are held
    }
}

// The margins of a sheet: any rows, any buffer.
pub fn margins(rows: &[i64], out: &mut [i64]) -> Answer
    ensures value { result ≡ margins_answer rows.now (length out.old / 3) }
    ensures out_after { out.new ≡ margins_after rows.now out.old }
{
    let mut index = SheetIndex::new();
    acceptance::accept(rows, &mut index)?;
    write_margins(&Sheet::new(rows, &index), out)
}
