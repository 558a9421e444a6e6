// The program: reads an office calendar from standard input, and prints its busy periods as closed windows of the resource that is its argument.
#![tactic(auto)]

ghost use Rattle.std.specs.Prelude.{◌≡◌, ◌≤◌, length, take};
ghost use Rattle.loops.specs.inner.Wrote.{Wrote};
ghost use Rattle.closures.specs.Program.{printed_closures};
ghost use Rattle.closures.specs.inner.Bytes.{rows_bytes};

use text_program::Words;

// The first five numbers of each of the first n rows, where n is what the call answered. A loop of its own, as printing `put_findings` and margins `put_margins`: each puts another part of a
// line, so that one function would take a closure that writes.
fn put_rows(out: &mut [u8], rows: &[i64], n: usize) -> usize
    requires { (n ≤ 800) × (length rows.now ≡ 8000) }
    ensures { Wrote out.old 0 out.new result (rows_bytes rows.now n) }
{
    let mut at = 0;
    for row in rows.chunks_exact(10).take(n) {
        at = printing::put_line(out, at, &row[..5]);
    }
    at
}

// Reads the calendar, and puts what is printed of it into out. It answers how many bytes that are. margins `print_margins` has the same steps over another
// call: one function would take the call and the printing as closures, each with a clause.
fn print_closures(text: &[u8], resource: i64, out: &mut [u8]) -> usize
    requires { length out.old ≡ 84000 }
    ensures upper_bound { result ≤ 84000 }
    ensures out_after { take result out.new ≡ printed_closures text.now resource }
{
    // Room for 800 rows: programs have no heap.
    let mut rows = [0i64; 8000];
    let answer = freebusy::read_freebusy(text, resource, &mut rows);
    let rows = text_program::kept(rows);
    match answer {
        Ok(n) => put_rows(out, &rows, n),
        Err(e) => printing::put_refusal(out, e),
    }
}

fn main(rt: HostRuntime) {
    let usage = b"usage: closures RESOURCE < CALENDAR (RESOURCE is a number, spelt as in a sheet)";
    if program_io::arguments(&rt, 1, usage).is_err() {
        return;
    }
    let Some(resource) = number_arguments::number_argument(&rt, 1).number else {
        program_io::tell(&rt, usage);
        return;
    };
    let words = Words {
        input: b"closures: standard input",
        awaited: b"closures: a calendar is read from standard input, up to the end of input (Ctrl-D)",
        output: b"closures: standard output",
    };
    // Room for what is printed of 800 rows: programs have no heap.
    let mut out = [0u8; 84000];
    text_program::run(
        &rt,
        words,
        &mut out,
        |text, out| print_closures(text, resource, out),
    );
}
