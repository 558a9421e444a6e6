// The program: reads a sheet as text from standard input, and prints the margins of its tasks and resources.
#![tactic(auto)]

ghost use Rattle.std.specs.Prelude.{◌≡◌, ◌≤◌, length, take};
ghost use Rattle.loops.specs.inner.Wrote.{Wrote};
ghost use Rattle.text_program.specs.Text.{printed_text};
ghost use Rattle.margins.specs.Program.{word_of, printed_margins};
ghost use Rattle.margins.specs.inner.Bytes.{line_bytes, lines_bytes};

use margin_lines::MarginKind;
use text_program::Words;

// The word that a line begins with, by the number that stands in the lent buffer: a MarginKind made of it would need an answer for numbers of no kind.
fn put_word(out: &mut [u8], at: usize, of: u64) -> usize
    requires { at ≤ length out.old }
    ensures { Wrote out.old at out.new result (word_of of) }
{
    if of == u64::from(MarginKind::Task.number()) {
        return lent_room::put_all(out, at, b"task,");
    }
    lent_room::put_all(out, at, b"resource,")
}

// A line of three numbers.
fn put_margin(out: &mut [u8], at: usize, line: &[i64]) -> usize
    requires { (at ≤ length out.old) × (length line.now ≡ 3) }
    ensures { Wrote out.old at out.new result (line_bytes line.now) }
{
    let next = put_word(out, at, rows::nat(line[0]));
    printing::put_line(out, next, &line[1..])
}

// The first n lines, where n is what the call answered. A loop of its own, as printing `put_findings` and closures `put_rows`: each puts another part of a line, so that one function would take a
// closure that writes.
fn put_margins(out: &mut [u8], lines: &[i64], n: usize) -> usize
    requires { (n ≤ 800) × (length lines.now ≡ 2400) }
    ensures { Wrote out.old 0 out.new result (lines_bytes lines.now n) }
{
    let mut at = 0;
    for line in lines.chunks_exact(3).take(n) {
        at = put_margin(out, at, line);
    }
    at
}

// Puts what is printed of the rows into out. It answers how many bytes that are. closures `print_closures` has the same steps over another call: one function
// would take the call and the printing as closures, each with a clause.
fn print_margins(rows: &[i64], out: &mut [u8]) -> usize
    requires { length out.old ≡ 40800 }
    ensures upper_bound { result ≤ 40800 }
    ensures out_after { take result out.new ≡ printed_margins rows.now }
{
    // Room for 800 lines: programs have no heap.
    let mut lines = [0i64; 2400];
    let answer = margin_lines::margins(rows, &mut lines);
    let lines = text_program::kept(lines);
    match answer {
        Ok(n) => put_margins(out, &lines, n),
        Err(e) => printing::put_refusal(out, e),
    }
}

// Reads the text, and puts what is printed of its rows into out.
fn print_text(text: &[u8], out: &mut [u8]) -> usize
    requires { length out.old ≡ 40800 }
    ensures upper_bound { result ≤ 40800 }
    ensures out_after { take result out.new ≡ printed_text printed_margins text.now }
{
    text_program::print_text(text, out, print_margins)
}

// What check_schedule does as well, text_program does. Its main names other words and other room: a function of both would be handed each of them, and do no
// more.
fn main(rt: HostRuntime) {
    let usage = b"usage: margins < SHEET (it takes no argument)";
    if program_io::arguments(&rt, 0, usage).is_err() {
        return;
    }
    let words = Words {
        input: b"margins: standard input",
        awaited: b"margins: a sheet is read from standard input, up to the end of input (Ctrl-D)",
        output: b"margins: standard output",
    };
    // Room for what is printed of 800 lines: programs have no heap.
    let mut out = [0u8; 40800];
    text_program::run(&rt, words, &mut out, print_text);
}
