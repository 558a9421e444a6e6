// The program: reads a sheet as text from standard input, checks it, and prints the answer.
#![tactic(auto)]

ghost use Rattle.std.specs.Prelude.{◌≡◌, ◌≤◌, length, take};
ghost use Rattle.text_program.specs.Text.{printed_text};
ghost use Rattle.check_schedule.specs.Program.{printed_sheet};

use text_program::Words;

// Checks the rows and puts what is printed of them into out. It answers how many bytes that are.
fn print_sheet(rows: &[i64], out: &mut [u8]) -> usize
    requires { length out.old ≡ 168030 }
    ensures upper_bound { result ≤ 168030 }
    ensures out_after { take result out.new ≡ printed_sheet rows.now }
{
    // Room for 2,000 findings: programs have no heap.
    let mut found = [0i64; 8000];
    let answer = feasibility::check_schedule(rows, &mut found);
    let found = text_program::kept(found);
    printing::print_answer(answer, &found, out)
}

// Reads the text, checks the sheet, and puts what is printed into out.
fn print_text(text: &[u8], out: &mut [u8]) -> usize
    requires { length out.old ≡ 168030 }
    ensures upper_bound { result ≤ 168030 }
    ensures out_after { take result out.new ≡ printed_text printed_sheet text.now }
{
    text_program::print_text(text, out, print_sheet)
}

// What margins does as well, text_program does. Its main names other words and other room: a function of both would be handed each of them, and do no more.
fn main(rt: HostRuntime) {
    let usage = b"usage: check_schedule < SHEET (it takes no argument)";
    if program_io::arguments(&rt, 0, usage).is_err() {
        return;
    }
    let words = Words {
        input: b"check_schedule: standard input",
        awaited: b"check_schedule: a sheet is read from standard input, up to the end of input (Ctrl-D)",
        output: b"check_schedule: standard output",
    };
    // Room for what is printed of 2,000 findings: programs have no heap.
    let mut out = [0u8; 168030];
    text_program::run(&rt, words, &mut out, print_text);
}
