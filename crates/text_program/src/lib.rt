// What the programs share that read a sheet as text: the run from input to output.
#![tactic(auto)]

ghost use Rattle.std.specs.Prelude.{◌≡◌, ◌≤◌, ℕ, ℤ, List, length, take};
ghost use Rattle.text_program.specs.Text.{printed_text, TakesRoom, PrintsRows, KeepsWithin, RunLeaves};

// The numbers as they are. Handed on by value they are known to be numbers of 64 bits, which bounds what is printed of them; of a lent array of signed
// numbers the proofs know no bound.
pub fn kept<const N: usize>(numbers: [i64; N]) -> [i64; N]
    ensures { result ≡ numbers.entry }
{
    numbers
}

// Reads the rows of a sheet's text, and has them printed into out; of a text that is refused it prints the refusal. It answers how many bytes that are.
pub fn print_text<F: FnOnce(&[i64], &mut [u8]) -> usize>(
    text: &[u8],
    out: &mut [u8],
    print_rows: F,
) -> usize
    ghost of_rows: { List ℤ → List ℕ }
    requires wide { 50 ≤ length out.old }
    requires callable { TakesRoom (F.pre print_rows) (length out.old) }
    requires prints { PrintsRows (F.post print_rows) (length out.old) of_rows }
    ensures upper_bound { result ≤ length out.old }
    ensures out_after { take result out.new ≡ printed_text of_rows text.now }
{
    // Room for 800 rows: programs have no heap.
    let mut rows = [0i64; 8000];
    match text::read_text(text, &mut rows) {
        Ok(n) => print_rows(&rows[..10 * n], out),
        Err(e) => printing::put_refusal(out, e),
    }
}

// What a program says of its input and its output, where it says anything.
#[derive(Clone, Copy)]
pub struct Words<'a> {
    pub input: &'a [u8],
    pub awaited: &'a [u8],
    pub output: &'a [u8],
}

// Reads standard input, has what is read printed into out, and writes what was printed to standard output.
pub fn run<F: FnOnce(&[u8], &mut [u8]) -> usize>(
    rt: &HostRuntime,
    words: Words,
    out: &mut [u8],
    print: F,
)
    requires callable { TakesRoom (F.pre print) (length out.old) }
    requires within { KeepsWithin (F.post print) (length out.old) }
    ensures { RunLeaves (F.post print) out.old out.new }
{
    // One byte more than a text may have: a longer one is refused whatever follows. A lent array, and no heap: there is no memory to run out of, and nothing
    // to say of it.
    let mut text = [0u8; 65537];
    let reading = program_io::read_input(rt, words.input, words.awaited, &mut text);
    let Some(n) = reading.input else {
        return;
    };
    let m = print(&text[..n], out);
    program_io::write_lines(rt, words.output, &out[..m]);
}
