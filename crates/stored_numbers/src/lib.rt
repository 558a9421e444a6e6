// The numbers that the lines of a stored case gather: plain ones, rows, those expected (tools/cases/README.md has the form); and what is told of
// whatever a case gathers.
#![tactic(auto)]

ghost use Rattle.std.specs.Prelude.{◌≡◌, ◌≤◌, pos, length, replicate};
ghost use Rattle.std.proofs.lemmas.List.Edits.{sets};
ghost use Rattle.loops.specs.Lists.{each};
ghost use Rattle.loops.specs.inner.Wrote.{Wrote};
ghost use Rattle.text_fields.specs.Parts.{parts};
ghost use Rattle.text_line.specs.Line.{row_of};
ghost use Rattle.stored_lines.specs.inner.Line.{body};
ghost use Rattle.stored_numbers.specs.inner.Numbers.{times, numbers_in, numbers_of, expected_of, gathered};
ghost use Rattle.stored_numbers.specs.inner.Gives.{piece_as, piece_by, line_gives};

use text_fields::Parts;

// How many numbers or bytes were gathered, if there was room for more; else there may be more than was lent room for.
pub fn told(n: usize, room: usize) -> Option<usize>
    ensures { result ≡ gathered n room }
{
    (n < room).then_some(n)
}

// The numbers of a line's fields.
fn put_numbers(out: &mut [i64], from: usize, fields: &[u8]) -> usize
    requires { from ≤ length out.old }
    ensures { Wrote out.old from out.new result (numbers_in fields.now) }
{
    let mut at = from;
    for field in Parts::new(fields, b',') {
        at = lent_room::put(out, at, stored_lines::number_of(field));
    }
    at
}

// A loop of its own, as that of pieces and that of lines: lent_room `put` says why.
fn put_zeros(out: &mut [i64], from: usize, n: usize) -> usize
    requires { from ≤ length out.old }
    ensures { Wrote out.old from out.new result (replicate n (pos 0)) }
{
    let mut at = from;
    for _i in 0..n {
        at = lent_room::put(out, at, 0);
    }
    at
}

// The numbers of a line's fields, with zeros up to ten.
fn put_row(out: &mut [i64], at: usize, fields: &[u8]) -> usize
    requires { at ≤ length out.old }
    ensures { Wrote out.old at out.new result (row_of fields.now) }
{
    let end = put_numbers(out, at, fields);
    put_zeros(out, end, 10usize.saturating_sub(end - at))
}

// What the pieces of a line are: the numbers of its fields as they are, or a row of them.
#[derive(Clone, Copy)]
enum Piece {
    Numbers,
    Row,
}

impl Piece {
    fn put(self, out: &mut [i64], at: usize, fields: &[u8]) -> usize
        requires { at ≤ length out.old }
        ensures { Wrote out.old at out.new result (piece_as self fields.now) }
    {
        match self {
            Piece::Numbers => put_numbers(out, at, fields),
            Piece::Row => put_row(out, at, fields),
        }
    }
}

// Which lines are asked for: those that give a case its numbers, or those with the numbers expected.
#[derive(Clone, Copy)]
enum Asked {
    Input,
    Expected,
}

impl Asked {
    // The pieces of a line that starts with that letter, if it is one of those.
    #[tactic(auto, using(std::proofs::lemmas::Bool::Decides::nat_tests))]
    fn piece(self, letter: u8) -> Option<Piece>
        ensures { result ≡ piece_by self letter }
    {
        match (self, letter) {
            (Asked::Input, b'n') => Some(Piece::Numbers),
            (Asked::Input, b'r') => Some(Piece::Row),
            (Asked::Expected, b'e') => Some(Piece::Numbers),
            _ => None,
        }
    }
}

fn put_pieces(out: &mut [i64], from: usize, n: u64, fields: &[u8], piece: Piece) -> usize
    requires { from ≤ length out.old }
    ensures { Wrote out.old from out.new result (times n (piece_as piece fields.now)) }
{
    let mut at = from;
    for _i in 0..n {
        at = piece.put(out, at, fields);
    }
    at
}

// What a line gives, where it is one of those that are asked for.
#[tactic(auto, using(loops::proofs::StoreLaws::wrote_as, crate::proofs::GivesLaws::gives_none, loops::proofs::StoreLaws::wrote_none, crate::proofs::GivesLaws::gives_some))]
fn put_line(out: &mut [i64], at: usize, line: &[u8], asked: Asked) -> usize
    requires { at ≤ length out.old }
    ensures { Wrote out.old at out.new result (line_gives asked line.now) }
{
    let Some(piece) = asked.piece(stored_lines::letter_of(line)) else {
        return at;
    };
    let n = stored_lines::count_of(line);
    put_pieces(out, at, n, stored_lines::piece_of(line), piece)
}

fn put_lines(out: &mut [i64], lines: &[u8], asked: Asked) -> usize
    ensures { Wrote out.old 0 out.new result (each (line_gives asked) (parts 10 lines.now)) }
{
    let mut at = 0;
    for line in Parts::new(lines, b'\n') {
        at = put_line(out, at, line, asked);
    }
    at
}

// The numbers that lines gather, put to the room lent from its start on. Two names over `put_lines`: of one, stored_run's contract (`Gathers`) would have to
// name what was asked for.
pub fn gather_numbers(lines: &[u8], out: &mut [i64]) -> Option<usize>
    ensures value { result ≡ gathered (length (each numbers_of (parts 10 lines.now))) (length out.old) }
    ensures out_after { out.new ≡ sets out.old 0 (each numbers_of (parts 10 lines.now)) }
{
    let n = put_lines(out, lines, Asked::Input);
    told(n, out.len())
}

// The numbers expected that lines gather, in the same way.
pub fn gather_expected(lines: &[u8], out: &mut [i64]) -> Option<usize>
    ensures value { result ≡ gathered (length (each expected_of (parts 10 lines.now))) (length out.old) }
    ensures out_after { out.new ≡ sets out.old 0 (each expected_of (parts 10 lines.now)) }
{
    let n = put_lines(out, lines, Asked::Expected);
    told(n, out.len())
}

// The numbers of a line that judges.
pub fn judging_numbers(line: &[u8], out: &mut [i64]) -> Option<usize>
    ensures value { result ≡ gathered (length (numbers_in (body line.now))) (length out.old) }
    ensures out_after { out.new ≡ sets out.old 0 (numbers_in (body line.now)) }
{
    let n = put_numbers(out, 0, stored_lines::body_of(line));
    told(n, out.len())
}
