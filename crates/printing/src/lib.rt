// What programs print, written to a lent buffer of bytes as far as it goes. Each function takes the place to write from, and answers the place
// after what it wrote, or the buffer's end.
#![tactic(auto)]

ghost use Rattle.refusals.specs.Refusals.{number_of};
ghost use Rattle.std.specs.Prelude.{◌≡◌, ◌+◌, ◌<◌, ◌≤◌, min, length, nat_abs};
ghost use Rattle.std.proofs.lemmas.List.Edits.{sets};
ghost use Rattle.loops.specs.inner.Wrote.{Wrote};
ghost use Rattle.printing.specs.Decimal.{decimal, spelling};
ghost use Rattle.printing.specs.NumberLines.{field, number_line, number_lines};
ghost use Rattle.printing.specs.Printed.{printed_refused, printed_accepted, printed};

use refusals::{Answer, Refusal};

// A number in decimal digits. Not by `write!`: what does not fit is dropped here, and a writer that drops bytes has no contents that a clause could name.
fn put_decimal(out: &mut [u8], at: usize, n: u64) -> usize
    requires { at ≤ length out.old }
    ensures { Wrote out.old at out.new result (decimal n) }
{
    if n < 10 {
        return lent_room::put(out, at, b'0' + n as u8);
    }
    let next = put_decimal(out, at, n / 10);
    lent_room::put(out, next, b'0' + (n % 10) as u8)
}

// A number without its sign. One below zero is negated, which the project's paper asks for, and not `unsigned_abs`; the lowest has no negative, so it is the number
// after it that is, and one is added to that.
fn magnitude(z: i64) -> u64
    ensures { result ≡ nat_abs z }
{
    if z < 0 {
        return -(z + 1) as u64 + 1;
    }
    z as u64
}

// A number with a minus where it is negative. Not by `write!`, for the same reason.
fn put_signed(out: &mut [u8], at: usize, z: i64) -> usize
    requires { at ≤ length out.old }
    ensures { Wrote out.old at out.new result (spelling z) }
{
    if z < 0 {
        let next = lent_room::put(out, at, b'-');
        return put_decimal(out, next, magnitude(z));
    }
    put_decimal(out, at, magnitude(z))
}

// Number c of a line, and the byte that ends it.
fn put_field(out: &mut [u8], at: usize, line: &[i64], c: usize) -> usize
    requires { (at ≤ length out.old) × (c < length line.now) }
    ensures { Wrote out.old at out.new result (field line.now c) }
{
    let next = put_signed(out, at, line[c]);
    if c + 1 < line.len() {
        return lent_room::put(out, next, b',');
    }
    lent_room::put(out, next, b'\n')
}

// A line of numbers. By place, and not over the numbers: the last has another byte behind it, and the definition's `field` is by place.
pub fn put_line(out: &mut [u8], from: usize, line: &[i64]) -> usize
    requires { from ≤ length out.old }
    ensures { Wrote out.old from out.new result (number_line line.now) }
{
    let mut at = from;
    for c in 0..line.len() {
        at = put_field(out, at, line, c);
    }
    at
}

// The first n findings, each a line of four numbers. The count beside the lines, here and in the next: it is the call's answer, and so says the definition. A loop of its own, as closures `put_rows` and margins `put_margins`: each puts another part of a line, so
// that one function would take a closure that writes.
fn put_findings(out: &mut [u8], from: usize, found: &[i64], n: usize) -> usize
    requires { from ≤ length out.old }
    ensures { Wrote out.old from out.new result (number_lines 4 found.now n) }
{
    let mut at = from;
    for line in found.chunks(4).take(n) {
        at = put_line(out, at, line);
    }
    at
}

// A refusal by its number and place, from the start of the buffer on. Of any number, since a Reason would ask more of a caller; whoever has a reason calls
// `put_refusal`.
pub fn put_refused(out: &mut [u8], number: u64, place: u64) -> usize
    ensures { Wrote out.old 0 out.new result (printed_refused number place) }
{
    let mut at = lent_room::put_all(out, 0, b"refused,");
    at = put_decimal(out, at, number);
    at = lent_room::put(out, at, b',');
    at = put_decimal(out, at, place);
    lent_room::put(out, at, b'\n')
}

// The same of a refusal with its reason.
pub fn put_refusal(out: &mut [u8], e: Refusal) -> usize
    ensures { Wrote out.old 0 out.new result (printed_refused (number_of e.reason) e.place) }
{
    put_refused(out, e.reason.number(), e.place as u64)
}

fn put_accepted(out: &mut [u8], found: &[i64], n: usize) -> usize
    ensures { Wrote out.old 0 out.new result (printed_accepted n found.now) }
{
    let mut at = lent_room::put_all(out, 0, b"accepted,");
    at = put_decimal(out, at, n as u64);
    at = lent_room::put(out, at, b'\n');
    put_findings(out, at, found, n)
}

// What the program prints of an answer and of the findings that came with it, written to a buffer from its start. It answers how many bytes stand
// there: all, or the whole buffer where that is shorter.
pub fn print_answer(answer: Answer, found: &[i64], out: &mut [u8]) -> usize
    ensures value { result ≡ min (length (printed answer found.now)) (length out.old) }
    ensures out_after { out.new ≡ sets out.old 0 (printed answer found.now) }
{
    match answer {
        Ok(n) => put_accepted(out, found, n),
        Err(e) => put_refusal(out, e),
    }
}
