// The bytes that the lines of a stored case gather, for a text (tools/cases/README.md has the form).
#![tactic(auto)]

ghost use Rattle.std.specs.Prelude.{◌≡◌, map, ◌≤◌, length};
ghost use Rattle.std.proofs.lemmas.List.Edits.{sets};
ghost use Rattle.loops.specs.Lists.{each};
ghost use Rattle.loops.specs.inner.Wrote.{Wrote};
ghost use Rattle.text_fields.specs.Parts.{parts};
ghost use Rattle.stored_numbers.specs.inner.Numbers.{times, gathered};
ghost use Rattle.stored_bytes.specs.inner.Bytes.{meant, bytes_of};

use text_fields::Parts;

// What a byte of a line stands for.
#[tactic(auto, unfolding(crate::specs::inner::Bytes::meant))]
fn meant_by(x: u8) -> u8
    ensures { result ≡ meant x }
{
    match x {
        b'|' => 10,
        b'$' => 13,
        b'^' => 0,
        b'~' => 255,
        _ => x,
    }
}

// A loop of its own, as that of copies and that of texts: lent_room `put` says why.
fn put_bytes(out: &mut [u8], from: usize, s: &[u8]) -> usize
    requires { from ≤ length out.old }
    ensures { Wrote out.old from out.new result (map meant s.now) }
{
    let mut at = from;
    for x in s {
        at = lent_room::put(out, at, meant_by(*x));
    }
    at
}

fn put_copies(out: &mut [u8], from: usize, n: u64, s: &[u8]) -> usize
    requires { from ≤ length out.old }
    ensures { Wrote out.old from out.new result (times n (map meant s.now)) }
{
    let mut at = from;
    for _i in 0..n {
        at = put_bytes(out, at, s);
    }
    at
}

#[tactic(auto, using(loops::proofs::StoreLaws::wrote_as, crate::proofs::ByteLaws::gives_bytes, crate::proofs::ByteLaws::gives_no_bytes, loops::proofs::StoreLaws::wrote_none))]
fn put_text(out: &mut [u8], at: usize, line: &[u8]) -> usize
    requires { at ≤ length out.old }
    ensures { Wrote out.old at out.new result (bytes_of line.now) }
{
    if stored_lines::letter_of(line) == b't' {
        return put_copies(
            out,
            at,
            stored_lines::count_of(line),
            stored_lines::piece_of(line),
        );
    }
    at
}

fn put_texts(out: &mut [u8], lines: &[u8]) -> usize
    ensures { Wrote out.old 0 out.new result (each bytes_of (parts 10 lines.now)) }
{
    let mut at = 0;
    for line in Parts::new(lines, b'\n') {
        at = put_text(out, at, line);
    }
    at
}

// The bytes that lines gather.
pub fn gather_bytes(lines: &[u8], out: &mut [u8]) -> Option<usize>
    ensures value { result ≡ gathered (length (each bytes_of (parts 10 lines.now))) (length out.old) }
    ensures out_after { out.new ≡ sets out.old 0 (each bytes_of (parts 10 lines.now)) }
{
    let n = put_texts(out, lines);
    stored_numbers::told(n, out.len())
}
