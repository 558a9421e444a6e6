// A lent buffer of lines, each of as many numbers: findings are lines of four.
#![tactic(auto)]

ghost use Rattle.std.specs.Prelude.{◌≡◌, ◌+◌, ◌*◌, ◌/◌, ◌<◌, ◌≤◌, ltb, length};
ghost use Rattle.std.proofs.lemmas.List.Edits.{sets};
ghost use Rattle.line_buffer.specs.inner.Sink.{sink, more, put_line};
ghost use Rattle.line_buffer.specs.inner.Handing.{handed, after_handing};

// The line's numbers from a place of the buffer on, where it holds them.
fn store(out: &mut [i64], at: usize, line: &[i64])
    requires { at + length line.now ≤ length out.old }
    ensures { out.new ≡ sets out.old at line.now }
{
    out[at..at + line.len()].copy_from_slice(line);
}

// One more, as far as is counted. Not `saturating_add`: the count stops at 2^60, so that no sum with it overflows, and none above is cut.
fn next(n: usize) -> usize
    ensures { result ≡ more n }
{
    if n < 1152921504606846976 { n + 1 } else { n }
}

// Whether a buffer of that length holds line n, of w numbers.
fn is_held(length: usize, n: usize, w: usize) -> bool
    ensures { result ≡ ltb n (length / w) }
{
    0 < w && n < length / w
}

// One line more: written where the buffer holds it, and counted in any case.
#[tactic(auto, using(crate::proofs::LineLaws::held_fits, crate::proofs::LineLaws::held_room, crate::proofs::LineLaws::put_held, crate::proofs::LineLaws::put_past))]
pub fn put(out: &mut [i64], n: usize, line: &[i64]) -> usize
    ensures { sink out.new result ≡ put_line (length line.now) (sink out.old n) line.now }
{
    let w = line.len();
    if is_held(out.len(), n, w) {
        store(out, n * w, line);
        return next(n);
    }
    next(n)
}

// What becomes of the lines that were found: they are in the lent buffer; or it has no room for them; or they are more than are held where they were found.
#[derive(Clone, Copy, PartialEq, Eq)]
pub enum Handed {
    Over,
    Full,
    Longer,
}

// So many lines, of w numbers each, to the lent buffer, all or none. The count is that of the lines that were found, which may be more than are held.
pub fn hand_over(out: &mut [i64], w: usize, count: usize, found: &[i64]) -> Handed
    requires { 0 < w }
    ensures value { result ≡ handed (length out.old / w) (length found.now / w) count }
    ensures out_after { out.new ≡ after_handing result (count * w) found.now out.old }
{
    if count > out.len() / w {
        return Handed::Full;
    }
    if count > found.len() / w {
        return Handed::Longer;
    }
    let end = count * w;
    store(out, 0, &found[..end]);
    Handed::Over
}
