// A field of a line: the part of the text that it is, and the number that it spells.
#![tactic(auto)]

ghost use Rattle.std.specs.Prelude.{◌≡◌, ◌+◌, ◌^◌, ◌<◌, ◌≤◌, length, drop, Some, MatchOption};
ghost use Rattle.std.specs.Iterator.{YieldsFirstBy, item_count};
ghost use Rattle.text_fields.specs.Parts.{until_byte, parts, parts_left};
ghost use Rattle.text_fields.specs.Spelling.{digits_from, limited, digits_of, number_of, negative};

// The part of a text before the first `stop`, or all of it where there is none.
pub fn first_part(s: &[u8], stop: u8) -> &[u8]
    ensures { result.now ≡ until_byte stop s.now }
{
    let end = s.iter().position(|x| *x == stop).unwrap_or(s.len());
    &s[..end]
}

// The same, and what follows that `stop`, if there is one.
pub fn split_at_first(s: &[u8], stop: u8) -> (&[u8], Option<&[u8]>)
    ensures first { result.0.now ≡ until_byte stop s.now }
    ensures rest { MatchOption result.1 (length s.now ≤ length result.0.now) (λ v. (length result.0.now < length s.now) × (v.now ≡ drop (length result.0.now + 1) s.now)) }
{
    let first = first_part(s, stop);
    (first, s.get(first.len() + 1..))
}

// The parts of a text between the bytes `stop`, as std's `split` gives them. A byte in place of a closure: so a caller's proof has `parts`, and no
// call of a closure.
#[derive(Drop)]
pub struct Parts<'a> {
    rest: Option<&'a [u8]>,
    stop: u8,
}

impl<'a> Parts<'a> {
    pub fn new(text: &'a [u8], stop: u8) -> Parts<'a>
        ensures { parts_left result ≡ parts stop text.now }
    {
        Parts {
            rest: Some(text),
            stop,
        }
    }
}

impl<'a> Iterator for Parts<'a> {
    type Item = &'a [u8];

    ghost next_gives = { YieldsFirstBy (λ part. part.now) parts_left };

    ghost remaining = { item_count parts_left };

    fn next(&mut self) -> Option<&'a [u8]> {
        let (part, rest) = split_at_first(self.rest?, self.stop);
        self.rest = rest;
        Some(part)
    }
}

// What an empty field holds: a row's number for none (`rows::is_none`).
const NONE: i64 = i64::MIN;

// The value of the digits, where all are digits and it is below 2^63. Not by `parse`: it takes a plus in front, and a `&str`, for which the bytes would be gone
// through once more.
fn digits_value(s: &[u8]) -> Option<u64>
    ensures { result ≡ limited (digits_from 0 s.now) }
{
    let mut n: u64 = 0;
    for x in s {
        if !x.is_ascii_digit() {
            return None;
        }
        n = n.checked_mul(10)?.checked_add(u64::from(*x - b'0'))?;
    }
    (n < 1 << 63).then_some(n)
}

// At least one digit, and no zero in front of another.
#[tactic(auto, using(crate::proofs::DigitLaws::digits_empty, crate::proofs::DigitLaws::digits_zero, crate::proofs::DigitLaws::digits_plain))]
fn read_digits(s: &[u8]) -> Option<u64>
    ensures { result ≡ digits_of s.now }
{
    match s {
        [] | [b'0', _, ..] => None,
        _ => digits_value(s),
    }
}

// The number with a minus in front; of 0 none, since -0 is misspelt. The library's negations take 0.
fn negated(n: u64) -> Option<i64>
    requires { n < 2 ^ 63 }
    ensures { result ≡ negative (Some n) }
{
    if n == 0 { None } else { Some(-(n as i64)) }
}

// What a field spells.
pub fn read_number(s: &[u8]) -> Option<i64>
    ensures { result ≡ number_of s.now }
{
    match s {
        [] => Some(NONE),
        [b'-', digits @ ..] => negated(read_digits(digits)?),
        _ => Some(read_digits(s)? as i64),
    }
}
