// The lines of stored lists of cases: some gather numbers and bytes, and one, with a capital letter, has what was gathered judged
// (tools/cases/README.md has the form). Here are the fields of a line, whether lines are formed, and where a case ends.
#![tactic(auto)]

ghost use Rattle.std.specs.Prelude.{◌≡◌, ◌+◌, ◌-◌, ◌≤◌, ltb, length, take};
ghost use Rattle.loops.specs.Lists.{all_of};
ghost use Rattle.text_fields.specs.Parts.{parts};
ghost use Rattle.text_line.specs.Line.{fields_of, value_of, spelled};
ghost use Rattle.stored_lines.specs.inner.Line.{letter, body, count, piece, is_judging, has_count, has_numbers, has_row, is_formed};
ghost use Rattle.std.specs.Iterator.{at_most};
ghost use Rattle.stored_lines.specs.inner.Case.{judging_at, CaseAt};
ghost use Rattle.stored_lines.specs.inner.Cases.{NextCase};

use text_fields::Parts;

// ---- the fields of a line

// The number that a field spells, 0 where it is misspelt. No Option: lines are asked before whether they are formed.
pub fn number_of(s: &[u8]) -> i64
    ensures { result ≡ value_of s.now }
{
    text_fields::read_number(s).unwrap_or(0)
}

// The letter that a line starts with, 0 where it is empty. No Option: it is only compared with letters, and 0 is none of them.
pub fn letter_of(line: &[u8]) -> u8
    ensures { result ≡ letter line.now }
{
    line.first().copied().unwrap_or(0)
}

// What follows the letter.
pub fn body_of(line: &[u8]) -> &[u8]
    ensures { result.now ≡ body line.now }
{
    line.get(1..).unwrap_or(&[])
}

// The number before the first comma, how often the rest is gathered.
pub fn count_of(line: &[u8]) -> u64
    ensures { result ≡ count line.now }
{
    rows::nat(number_of(text_fields::first_part(body_of(line), b',')))
}

// What follows the first comma.
pub fn piece_of(line: &[u8]) -> &[u8]
    ensures { result.now ≡ piece line.now }
{
    text_fields::split_at_first(body_of(line), b',')
        .1
        .unwrap_or(&[])
}

// ---- whether the lines of a case are formed

// Whether every field of a line is a number or none.
fn is_spelled(line: &[u8]) -> bool
    ensures { result ≡ spelled (fields_of line.now) }
{
    Parts::new(line, b',').all(|f| text_fields::read_number(f).is_some())
}

// Whether a line has fewer than twelve fields.
fn is_short(line: &[u8]) -> bool
    ensures { result ≡ ltb (length (fields_of line.now)) 12 }
{
    Parts::new(line, b',').take(12).count() < 12
}

#[tactic(auto, unfolding(crate::specs::inner::Line::is_judging))]
fn is_judging(line: &[u8]) -> bool
    ensures { result ≡ is_judging line.now }
{
    letter_of(line).is_ascii_uppercase()
}

fn has_count(line: &[u8]) -> bool
    ensures { result ≡ has_count line.now }
{
    let rest = body_of(line);
    0 < count_of(line) && text_fields::first_part(rest, b',').len() < rest.len()
}

// Whether a line has a count and then numbers.
#[tactic(auto, using(loops::proofs::BranchLaws::both_told, crate::proofs::FormLaws::body_spelled, loops::proofs::BranchLaws::one_told), unfolding(crate::specs::inner::Line::has_numbers))]
fn has_numbers(line: &[u8]) -> bool
    ensures { result ≡ has_numbers line.now }
{
    has_count(line) && is_spelled(body_of(line))
}

// The same of a row's at most ten numbers.
#[tactic(auto, using(loops::proofs::BranchLaws::both_told, crate::proofs::FormLaws::body_short, loops::proofs::BranchLaws::one_told), unfolding(crate::specs::inner::Line::has_row))]
fn has_row(line: &[u8]) -> bool
    ensures { result ≡ has_row line.now }
{
    has_numbers(line) && is_short(body_of(line))
}

#[tactic(auto, unfolding(crate::specs::inner::Line::is_formed))]
fn is_formed(line: &[u8]) -> bool
    ensures { result ≡ is_formed line.now }
{
    if is_judging(line) {
        return is_spelled(body_of(line));
    }
    match line {
        [] | [b'#', ..] => true,
        [b't', ..] => has_count(line),
        [b'r', ..] => has_row(line),
        [b'n' | b'e', ..] => has_numbers(line),
        _ => false,
    }
}

// Whether all these lines are formed.
pub fn all_formed(lines: &[u8]) -> bool
    ensures { result ≡ all_of is_formed (parts 10 lines.now) }
{
    Parts::new(lines, b'\n').all(is_formed)
}

// ---- where a case ends

// Places in a list: where a case starts, where the line that judges it starts and ends, and where the next case starts.
#[derive(Clone, Copy)]
pub struct Case {
    pub start: usize,
    pub line: usize,
    pub end: usize,
    pub next: usize,
}

// Where the first line from a place on starts that judges, or the list's end. Counted beside the `for`: the place is the answer, and `Parts` gives no places.
fn judging_at(list: &[u8], from: usize) -> usize
    ensures { result ≡ judging_at list.now from }
{
    if list.len() < from {
        return list.len();
    }
    let mut at = from;
    for line in Parts::new(&list[from..], b'\n') {
        if is_judging(line) {
            return at;
        }
        at += line.len() + 1;
    }
    list.len()
}

// The case that starts at a place of a list.
pub fn case_at(list: &[u8], at: usize) -> Case
    ensures case_at { CaseAt list.now at result }
    ensures at_le_line { (at ≤ length list.now → at ≤ result.line) × (result.line ≤ result.end) × (result.end ≤ length list.now) }
{
    let line = judging_at(list, at);
    let end = line + text_fields::first_part(&list[line..], b'\n').len();
    Case {
        start: at,
        line,
        end,
        next: list.len().min(end + 1),
    }
}

// The cases of a list, in order.
#[derive(Drop)]
pub struct Cases<'a> {
    list: &'a [u8],
    at: usize,
}

impl<'a> Cases<'a> {
    pub fn new(list: &'a [u8]) -> Cases<'a>
        ensures { (result.list.now ≡ list.now) × (result.at ≡ 0) }
    {
        Cases { list, at: 0 }
    }
}

impl<'a> Iterator for Cases<'a> {
    type Item = Case;

    ghost next_gives = { NextCase };

    ghost remaining = { λ s. at_most (length s.list.now - s.at) };

    fn next(&mut self) -> Option<Case> {
        if self.list.len() <= self.at {
            return None;
        }
        let case = case_at(self.list, self.at);
        self.at = case.next;
        Some(case)
    }
}
