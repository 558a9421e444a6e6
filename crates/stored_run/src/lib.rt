// The run over stored lists of cases: what a case gathers, whether it passes, and what is counted and told. The programs replay_.. judge.
#![tactic(auto)]

ghost use Rattle.std.specs.Prelude.{◌≡◌, ◌*◌, true, false, pos, IsOk, is_ok, OnOk, IfOk, IfSome, MatchOption, ⊤, Some, ◌≢◌, ◌<◌, ◌≤◌, List, ◌++◌, length, get_or, take, ℕ};
ghost use Rattle.std.specs.Counts.{IsPrefixLen};
ghost use Rattle.std.specs.Io.KnownBytes.{Appends};
ghost use Rattle.std.specs.Fn.{FnReturnsAt, FnOnceReturnsAtMut};
ghost use Rattle.stored_run.specs.inner.Cases.{bytes_given, numbers_given, expected_given, expected_read, fit, has_room, SaysWith, Says, ComesOut};
ghost use Rattle.stored_run.specs.declared.Reads.{Reads};
ghost use Rattle.stored_run.specs.declared.Gathered.{Gathered};
ghost use Rattle.stored_run.specs.declared.Run.{Run};
ghost use Rattle.stored_run.specs.Told.{run_line, line_after, case_line, told_case, told_unread};
ghost use Rattle.stored_run.specs.inner.Count.{more};
ghost use Rattle.stored_run.specs.inner.Replays.{no_cases, with_case, ReplaysList, ReplaysFile, ReplaysFiles};
ghost use Rattle.stored_run.specs.inner.Expected.{as_expected, passes, lines_expected, LentPasses, CallPasses, verdict_passes};

use refusals::{Answer, Verdict};
use std::fs::File;
use std::io::Write;
use std::rt::Files;
use std::{io, str};
use stored_lines::Cases;
use text_fields::Parts;

// ---- what a case gathers

// The letter and the numbers of the line that judges a case, and what its other lines gather for it.
#[derive(Clone, Copy)]
pub struct Gathered<'a> {
    pub letter: u8,
    pub judging: &'a [i64],
    pub numbers: &'a [i64],
    pub bytes: &'a [u8],
    pub expected: &'a [i64],
}

impl Gathered<'_> {
    // Whether the line that judges has that letter and the call comes out as expected, which gives lines of `width` numbers.
    pub fn lines_pass<F: FnOnce(&mut [i64]) -> Answer>(
        &self,
        letter: u8,
        width: u64,
        call: F,
    ) -> bool
        requires { F.IsAlwaysCallable call }
        ensures lines { result ≡ true → (self.now.letter ≡ letter) × (length self.now.expected.now ≡ lines_expected self.now.judging.now * width) }
        ensures passes { result ≡ true → CallPasses (FnOnceReturnsAtMut F.FnOnce call) self.now.judging.now self.now.expected.now }
    {
        self.letter == letter
            && self.expects_lines_of(width)
            && call_passes(self.judging, self.expected, call)
    }

    // Whether the numbers expected are `width` to each line that a call is to give; it gives none where it is to refuse.
    pub fn expects_lines_of(&self, width: u64) -> bool
        ensures { result ≡ true → length self.now.expected.now ≡ lines_expected self.now.judging.now * width }
    {
        match self.judging {
            &[_, number, place] => {
                let lines = if rows::nat(number) == 0 {
                    rows::nat(place)
                } else {
                    0
                };
                lines.checked_mul(width) == Some(self.expected.len() as u64)
            }
            _ => false,
        }
    }
}

// Which lines of a case a program reads beside those with its numbers: those with bytes, those with numbers expected. What it does not read is not gathered: it
// fails no case, however often a line repeats it.
#[derive(Clone, Copy)]
pub struct Reads {
    pub bytes: bool,
    pub expected: bool,
}

// So many of them, if it is known how many.
fn first_of<T>(n: Option<usize>, room: &[T]) -> Option<&[T]>
    ensures { MatchOption result (IfSome n (λ k. length room.now < k)) (λ s. (k : ℕ) × (n ≡ Some k) × (s.now ≡ take k room.now)) }
{
    room.get(..n?)
}

// Why a case fails: a line of it is ill-formed, or it comes out otherwise than expected.
#[derive(Clone, Copy, PartialEq, Eq)]
pub enum Fault {
    IllFormed,
    Differs,
}

// What the judge says of what these lines gather, if there is room for it. Room comes step by step, so that a case fills none for what is not read.
fn is_passed<F: Fn(&Gathered) -> bool>(
    lines: &[u8],
    line: &[u8],
    reads: Reads,
    passes: &F,
) -> Option<bool>
    requires { F.IsAlwaysCallable passes.now }
    ensures { MatchOption result (has_room reads lines.now line.now ≡ false) (Says (FnReturnsAt F.Fn passes.now) reads lines.now line.now) }
{
    // Room for the numbers that judge: programs have no heap.
    let mut judging = [0i64; 16];
    let case = Gathered {
        letter: stored_lines::letter_of(line),
        judging: first_of(
            stored_numbers::judging_numbers(line, &mut judging),
            &judging,
        )?,
        numbers: &[],
        bytes: &[],
        expected: &[],
    };
    if reads.bytes {
        passes_with_bytes(lines, case, reads, passes)
    } else {
        passes_with_numbers(lines, case, reads, passes)
    }
}

// The same where a case has the line that judges, and is to gather its bytes and what follows.
fn passes_with_bytes<F: Fn(&Gathered) -> bool>(
    lines: &[u8],
    case: Gathered,
    reads: Reads,
    passes: &F,
) -> Option<bool>
    requires { F.IsAlwaysCallable passes.now }
    ensures { MatchOption result (fit (numbers_given lines.now) (bytes_given lines.now) (expected_read reads lines.now) ≡ false)
        (SaysWith (FnReturnsAt F.Fn passes.now) case.entry (numbers_given lines.now) (bytes_given lines.now) (expected_read reads lines.now)) }
{
    let mut room = [0u8; 70010];
    let bytes = first_of(stored_bytes::gather_bytes(lines, &mut room), &room)?;
    passes_with_numbers(lines, Gathered { bytes, ..case }, reads, passes)
}

// The same where it has its bytes too. What no line gathers to is still 7 among the numbers.
fn passes_with_numbers<F: Fn(&Gathered) -> bool>(
    lines: &[u8],
    case: Gathered,
    reads: Reads,
    passes: &F,
) -> Option<bool>
    requires { F.IsAlwaysCallable passes.now }
    ensures { MatchOption result (fit (numbers_given lines.now) case.entry.bytes.now (expected_read reads lines.now) ≡ false)
        (SaysWith (FnReturnsAt F.Fn passes.now) case.entry (numbers_given lines.now) case.entry.bytes.now (expected_read reads lines.now)) }
{
    let mut room = [7i64; 8210];
    let numbers = first_of(stored_numbers::gather_numbers(lines, &mut room), &room)?;
    let case = Gathered {
        numbers,
        expected: &[],
        ..case
    };
    if reads.expected {
        passes_with_expected(lines, case, passes)
    } else {
        Some(passes(&case))
    }
}

// The same where it has all but the numbers expected.
fn passes_with_expected<F: Fn(&Gathered) -> bool>(
    lines: &[u8],
    case: Gathered,
    passes: &F,
) -> Option<bool>
    requires { F.IsAlwaysCallable passes.now }
    ensures { MatchOption result (fit case.entry.numbers.now case.entry.bytes.now (expected_given lines.now) ≡ false)
        (SaysWith (FnReturnsAt F.Fn passes.now) case.entry case.entry.numbers.now case.entry.bytes.now (expected_given lines.now)) }
{
    let mut room = [7i64; 8210];
    let expected = first_of(stored_numbers::gather_expected(lines, &mut room), &room)?;
    Some(passes(&Gathered { expected, ..case }))
}

// Whether a case passes. These are its lines, and the one among them that judges it.
fn judge<F: Fn(&Gathered) -> bool>(
    lines: &[u8],
    gathering: &[u8],
    judging: &[u8],
    reads: Reads,
    passes: &F,
) -> Result<(), Fault>
    requires { F.IsAlwaysCallable passes.now }
    ensures { ComesOut (FnReturnsAt F.Fn passes.now) reads lines.now gathering.now judging.now result }
{
    if !stored_lines::all_formed(lines) {
        return Err(Fault::IllFormed);
    }
    match is_passed(gathering, judging, reads, passes) {
        Some(true) => Ok(()),
        Some(false) | None => Err(Fault::Differs),
    }
}

// ---- what is told

// How many cases were judged, and how many of them came out as expected.
#[derive(Clone, Copy)]
pub struct Run {
    pub cases: u64,
    pub passed: u64,
}

// Not `saturating_add`: the count stops at a million, far below what a number holds, and no number above is cut. `line_buffer::next` is the same up to 2^60, in
// the library, on which this run does not lean for it.
fn one_more(n: u64) -> u64
    ensures { result ≡ more n }
{
    if n < 1000000 { n + 1 } else { n }
}

impl Run {
    // Before the first list.
    pub fn new() -> Run
        ensures { result ≡ no_cases }
    {
        Run {
            cases: 0,
            passed: 0,
        }
    }

    // With another case.
    pub fn judged(self, outcome: Result<(), Fault>) -> Run
        ensures { result ≡ with_case self outcome }
    {
        let passed = if outcome.is_ok() {
            one_more(self.passed)
        } else {
            self.passed
        };
        Run {
            cases: one_more(self.cases),
            passed,
        }
    }

    // The last line that a program prints.
    pub fn print<W: Write>(self, out: &mut W) -> io::Result<()>
        ensures { OnOk result (Appends (W.contents out.old) (W.contents out.new) (run_line self)) }
    {
        let cases = self.cases;
        let passed = self.passed;
        writeln!(out, "{cases} cases, {passed} as expected")
    }
}

// The number of the line that starts after these bytes, as far as a million.
fn line_after(before: &[u8]) -> usize
    ensures { result ≡ line_after before.now }
{
    Parts::new(before, b'\n').take(1000000).count()
}

// Names the case that starts at a place of a list: the file, the number of its first line, and that line, which is its remark.
#[tactic(auto, using(crate::proofs::Appending::appends_then), unfolding(crate::specs::Told::case_line))]
fn name_case<W: Write>(
    out: &mut W,
    name: &[u8],
    list: &[u8],
    at: usize,
    why: &[u8],
) -> io::Result<()>
    ensures { OnOk result (Appends (W.contents out.old) (W.contents out.new) (case_line name.now list.now at why.now)) }
{
    let Some((before, case)) = list.split_at_checked(at) else {
        return Ok(());
    };
    let line = line_after(before);
    out.write_all(name)?;
    write!(out, ":{line}")?;
    out.write_all(why)?;
    out.write_all(text_fields::first_part(case, b'\n'))?;
    out.write_all(b"\n")
}

// Names the case that starts at a place of the list in a file, where it fails.
pub fn name_failed<W: Write>(
    out: &mut W,
    name: &[u8],
    list: &[u8],
    at: usize,
    outcome: Result<(), Fault>,
) -> io::Result<()>
    ensures passed { IsOk outcome → IsOk result }
    ensures told { OnOk result (Appends (W.contents out.old) (W.contents out.new) (told_case name.now list.now at outcome)) }
{
    match outcome {
        Ok(()) => Ok(()),
        Err(Fault::IllFormed) => name_case(out, name, list, at, b": ill-formed: "),
        Err(Fault::Differs) => name_case(out, name, list, at, b": differs: "),
    }
}

// ---- the lists

// Judges each case of a list, and names those that fail.
#[tactic(auto, using(crate::proofs::Replaying::cases_begun, crate::proofs::Replaying::cases_further))]
fn replay_list<W: Write, F: Fn(&Gathered) -> bool>(
    out: &mut W,
    name: &[u8],
    list: &[u8],
    before: Run,
    reads: Reads,
    passes: &F,
) -> io::Result<Run>
    requires { F.IsAlwaysCallable passes.now }
    ensures { IfOk result (λ after. (told : List ℕ) × Appends (W.contents out.old) (W.contents out.new) told
        × ReplaysList (FnReturnsAt F.Fn passes.now) reads name.now list.now told before after) }
{
    let mut run = before;
    for case in Cases::new(list) {
        let outcome = judge(
            &list[case.start..case.end],
            &list[case.start..case.line],
            &list[case.line..case.end],
            reads,
            passes,
        );
        name_failed(out, name, list, case.start, outcome)?;
        run = run.judged(outcome);
    }
    Ok(run)
}

// The same of the list in a file.
fn replay_file<W: Write, F: Fn(&Gathered) -> bool>(
    rt: &impl Files,
    out: &mut W,
    name: &[u8],
    before: Run,
    reads: Reads,
    passes: &F,
) -> io::Result<Run>
    requires { F.IsAlwaysCallable passes.now }
    ensures { IfOk result (λ after. (told : List ℕ) × Appends (W.contents out.old) (W.contents out.new) told
        × ReplaysFile (FnReturnsAt F.Fn passes.now) reads name.now told before after) }
{
    // Room for a list: programs have no heap.
    let mut list = [0u8; 262144];
    let read = read_list(rt, name, &mut list);
    name_unread(out, name, &list, read)?;
    match read {
        Some(n) => replay_list(out, name, &list[..n], before, reads, passes),
        None => Ok(before),
    }
}

// Judges each case of the lists in files, names those that fail, and prints how many there were and how many came out as expected.
#[tactic(auto, using(crate::proofs::Replaying::files_begun))]
pub fn replay_files<W: Write, F: Fn(&Gathered) -> bool>(
    rt: &impl Files,
    out: &mut W,
    names: &[&[u8]],
    reads: Reads,
    passes: F,
) -> io::Result<()>
    requires { F.IsAlwaysCallable passes }
    ensures { OnOk result ((told : List ℕ) × (run : Run) × Appends (W.contents out.old) (W.contents out.new) (told ++ run_line run)
        × ReplaysFiles (FnReturnsAt F.Fn passes) reads names.now told no_cases run) }
{
    let mut run = Run::new();
    for name in names {
        run = replay_file(rt, out, name, run, reads, &passes)?;
    }
    run.print(out)
}

// ---- what is expected of a call that writes to lent numbers

// The number at a place among those expected; 7 after them.
fn expected_at(expected: &[i64], i: usize) -> i64
    ensures { result ≡ get_or expected.now i (pos 7) }
{
    expected.get(i).copied().unwrap_or(7)
}

// Whether the lent numbers are the first of those expected, and after them 7.
pub fn as_expected(lent: &[i64], expected: &[i64]) -> bool
    ensures { result ≡ as_expected lent.now expected.now }
{
    lent.iter()
        .enumerate()
        .all(|(i, x)| *x == expected_at(expected, i))
}

// Whether a call came out as expected that was to write to lent numbers, each of them 7: refused by a number at a place, with every one still 7; or, where
// that number is 0, accepted with so many lines as the place says, which are the numbers expected.
pub fn came_out(answer: Answer, lent: &[i64], expected: &[i64], number: u64, place: u64) -> bool
    ensures { result ≡ passes answer lent.now expected.now number place }
{
    match answer {
        Ok(k) => number == 0 && place == k as u64 && as_expected(lent, expected),
        Err(e) => {
            number == e.reason.number() && place == e.place as u64 && as_expected(lent, &[])
        }
    }
}

// A line that judges with the numbers LENT, NUMBER and PLACE: whether a call comes out so that is lent the first LENT of numbers that are all 7.
pub fn call_passes<F: FnOnce(&mut [i64]) -> Answer>(
    judging: &[i64],
    expected: &[i64],
    call: F,
) -> bool
    requires { F.IsAlwaysCallable call }
    ensures { result ≡ true → CallPasses (FnOnceReturnsAtMut F.FnOnce call) judging.now expected.now }
{
    match judging {
        &[lent, number, place] => {
            let lent = rows::nat(lent) as usize;
            lent <= 8210 && lent_passes(lent, expected, rows::nat(number), rows::nat(place), call)
        }
        _ => false,
    }
}

// What happens with LENT numbers lent. The test of LENT stands above: a function with a large frame does not end before it needs it (docs/DECISIONS.md, 38).
fn lent_passes<F: FnOnce(&mut [i64]) -> Answer>(
    lent: usize,
    expected: &[i64],
    number: u64,
    place: u64,
    call: F,
) -> bool
    requires may_call { F.IsAlwaysCallable call }
    requires room { lent ≤ 8210 }
    ensures { result ≡ true → LentPasses (FnOnceReturnsAtMut F.FnOnce call) lent expected.now number place }
{
    // Room for what the longest case lends: programs have no heap.
    let mut numbers = [7i64; 8210];
    let answer = call(&mut numbers[..lent]);
    came_out(answer, &numbers, expected, number, place)
}

// A line that judges with the numbers NUMBER and PLACE: whether this is the verdict.
pub fn verdict_passes(judging: &[i64], verdict: Verdict) -> bool
    ensures { result ≡ verdict_passes judging.now verdict }
{
    match judging {
        &[number, place] => {
            came_out(
                verdict.map(|()| 0),
                &[],
                &[],
                rows::nat(number),
                rows::nat(place),
            )
        }
        _ => false,
    }
}

// ---- the reading of a list

// Reads the list in a file to the room lent, and gives how many bytes of it were read, if the file can be opened.
pub fn read_list(rt: &impl Files, name: &[u8], list: &mut [u8]) -> Option<usize>
    ensures { IfSome result (λ n. IsPrefixLen n list.new) }
{
    let path = str::from_utf8(name).ok()?;
    let mut file = File::open(rt, path).ok()?;
    Some(program_io::read_whole(&mut file, list))
}

// Tells of a list that could not be read or fills the room; what was not read is missed in the count of cases.
pub fn name_unread<W: Write>(
    out: &mut W,
    name: &[u8],
    list: &[u8],
    read: Option<usize>,
) -> io::Result<()>
    ensures whole { MatchOption read ⊤ (λ n. n ≢ 0 → n ≢ length list.now → IsOk result) }
    ensures told { OnOk result (Appends (W.contents out.old) (W.contents out.new) (told_unread name.now (length list.now) read)) }
{
    if read.is_none_or(|n| n == 0 || n == list.len()) {
        out.write_all(name)?;
        return out.write_all(b": not read whole\n");
    }
    Ok(())
}
