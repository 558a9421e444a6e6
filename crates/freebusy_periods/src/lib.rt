// Durations and periods of an office calendar, and the windows that they stand for.
#![tactic(auto)]

ghost use Rattle.std.specs.Prelude.{◌≡◌, ◌+◌, ◌≤◌, ℕ, true, false, List, Option, None, Some, IfSome, MatchOption, option_map};
ghost use Rattle.freebusy_periods.specs.Duration.{counted, then_maybe, dur_second, dur_minute, dur_time, dur_unsigned, dur_value, is_back};
ghost use Rattle.freebusy_periods.specs.Period.{period, moved, end_from, window_of};
ghost use Rattle.freebusy_periods.specs.inner.Capped.{at_most, capped_count, counted_by, capped, after_letter, after_t, after_p, ends_period};

use refusals::Reason;

// A period's window. Not spans' Span, which lies above: the reader of calendars stands by itself, and a type of both would take a crate of its own.
#[derive(Clone, Copy, PartialEq, Eq)]
pub struct Span {
    pub start: u64,
    pub end: u64,
}

// Digits and a letter: their number, the letter as a capital, and what follows it.
#[derive(Clone, Copy)]
struct Amount<'a> {
    count: u64,
    unit: u8,
    rest: &'a [u8],
}

// As many seconds lead out of the range from each instant: no number needs to be told apart from greater ones.
const MOST: u64 = 4000000001;

const LAST_INSTANT: u64 = 4000000000000;

// The definition's `at_most`: one name for its five uses, with the bound that each of them rests on.
fn cut(n: u64) -> u64
    ensures { (result ≡ at_most n) × (result ≤ 4000000001) }
{
    n.min(MOST)
}

// Digits and a letter at the front.
#[tactic(auto, using(crate::proofs::CapLaws::readings))]
fn read_amount(s: &[u8]) -> Option<Amount<'_>>
    ensures counted { option_map counted_by result ≡ capped_count (counted s.now) }
    ensures small { IfSome result (λ a. a.count ≤ 4000000001) }
{
    let mut n: u64 = 0;
    for (i, x) in s.iter().enumerate() {
        if !letters::is_digit(*x) {
            if i == 0 {
                return None;
            }
            return Some(Amount {
                count: n,
                unit: letters::capital_of(*x),
                rest: &s[i + 1..],
            });
        }
        n = cut(n * 10 + letters::digit_of(*x));
    }
    None
}

// So many seconds more.
fn add(n: u64, more: u64) -> u64
    ensures { result ≡ at_most (n + more) }
{
    cut(cut(n) + cut(more))
}

// n seconds, and as many more as what follows them spells, where anything follows.
fn then_more(n: u64, s: &[u8], more: Option<u64>) -> Option<u64>
    ensures { (next : List ℕ → Option ℕ) → more ≡ capped (next s.now) → result ≡ capped (then_maybe next n s.now) }
{
    if s.is_empty() {
        return Some(cut(n));
    }
    Some(add(n, more?))
}

// dur-second = 1*DIGIT "S"
fn dur_second(s: &[u8]) -> Option<u64>
    ensures { result ≡ capped (dur_second s.now) }
{
    let k = read_amount(s)?;
    if k.unit != b'S' {
        return None;
    }
    then_more(k.count, k.rest, None)
}

// dur-minute = 1*DIGIT "M" [dur-second]
fn dur_minute(s: &[u8]) -> Option<u64>
    ensures { result ≡ capped (dur_minute s.now) }
{
    let k = read_amount(s)?;
    if k.unit != b'M' {
        return None;
    }
    then_more(k.count * 60, k.rest, dur_second(k.rest))
}

// dur-hour / dur-minute / dur-second
fn after_t(s: &[u8]) -> Option<u64>
    ensures { result ≡ capped (after_t s.now) }
{
    let k = read_amount(s)?;
    match k.unit {
        b'H' => then_more(k.count * 3600, k.rest, dur_minute(k.rest)),
        b'M' => then_more(k.count * 60, k.rest, dur_second(k.rest)),
        b'S' => then_more(k.count, k.rest, None),
        _ => None,
    }
}

// What follows a letter, which is given as a capital, where it comes first.
#[tactic(auto, using(crate::proofs::DurationLaws::letter_none, crate::proofs::DurationLaws::letter_other, crate::proofs::DurationLaws::letter_here))]
fn after_letter(c: u8, s: &[u8]) -> Option<&[u8]>
    ensures { MatchOption result (after_letter c s.now ≡ None) (λ rest. after_letter c s.now ≡ Some rest.now) }
{
    let [first, rest @ ..] = s else {
        return None;
    };
    if !letters::is_letter(c, *first) {
        return None;
    }
    Some(rest)
}

// dur-time = "T" (dur-hour / dur-minute / dur-second)
#[tactic(auto, using(crate::proofs::DurationLaws::lettered))]
fn dur_time(s: &[u8]) -> Option<u64>
    ensures { result ≡ capped (dur_time s.now) }
{
    after_t(after_letter(b'T', s)?)
}

// dur-date / dur-time / dur-week, where dur-date = 1*DIGIT "D" [dur-time] and dur-week = 1*DIGIT "W"
fn after_p(s: &[u8]) -> Option<u64>
    ensures { result ≡ capped (after_p s.now) }
{
    let Some(k) = read_amount(s) else {
        return dur_time(s);
    };
    match k.unit {
        b'D' => then_more(k.count * 86400, k.rest, dur_time(k.rest)),
        b'W' => then_more(k.count * 604800, k.rest, None),
        _ => None,
    }
}

// "P" (dur-date / dur-time / dur-week)
#[tactic(auto, using(crate::proofs::DurationLaws::lettered))]
fn dur_unsigned(s: &[u8]) -> Option<u64>
    ensures { result ≡ capped (dur_unsigned s.now) }
{
    after_p(after_letter(b'P', s)?)
}

// dur-value = (["+"] / "-") "P" (dur-date / dur-time / dur-week)
fn dur_value(s: &[u8]) -> Option<u64>
    ensures { result ≡ capped (dur_value s.now) }
{
    match s {
        [b'+' | b'-', rest @ ..] => dur_unsigned(rest),
        _ => dur_unsigned(s),
    }
}

// What may follow the slash: a date and time, or a duration.
#[tactic(auto, using(crate::proofs::PeriodLaws::endings))]
fn is_end(e: &[u8]) -> bool
    ensures { result ≡ ends_period e.now }
{
    dates::is_date_time(e) || dur_value(e).is_some()
}

// period = date-time "/" (date-time / dur-value)
pub fn is_period(s: &[u8]) -> bool
    ensures { result ≡ period s.now }
{
    let (start, end) = text_fields::split_at_first(s, b'/');
    dates::is_date_time(start) && end.is_some_and(is_end)
}

// So many seconds before an instant, none where that is before 1970: the library's `checked_sub`, under the definition's `moved`.
fn earlier(a: u64, n: u64) -> Option<u64>
    requires { a ≤ 4000000000000 }
    ensures { result ≡ moved a true n }
{
    a.checked_sub(cut(n) * 1000)
}

// So many seconds after an instant.
fn later(a: u64, n: u64) -> Option<u64>
    requires { a ≤ 4000000000000 }
    ensures { result ≡ moved a false n }
{
    let end = a + cut(n) * 1000;
    (end <= LAST_INSTANT).then_some(end)
}

fn has_minus(s: &[u8]) -> bool
    ensures { result ≡ is_back s.now }
{
    matches!(s, [b'-', ..])
}

// The end of a period that starts at a.
fn end_from(a: u64, e: &[u8]) -> Option<u64>
    requires { a ≤ 4000000000000 }
    ensures { result ≡ end_from a e.now }
{
    if dates::is_date_time(e) {
        return dates::read_instant(e);
    }
    let n = dur_value(e)?;
    if has_minus(e) {
        earlier(a, n)
    } else {
        later(a, n)
    }
}

// The window of a period, or the reason of its refusal.
pub fn window_of(s: &[u8]) -> Result<Span, Reason>
    ensures { result ≡ window_of s.now }
{
    let (f, e) = text_fields::split_at_first(s, b'/');
    let start = dates::read_instant(f).ok_or(Reason::Undated)?;
    let end = end_from(start, e.ok_or(Reason::Undated)?).ok_or(Reason::Undated)?;
    if start < end {
        Ok(Span { start, end })
    } else {
        Err(Reason::Malformed)
    }
}
