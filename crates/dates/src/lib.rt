// Dates and times as RFC 5545 writes them, in UTC, to milliseconds from 1 January 1970.
#![tactic(auto)]

ghost use Rattle.std.specs.Prelude.{◌≡◌, ◌+◌, ◌*◌, ◌-◌, ◌<◌, ◌≤◌, length};
ghost use Rattle.loops.specs.Lists.{all_of};
ghost use Rattle.text_fields.specs.Spelling.{is_digit};
ghost use Rattle.dates.specs.Calendar.{is_leap, month_days, years_days, months_days};
ghost use Rattle.dates.specs.DateTime.{digits_on, field, year, in_calendar, on_clock, date_time, exists, milliseconds, instant};

// The milliseconds from 1 January of the year 0 to 1 January 1970, and to the last instant of the range.
const EPOCH: u64 = 62167219200000;

const LAST: u64 = 66167219200000;

// Every fourth year, but of the hundreds only every fourth.
pub fn is_leap(y: u64) -> bool
    ensures { result ≡ is_leap y }
{
    y % 4 == 0 && (y % 100 != 0 || y % 400 == 0)
}

// The days of a month; no month but 1 to 12 has any.
#[tactic(auto, using(crate::proofs::DayLaws::no_month, crate::proofs::DayLaws::leap_february, crate::proofs::DayLaws::plain_february), unfolding(crate::specs::Calendar::month_days))]
pub fn month_days(y: u64, m: u64) -> u64
    ensures { result ≡ month_days y m }
{
    match m {
        1 | 3 | 5 | 7 | 8 | 10 | 12 => 31,
        4 | 6 | 9 | 11 => 30,
        2 if is_leap(y) => 29,
        2 => 28,
        _ => 0,
    }
}

// The days of the years 0 to y - 1.
fn years_days(y: u64) -> u64
    requires { y < 1000000 }
    ensures { (result ≡ years_days y) × (result ≤ 367 * y + 5) }
{
    365 * y + (y + 3) / 4 + (y + 399) / 400 - (y + 99) / 100
}

// The days of the months 0 to m - 1.
fn months_days(y: u64, m: u64) -> u64
    requires { m < 3000 }
    ensures { (result ≡ months_days y m) × (result ≤ 31 * m) }
{
    let mut days = 0;
    for k in 0..m {
        days += month_days(y, k);
    }
    days
}

// All are digits.
fn is_digits(s: &[u8]) -> bool
    ensures { result ≡ all_of is_digit s.now }
{
    s.iter().all(|x| letters::is_digit(*x))
}

// A date and time by its spelling: all that is asked of the fields is that they are digits.
#[tactic(auto, unfolding(crate::specs::DateTime::date_time, crate::specs::DateTime::date, crate::specs::DateTime::time))]
pub fn is_date_time(s: &[u8]) -> bool
    ensures { result ≡ date_time s.now }
{
    s.len() == 16
        && is_digits(&s[..8])
        && letters::is_letter(b'T', s[8])
        && is_digits(&s[9..15])
        && letters::is_letter(b'Z', s[15])
}

// The number of the two digits from i on.
#[tactic(auto, using(crate::proofs::FieldLaws::numbers))]
fn two_at(s: &[u8], i: usize) -> u64
    requires { i + 2 ≤ length s.now }
    ensures { (result ≡ digits_on 0 (field i 2 s.now)) × (result < 3000) }
{
    letters::digit_of(s[i]) * 10 + letters::digit_of(s[i + 1])
}

#[tactic(auto, using(crate::proofs::FieldLaws::numbers))]
fn year_of(s: &[u8]) -> u64
    requires { 4 ≤ length s.now }
    ensures { (result ≡ year s.now) × (result < 400000) }
{
    two_at(s, 0) * 100 + two_at(s, 2)
}

// There is such a day.
fn in_calendar(y: u64, m: u64, d: u64) -> bool
    ensures { result ≡ in_calendar y m d }
{
    0 < d && d <= month_days(y, m)
}

// There is such a second of a day.
fn on_clock(h: u64, m: u64, s: u64) -> bool
    ensures { result ≡ on_clock h m s }
{
    h < 24 && m < 60 && s < 60
}

// There is such a day, and such a second of it.
#[tactic(auto, unfolding(crate::specs::DateTime::exists))]
fn is_real(s: &[u8]) -> bool
    requires { length s.now ≡ 16 }
    ensures { result ≡ exists s.now }
{
    in_calendar(year_of(s), two_at(s, 4), two_at(s, 6))
        && on_clock(two_at(s, 9), two_at(s, 11), two_at(s, 13))
}

// The milliseconds from 1 January of the year 0.
#[tactic(auto, using(crate::proofs::FieldLaws::sums))]
fn milliseconds_of(s: &[u8]) -> u64
    requires { length s.now ≡ 16 }
    ensures { result ≡ milliseconds s.now }
{
    let y = year_of(s);
    let days = years_days(y) + months_days(y, two_at(s, 4)) + two_at(s, 6).saturating_sub(1);
    (((days * 24 + two_at(s, 9)) * 60 + two_at(s, 11)) * 60 + two_at(s, 13)) * 1000
}

// The instant of a date and time, where it is one and lies in the range.
pub fn read_instant(s: &[u8]) -> Option<u64>
    ensures { result ≡ instant s.now }
{
    if !is_date_time(s) || !is_real(s) {
        return None;
    }
    let t = milliseconds_of(s);
    if EPOCH <= t && t <= LAST {
        Some(t - EPOCH)
    } else {
        None
    }
}
