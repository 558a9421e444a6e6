// Replays the stored cases of derived times. Each case that differs is named, and at the end is printed how many there were and how many came
// out as expected.
#![tactic(auto)]

ghost use Rattle.sheet.specs.inner.Accepted.{Accepted};

use derived_times::{Bookings, DerivedTimes};
use model::{Sheet, SheetIndex};
use overlap::Overlap;
use pieces::MarkedRows;
use resource_timing::{ActivityDuration, Derived, Piece, ResourceTiming, Timed};
use rounding::TooLarge;
use sheet::Rows;
use std::io;
use stored_run::{Gathered, Reads};

// The bits of 1.0. No float is a share whose bits are above them.
const ONE: u64 = 0x3ff0_0000_0000_0000;

// A number that must be 0 or more; else one that no time and no float's bits reach.
fn natural(z: i64) -> u64 {
    u64::try_from(z).unwrap_or(u64::MAX)
}

// As the lists have it: -1, which no time is, for a number that no time reaches.
fn signed(x: u64) -> i64 {
    i64::try_from(x).unwrap_or(-1)
}

// ---- derived times of a sheet

// The numbers of a booking: its row, and its duration, or -1 thrice where that is refused.
fn numbers_of(k: usize, d: Derived) -> [i64; 4] {
    let row = signed(k as u64);
    match d {
        Ok(d) => [
            row,
            signed(d.setup_ms),
            signed(d.process_ms),
            signed(d.teardown_ms),
        ],
        Err(TooLarge) => [row, -1, -1, -1],
    }
}

// Whether the bookings of known activities have these numbers, in the order of their rows. What lies past the numbers of either is 7: they stand in a room of
// sevens. `Accepted` is asked in a clause, as `Bookings::new` asks it: these are rows by owner.
fn derived_are(rows: &MarkedRows, expected: &[i64]) -> bool
    requires { Accepted rows.now }
{
    let bookings = Bookings::new(rows);
    let mut rest = expected;
    for k in 0..rows.row_count() {
        if let Some(d) = bookings.derived_at(k) {
            if !stored_run::as_expected(&numbers_of(k, d), rest) {
                return false;
            }
            rest = rest.get(4..).unwrap_or(&[]);
        }
    }
    stored_run::as_expected(rest, &[])
}

// A line `DNUMBER,PLACE`: whether the derived times of the rows, and refusal 6, come out so. Of a sheet that is not refused nobody looks at the place.
#[tactic(auto, using(model::proofs::Accepting::accepted))]
fn sheet_case(rows: &[i64], expected: &[i64], judging: &[i64]) -> bool {
    let mut index = SheetIndex::new();
    let Ok(()) = validation::index(rows, &mut index) else {
        return false;
    };
    let sheet = Sheet::new(rows, &index);
    let mut times = DerivedTimes::new();
    let verdict = times.fill(&sheet);
    let judged = match (judging, verdict) {
        (&[number, _], Ok(())) => rows::nat(number) == 0,
        _ => stored_run::verdict_passes(judging, verdict),
    };
    judged && derived_are(&times.marked_rows(&sheet), expected)
}

// ---- a process at a product of speeds, a share of a fixed time

fn is_time(d: Result<u64, TooLarge>, ms: i64) -> bool {
    match d {
        Ok(x) => signed(x) == ms,
        Err(TooLarge) => ms == -1,
    }
}

// The product of speeds, by their bits, in their order.
fn product_of(speeds: &[i64]) -> Timed {
    let mut f = Timed::new();
    for &bits in speeds {
        let speed = rounding::float_from_bits(rows::nat(bits));
        f = f.on(Piece::Whole, ResourceTiming::Speed(speed));
    }
    f
}

// A line `PPROCESS,TIME`.
fn product_case(speeds: &[i64], ms: u64, time: i64) -> bool {
    let base = ActivityDuration {
        setup_ms: 0,
        process_ms: ms,
        teardown_ms: 0,
    };
    let d = product_of(speeds).duration(Piece::Whole, base);
    ms <= part_share::LONGEST && is_time(d.and_then(|x| x.total_ms()), time)
}

// ---- an overlap

// A line `OBITS,LAG,START,END,FIRST,LAST`: whether the overlap's earliest start and earliest end are these.
fn overlap_case(bits: u64, lag: i64, start: u64, end: u64, first: i64, last: i64) -> bool {
    let longest = part_share::LONGEST;
    if ONE < bits || longest < lag.unsigned_abs() || longest < start || longest < end {
        return false;
    }
    let o = Overlap::new(bits, lag);
    signed(o.earliest_start(start, end)) == first && o.earliest_end(end) == last
}

// ---- the list

fn passes(case: &Gathered) -> bool {
    match (case.letter, case.judging) {
        (b'D', judging) => sheet_case(case.numbers, case.expected, judging),
        (b'P', &[ms, time]) => product_case(case.numbers, natural(ms), time),
        (b'S', &[ms, work, whole, time]) => {
            is_time(
                part_share::share(natural(ms), natural(work), natural(whole)),
                time,
            )
        }
        (b'O', &[bits, lag, start, end, first, last]) => {
            overlap_case(
                natural(bits),
                lag,
                natural(start),
                natural(end),
                first,
                last,
            )
        }
        _ => false,
    }
}

fn main(rt: HostRuntime) -> io::Result<()> {
    let reads = Reads {
        bytes: false,
        expected: true,
    };
    stored_run::replay_files(&rt, &mut io::writer(&rt), &[b"cases.txt"], reads, passes)
}
