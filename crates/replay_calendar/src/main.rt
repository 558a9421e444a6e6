// Replays the stored questions about calendar time. Each case that differs is named, and at the end is printed how many there were and how many
// came out as expected. The numbers that a case gathers are windows, three to a window. The list is made by tools/cases/calendar_cases.py, which has
// no calendar arithmetic in common with the library.
#![tactic(auto)]

use calendar::{Calendars, NO_PLACES, Places, TimeWindow, WindowKind, WorkEnd};
use std::io;
use stored_run::{Gathered, Reads};
use window_rows::NO_WINDOW;

// An instant or an amount. The last four of 64 bits are spelled -4 to -1, for a list's numbers go only to 2^63 - 1.
fn instant(z: i64) -> u64 {
    match z {
        -1 => u64::MAX,
        -2 => u64::MAX - 1,
        -3 => u64::MAX - 2,
        -4 => u64::MAX - 3,
        _ => rows::nat(z),
    }
}

// The numbers, three by three, as windows, in arrays since programs have no heap.
fn windows_of(numbers: &[i64]) -> [TimeWindow; 800] {
    let mut windows = [NO_WINDOW; 800];
    for (w, &[kind, start, end]) in windows.iter_mut().zip(numbers.as_chunks::<3>().0) {
        *w = TimeWindow {
            kind: WindowKind::from(instant(kind)),
            start: instant(start),
            end: instant(end),
        };
    }
    windows
}

// The numbers of a line that judges, two by two, as the places of calendars, in an array for the same reason.
fn places_of(numbers: &[i64]) -> [Places; 8] {
    let mut places = [NO_PLACES; 8];
    for (p, &[from, to]) in places.iter_mut().zip(numbers.as_chunks::<2>().0) {
        *p = Places {
            from: rows::nat(from) as usize,
            to: rows::nat(to) as usize,
        };
    }
    places
}

fn is_bool(found: bool, yes: i64) -> bool {
    i64::from(found) == yes
}

// An end is 0 and the instant; a pause, never and beyond 64 bits are 1, 2 and 3.
fn is_end(found: WorkEnd, outcome: i64, end: i64) -> bool {
    match found {
        WorkEnd::End(e) => outcome == 0 && e == instant(end),
        WorkEnd::Pause => outcome == 1,
        WorkEnd::Never => outcome == 2,
        WorkEnd::Beyond => outcome == 3,
    }
}

// The windows from place FROM to place TO of the one calendar, or the calendars as pairs of places, stand last in a line:
// `FX,Y,YES,FROM,TO`, `WX,YES,FROM,TO`, `JX,YES,PLACE..`, `AX,Y,MS,PLACE..`, `EX,WORK,OUTCOME,END,PLACE..`, `BX,WORK,OUTCOME,END,PLACE..`.
fn is_answer(letter: u8, given: &[i64], calendars: Calendars) -> bool {
    let one = calendars.places.first().copied().unwrap_or(NO_PLACES);
    let windows = one.windows_in(calendars.windows);
    match (letter, given) {
        (b'F', &[x, y, yes]) => {
            is_bool(
                calendar::interval_fits(windows, instant(x), instant(y)),
                yes,
            )
        }
        (b'W', &[x, yes]) => is_bool(calendar::is_working_time(windows, instant(x)), yes),
        (b'J', &[x, yes]) => is_bool(calendars.joint_working(instant(x)), yes),
        (b'A', &[x, y, ms]) => {
            calendars.joint_available_ms(instant(x), instant(y)) == instant(ms)
        }
        (b'E', &[x, work, outcome, end]) => {
            is_end(calendars.joint_work_end(instant(x), work), outcome, end)
        }
        (b'B', &[x, work, outcome, end]) => {
            is_end(calendars.end_from(instant(x), instant(work)), outcome, end)
        }
        _ => false,
    }
}

// How many numbers a line has before its places, if its letter asks anything. By the letter, as `is_answer`: an enum between the two would name the six questions
// a third time.
fn before_places(letter: u8) -> Option<usize> {
    match letter {
        b'W' | b'J' => Some(2),
        b'F' | b'A' => Some(3),
        b'E' | b'B' => Some(4),
        _ => None,
    }
}

// Whether the question of a line over these windows' numbers comes out so.
fn question_passes(letter: u8, given: &[i64], places: &[i64], numbers: &[i64]) -> bool {
    if places.len() > 16 || numbers.len() > 2400 {
        return false;
    }
    let windows = windows_of(numbers);
    let of_calendars = places_of(places);
    let calendars = Calendars {
        windows: &windows[..numbers.len() / 3],
        places: &of_calendars[..places.len() / 2],
    };
    is_answer(letter, given, calendars)
}

fn passes(case: &Gathered) -> bool {
    before_places(case.letter)
        .and_then(|n| case.judging.split_at_checked(n))
        .is_some_and(|(given, places)| question_passes(case.letter, given, places, case.numbers))
}

fn main(rt: HostRuntime) -> io::Result<()> {
    let reads = Reads {
        bytes: false,
        expected: false,
    };
    stored_run::replay_files(&rt, &mut io::writer(&rt), &[b"cases.txt"], reads, passes)
}
