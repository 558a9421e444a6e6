// Runs one part as often as the input says, on the sheet that follows as text. The first line spells the part: 1 to 9 a check, 10 the derived
// times with who is held and refusal 6, 11 the validation, 12 a work end over 800 windows, which looks at no sheet. The second line spells the
// count. Prints what the last run gave: how many findings, or 1 where a time, a sheet or a question came out as it should. For measuring: the
// times of this program for two counts, and their difference (docs/SPEED.md).
//
// A part of 100 more is run on several sheets, which semicolons part, in turn, so that none is met twice in a row. Each is read and indexed
// before, every time; part 100 does only that, and its time is to be taken off.
#![tactic(auto)]

use calendar::{Calendars, Places, TimeWindow, WindowKind, WorkEnd};
use check6_calendars::LackingSheet;
use derived_times::{DerivedTimes, TimedSheet};
use findings::Findings;
use model::{Sheet, SheetIndex};
use pieces::HeldMarks;
use refusals::Verdict;
use sheet::Rows;
use std::io;
use text_fields::Parts;

// The number that a line spells, 0 where it spells none.
fn number_of(s: &[u8]) -> u64 {
    rows::nat(text_fields::read_number(s).unwrap_or(0))
}

// What is timed. An enum, not a closure: the step is chosen by a number of the input, and a closure chosen so would be a dyn value or a function pointer that
// is handed out.
#[derive(Clone, Copy)]
enum Part {
    Assignments,
    TimeOnly,
    Parts,
    Requirements,
    Capacity,
    Calendars,
    Precedence,
    Deadlines,
    Constraints,
    DerivedTimes,
    Validation,
    WorkEnd,
    Nothing,
}

impl From<u64> for Part {
    fn from(number: u64) -> Part {
        match number {
            1 => Part::Assignments,
            2 => Part::TimeOnly,
            3 => Part::Parts,
            4 => Part::Requirements,
            5 => Part::Capacity,
            6 => Part::Calendars,
            7 => Part::Precedence,
            8 => Part::Deadlines,
            9 => Part::Constraints,
            10 => Part::DerivedTimes,
            11 => Part::Validation,
            12 => Part::WorkEnd,
            _ => Part::Nothing,
        }
    }
}

// Check 6 with what it asks for: which bookings lack working time.
fn check_calendars(rows: &TimedSheet, found: &mut Findings) {
    let lacking = check6_calendars::lacking_of(rows.sheet(), rows.need());
    check6_calendars::check_calendars(&LackingSheet::new(rows.sheet(), &lacking), found);
}

fn one_if_fine(v: Verdict) -> usize {
    usize::from(v.is_ok())
}

fn derive_times(rows: &Sheet) -> usize {
    one_if_fine(DerivedTimes::new().fill(rows))
}

// 2,500,000,000 ms later, up to the last instant of a sheet.
fn later(t: u64) -> u64 {
    if t < 4000000000000 { t + 2500000000 } else { t }
}

// Windows with pauses between them, listed backwards.
fn list_windows(windows: &mut [TimeWindow]) {
    let mut t = 0;
    for w in windows.iter_mut().rev() {
        let start = t;
        let end = later(start);
        *w = TimeWindow {
            kind: WindowKind::Open,
            start,
            end,
        };
        t = later(end);
    }
}

// Work of 4,000,000,000,000 ms over 800 windows: it never ends, which is known only after every start and end has been passed.
fn end_work() -> usize {
    // Room for as many windows as a sheet has rows: programs have no heap.
    let mut windows = [window_rows::NO_WINDOW; 800];
    list_windows(&mut windows);
    let calendars = Calendars {
        windows: &windows,
        places: &[Places::all(&windows)],
    };
    match calendars.joint_work_end(0, 4000000000000) {
        WorkEnd::Never => 1,
        _ => 0,
    }
}

// What a part gives; the findings of a check go to a buffer that holds 1,024 of them.
fn once(rows: &TimedSheet, part: Part, out: &mut [i64]) -> usize {
    let sheet = rows.sheet();
    let mut found = Findings::new(out);
    match part {
        Part::Assignments => check1_assignments::check_assignments(rows, &mut found),
        Part::TimeOnly => check2_time_only::check_time_only(sheet, &mut found),
        Part::Parts => check3_parts::check_parts(sheet, &mut found),
        Part::Requirements => {
            check4_requirements::check_requirements(sheet, rows.held(), &mut found)
        }
        Part::Capacity => check5_capacity::check_capacity(sheet, &mut found),
        Part::Calendars => check_calendars(rows, &mut found),
        Part::Precedence => check7_precedence::check_precedence(sheet, &mut found),
        Part::Deadlines => check8_deadlines::check_deadlines(&sheet.by_kind(), &mut found),
        Part::Constraints => check9_constraints::check_constraints(&sheet.by_kind(), &mut found),
        Part::DerivedTimes => return derive_times(sheet),
        Part::Validation => return one_if_fine(validation::validate(rows.as_slice())),
        Part::WorkEnd => return end_work(),
        Part::Nothing => {}
    }
    found.len()
}

// So many times; 0 where a refusal refuses the sheet, as it is printed.
fn timed(rows: &Sheet, part: Part, count: u64) -> usize {
    let mut times = DerivedTimes::new();
    let Ok(()) = times.fill(rows) else {
        return 0;
    };
    let sheet = TimedSheet::new(rows, &times);
    // No heap: room for 1,024 findings.
    let mut out = [0i64; 4096];
    let mut n = 0;
    for _ in 0..count {
        n = once(&sheet, part, &mut out);
    }
    n
}

fn found_of(rows: &[i64], part: Part, count: u64) -> usize {
    let mut index = SheetIndex::new();
    let Ok(()) = validation::index(rows, &mut index) else {
        return 0;
    };
    timed(&Sheet::new(rows, &index), part, count)
}

// 0 where the text is refused, as it is printed.
fn found_in(text: &[u8], part: Part, count: u64) -> usize {
    // No heap: room for the 800 rows of the longest sheet.
    let mut rows = [0i64; 8000];
    match text::read_text(text, &mut rows) {
        Ok(n) if n <= 800 => found_of(&rows[..10 * n], part, count),
        _ => 0,
    }
}

// What the part gave on the last sheet.
fn on_each(texts: &[u8], part: Part) -> usize {
    let mut found = 0;
    for text in Parts::new(texts, b';') {
        found = found_in(text, part, 1);
    }
    found
}

fn found_by(texts: &[u8], number: u64, count: u64) -> usize {
    if number < 100 {
        return found_in(texts, Part::from(number), count);
    }
    let mut found = 0;
    for _ in 0..count {
        found = on_each(texts, Part::from(number - 100));
    }
    found
}

fn main(rt: HostRuntime) -> io::Result<()> {
    // Room for two lines and many texts: programs have no heap.
    let mut input = [0u8; 400000];
    let n = program_io::read_whole(&mut rt.stdin(), &mut input);
    let read = &input[..n];
    let (part, rest) = text_fields::split_at_first(read, b'\n');
    let (count, texts) = text_fields::split_at_first(rest.unwrap_or(&[]), b'\n');
    let found = found_by(texts.unwrap_or(&[]), number_of(part), number_of(count));
    println!(rt; "{found}")
}
