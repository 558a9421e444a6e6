// Office calendars: busy periods are read to lent rows as closed windows of a resource, or the calendar is refused with a number and a place.
#![tactic(auto)]

ghost use Rattle.std.specs.Prelude.{◌≡◌, IfOk, cond, ◌&&◌, not, [], ◌∷◌, map, ◌/◌, ◌^◌, ◌<◌, ◌≤◌, ltb, length};
ghost use Rattle.loops.specs.Search.{or_else};
ghost use Rattle.line_buffer.specs.Lines.{flat_lines};
ghost use Rattle.line_buffer.specs.inner.Sink.{sink};
ghost use Rattle.refusals.specs.Refusals.{refuse, verdict_of};
ghost use Rattle.refusals.specs.declared.Reason.TheVariants.{Overfull};
ghost use Rattle.refusals.specs.Lending.{answered, lent_after};
ghost use Rattle.text_fields.specs.Parts.{parts};
ghost use Rattle.freebusy_components.specs.Components.{busy, open_after, periods_at};
ghost use Rattle.freebusy_components.specs.inner.Room.{space_after};
ghost use Rattle.freebusy.specs.Call.{window_closures, closures, closure_row, window_refusal, periods_in, periods_refusal, freebusy_answer, freebusy_after};
ghost use Rattle.freebusy.specs.inner.Reading.{put_closures, ReadOn, unread, space_read, text_refusal};

use freebusy_lines::SentLines;
use freebusy_periods::Span;
use refusals::{Answer, Reason, Verdict};
use rows::{Class, Kind};
use text_fields::Parts;

// The column `closed` of a window that is, as a row holds it: its columns are numbers, and no other flag is written here.
const CLOSED: i64 = 1;

// What is lent: so many rows, for closures of a resource.
#[derive(Clone, Copy)]
struct Lent {
    room: usize,
    resource: i64,
    ghost in_range: { room < 2 ^ 60 },
}

// What the periods so far come to: how many rows they have, and the refusal of the first that is refused. No Answer: the count and the rows go on past a
// refusal, so that what any periods come to (`ReadOn`) has one case, and no reading breaks off with rows half put of which it would have to speak.
#[derive(Clone, Copy)]
struct Reading {
    count: usize,
    refused: Verdict,
}

// What a line comes to: where the component begins that is open after it, and its periods.
#[derive(Clone, Copy)]
struct LineRead {
    begun: Option<usize>,
    found: Reading,
}

impl Lent {
    // A period's own refusal, by its window, where n rows went before it.
    fn judge_window(self, w: Result<Span, Reason>, free: bool, p: usize, n: usize) -> Verdict
        ensures { verdict_of result ≡ or_else (window_refusal p w) (refuse (not free && not (ltb n self.room)) Overfull p) }
    {
        match w {
            Err(reason) => Err(reason.at(p)),
            Ok(_) if !free && self.room <= n => Err(Reason::Overfull.at(p)),
            Ok(_) => Ok(()),
        }
    }

    // The row of a period's window, a closed window of the resource, unless the period is FREE.
    fn put_window(self, rows: &mut [i64], n: usize, free: bool, w: Result<Span, Reason>) -> usize
        requires { IfOk w (λ v. (v.start ≤ 4000000000000) × (v.end ≤ 4000000000000)) }
        ensures { sink rows.new result ≡ put_closures self.resource (sink rows.old n) (cond free [] (window_closures w)) }
    {
        match w {
            Ok(v) if !free => {
                let kind = Kind::ResourceWindow.number() as i64;
                let (start, end) = (v.start as i64, v.end as i64);
                let line = [kind, self.resource, CLOSED, start, end, 0, 0, 0, 0, 0];
                line_buffer::put(rows, n, &line)
            }
            _ => n,
        }
    }

    // One period more.
    fn read_period(
        self,
        found: Reading,
        s: &[u8],
        free: bool,
        p: usize,
        rows: &mut [i64],
    ) -> Reading
        ensures { ReadOn self.room self.resource rows.old found (busy p free s.now ∷ []) rows.new result }
    {
        let w = freebusy_periods::window_of(s);
        let n = found.count;
        let refused = found.refused.and(self.judge_window(w, free, p, n));
        let count = self.put_window(rows, n, free, w);
        Reading { count, refused }
    }

    // The periods of the value of a line FREEBUSY.
    fn read_value(
        self,
        found: Reading,
        value: &[u8],
        free: bool,
        p: usize,
        rows: &mut [i64],
    ) -> Reading
        ensures { ReadOn self.room self.resource rows.old found (map (busy p free) (parts 44 value.now)) rows.new result }
    {
        let mut so_far = found;
        for s in Parts::new(value, b',') {
            so_far = self.read_period(so_far, s, free, p, rows);
        }
        so_far
    }

    // The periods of a line.
    fn read_line_periods(
        self,
        found: Reading,
        begun: Option<usize>,
        l: &[u8],
        p: usize,
        rows: &mut [i64],
    ) -> Reading
        ensures { ReadOn self.room self.resource rows.old found (periods_at begun p l.now) rows.new result }
    {
        match begun {
            Some(_) if freebusy_property::is_freebusy(l) => {
                let value = freebusy_property::value_of(l);
                let free = freebusy_property::is_free(l);
                self.read_value(found, value, free, p, rows)
            }
            _ => found,
        }
    }

    // One line more. A line of fewer than eight bytes neither begins nor ends a component and is no line FREEBUSY; texts of nothing but such lines have the
    // most of them.
    fn read_line(self, before: LineRead, l: &[u8], p: usize, rows: &mut [i64]) -> LineRead
        ensures begun_value { result.begun ≡ open_after before.begun p l.now }
        ensures read_on { ReadOn self.room self.resource rows.old before.found (periods_at before.begun p l.now) rows.new result.found }
    {
        if l.len() < 8 {
            return before;
        }
        LineRead {
            begun: freebusy_components::open_after(before.begun, p, l),
            found: self.read_line_periods(before.found, before.begun, l, p, rows),
        }
    }

    // The periods of a text. Lines are unfolded in the lent space.
    fn read_periods(self, text: &[u8], rows: &mut [i64], space: &mut [u8]) -> Reading
        requires { length text.now ≤ length space.old }
        ensures read_on { ReadOn self.room self.resource rows.old unread (periods_in text.now) rows.new result }
        ensures space_after { space.new ≡ space_after text.now space.old }
    {
        let mut so_far = LineRead {
            begun: None,
            found: Reading {
                count: 0,
                refused: Ok(()),
            },
        };
        for (p, sent) in SentLines::new(text).enumerate() {
            let n = freebusy_components::unfold(sent.bytes, space);
            let l = freebusy_components::front_or(n, space, sent.bytes);
            so_far = self.read_line(so_far, l, p, rows);
        }
        so_far.found
    }
}

// The periods of a text whose lines have passed. They are read first with none of the rows lent, so that a refusal changes none.
fn read_closures(text: &[u8], resource: i64, rows: &mut [i64], space: &mut [u8]) -> Answer
    requires { length text.now ≤ length space.old }
    ensures value { result ≡ answered (periods_refusal (length rows.old / 10) 0 (periods_in text.now)) (length (closures text.now)) }
    ensures rows_after { rows.new ≡ lent_after (periods_refusal (length rows.old / 10) 0 (periods_in text.now)) (flat_lines (closure_row resource) (closures text.now)) rows.old }
    ensures space_after { space.new ≡ space_read (periods_refusal (length rows.old / 10) 0 (periods_in text.now)) text.now space.old }
{
    let lent = Lent {
        room: rows.len() / 10,
        resource,
    };
    let found = lent.read_periods(text, &mut rows[..0], space);
    found.refused?;
    lent.read_periods(text, rows, space);
    Ok(found.count)
}

// The lines of a text, and when all have passed its periods. There is no heap: a line without its folds
// stands in the space. What ends the call before is tested by the caller, since the space is a large frame (docs/DECISIONS.md, 38).
fn read_calendar(text: &[u8], resource: i64, rows: &mut [i64]) -> Answer
    requires { length text.now < 65537 }
    ensures value { result ≡ answered (text_refusal text.now (length rows.old / 10)) (length (closures text.now)) }
    ensures rows_after { rows.new ≡ lent_after (text_refusal text.now (length rows.old / 10)) (flat_lines (closure_row resource) (closures text.now)) rows.old }
{
    let mut space = [0u8; 65536];
    if let Some(p) = freebusy_components::first_wrong(text, &mut space) {
        return Err(Reason::Malformed.at(p));
    }
    read_closures(text, resource, rows, &mut space)
}

// Reads a calendar's busy periods to the lent rows, as closed windows of the resource.
pub fn read_freebusy(text: &[u8], resource: i64, rows: &mut [i64]) -> Answer
    ensures value { result ≡ freebusy_answer text.now resource (length rows.old / 10) }
    ensures rows_after { rows.new ≡ freebusy_after text.now resource rows.old }
{
    if 65536 < text.len() {
        return Err(Reason::Overlong.at(0));
    }
    if !Class::Id.allows(resource) {
        return Err(Reason::OutOfRange.at(0));
    }
    read_calendar(text, resource, rows)
}
