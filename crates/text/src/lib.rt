// The text of a sheet: lines of numbers. A text is read to lent rows, or refused with a number and a place.
#![tactic(auto)]

ghost use Rattle.std.specs.Prelude.{◌≡◌, ◌/◌, ◌<◌, length};
ghost use Rattle.std.proofs.lemmas.List.Edits.{sets};
ghost use Rattle.text_fields.specs.Parts.{parts};
ghost use Rattle.text.specs.Text.{answer_from, answer_of, rows_after};
ghost use Rattle.text.specs.inner.Stored.{rows_read};

use refusals::{Answer, Reason};
use text_fields::Parts;

// Reads a text's lines, where `lent` rows are lent. The rows' numbers go to `rows`, as far as they lie within it.
fn read_lines(text: &[u8], rows: &mut [i64], lent: usize) -> Answer
    requires { length text.now < 65537 }
    ensures value { result ≡ answer_from lent 0 (parts 10 text.now) }
    ensures rows_after { rows.new ≡ sets rows.old 0 (rows_read lent 0 (parts 10 text.now)) }
{
    // Counted beside the `for`, and not by `enumerate`: the count is the answer, and is wanted after the last line.
    let mut place: usize = 0;
    let mut parts = Parts::new(text, b'\n');
    let Some(mut line) = parts.next() else {
        return Ok(place);
    };
    // A part is a line where another follows it: what stands after the last line feed is none.
    for next in parts {
        if let Err(reason) = text_line::read_line(line, rows, place * 10) {
            return Err(reason.at(place));
        }
        if lent <= place {
            return Err(Reason::Crowded.at(place));
        }
        place += 1;
        line = next;
    }
    if line.is_empty() {
        Ok(place)
    } else {
        Err(Reason::Misspelt.at(place))
    }
}

// Reads a text to the lent rows. A text that is refused changes no number of them: it is read first with none of them lent.
pub fn read_text(text: &[u8], rows: &mut [i64]) -> Answer
    ensures value { result ≡ answer_of text.now (length rows.old / 10) }
    ensures rows_after { rows.new ≡ rows_after (answer_of text.now (length rows.old / 10)) text.now rows.old }
{
    if 65536 < text.len() {
        return Err(Reason::Overlong.at(0));
    }
    let lent = rows.len() / 10;
    read_lines(text, &mut rows[..0], lent)?;
    read_lines(text, rows, lent)
}
