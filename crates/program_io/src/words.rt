// The system's words for a failure.
ghost use Rattle.std.specs.Prelude.{◌≡◌, ◌-◌, ◌≤◌, ◌++◌, take, drop, replicate};
ghost use Rattle.program_io.specs.Reason.{text_of, before_text, words_alone};

use std::fmt::Write;
use std::{fmt, io, str};

// What the standard library writes of a failure: the system's words, and after them its number in brackets. Programs have no heap, so it stands at the start of
// an array; what does not fit is cut off.
#[derive(Drop)]
pub struct Words {
    bytes: [u8; 256],
    length: usize,
    ghost within: { length ≤ 256 },
    ghost blank_after: { drop length bytes ≡ replicate (256 - length) 0 },
}

impl Write for Words {
    ghost write_str_gives = { λ before text after. take after.length after.bytes ≡ take before.length before.bytes ++ text };

    #[tactic(auto, using(crate::proofs::Wording::blank_left))]
    fn write_str(&mut self, text: &str) -> fmt::Result {
        let from = self.length;
        let taken = text.len().min(256 - from);
        self.bytes[from..from + taken].copy_from_slice(&text.as_bytes()[..taken]);
        self.length = from + taken;
        if taken < text.len() {
            return Err(fmt::Error);
        }
        Ok(())
    }
}

// Which bytes are written of a reason, no contract can say: the library's `Display` of its error states no `output`.
pub fn words_of(reason: io::Error) -> Words
    ensures within { result.length ≤ 256 }
    ensures blank_after { drop result.length result.bytes ≡ replicate (256 - result.length) 0 }
{
    let mut words = Words {
        bytes: [0; 256],
        length: 0,
    };
    let _ = write!(words, "{reason}");
    words
}

// The bytes as text, where they are; nothing in place of others.
#[tactic(auto, using(crate::proofs::Wording::is_text, crate::proofs::Wording::is_no_text))]
fn text_of(bytes: &[u8]) -> &str
    ensures { result.now ≡ text_of bytes.now }
{
    str::from_utf8(bytes).unwrap_or("")
}

// What stands in a text before the first place where another begins; all of it, where there is none.
#[tactic(auto, using(crate::proofs::Wording::found_nowhere))]
fn before_text<'a>(text: &'a str, stop: &str) -> &'a str
    ensures { result.now ≡ before_text text.now stop.now }
{
    match text.split_once(stop) {
        Some((before, _)) => before,
        None => text,
    }
}

impl Words {
    // The words alone.
    pub fn alone(&self) -> &str
        ensures { result.now ≡ words_alone (take self.now.length self.now.bytes) }
    {
        before_text(text_of(&self.bytes[..self.length]), " (os error ")
    }
}
