// How calls answer: accepted, or refused for a reason, which has its number, at a place.
#![tactic(auto)]

ghost use Rattle.std.specs.Prelude.{◌≡◌};
ghost use Rattle.refusals.specs.Refusals.{number_of, at};

// Why something is refused, each with its number; each request adds its own.
#[derive(Clone, Copy, PartialEq, Eq)]
pub enum Reason {
    // Rows of a sheet.
    Misshapen = 1,
    UnknownKind = 2,
    OutOfRange = 3,
    Stray = 4,
    Twice = 5,
    // A booking's derived time.
    Stretched = 6,
    // The findings.
    Full = 7,
    // A text.
    Overlong = 8,
    Misspelt = 9,
    Crowded = 10,
    // An office calendar.
    Malformed = 11,
    Undated = 12,
    Overfull = 13,
}

// Why, and at the place of which row or line, counted from 0.
#[derive(Clone, Copy, PartialEq, Eq)]
pub struct Refusal {
    pub reason: Reason,
    pub place: usize,
}

// Whether something is refused.
pub type Verdict = Result<(), Refusal>;

// What a call answers: accepted with a count (of findings, of rows), or refused.
pub type Answer = Result<usize, Refusal>;

impl Reason {
    // The number by which those who call know it.
    pub fn number(self) -> u64
        ensures { result ≡ number_of self }
    {
        self as u64
    }

    // Refused for this reason at that place.
    pub fn at(self, place: usize) -> Refusal
        ensures { result ≡ at self place }
    {
        Refusal {
            reason: self,
            place,
        }
    }
}
