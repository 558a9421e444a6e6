// The answers of the calls as numbers, as programs in other languages get them.
#![tactic(auto)]

ghost use Rattle.std.specs.Prelude.{◌≡◌};
ghost use Rattle.refusals.specs.Refusals.{number_of, verdict_of};
ghost use Rattle.work_end_inquiry.specs.Inquiry.{outcome_of};
ghost use Rattle.outcomes.specs.Outcome.{of_answer, of_refusal, of_inquiry};

use refusals::{Answer, Refusal, Verdict};
use work_end_inquiry::{InquiryAnswer, InquiryEnd};

// A refusal by number and place, or, with number 0, acceptance and a count in the place.
#[repr(C)]
#[derive(Clone, Copy)]
pub struct Outcome {
    pub number: u64,
    pub place: u64,
}

fn numbered(number: u64, place: u64) -> Outcome
    ensures { result ≡ record { number = number; place = place } }
{
    Outcome { number, place }
}

impl From<Refusal> for Outcome {
    ghost from_gives = { λ e r. r ≡ record { number = number_of e.reason; place = e.place } };

    fn from(e: Refusal) -> Outcome {
        numbered(e.reason.number(), e.place as u64)
    }
}

impl From<Answer> for Outcome {
    ghost from_gives = { λ answer r. r ≡ of_answer answer };

    fn from(answer: Answer) -> Outcome {
        match answer {
            Ok(n) => numbered(0, n as u64),
            Err(e) => Outcome::from(e),
        }
    }
}

impl From<Verdict> for Outcome {
    ghost from_gives = { λ v r. r ≡ of_refusal (verdict_of v) };

    fn from(v: Verdict) -> Outcome {
        match v {
            Ok(()) => numbered(0, 0),
            Err(refusal) => Outcome::from(refusal),
        }
    }
}

// A refusal by number and place; or, with number 0, an outcome (0 an end, 1 pause, 2 never) and the instant of an end.
#[repr(C)]
#[derive(Clone, Copy)]
pub struct WorkEndOutcome {
    pub number: u64,
    pub place: u64,
    pub outcome: u64,
    pub instant: u64,
}

fn accepted(outcome: u64, instant: u64) -> WorkEndOutcome
    ensures { result ≡ record { number = 0; place = 0; outcome = outcome; instant = instant } }
{
    WorkEndOutcome {
        number: 0,
        place: 0,
        outcome,
        instant,
    }
}

impl From<InquiryAnswer> for WorkEndOutcome {
    ghost from_gives = { λ a r. r ≡ of_inquiry (outcome_of a) };

    fn from(a: InquiryAnswer) -> WorkEndOutcome {
        match a {
            Ok(InquiryEnd::End(e)) => accepted(0, e),
            Ok(InquiryEnd::Pause) => accepted(1, 0),
            Ok(InquiryEnd::Never) => accepted(2, 0),
            Err(e) => WorkEndOutcome {
                number: e.reason.number(),
                place: e.place as u64,
                outcome: 0,
                instant: 0,
            },
        }
    }
}
