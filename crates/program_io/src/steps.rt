// Where reading and writing stand after each answer of the system. A place's fields are private: another page has only those that the steps lead to.
ghost use Rattle.std.specs.Prelude.{◌≡◌, ◌+◌, ◌<◌, ◌^◌};
ghost use Rattle.program_io.specs.Ending.{begun, further, after_moved, try_again, after};

use crate::system::{Answer, Stop};
use std::ops::ControlFlow;

// How often a read or a write is tried that signals interrupt; then it has failed.
const TRIES: usize = 100;

// So many bytes are read or written, and the next read or write may be tried so often.
#[derive(Clone, Copy)]
pub struct Place {
    done: usize,
    left: usize,
}

// How reading or writing ends: every byte that was lent moved; or a call moved none, so the input has ended, or no more is taken; or a call failed.
#[derive(Clone, Copy, PartialEq, Eq)]
pub enum End {
    Whole,
    Short,
    Failed,
}

impl Place {
    pub fn begin() -> Place
        ensures { result ≡ begun }
    {
        Place {
            done: 0,
            left: TRIES,
        }
    }

    pub fn done(self) -> usize
        ensures { result ≡ self.done }
    {
        self.done
    }

    fn further(self, n: usize) -> Place
        requires { self.done + n < 2 ^ 64 }
        ensures { result ≡ further self n }
    {
        Place {
            done: self.done + n,
            left: TRIES,
        }
    }
}

// A call moved `n` of the bytes that were lent.
#[tactic(auto, using(std::proofs::lemmas::Bool::Decides::nat_tests), unfolding(crate::specs::Ending::after_moved))]
fn moved(place: Place, lent: usize, n: usize) -> ControlFlow<End, Place>
    requires { place.done + lent < 2 ^ 64 }
    ensures { result ≡ after_moved place lent n }
{
    if lent <= n {
        ControlFlow::Break(End::Whole)
    } else if n == 0 {
        ControlFlow::Break(End::Short)
    } else {
        ControlFlow::Continue(place.further(n))
    }
}

// A call was interrupted.
#[tactic(auto, using(std::proofs::lemmas::Bool::Decides::nat_tests), unfolding(crate::specs::Ending::try_again))]
fn try_again(place: Place) -> ControlFlow<End, Place>
    ensures { result ≡ try_again place }
{
    if place.left <= 1 {
        return ControlFlow::Break(End::Failed);
    }
    ControlFlow::Continue(Place {
        left: place.left - 1,
        ..place
    })
}

// Reading or writing goes on from a place, or has ended.
pub fn after(place: Place, answer: Answer) -> ControlFlow<End, Place>
    requires { place.done + answer.lent < 2 ^ 64 }
    ensures { result ≡ after place answer.lent answer.got }
{
    match answer.got() {
        Ok(n) => moved(place, answer.lent(), n),
        Err(Stop::Interrupted) => try_again(place),
        Err(Stop::Failed) => ControlFlow::Break(End::Failed),
    }
}
