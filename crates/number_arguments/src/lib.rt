// A program's arguments that are numbers, spelt as in the text of a sheet. What the system hands over, no contract can say; what it is as a number, this one says.
#![tactic(auto)]

ghost use Rattle.std.specs.Prelude.{◌≡◌, take};
ghost use Rattle.number_arguments.specs.Argument.{argument_number};

use std::rt::Env;

// What an argument spells.
fn number_of(argument: &[u8]) -> Option<i64>
    ensures { result ≡ argument_number argument.now }
{
    if argument.is_empty() {
        return None;
    }
    text_fields::read_number(argument)
}

// What the system handed over as an argument, the first `length` of these bytes, and the number that it spells.
// The system writes it to fixed memory: there is no heap here.
#[derive(Drop)]
pub struct Argument {
    pub bytes: [u8; 21],
    pub length: usize,
    pub number: Option<i64>,
}

// Argument i, counted from 1. No number has more than 20 bytes, and the room has one more: of an argument that it does not hold nothing is handed over, as of a
// missing one.
pub fn number_argument(rt: &HostRuntime, i: usize) -> Argument
    ensures { result.number ≡ argument_number (take result.length result.bytes) }
{
    let mut bytes = [0u8; 21];
    let length = rt.arg(i, &mut bytes).unwrap_or(0);
    let number = number_of(&bytes[..length]);
    Argument {
        bytes,
        length,
        number,
    }
}
