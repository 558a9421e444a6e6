// Replays the stored rows and texts. Each case that differs is named, and at the end is printed how many there were and how many came out as
// expected.
#![tactic(auto)]

use std::io;
use stored_run::{Gathered, Reads};

// A line `TLENT,NUMBER,PLACE` has the bytes read as a text, a line `RNUMBER,PLACE` the numbers judged as rows.
fn passes(case: &Gathered) -> bool {
    match case.letter {
        b'T' => {
            stored_run::call_passes(
                case.judging,
                case.numbers,
                |lent| text::read_text(case.bytes, lent),
            )
        }
        b'R' => stored_run::verdict_passes(case.judging, validation::validate(case.numbers)),
        _ => false,
    }
}

fn main(rt: HostRuntime) -> io::Result<()> {
    let reads = Reads {
        bytes: true,
        expected: false,
    };
    stored_run::replay_files(&rt, &mut io::writer(&rt), &[b"cases.txt"], reads, passes)
}
