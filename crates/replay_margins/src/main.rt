// Replays the stored margins. Each case that differs is named, and at the end is printed how many there were and how many came out as expected.
#![tactic(auto)]

use std::io;
use stored_run::{Gathered, Reads};

// A line `MROOM,NUMBER,PLACE` asks for the margins of the numbers as rows; a line of them is three of the numbers expected.
fn passes(case: &Gathered) -> bool {
    case.lines_pass(b'M', 3, |lent| margin_lines::margins(case.numbers, lent))
}

fn main(rt: HostRuntime) -> io::Result<()> {
    let reads = Reads {
        bytes: false,
        expected: true,
    };
    stored_run::replay_files(&rt, &mut io::writer(&rt), &[b"cases.txt"], reads, passes)
}
