// Replays the stored office calendars. Each case that differs is named, and at the end is printed how many there were and how many came out as
// expected.
#![tactic(auto)]

use std::io;
use stored_run::{Gathered, Reads};

// A line `VRESOURCE,LENT,NUMBER,PLACE` has the bytes read as a calendar of that resource.
fn passes(case: &Gathered) -> bool {
    match (case.letter, case.judging) {
        (b'V', [resource, judging @ ..]) => {
            stored_run::call_passes(
                judging,
                case.numbers,
                |lent| freebusy::read_freebusy(case.bytes, *resource, lent),
            )
        }
        _ => false,
    }
}

fn main(rt: HostRuntime) -> io::Result<()> {
    let reads = Reads {
        bytes: true,
        expected: false,
    };
    stored_run::replay_files(&rt, &mut io::writer(&rt), &[b"cases.txt"], reads, passes)
}
