// Replays the stored calls. Each case that differs is named, and at the end is printed how many there were and how many came out as expected.
#![tactic(auto)]

use std::io;
use stored_run::{Gathered, Reads};

// Whether as many numbers are expected as the line says, four to a finding. A case that passes has fewer than 2,050 findings; of a call that is to refuse nobody
// looks at the numbers expected.
fn expects_findings(case: &Gathered) -> bool {
    match case.judging {
        &[_, number, place] => {
            rows::nat(number) != 0 || (rows::nat(place) < 2050 && case.expects_lines_of(4))
        }
        _ => false,
    }
}

// A line `CROOM,NUMBER,PLACE` has the numbers checked as rows; the findings are the numbers expected.
fn passes(case: &Gathered) -> bool {
    case.letter == b'C'
        && expects_findings(case)
        && stored_run::call_passes(
            case.judging,
            case.expected,
            |lent| feasibility::check_schedule(case.numbers, lent),
        )
}

fn main(rt: HostRuntime) -> io::Result<()> {
    stored_run::replay_files(
        &rt,
        &mut io::writer(&rt),
        &[
            b"findings-1.txt",
            b"findings-2.txt",
            b"findings-3.txt",
            b"findings-4.txt",
            b"findings-5.txt",
        ],
        Reads {
            bytes: false,
            expected: true,
        },
        passes,
    )
}
