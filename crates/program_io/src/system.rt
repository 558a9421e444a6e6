// What the system answers to a read or a write. An answer's fields are private, so that no other page can make one up: all that the crate decides, it decides
// of what `read` and `write` below were answered. That these lend the bytes that they are handed has to be believed, and that the standard library tells the
// answer as it came: no contract can say what the outside gives and takes.
ghost use Rattle.std.specs.Prelude.{◌≡◌, length, None};
ghost use Rattle.program_io.specs.Ending.{unasked, HandsOn, TellsWhy};

use std::io;
use std::io::{ErrorKind, Read, Stdin, Stdout, Write};

// Why a call moved no bytes: a signal interrupted it before it moved any, or it failed, as the system's error tells.
#[derive(Clone, Copy, PartialEq, Eq)]
pub enum Stop {
    Interrupted,
    Failed,
}

// So many bytes were lent to the system, and it moved so many, or was stopped.
#[derive(Clone, Copy)]
pub struct Answer {
    lent: usize,
    got: Result<usize, Stop>,
}

// Standard input or output, and why its last call failed that did.
#[derive(Clone, Copy)]
pub struct Channel<S> {
    stream: S,
    reason: Option<io::Error>,
}

impl From<io::Error> for Stop {
    ghost use Rattle.program_io.specs.Ending.{Stops};

    ghost from_gives = { λ reason why. Stops reason why };

    fn from(reason: io::Error) -> Stop {
        if reason.kind() == ErrorKind::Interrupted {
            Stop::Interrupted
        } else {
            Stop::Failed
        }
    }
}

impl<S> Channel<S> {
    pub fn new(stream: S) -> Channel<S>
        ensures { result ≡ record { stream = stream; reason = None } }
    {
        Channel {
            stream,
            reason: None,
        }
    }

    pub fn reason(&self) -> Option<io::Error>
        ensures { result ≡ self.now.reason }
    {
        self.reason
    }

    // The answer as the standard library tells it, and why it failed if it did.
    fn answer(&mut self, lent: usize, told: io::Result<usize>) -> Answer
        ensures lent { result.lent ≡ lent }
        ensures stays { self.new.stream ≡ self.old.stream }
        ensures told { HandsOn told self.old.reason self.new.reason result }
    {
        match told {
            Ok(n) => Answer { lent, got: Ok(n) },
            Err(reason) => {
                self.reason = Some(reason);
                Answer {
                    lent,
                    got: Err(Stop::from(reason)),
                }
            }
        }
    }
}

pub fn read(source: &mut Channel<Stdin>, buffer: &mut [u8]) -> Answer
    ensures lent { result.lent ≡ length buffer.new }
    ensures stays { source.new.stream ≡ source.old.stream }
    ensures reason { TellsWhy source.old.reason source.new.reason result }
{
    let told = source.stream.read(buffer);
    source.answer(buffer.len(), told)
}

pub fn write(sink: &mut Channel<Stdout>, bytes: &[u8]) -> Answer
    ensures lent { result.lent ≡ length bytes.now }
    ensures stays { sink.new.stream ≡ sink.old.stream }
    ensures reason { TellsWhy sink.old.reason sink.new.reason result }
{
    let told = sink.stream.write(bytes);
    sink.answer(bytes.len(), told)
}

impl Answer {
    // Where there is nothing to lend, the system is not asked.
    pub fn none() -> Answer
        ensures { result ≡ unasked }
    {
        Answer {
            lent: 0,
            got: Ok(0),
        }
    }

    pub fn lent(self) -> usize
        ensures { result ≡ self.lent }
    {
        self.lent
    }

    pub fn got(self) -> Result<usize, Stop>
        ensures { result ≡ self.got }
    {
        self.got
    }
}
