// A program's arguments, its standard input and its standard output. A read that failed is never taken for the end of the input (but by `read_whole`), and a
// write that failed is never lost in silence: each is told in a line on standard error, as is what a file tells when it is asked to keep what was written.
// What the outside gives and takes, no contract can say; what is made of each answer of the system, the page `Ending` says.
#![tactic(auto)]

mod steps;
mod system;
mod words;

ghost use Rattle.std.specs.Prelude.{◌≡◌, ◌≢◌, ◌+◌, ◌^◌, ◌<◌, ◌≤◌, length, take, drop, MatchResult};
ghost use Rattle.std.specs.Counts.{IsPrefixLen};
ghost use Rattle.std.specs.Io.KnownBytes.{Consumes};
ghost use Rattle.program_io.specs.Ending.{ToEnd, ReadToEnd, read_of};
ghost use Rattle.program_io.specs.inner.Input.{Held};

use std::env::FillError;
use std::fs::{OpenFile, OpenOptions};
use std::io::{ErrorKind, IsTerminal, Read, Stdin, Stdout};
use std::ops::ControlFlow;
use std::os::fd::AsFd;
use std::rt::Env;
use std::{fs, io};
use steps::{End, Place};
use system::{Answer, Channel};

// How reading or writing ended: from where the last call was made, its answer, and how it ended by these.
#[derive(Clone, Copy)]
struct Ended {
    from: Place,
    last: Answer,
    end: End,
}

// How reading ended, and how many bytes at the start of the buffer were read, after which the input ended or the buffer was full; none where a read failed.
#[derive(Clone, Copy)]
pub struct Reading {
    ended: Ended,
    pub input: Option<usize>,
}

impl Ended {
    fn read(self) -> Option<usize>
        requires { self.from.done + self.last.lent < 2 ^ 64 }
        ensures { result ≡ read_of self }
    {
        match self.end {
            End::Whole => Some(self.from.done() + self.last.lent()),
            End::Short => Some(self.from.done()),
            End::Failed => None,
        }
    }
}

// A line on standard error. Where that fails, nobody is left to be told.
pub fn tell(rt: &HostRuntime, words: &[u8]) {
    let _ = rt.stderr().write_all(words);
    let _ = rt.stderr().write_all(b"\n");
}

// A line on standard error: what failed, and the system's words.
fn tell_failure(rt: &HostRuntime, what: &[u8], reason: io::Error) {
    let words = words::words_of(reason);
    let _ = rt.stderr().write_all(what);
    let _ = rt.stderr().write_all(b": ");
    tell(rt, words.alone().as_bytes());
}

// The same of a call that failed, whose reason is there.
fn tell_reason(rt: &HostRuntime, what: &[u8], reason: Option<io::Error>) {
    if let Some(reason) = reason {
        tell_failure(rt, what, reason);
    } else {
        tell(rt, what);
    }
}

// Whether the program was started with a word i, however long. Word 0 is its name, if it has one.
fn has_word(rt: &HostRuntime, i: usize) -> bool {
    let mut start = [0u8; 1];
    let word = rt.arg(i, &mut start);
    !matches!(word, Err(FillError::NotPresent))
}

// The words after the program's name.
fn given_arguments(rt: &HostRuntime) -> usize {
    for i in 1..usize::MAX {
        if !has_word(rt, i) {
            return i - 1;
        }
    }
    usize::MAX
}

// How many arguments a program that takes `count` was given; an error where these are more or fewer, and then a line says how it is used.
pub fn arguments(rt: &HostRuntime, count: usize, usage: &[u8]) -> Result<usize, usize>
    ensures { MatchResult result (λ given. given ≡ count) (λ given. given ≢ count) }
{
    let given = given_arguments(rt);
    if given == count {
        return Ok(given);
    }
    tell(rt, usage);
    Err(given)
}

// The system's answer to a read to the buffer's bytes from the place on; those before it stay. Where there are none, it is not asked.
fn read_at(source: &mut Channel<Stdin>, buffer: &mut [u8], place: Place) -> Answer
    requires { place.done ≤ length buffer.old }
    ensures lent_value { place.done + result.lent ≡ length buffer.new }
    ensures buffer_unchanged { take place.done buffer.new ≡ take place.done buffer.old }
{
    let done = place.done();
    if buffer.len() <= done {
        return Answer::none();
    }
    system::read(source, &mut buffer[done..])
}

// Reads until the input ends or the buffer is full, in steps of any length. No read follows the end: at a terminal it would wait for more.
// Writing has a loop of its own: one for both would take a trait whose contracts repeat what becomes of the lent buffer, longer than this loop.
fn read_to_end(source: &mut Channel<Stdin>, buffer: &mut [u8]) -> Ended
    ensures { ToEnd result (length buffer.new) }
{
    let mut place = Place::begin();
    loop {
        let last = read_at(source, buffer, place);
        match steps::after(place, last) {
            ControlFlow::Continue(next) => {
                place = next;
            }
            ControlFlow::Break(end) => {
                return Ended {
                    from: place,
                    last,
                    end,
                };
            }
        }
    }
}

// Reads standard input to its end, or to the buffer's. At a terminal a line says first what is awaited. Where a read fails, a line names the input and
// gives the system's words.
pub fn read_input(rt: &HostRuntime, input: &[u8], awaited: &[u8], buffer: &mut [u8]) -> Reading
    ensures read_to_end { ReadToEnd result (length buffer.new) }
    ensures held { Held result.input buffer.new }
{
    let stdin = rt.stdin();
    if stdin.is_terminal() {
        tell(rt, awaited);
    }
    let mut source = Channel::new(stdin);
    let ended = read_to_end(&mut source, buffer);
    let read = ended.read();
    if read.is_none() {
        tell_reason(rt, input, source.reason());
    }
    Reading { ended, input: read }
}

// Reads until the input ends, a read fails or the room is full, and gives how many bytes were read. For the programs of the gate and of measuring, which tell
// no reason: here a read that fails ends the input. A loop by hand: a step has any length, and how many bytes were read is the answer.
pub fn read_whole<R: Read>(from: &mut R, room: &mut [u8]) -> usize
    ensures within { IsPrefixLen result room.new }
    ensures bytes { Consumes (R.remaining from.old) (R.remaining from.new) (take result room.new) }
{
    let mut n = 0;
    while n < room.len() {
        match from.read(&mut room[n..]) {
            Ok(0) | Err(_) => return n,
            Ok(more) => n += more,
        }
    }
    n
}

// What is left to write after the first `done` bytes.
fn rest_of(bytes: &[u8], done: usize) -> &[u8]
    requires { done ≤ length bytes.now }
    ensures { result.now ≡ drop done bytes.now }
{
    &bytes[done..]
}

// The system's answer to a write of them. Where there are none, it is not asked.
fn write_at(sink: &mut Channel<Stdout>, bytes: &[u8], place: Place) -> Answer
    requires { place.done ≤ length bytes.now }
    ensures { place.done + result.lent ≡ length bytes.now }
{
    let done = place.done();
    if bytes.len() <= done {
        return Answer::none();
    }
    system::write(sink, rest_of(bytes, done))
}

// Writes until every byte is taken, or a write fails or takes nothing. Steps of any length, as in `read_to_end`, where it is said why each has its loop.
fn write_to_end(sink: &mut Channel<Stdout>, bytes: &[u8]) -> Ended
    ensures { ToEnd result (length bytes.now) }
{
    let mut place = Place::begin();
    loop {
        let last = write_at(sink, bytes, place);
        match steps::after(place, last) {
            ControlFlow::Continue(next) => {
                place = next;
            }
            ControlFlow::Break(end) => {
                return Ended {
                    from: place,
                    last,
                    end,
                };
            }
        }
    }
}

// Writes all that the program has to say to standard output, and has it kept there, since a file on another machine may fail only then. Where that fails, a
// line names the output and gives the system's words; what went out stays.
pub fn write_output(rt: &HostRuntime, output: &[u8], bytes: &[u8]) {
    let mut sink = Channel::new(rt.stdout());
    match write_to_end(&mut sink, bytes).end {
        End::Whole => keep_output(rt, output),
        End::Short => tell_cut(rt, output),
        End::Failed => tell_reason(rt, output, sink.reason()),
    }
}

// The same of an answer that may be no line at all. A line on standard error then says so: silence on both outputs would be no answer.
pub fn write_lines(rt: &HostRuntime, output: &[u8], lines: &[u8]) {
    if lines.is_empty() {
        tell(rt, b"0 lines");
    }
    write_output(rt, output, lines);
}

// Has what was written reach the disk, where standard output is a file that can be asked to.
fn reach_disk(rt: &HostRuntime) -> io::Result<()> {
    let path = "/proc/self/fd/1";
    let Ok(facts) = fs::metadata(rt, path) else {
        return Ok(());
    };
    if !facts.is_file() {
        return Ok(());
    }
    let Ok(file) = OpenOptions::new().write(true).open(rt, path) else {
        return Ok(());
    };
    match file.sync_all() {
        Err(reason) if reason.kind() != ErrorKind::InvalidInput => Err(reason),
        _ => Ok(()),
    }
}

// Fails where standard output is not open, also if nothing was written, and where a file does not keep what was written.
fn kept(rt: &HostRuntime) -> io::Result<()> {
    let _open = rt.stdout().as_fd().try_clone_to_owned()?;
    reach_disk(rt)
}

fn keep_output(rt: &HostRuntime, output: &[u8]) {
    if let Err(reason) = kept(rt) {
        tell_failure(rt, output, reason);
    }
}

// The system gives no words for a write that takes nothing.
fn tell_cut(rt: &HostRuntime, output: &[u8]) {
    let _ = rt.stderr().write_all(output);
    tell(rt, b": no more was taken");
}
