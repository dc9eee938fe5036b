//! An input that a thread of its own reads, with the minutes of the clock beside it.

ghost use Rattle.std.specs.Prelude.{◌≡◌, ◌/◌, ◌<◌, [], None, IfOk, MatchResult, OnErr, length};
ghost use Rattle.std.specs.Io.KnownBytes.{Consumes, IsAtEnd};
ghost use Rattle.gi_clock.specs.Minutes.{GivesMinuteOf, HasBytes, TellsMinute};

use crate::events::{Event, Events};
use crate::interleaved::Interleaved;
use crate::minutes::minute_line;
use crossbeam_channel::{Receiver, RecvTimeoutError, Sender, bounded};
use std::alloc::{AllocError, Global};
use std::io::{ErrorKind, Read};
use std::marker::Model;
use std::sync::Wait;
use std::thread::Threads;
use std::time::{Clock, Duration};
use std::{io, thread};

/// How many bytes of the input are read at once, at most.
const READ_AT_ONCE: usize = 1_048_576;

/// How many pieces of the input are kept at most that were not received.
const MOST_KEPT: usize = 4;

/// How long a wait for a piece takes at most.
const WAIT_SECONDS: u64 = 1;

const SECONDS_PER_MINUTE: u64 = 60;

/// Bytes of the input, and the minute in which they came.
#[derive(Drop)]
struct Sent {
    minute: Option<u64>,
    bytes: Vec<u8>,
}

type Piece = io::Result<Sent>;

/// An input as its thread sends it, with the line of each minute of the clock beside it.
#[derive(Drop)]
pub struct Clocked<T: Wait + Clock> {
    rt: T,
    alloc: Global,
    pieces: Receiver<Piece, Global>,
    is_begun: bool,
    last: Option<u64>,
}

// The last minute of which the line was given.
impl<T: Wait + Clock> Model for Clocked<T> {
    ghost use Rattle.std.specs.Prelude.{Option, ℕ};

    ghost Value = { Option ℕ };

    ghost view = { λ c. c.last };
}

fn minute_of(seconds: u64) -> u64
    ensures { result ≡ seconds / 60 }
{
    seconds / SECONDS_PER_MINUTE
}

/// The minute of the clock, counted from 1970-01-01T00:00Z, where it can be read.
fn minute_now<C: Clock>(clock: &C) -> Option<u64> {
    match clock.since_1970() {
        Ok(time) => Some(minute_of(time.as_secs())),
        Err(_) => None,
    }
}

impl<T: Wait + Clock> Clocked<T> {
    /// The line of the minute, where it is another one than the last, and of the years from 2000 to 2199.
    fn line_of(&mut self, minute: Option<u64>) -> Result<Vec<u8>, AllocError>
        ensures line { IfOk result (λ line. GivesMinuteOf minute self.old line.items self.new) }
        ensures unchanged { OnErr result (self.new ≡ self.old) }
    {
        let Some(minute) = minute else {
            return Ok(Vec::new(self.alloc));
        };
        if self.last == Some(minute) {
            return Ok(Vec::new(self.alloc));
        }
        match minute_line(self.alloc, minute)? {
            Some(line) => {
                self.last = Some(minute);
                Ok(line)
            }
            None => Ok(Vec::new(self.alloc)),
        }
    }

    /// Bytes of the input with the line of the minute. Where memory is out the line is left to the next time.
    fn came(&mut self, minute: Option<u64>, bytes: Vec<u8>) -> Event
        ensures minute { TellsMinute self.old result self.new }
        ensures bytes { HasBytes result bytes.items }
    {
        match self.line_of(minute) {
            Ok(line) => Event::Came { line, bytes },
            Err(_) => Event::Came {
                line: Vec::new(self.alloc),
                bytes,
            },
        }
    }

    /// The line of this minute, and nothing of the input.
    fn nothing_came(&mut self) -> Event
        ensures { TellsMinute self.old result self.new }
    {
        let minute = minute_now(&self.rt);
        self.came(minute, Vec::new(self.alloc))
    }
}

impl<T: Wait + Clock> Events for Clocked<T> {
    /// What comes next: at first the line of this minute at once, then what comes of the input, and the line of the minute
    /// in which it came before it; or after a second the line of that minute, where it is another one than the last.
    fn next_event(&mut self) -> io::Result<Event>
        ensures tells { MatchResult result (λ event. TellsMinute self.old event self.new) (λ fault. self.new ≡ self.old) }
    {
        if !self.is_begun {
            self.is_begun = true;
            return Ok(self.nothing_came());
        }
        match self
            .pieces
            .recv_timeout(&self.rt, Duration::from_secs(WAIT_SECONDS))
        {
            Ok(Ok(Sent { minute, bytes })) => Ok(self.came(minute, bytes)),
            Ok(Err(fault)) => Err(fault),
            Err(RecvTimeoutError::Timeout) => Ok(self.nothing_came()),
            Err(RecvTimeoutError::Disconnected) => Ok(Event::End),
        }
    }
}

/// The next bytes of the input, as many as it has at once and the buffer has room for; none at its end.
#[tactic(auto, using(crate::proofs::HeldLemmas::keeps_all, crate::proofs::HeldLemmas::keeps_on, crate::proofs::HeldLemmas::consumes_on))]
fn next_bytes<I: Read>(alloc: Global, input: &mut I, buffer: &mut [u8]) -> io::Result<Vec<u8>>
    requires room { 0 < length buffer.old }
    ensures same { length buffer.new ≡ length buffer.old }
    ensures bytes { IfOk result (λ bytes. Consumes (I.remaining input.old) (I.remaining input.new) bytes.items × (bytes.items ≡ [] → IsAtEnd (I.remaining input.new))) }
{
    for _ in 0..u64::MAX {
        match input.read(buffer) {
            Ok(count) => return Ok(Vec::from_slice(alloc, &buffer[..count])?),
            Err(fault) => {
                if fault.kind() != ErrorKind::Interrupted {
                    return Err(fault);
                }
            }
        }
    }
    Err(io::Error::from(ErrorKind::TimedOut))
}

/// Sends the input in pieces, up to its end or its first fault, or until nobody is left to receive them.
fn send_all<T: Wait + Clock, I: Read + Drop>(
    rt: &T,
    alloc: Global,
    input: I,
    buffer: Vec<u8>,
    pieces: Sender<Piece, Global>,
)
    requires room { 0 < length buffer.items }
{
    let (mut input, mut buffer) = (input, buffer);
    for _ in rt.forever() {
        let bytes = match next_bytes(alloc, &mut input, buffer.as_mut_slice()) {
            Ok(bytes) => bytes,
            Err(fault) => {
                let _ = pieces.send(rt, Err(fault));
                return;
            }
        };
        if bytes.is_empty() {
            return;
        }
        let minute = minute_now(rt);
        if pieces.send(rt, Ok(Sent { minute, bytes })).is_err() {
            return;
        }
    }
}

/// A reader of the input with the line of each new minute between its lines: the first at once, and each within a second,
/// behind all lines whose line feed came before that minute was seen. A thread of its own reads the input. It is over at
/// the input's end and at its first fault, at which the reader fails; where the reader is dropped before, it is over with
/// the next piece, and keeps no program from its end.
pub fn with_clock<
    T: Threads + Wait + Clock + Copy + Send + 'static,
    I: Read + Send + Drop + 'static,
>(rt: T, alloc: Global, input: I) -> Result<Interleaved<Clocked<T>>, AllocError>
    // What will come is not known.
    ensures { IfOk result (λ reader. reader ≡ None) }
{
    let buffer = vec![in alloc; 0; READ_AT_ONCE]?;
    let (to, from) = bounded(alloc, MOST_KEPT)?;
    let thread = thread::spawn(&rt, move || send_all(&rt, alloc, input, buffer, to))?;
    drop(thread);
    let source = Clocked {
        rt,
        alloc,
        pieces: from,
        is_begun: false,
        last: None,
    };
    Ok(Interleaved::new(alloc, source))
}
