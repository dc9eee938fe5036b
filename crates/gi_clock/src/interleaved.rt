//! A reader of an input that gives lines from beside it between its lines.

ghost use Rattle.std.specs.Prelude.{◌≡◌, ◌<◌, ◌≤◌, IfOk, IfSome, MatchOption, MatchResult, length, take};
ghost use Rattle.std.specs.Io.KnownBytes.{Consumes, IsAtEnd, Keeps};
ghost use Rattle.gi_clock.specs.Handing.{all_told};

use crate::events::{Event, Events};
use crate::held::{Held, Piece};
use std::alloc::Global;
use std::io;
use std::io::{ErrorKind, Read};
use std::marker::Model;

/// A reader of an input, of which it gives whole lines, and at the end the rest, and between them the lines that come beside
/// it, each at once.
#[derive(Drop)]
pub struct Interleaved<S: Events> {
    alloc: Global,
    source: S,
    held: Held,
}

// What it will give, where it is known what will come.
impl<S: Events> Model for Interleaved<S> {
    ghost use Rattle.std.specs.Prelude.{List, Option, ℕ};
    ghost use Rattle.gi_clock.specs.HeldRepr.{left_of};

    ghost Value = { Option (List ℕ) };

    ghost view = { λ c. left_of c.held (S.remaining c.source) };
}

impl<S: Events> Interleaved<S> {
    pub fn new(alloc: Global, source: S) -> Interleaved<S>
        ensures { result ≡ all_told (S.remaining source) }
    {
        let held = Held::new(alloc);
        Interleaved {
            alloc,
            source,
            held,
        }
    }

    /// Gives of what is to be given; or tells what came; or waits for what comes next, a second at most. `None` where
    /// nothing was given and the input is not over.
    fn step(&mut self, buf: &mut [u8]) -> io::Result<Option<usize>>
        requires room { 0 < length buf.old }
        ensures bound { IfOk result (λ step. IfSome step (λ n. n ≤ length buf.new)) }
        ensures same { length buf.new ≡ length buf.old }
        ensures bytes { MatchResult result
            (λ step. MatchOption step (Keeps self.old self.new) (λ n. Consumes self.old self.new (take n buf.new) × (n ≡ 0 → IsAtEnd self.new)))
            (λ fault. Keeps self.old self.new) }
    {
        if !self.held.rest.is_empty() {
            return Ok(Some(self.held.give(buf)));
        }
        if self.held.piece.is_some() {
            self.held.tell(self.alloc)?;
            return Ok(None);
        }
        match self.source.next_event()? {
            Event::Came { line, bytes } => {
                self.held.piece = Some(Piece { line, bytes });
                Ok(None)
            }
            Event::End => {
                if !self.held.has_begun() {
                    return Ok(Some(0));
                }
                self.held.end(self.alloc);
                Ok(None)
            }
        }
    }
}

impl<S: Events> Read for Interleaved<S> {
    ghost use Rattle.std.specs.Prelude.{List, Option, ℕ};

    ghost remaining = { λ reader. reader };

    /// Gives what is still to be given of what came, or else waits until something is. Nothing where the input is over
    /// or the room is none. It fails where the input does, or memory is out, and a later read goes on.
    #[tactic(auto, using(crate::proofs::HeldLemmas::keeps_all, crate::proofs::HeldLemmas::keeps_on, crate::proofs::HeldLemmas::consumes_on))]
    fn read(&mut self, buf: &mut [u8]) -> io::Result<usize> {
        if buf.is_empty() {
            return Ok(0);
        }
        for _ in 0..u64::MAX {
            if let Some(count) = self.step(buf)? {
                return Ok(count);
            }
        }
        Err(io::Error::from(ErrorKind::TimedOut))
    }
}
