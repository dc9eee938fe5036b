//! The lines of a text that tell a refusal, byte by byte.

ghost use Rattle.std.specs.Prelude.{◌≡◌};
ghost use Rattle.std.specs.List.{fold};
ghost use Rattle.gi_refusals.specs.Refusals.{next, no_line, total};

use crate::telling::tells_refusal;
use std::marker::Model;

/// By so many of its first bytes a line is told.
const FRONT: usize = 32;

/// The front of the line that is being written, and how many lines before it tell a refusal.
#[derive(Drop)]
pub(crate) struct Lines {
    front: [u8; FRONT],
    len: usize,
    count: u64,
}

impl Model for Lines {
    ghost use Rattle.std.specs.Prelude.{◌<◌, ◌≤◌, ◌^◌, take};
    ghost use Rattle.gi_refusals.specs.Refusals.{Tally};

    ghost Value = { Tally };

    ghost view = { λ it. record { front = take it.len it.front; count = it.count } };

    ghost invariant = { λ it. (it.len ≤ 32) × (it.count < 2 ^ 64) };
}

impl Lines {
    pub(crate) fn none() -> Lines
        ensures { result ≡ no_line }
    {
        Lines {
            front: [0; FRONT],
            len: 0,
            count: 0,
        }
    }

    /// How many lines tell a refusal, the one that is being written too.
    pub(crate) fn refused(&self) -> u64
        ensures { result ≡ total self.now }
    {
        if tells_refusal(&self.front[..self.len]) {
            self.count.saturating_add(1)
        } else {
            self.count
        }
    }

    fn add(&mut self, byte: u8)
        ensures { self.new ≡ next self.old byte }
    {
        if byte == b'\n' {
            self.count = self.refused();
            self.len = 0;
        } else if self.len < FRONT {
            self.front[self.len] = byte;
            self.len += 1;
        }
    }

    /// Takes these bytes too.
    pub(crate) fn add_all(&mut self, bytes: &[u8])
        ensures { self.new ≡ fold next self.old bytes.now }
    {
        for byte in bytes {
            self.add(*byte);
        }
    }
}
