ghost use Rattle.std.specs.Prelude.{◌≡◌};

use std::alloc::Global;
use std::io::{self, Read};
use std::marker::Model;

/// The most bytes that are remembered: as many as a command takes.
const MOST: usize = 67_108_864;

/// A reader that hands on what another one gives, and remembers it from when it is told to. It is seen as what is still to be read, where
/// that is known.
#[derive(Drop)]
pub struct Remembered<R: Read> {
    inner: R,
    /// None where it is not told to remember, and where there was too much or no memory for it.
    bytes: Option<Vec<u8>>,
}

impl<R: Read> Model for Remembered<R> {
    ghost use Rattle.std.specs.Prelude.{ℕ, List, Option};

    ghost Value = { Option (List ℕ) };

    ghost view = { λ it. R.remaining it.inner };
}

/// Adds to what is remembered; nothing is remembered where it has no room.
fn remember(bytes: &[u8], kept: Option<Vec<u8>>) -> Option<Vec<u8>> {
    let mut all = kept?;
    if bytes.len() > MOST.saturating_sub(all.len()) {
        return None;
    }
    match all.extend_from_slice(bytes) {
        Ok(()) => Some(all),
        Err(_) => None,
    }
}

impl<R: Read> Remembered<R> {
    /// Over a reader of which nothing is remembered yet.
    pub fn over(inner: R) -> Remembered<R>
        ensures { result ≡ R.remaining inner }
    {
        Remembered { inner, bytes: None }
    }

    /// From here on it remembers what it hands on.
    pub fn begin(&mut self, alloc: Global)
        ensures { self.new ≡ self.old }
    {
        self.bytes = Some(Vec::new(alloc));
    }

    /// All that was read since it was told to remember; None where it was not told to, where that is more than 67,108,864 bytes, and where
    /// memory ran out.
    pub fn remembered(&self) -> Option<&[u8]> {
        match &self.bytes {
            Some(bytes) => Some(bytes.as_slice()),
            None => None,
        }
    }
}

impl<R: Read> Read for Remembered<R> {
    ghost remaining = { λ it. it };

    fn read(&mut self, buf: &mut [u8]) -> io::Result<usize> {
        match self.inner.read(buf) {
            Ok(count) => {
                self.bytes = remember(&buf[..count], self.bytes.take());
                Ok(count)
            }
            Err(error) => Err(error),
        }
    }
}
