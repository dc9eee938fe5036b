ghost use Rattle.std.specs.Prelude.{◌≡◌, IfSome, Some, []};

use crate::lines::Lines;
use std::io::{self, Write};
use std::marker::Model;

/// A writer that hands on what it is given, and counts the lines of it that tell a refusal. It is
/// seen as what it holds, where that is known.
#[derive(Drop)]
pub struct Counted<W: Write> {
    inner: W,
    lines: Lines,
}

impl<W: Write> Model for Counted<W> {
    ghost use Rattle.std.specs.Prelude.{ℕ, List, Option};
    ghost use Rattle.gi_refusals.specs.Refusals.{counted};

    ghost Value = { Option (List ℕ) };

    ghost view = { λ it. counted (W.contents it.inner) it.lines };
}

impl<W: Write> Counted<W> {
    ghost use Rattle.gi_refusals.specs.Refusals.{counted, no_line, refused_told};

    /// Over a writer that holds nothing, where it is known what it holds.
    pub fn over(inner: W) -> Counted<W>
        ensures exact { result ≡ counted (W.contents inner) no_line }
        ensures empty { W.contents inner ≡ Some [] → result ≡ Some [] }
    {
        Counted {
            inner,
            lines: Lines::none(),
        }
    }

    /// How many lines of what it holds tell a refusal; 2^64 - 1 where more do.
    pub fn refused(&self) -> u64
        ensures { IfSome self.now (λ bytes. result ≡ refused_told bytes) }
    {
        self.lines.refused()
    }
}

impl<W: Write> Write for Counted<W> {
    ghost contents = { λ it. it };

    fn write(&mut self, buf: &[u8]) -> io::Result<usize> {
        match self.inner.write(buf) {
            Ok(written) => {
                self.lines.add_all(&buf[..written]);
                Ok(written)
            }
            Err(error) => Err(error),
        }
    }

    fn flush(&mut self) -> io::Result<()> {
        self.inner.flush()
    }
}
