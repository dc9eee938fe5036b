ghost use Rattle.std.specs.Prelude.{◌≡◌};

use gi_serving::Watch;
use std::io::{IsTerminal, Stderr, Stdout, Write};
use std::marker::Model;

/// The least lines of a script of which it is told how far it is.
const LONG: usize = 1000;

/// Tells how far a long run is on one line of a terminal, which is rewritten at each hundredth, and
/// wiped away at the end. Where standard error is no terminal it tells nothing, nor where standard output is
/// one too, which is told of each line.
#[derive(Drop)]
pub struct Progress {
    errors: Stderr,
    is_told: bool,
    /// How many lines it was last told are made.
    lines: usize,
    /// How many it was last told the script has.
    all: usize,
    hundredths: usize,
}

impl Model for Progress {
    ghost use Rattle.std.specs.Prelude.{ℕ};

    /// How many lines it was last told are made, and how many the script has.
    ghost Value = { ℕ × ℕ };

    ghost view = { λ progress. (progress.lines, progress.all) };
}

impl Progress {
    /// Nothing is told yet.
    pub fn new(errors: Stderr, output: &Stdout) -> Progress
        ensures { result ≡ (0, 0) }
    {
        let is_told = errors.is_terminal() && !output.is_terminal();
        Progress {
            errors,
            is_told,
            lines: 0,
            all: 0,
            hundredths: 0,
        }
    }
}

impl Watch for Progress {
    ghost told = { λ progress. progress.0 };

    ghost whole = { λ progress. progress.1 };

    fn made(&mut self, lines: usize, all: usize) {
        self.lines = lines;
        self.all = all;
        let hundredths = lines / (all / 100 + 1);
        if self.is_told && all >= LONG && hundredths > self.hundredths {
            self.hundredths = hundredths;
            let _ = write!(self.errors, "\r{lines} of {all} lines");
        }
    }

    fn ended(&mut self) {
        if self.hundredths > 0 {
            let _ = write!(self.errors, "\r\x1b[K");
        }
    }
}
