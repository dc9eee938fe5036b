ghost use Rattle.std.specs.Prelude.{◌≡◌, ◌<◌, [], ◌∷◌, length, MatchOption, OnSome};
ghost use Rattle.gi_script.specs.LinesRepr.{IsCounted, left};
ghost use Rattle.gi_script.specs.Script.{lines_of};

use gi_text::split_line;

/// The lines of a script that are still to be read.
#[derive(Drop)]
pub struct Lines<'a> {
    /// How many came before, empty ones too.
    before: u64,
    rest: &'a [u8],
}

impl<'a> Lines<'a> {
    /// The lines of a script.
    pub fn of(bytes: &'a [u8]) -> Lines<'a>
        ensures lines { left result ≡ lines_of bytes.now }
        ensures counted { IsCounted result }
    {
        Lines {
            before: 0,
            rest: bytes,
        }
    }

    /// The next line that is not empty, and its number, from 1; empty lines are counted.
    pub fn next(&mut self) -> Option<(u64, &'a [u8])>
        requires { IsCounted self.old }
        ensures line { MatchOption result (left self.old ≡ []) (λ line. left self.old ≡ record { number = line.0; text = line.1.now } ∷ left self.new) }
        ensures counted { IsCounted self.new }
        ensures shorter { OnSome result (length self.new.rest.now < length self.old.rest.now) }
    {
        while let Some((line, rest)) = split_line(self.rest) {
            self.rest = rest;
            self.before += 1;
            if !line.is_empty() {
                return Some((self.before, line));
            }
        }
        None
    }
}
