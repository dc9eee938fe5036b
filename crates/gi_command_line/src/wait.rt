ghost use Rattle.std.specs.Prelude.{◌≡◌};
ghost use Rattle.gi_command_line.specs.Wait.{IsWait, no_wait, wait_named};

use crate::numbers::number_up_to;
use std::marker::Model;

/// How long a book that is in use is tried again: from 0 to 3,600 seconds.
#[derive(Clone, Copy, Debug, PartialEq, Eq)]
pub struct WaitSeconds {
    seconds: u32,
}

impl Model for WaitSeconds {
    ghost use Rattle.std.specs.Prelude.{ℕ};
    ghost use Rattle.gi_command_line.specs.Wait.{IsWait};

    ghost Value = { ℕ };

    ghost view = { λ w. w.seconds };

    ghost invariant = { λ w. IsWait w.seconds };

    ghost inverse = { λ n. record { seconds = n } };
}

impl WaitSeconds {
    /// The longest wait.
    pub const MOST: u32 = 3_600;

    /// The wait where none is named.
    pub fn unnamed() -> WaitSeconds
        ensures { result ≡ no_wait }
    {
        WaitSeconds { seconds: 0 }
    }

    /// The wait that a word names, which is a number from 0 to 3600 with no sign and no zero in front.
    #[tactic(auto, unfolding(crate::specs::Wait::wait_named))]
    pub fn named(word: &str) -> Option<WaitSeconds>
        ensures { result ≡ wait_named word.now }
    {
        match number_up_to(WaitSeconds::MOST, word) {
            Some(seconds) => Some(WaitSeconds { seconds }),
            None => None,
        }
    }

    pub fn seconds(self) -> u32
        ensures value { result ≡ self }
        ensures in_range { IsWait result }
    {
        self.seconds
    }
}
