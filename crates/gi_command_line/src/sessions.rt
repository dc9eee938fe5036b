ghost use Rattle.std.specs.Prelude.{◌≡◌};
ghost use Rattle.gi_command_line.specs.Sessions.{IsSessions, default_sessions, sessions_named};

use std::marker::Model;

/// How many sessions an office has beside its main seat, from 1 to 8.
#[derive(Clone, Copy, Debug, PartialEq, Eq)]
pub struct Sessions {
    count: u8,
}

impl Model for Sessions {
    ghost use Rattle.std.specs.Prelude.{ℕ};
    ghost use Rattle.gi_command_line.specs.Sessions.{IsSessions};

    ghost Value = { ℕ };

    ghost view = { λ s. s.count };

    ghost invariant = { λ s. IsSessions s.count };

    ghost inverse = { λ n. record { count = n } };
}

impl Sessions {
    /// The number where none is named.
    pub const DEFAULT: u8 = 2;

    /// The number of sessions where none is named.
    pub fn unnamed() -> Sessions
        ensures { result ≡ default_sessions }
    {
        Sessions {
            count: Sessions::DEFAULT,
        }
    }

    /// The number of sessions that a word names, which is one of the digits 1 to 8.
    pub fn named(word: &str) -> Option<Sessions>
        ensures { result ≡ sessions_named word.now }
    {
        match word.as_bytes() {
            [digit @ b'1'..=b'8'] => Some(Sessions {
                count: *digit - b'0',
            }),
            _ => None,
        }
    }

    pub fn count(self) -> u8
        ensures value { result ≡ self }
        ensures in_range { IsSessions result }
    {
        self.count
    }
}
