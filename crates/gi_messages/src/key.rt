ghost use Rattle.std.specs.Prelude.{◌≡◌, Some};
ghost use Rattle.gi_messages.specs.Key.{key_text};

use std::fmt;

/// A key of the JSON object of a message or of a fact, or of an object inside it.
#[derive(Clone, Copy, Debug, PartialEq, Eq)]
pub enum Key {
    Kind,
    Point,
    Portfolio,
    Day,
    Version,
    Cycle,
    First,
    Last,
    Parts,
    Part,
    Lines,
    Processed,
    Confirmed,
    Counterparty,
    Initiating,
    Matching,
    Direction,
    Hours,
    Priority,
    Fact,
    Nomint,
    Firm,
    Interruptible,
    Peer,
    Rule,
}

impl Key {
    /// The key as it stands in the text.
    pub fn text(self) -> &'static str
        ensures { result.now ≡ key_text self }
    {
        match self {
            Key::Kind => "kind",
            Key::Point => "point",
            Key::Portfolio => "portfolio",
            Key::Day => "day",
            Key::Version => "version",
            Key::Cycle => "cycle",
            Key::First => "first",
            Key::Last => "last",
            Key::Parts => "parts",
            Key::Part => "part",
            Key::Lines => "lines",
            Key::Processed => "processed",
            Key::Confirmed => "confirmed",
            Key::Counterparty => "counterparty",
            Key::Initiating => "initiating",
            Key::Matching => "matching",
            Key::Direction => "direction",
            Key::Hours => "hours",
            Key::Priority => "priority",
            Key::Fact => "fact",
            Key::Nomint => "nomint",
            Key::Firm => "firm",
            Key::Interruptible => "interruptible",
            Key::Peer => "peer",
            Key::Rule => "rule",
        }
    }
}

impl fmt::Display for Key {
    ghost output = { λ key. Some (key_text key) };

    fn fmt<W: fmt::Write>(&self, f: &mut fmt::Formatter<W>) -> fmt::Result {
        f.write_str(self.text())
    }
}
