//! An input in pieces, and lines that come beside it.

ghost use Rattle.std.specs.Prelude.{List, Option, None};
ghost use Rattle.gi_clock.specs.Handing.{Came, TakesEvent};

use std::io;

/// What came next.
#[derive(Drop)]
pub enum Event {
    /// A line from beside the input, or none, and the next bytes of the input, or none within a second.
    Came { line: Vec<u8>, bytes: Vec<u8> },
    /// The end of the input.
    End,
}

/// An input that gives its bytes in pieces, and lines from beside it.
pub trait Events {
    // What is still to come, where it is known.
    ghost remaining: { Self → Option (List Came) } = { λ _. None };

    /// Waits for what comes next, for a second at most.
    fn next_event(&mut self) -> io::Result<Event>
        ensures { TakesEvent (remaining self.old) (remaining self.new) result };
}
