use gi_desk::Reply;
use gi_pairs::{Code, CycleId};

/// Why a line is not read.
#[derive(Clone, Copy, Debug, PartialEq, Eq)]
pub enum UnreadLine {
    /// It asks for nothing, or is cut off before its line feed.
    Unreadable,
    /// It is longer than 16,777,472 bytes, its line feed among them.
    TooLarge,
    /// It is a query, and the office is halted.
    Halted,
}

/// What came of a line.
#[derive(Drop)]
pub enum Came {
    /// It was not read.
    Unread(UnreadLine),
    /// The office's reply to what it asks, and the portfolio of a submission that was refused, where that could be read.
    Answered {
        reply: Reply,
        portfolio: Option<Code>,
    },
    /// So many cycles are due, of each of which it is told then what came of its closing.
    Due {
        cycles: u64,
    },
    /// The office's reply to the closing of a cycle that is due.
    Closed {
        id: CycleId,
        reply: Reply,
    },
}
