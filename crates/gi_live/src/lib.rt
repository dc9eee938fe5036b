//! One operator's office that runs as long as lines come: each asks for a call, and what comes of it is
//! written once it is safe.
//!
//! ```text
//!   input:  the lines that have come, 64 at most ── calls, from one seat of the office (`gi_office`)
//!                                                     │ what each came to is held back
//!                                                   turns that save, until all stands in the book
//!                                                     │
//!   output: the answers, in the order of the lines, and behind them the packets of what was saved
//! ```
//!
//! So no answer that names a fact, and no packet, is written before that fact stands in the book: an answer is told where its
//! number is no higher than that of the last mark which the seat has noted, and a packet is let out by such a mark, or by a
//! reply that repeats what is saved. One line that comes alone is answered at once, and waits for no other.
//!
//! An office keeps each call until it is settled. So a run is a list of stretches: behind 100,000 notes of its seat, and at each query, the
//! office is settled and the next one opened over its desk, all of whose facts are saved. A query is answered of that desk.
//!
//! ```text
//!   desk ── office ── steps ── settled ── desk ── query ── desk ── office ── steps ── settled ── desk ..
//! ```
//!
//! Begin with [`serve_lines`]. [`LiveFault`] is why a run came to an end. What is written of a reply and of a packet is told by
//! [`answer_line`], [`refused_line`] and [`packet_line`].
#![tactic(auto)]

mod answer;
mod answering;
mod asking;
mod came;
mod closing;
mod due;
mod input;
mod live_fault;
mod living;
mod marks;
mod outlet;
mod packet;
mod query;
mod running;
mod telling;
mod writing;

pub use answer::{answer_line, refused_line};
pub use asking::MOST_LINE;
pub use came::{Came, UnreadLine};
pub use input::{InputLine, MOST_LINES};
pub use live_fault::LiveFault;
pub use living::serve_lines;
pub use packet::packet_line;
