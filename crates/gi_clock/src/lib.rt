//! Lines of the machine's own clock among the lines of an input.
//!
//! ```text
//!   the input ──► a thread reads it, and sends each piece with the minute in which it came
//!      │
//!      ▼
//!   `Clocked`: the next event: a piece, or none within a second, and the line of a minute before it
//!      │        where that is another one than the last
//!      ▼
//!   `Interleaved`: a reader: each line as it comes, and of the pieces what is whole
//! ```
//!
//! So the clock's lines stand among the input's as both came, each line of the input where its line feed came. No line is
//! cut in two, and half a line of the input holds up none of the clock. Begin with [`with_clock`], which
//! makes the reader of an input. [`Interleaved`] is one over any [`Events`]: where it is known what will come, its
//! contract as a reader says which bytes it gives. [`minute_line`] is the line of a minute.
#![tactic(auto)]

mod clocked;
mod events;
mod held;
mod interleaved;
mod minutes;
mod rest;

pub use clocked::{Clocked, with_clock};
pub use events::{Event, Events};
pub use interleaved::Interleaved;
pub use minutes::minute_line;
