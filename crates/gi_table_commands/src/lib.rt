//! The commands on tables and days, `match` and `hours`: what each reads, calls and writes, their
//! faults, and what the program says in place of a command.
#![tactic(auto)]

mod commands;
mod dispatching;
mod fault;
mod hours;
mod input;
mod laws;
mod lines;
mod matching;
mod said;
mod words;

pub use commands::{match_tables, tell_hours, write_text};
pub use dispatching::dispatch_tables;
pub use fault::{Fault, Line};
pub use hours::hours_text;
pub use input::{Calls, read_input};
pub use laws::one_outcome;
pub use matching::answer;
pub use said::{explain, point_out, reported};
pub use words::given_words;
