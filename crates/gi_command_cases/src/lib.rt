//! Commands over books in memory, of which it is known what stands there: what the cases about them
//! call.
#![tactic(auto)]

mod commands;
mod kept;

pub use commands::command_answers;
