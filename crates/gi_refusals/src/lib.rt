//! How many of the lines that are written tell a refusal: of a step of a script, or of an office's call.
//! [`Counted`] hands on what it is given, and counts.
#![tactic(auto)]

mod counted;
mod lines;
mod telling;

pub use counted::Counted;
