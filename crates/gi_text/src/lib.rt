//! What texts are made of: the lines of one that is read, and the columns of one that is written.
#![tactic(auto)]

mod columns;
mod lines;

pub use columns::{RightInTwo, TwoDigits};
pub use lines::{LINE_FEED, split_line};
