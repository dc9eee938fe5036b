//! The lesser rule: where two tables differ, the lower quantity is confirmed.
#![tactic(auto)]

mod laws;
mod lesser_rule;
mod parallel;
mod walk;

pub use laws::{adds_no_rows, lessens_both_ways};
pub use lesser_rule::{lesser, lesser_parallel};
