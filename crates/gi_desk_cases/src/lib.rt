//! One desk of either side, and what the two roles decide and send: what the cases about them call. And desks
//! over whole days that are drawn, beside a plain desk, which goes through all facts for each answer.
//!
//! Of a drawn day nothing is refused. Where there is no memory for a part of what the plain desk makes it is
//! left out, so that both desks differ, or the day is another one.
#![tactic(auto)]

mod beside;
mod days;
mod desks;
mod drawing;
mod frames;
mod letting_out;
mod memory;
mod names;
mod plain;
mod processing;
mod random;
mod reading;
mod roles;

pub use days::DrawnDays;
pub use desks::Desks;
pub use roles::Roles;
