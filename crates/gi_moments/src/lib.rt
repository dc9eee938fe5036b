//! Moments: their text, and the gas days beside one.
//!
//! What an office is told of the time is a text `2026-01-15T13:00Z`. [`Moment::read`] reads it, and
//! [`Moment::near_days`] gives the gas days that are looked at for what is due then.
#![tactic(auto)]

mod moment;
mod near;

pub use moment::Moment;
