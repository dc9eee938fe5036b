//! What a desk says of itself in lines of text, and refused submissions counted by portfolio.
#![tactic(auto)]

mod columns;
mod confirmed;
mod counts;
mod cycles;
mod laws;
mod open;
mod refused;
mod submitter;

pub use confirmed::confirmed_report;
pub use counts::counts_line;
pub use cycles::closed_cycles;
pub use laws::{counts_each_once, keeps_first_places};
pub use open::open_report;
pub use refused::{refused_counts, refused_report};
