//! What each name and word that the program prints means, and what its reader is to do.
//!
//! [`NAMES`] is one text, with an entry for each: `# `, the name and the values behind it, and lines that are indented. It stands upon
//! nothing, so that every crate that tells something can take from it.
#![tactic(auto)]

mod entries;
mod names;

pub use entries::{entry_in, hint_in};
pub use names::NAMES;
