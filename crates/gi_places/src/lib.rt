//! Where a fault is, and what was found there and is wanted: for the person who has to mend it.
//!
//! [`place_of`] tells the place of a fault, by the line that names it, what was asked for, and the input as it was read, which
//! [`Remembered`] has. [`take_verbose`] says whether that is to be told where nobody sees a terminal.
#![tactic(auto)]

mod books;
mod lines;
mod message;
mod place;
mod remembered;
mod script;
mod shown;
mod trouble;
mod verbosity;
mod wanted;
mod words;

pub use books::Files;
pub use place::{Asked, Place, place_of};
pub use remembered::Remembered;
pub use verbosity::take_verbose;
pub use wanted::Wanted;
pub use words::Meant;
