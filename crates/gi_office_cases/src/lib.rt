//! Offices that are called from their seats, one call after the other or by several threads, the books
//! that their facts are saved in, and what is left of them: what the cases about them call.
#![tactic(auto)]

mod books;
mod offices;

pub use books::Books;
pub use offices::office_answers;
