//! The matching operator's part: it takes the order of a closed cycle, and sends the response: its
//! own table, and what of both is confirmed.
#![tactic(auto)]

mod matching;
mod order;
mod response;

pub use matching::Matching;
pub use order::take_order;
pub use response::response_for;
