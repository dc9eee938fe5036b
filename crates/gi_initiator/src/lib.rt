//! The initiating operator's part: it sends the order of a closed cycle, and takes a response only
//! where what that confirms is the lesser of both tables.
#![tactic(auto)]

mod initiating;
mod order;
mod response;

pub use initiating::Initiating;
pub use order::order_for;
pub use response::take_response;
