//! What passes from one office to the other, and how it is lost, repeated and put off.
#![tactic(auto)]

mod carrier;
mod laws;
mod making;
mod moves;
mod plan;
mod plan_fault;
mod send_fault;

pub use carrier::{Carrier, MOST_WAITING};
pub use laws::what_comes_out_was_sent;
pub use moves::Move;
pub use plan::{MOST_MOVES, Plan};
pub use plan_fault::PlanFault;
pub use send_fault::SendFault;
