//! The states of a cycle at an operator: each state is a type, and no call changes a frozen table.
#![tactic(auto)]

mod collecting;
mod cycle_state;
mod frozen;
mod matched;
mod meet_fault;

pub use collecting::Collecting;
pub use cycle_state::CycleState;
pub use frozen::Frozen;
pub use matched::Matched;
pub use meet_fault::MeetFault;
