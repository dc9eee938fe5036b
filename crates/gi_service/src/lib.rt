//! The program but its `main`: from the words of a command line to what is written and the fault, all
//! commands together. And both running offices as a command: their script and their books, what is
//! written, and the faults in their order.
#![tactic(auto)]

mod copies;
mod dispatching;
mod living;
mod places;
mod placing;
mod program_fault;
mod progress;
mod service;
mod standing;
mod stations;
mod tasks;
mod teaching;
mod telling;

pub use dispatching::dispatch;
pub use living::run_office;
pub use program_fault::ProgramFault;
pub use progress::Progress;
pub use service::serve_script;
pub use tasks::{perform_task, perform_whole};
