//! Both offices and the carriers between them, run by a script.
//!
//! A [`Simulation`] is a world (`gi_world`) with a carrier towards each side (`gi_carrier`): what a
//! desk lets out for the peer goes on the way, and a line `carry` of the script delivers what the
//! carrier then gives, by its plan of losses, repeats and delays.
//!
//! ```text
//! let script = read_script(alloc, bytes)?;
//! let made = simulate(alloc, script, false)?;
//! print(made.text);                                   // a line for each step
//! let desk = made.simulation.world().initiating();    // the offices after them
//! ```
//!
//! [`simulate`] makes a script and tells what came of each step, and where it is asked for, which
//! messages moved in it: its trace. [`refused_submissions`] makes a script and counts;
//! [`Simulation::make`] makes one instruction, for who has no script.
#![tactic(auto)]

mod laws;
mod link;
mod notes;
mod outcome;
mod refused;
mod run;
mod simulated;
mod simulation;
mod text;
mod trace;

pub use laws::{a_trace_follows_its_step, what_is_carried_is_delivered};
pub use link::Link;
pub use outcome::Outcome;
pub use refused::{portfolio_of, refused_submissions};
pub use simulated::{Simulated, simulate};
pub use simulation::Simulation;
