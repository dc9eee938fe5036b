//! Both operators' desks, and all that can happen between them: calls, deliveries in any order and
//! as often as one likes, losses, and restarts from what is saved.
//!
//! A world has no carrier and no clock. A [`Step`] names what happens next at one side:
//!
//! ```text
//!   Local { side, call }        the side's desk takes the call; a delivery is no such call
//!   Deliver { side, packet }    the side's desk takes packet number n of what the other side sent
//!   Restart { side, keep }      the side's desk is replayed from its first `keep` facts, saved ones at least
//! ```
//!
//! So a packet that no step names is lost, one that is named twice is repeated, and any order is
//! possible. Whatever the steps, no two quantities come of a cycle: that is the headline, which
//! [`World::step`] carries for each step and [`run_world`] for a whole list of them.
//!
//! ```text
//! let mut world = World::new(alloc, point)?;
//! world.step(&Step::Local { side: Side::I, call: Call::Close { id, rule: Rule::Two } })?;
//! let n = world.initiating().len();
//! ```
//!
//! Begin with [`World`] and [`Step`]; [`WorldFault`] tells when a step is refused, and [`Run`] what
//! a list of steps came to.
#![tactic(auto)]

mod laws;
mod outcomes;
mod passing;
mod run;
mod start_fault;
mod station;
mod stations;
mod step;
mod world;
mod world_fault;
mod world_reply;

pub use laws::histories_are_held;
pub use outcomes::Outcomes;
pub use run::{Run, run_world};
pub use start_fault::StartFault;
pub use step::Step;
pub use world::World;
pub use world_fault::WorldFault;
pub use world_reply::WorldReply;
