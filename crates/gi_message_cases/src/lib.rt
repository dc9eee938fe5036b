//! Messages and facts, what they are made of, and what is processed of them: gas days, tables, cycles, the
//! walks of the lesser, nominations and contracts. What the cases about them call.
#![tactic(auto)]

mod cycles;
mod days;
mod facts;
mod hours_text;
mod json_bytes;
mod messages;
mod nominations;
mod nomint_text;
mod numbers;
mod order;
mod processing;
mod repeated;
mod sides;
mod tables;
mod walks;

pub use cycles::Cycles;
pub use days::Days;
pub use facts::Facts;
pub use messages::Messages;
pub use nominations::Nominations;
pub use processing::Processing;
pub use repeated::Repeated;
pub use tables::Tables;
pub use walks::walk_answers;
