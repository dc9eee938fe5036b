//! A day's script, read whole: the point, and what each line asks of a side. And a request: a line that
//! asks a call of an office that runs.
#![tactic(auto)]

mod command;
mod fault;
mod forms;
mod instruction;
mod laws;
mod line;
mod lines;
mod number;
mod plan;
mod reading;
mod request;
mod rule_text;
mod script;
mod verb;
mod words;

pub use fault::{LineFault, ScriptFault};
pub use instruction::Instruction;
pub use laws::{one_instruction, one_office_script, one_request, one_script};
pub use line::Line;
pub use reading::{read_office_script, read_script};
pub use request::read_request;
pub use script::Script;
pub use words::Words;
