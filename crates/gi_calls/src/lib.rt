//! The form of cases as text: a line is a call, and the lines behind `= ` under it are its answer. How
//! tables, contracts and notices are written there. What a subject calls is the matter of the crates
//! above.
#![tactic(auto)]

mod answer;
mod cases;
mod fault;
mod subject;
mod tables;
mod words;

pub use answer::Answer;
pub use cases::{add_answer, add_case, answered};
pub use fault::Fault;
pub use subject::Subject;
pub use tables::{
    add_hours, add_key, add_row, add_table, built_table, hours_of, like_row, row_of, table_of,
};
pub use words::Words;
