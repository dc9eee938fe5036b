//! What each confirmed cycle of a gas day changed against what was in force before it.
#![tactic(auto)]

mod change_line;
mod changes;
mod csv_changes;
mod json_changes;
mod laws;
mod text_changes;

pub use change_line::ChangeLine;
pub use csv_changes::change_csv;
pub use json_changes::change_json;
pub use laws::{adds_up, begins_after, shares_changes};
pub use text_changes::change_report;
