//! The schedule of a side: for each hour of a gas day the confirmed quantities that are in force; and
//! where a pair gets less than was nominated.
#![tactic(auto)]

mod columns;
mod csv_cuts;
mod csv_report;
mod cut_line;
mod cuts;
mod hour_in_force;
mod in_force;
mod json_cuts;
mod json_report;
mod keys;
mod laws;
mod listing;
mod nominated;
mod objects;
pub mod parts;
mod schedule_line;
mod text_cuts;
mod text_report;
mod totals;
mod wanted;

pub use csv_cuts::cut_csv;
pub use csv_report::schedule_csv;
pub use cut_line::CutLine;
pub use hour_in_force::HourInForce;
pub use in_force::{cycle_in_force, quantity_in_force};
pub use json_cuts::cut_json;
pub use json_report::schedule_json;
pub use laws::{lists_what_is_in_force, says_what_was_cut, shares_schedules};
pub use nominated::{count_before, line_in, quantity as nominated_quantity};
pub use schedule_line::{Flow, ScheduleLine};
pub use text_cuts::cut_report;
pub use text_report::schedule_report;
pub use wanted::Wanted;
