//! The reports of a desk for other programs, as CSV and as JSON lines.
#![tactic(auto)]

mod confirmed_hour;
mod csv_reports;
mod json_reports;
mod laws;
mod listing;
mod objects;
mod open_cycle;
pub mod parts;
pub mod sheet;

pub use confirmed_hour::ConfirmedHour;
pub use csv_reports::{confirmed_csv, open_csv, refused_csv};
pub use json_reports::{confirmed_json, open_json, refused_json};
pub use laws::{lists_confirmed, lists_open};
pub use open_cycle::OpenCycle;
