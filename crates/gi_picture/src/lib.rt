//! A gas day as a picture: its hours in charts, and the numbers, times and texts that stand in pages.
//! It knows no desk: it draws what it is given.
#![tactic(auto)]

mod areas;
mod axis;
mod cells;
mod chart;
mod clock;
mod end;
mod escape;
mod frame;
mod heights;
mod hour;
mod key;
mod laws;
mod level;
mod line;
mod merging;
mod names;
mod net;
mod numbers;
mod paths;
mod run;
mod scale;
mod tips;
mod values;

pub use chart::{cycle_runs, direction_chart};
pub use clock::{clock_hour, clock_text, time_mark};
pub use escape::put_escaped;
pub use hour::{Amounts, Hour, amount_if};
pub use key::{chart_defs, chart_key};
pub use laws::{
    axes_hold_all, charts_hold_the_day, cuts_add_up, ends_as_it_begins, names_keep_apart,
    net_holds_the_day, plots_hold_all, prefixes_divide, runs_are_the_hours, writes_plain,
};
pub use merging::runs;
pub use net::net_chart;
pub use numbers::{cell, difference, grouped};
pub use run::Run;
pub use values::total;
