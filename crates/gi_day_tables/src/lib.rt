//! Tables of a gas day: its totals, its hours, its pairs, what was cut, and its cycles. They know no desk:
//! they show what they are given.
#![tactic(auto)]

mod bars;
mod by_hour;
mod cells;
mod column;
mod columns;
mod cut_lines;
mod cuts;
mod cycle_mark;
mod cycles;
mod flow_hour;
mod flow_merging;
mod flow_run;
mod laws;
mod net;
mod pairs;
mod row_cut;
mod spans;
mod totals;

pub use by_hour::hour_section;
pub use cuts::{
    cut_heads, cuts_end, cuts_foot, largest_first, no_cuts, put_cut_group, put_row_cut,
    shown_groups,
};
pub use cycle_mark::{CycleMark, Standing};
pub use cycles::cycles_section;
pub use flow_hour::FlowHour;
pub use laws::{
    counts_each_group, flow_runs_are_the_hours, lines_tell_all, names_cutters, shows_all_as_drawn,
    shows_what_fits, sums_what_is_shown, tells_cuts,
};
pub use pairs::{pair_heads, pairs_foot, put_pair_row};
pub use row_cut::RowCut;
pub use totals::totals_section;
