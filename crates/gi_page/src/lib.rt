//! A gas day of a side as a page: its hours in charts and tables, in one file that loads nothing.
#![tactic(auto)]

mod cycle_marks;
mod day_book;
mod flows;
mod header;
mod hour_book;
mod hour_cycles;
mod keys;
mod laws;
mod page;
mod sections;
mod shown;
mod style;
mod subject;
mod waiting;

pub use laws::{lists_each_row, shows_what_is_in_force, sums_the_rows, tells_the_schedule};
pub use page::day_page;
