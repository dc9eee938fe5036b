//! Nominations: whether one is taken, and which one is in force.
#![tactic(auto)]

mod book;
mod judging;
mod nomination_fault;
mod portfolio_day;
mod setting;
mod verdict;

pub use book::Book;
pub use judging::MOST_LINES;
pub use nomination_fault::NominationFault;
pub use portfolio_day::PortfolioDay;
pub use setting::Setting;
pub use verdict::Verdict;
