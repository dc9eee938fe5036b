//! What is available to a portfolio, and what of its nomination is processed.
#![tactic(auto)]

mod contract;
mod contract_fault;
mod contract_key;
mod contracted;
mod contracts;
mod hours_left;
mod laws;
mod notice;
mod notice_fault;
mod notice_key;
mod portfolios;
mod processing;
mod reduction;
mod rule;
mod span;

pub use contract::Contract;
pub use contract_fault::ContractFault;
pub use contracts::Contracts;
pub use hours_left::Thousandths;
pub use laws::{higher_take_nothing, rules_agree, whole_where_all_fit};
pub use notice::{MOST_PERMILLE, Notice};
pub use notice_fault::NoticeFault;
pub use portfolios::MOST_PORTFOLIOS;
pub use processing::processed;
pub use reduction::scaled;
pub use rule::Rule;
