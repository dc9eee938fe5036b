//! What each command but `serve` does: what it reads, calls and writes, and its faults in their
//! order; the faults of all commands, but those of a run of `serve`.
#![tactic(auto)]

mod auditing;
mod books;
mod commands;
mod contents;
mod desk_report;
mod explaining;
mod fault;
mod laws;
mod narrowing;
mod owned;
mod replaying;
mod reporting;
mod simulating;
mod tables;

pub use auditing::{AuditText, facts_audit};
pub use commands::perform;
pub use desk_report::{DeskReport, PageDay};
pub use fault::Fault;
pub use laws::one_status;
pub use owned::{facts_of, owned_facts};
pub use replaying::replayed;
pub use reporting::{book_report, script_report};
pub use simulating::{Written, simulated};
pub use tables::read_input;
