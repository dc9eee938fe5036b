//! Whether two operators' books agree, as an outsider compares them who trusts neither office.
//!
//! [`audit`] takes two desks, each replayed from its book's facts. What one side has met it sets
//! against what the other side has written of it, cycle by cycle:
//!
//! ```text
//!   initiating desk                          matching desk
//!   closed: its order's table  ────────────  met: the order's table
//!   met: the response's table  ────────────  closed, and met: its response's table
//! ```
//!
//! Where all of these are the same, every quantity that either side has confirmed is the lower of
//! the two that both froze ([`agreeing_desks_confirm_one_quantity`]). And they always are, where
//! both desks came of the steps of a world ([`worlds_agree`]). So they are where nothing is closed, or
//! nothing confirmed by both: the [`Verdict`] tells these apart from books that agree on something.
#![tactic(auto)]

mod auditing;
mod closing;
mod comparing;
mod cycles;
mod difference;
mod finding;
mod json_audit;
mod json_lines;
mod laws;
mod place;
mod revealing;
mod running;
mod sending;
mod total;
mod verdict;

pub use auditing::{Audited, audit};
pub use json_audit::{AuditedJson, audit_json};
pub use laws::{
    a_difference_has_its_place, agreeing_desks_confirm_one_quantity,
    the_matching_side_confirms_first, worlds_agree,
};
pub use running::audit_run;
pub use verdict::Verdict;
