//! What a confirmed quantity comes from: its derivation from the facts of one desk, in lines.
//!
//! ```text
//! the facts before the closing           the closing    the meeting    the saved facts
//! nomination  contract  notice              frozen          peer          confirmed
//!      │          └── available ──┐            │        ┌─ lower ─┐          told
//!      └── sums ───────────── processed ───────┴────────┘         └────────────┘
//! ```
#![tactic(auto)]

mod basis;
mod covering;
mod explaining;
mod json_explanation;
mod json_lines;
mod laws;
mod lines;
mod numbers;
mod outcome;
mod question;
mod reduction;
mod wanted;

pub use explaining::explanation;
pub use json_explanation::explanation_json;
pub use laws::{
    explains_by_facts, explains_the_confirmed, explains_the_frozen, explains_the_reduction,
};
pub use question::Question;
