//! The facts that an operator records, and how they are written and read.
#![tactic(auto)]

mod batch;
mod decoding;
mod encoding;
mod fact;
mod fact_fault;
mod kind;
mod laws;

pub use batch::{MOST_FACTS, decode_batch, encode_batch};
pub use decoding::decode_fact;
pub use encoding::encode_fact;
pub use fact::Fact;
pub use fact_fault::FactFault;
pub use laws::{
    batch_is_few, batch_round_trip, fact_is_text, fact_round_trip, fact_writable_exactly, one_fact,
    reads_fact, same_facts_are_equal, writes_fact,
};
