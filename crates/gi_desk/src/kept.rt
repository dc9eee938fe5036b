use crate::stage::Stage;
use gi_nominations::{Book, PortfolioDay};
use gi_pairs::CycleId;
use gi_processing::Contracts;
use std::collections::BTreeMap;

/// What a desk keeps beside its facts: what they come to.
#[derive(Drop)]
pub(crate) struct Kept {
    /// The nominations in force by the facts.
    pub book: Book,
    /// The contracts that stand by them, and what the notices leave.
    pub contracts: Contracts,
    /// The number of the fact that took each nomination in force.
    pub takings: BTreeMap<PortfolioDay, u32>,
    /// How far each closed cycle is.
    pub stages: BTreeMap<CycleId, Stage>,
}
