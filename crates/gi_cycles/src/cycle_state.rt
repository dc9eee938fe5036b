use crate::collecting::Collecting;
use crate::frozen::Frozen;
use crate::matched::Matched;

/// How far a cycle is at an operator.
#[derive(Drop)]
pub enum CycleState {
    /// Nominations are collected.
    Collecting(Collecting),
    /// The operator's own table is frozen.
    Frozen(Frozen),
    /// The own table has met the peer's.
    Matched(Matched),
}
