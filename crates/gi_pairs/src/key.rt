use crate::direction::Direction;
use crate::pair::Pair;

/// What a row of a table is for: a pair and a direction. Keys are ordered by the pair, then `IM`
/// before `MI`.
#[derive(Clone, Copy, Debug, PartialEq, Eq, PartialOrd, Ord)]
pub struct Key {
    pub pair: Pair,
    pub direction: Direction,
}
