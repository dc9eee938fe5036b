/// How far a cycle is at an operator.
#[derive(Clone, Copy, Debug, PartialEq, Eq)]
pub enum StageName {
    /// Nominations are collected.
    Collecting,
    /// The operator's own table is frozen.
    Frozen,
    /// The own table has met the peer's.
    Matched,
}
