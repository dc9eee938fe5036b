use gi_pairs::CycleId;

/// What an audit comes to.
#[derive(Clone, Copy)]
pub enum Verdict {
    /// A cycle is agreed, and none differs.
    Agreed,
    /// Cycles are closed; none is agreed, and none differs.
    Open,
    /// Neither desk has closed a cycle: there is nothing to compare.
    Empty,
    /// The first cycle, by gas day and number, of which a table differs.
    Differs(CycleId),
}

impl Verdict {
    ghost use Rattle.std.specs.Prelude.{◌≡◌};
    ghost use Rattle.gi_audit.specs.Verdict.{verdict_by};

    /// What these cycles come to, where the first that differs is known, and whether any is agreed.
    pub(crate) fn of(first: Option<CycleId>, agreed: bool, ids: &[CycleId]) -> Verdict
        ensures { result ≡ verdict_by first agreed ids.now }
    {
        match first {
            Some(id) => Verdict::Differs(id),
            None if ids.is_empty() => Verdict::Empty,
            None if agreed => Verdict::Agreed,
            None => Verdict::Open,
        }
    }
}
