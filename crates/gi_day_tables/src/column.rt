/// What a column or a bar shows of an hour, in kWh/h.
#[derive(Clone, Copy)]
pub(crate) enum Column {
    /// What is nominated.
    Nominated,
    /// What this side processed.
    Processed,
    /// What the peer processed.
    Peers,
    /// What is in force.
    InForce,
    /// What is nominated and not in force.
    Cut,
    /// What this side's own capacity cuts.
    OwnCut,
    /// What the peer leaves out of what this side processed.
    PeerCut,
    /// What is nominated for an hour in which no cycle is in force.
    Waiting,
    /// What is nominated for an hour in which less than it is in force.
    Lost,
}
