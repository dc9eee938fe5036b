use gi_desk::Reply;

/// What comes of a step.
#[derive(Drop)]
pub enum WorldReply {
    /// The desk's reply; a refusal of the desk is one too.
    Desk(Reply),
    /// The desk has started again with this number of facts, all saved.
    Restarted { saved: u32 },
}
