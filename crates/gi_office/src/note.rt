use gi_desk::{Call, Reply};

/// A call as its seat remembers it: its place in the trail of the office, and the desk's reply.
#[derive(Drop)]
pub struct Note {
    /// From 1.
    pub place: u64,
    pub call: Call,
    pub reply: Reply,
}
