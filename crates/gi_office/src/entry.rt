use gi_desk::{Call, Reply};

/// A call as it stands in the trail of an office: from which seat it came, and the desk's reply.
#[derive(Drop)]
pub struct Entry {
    /// The seat's number, from 1.
    pub seat: u8,
    pub call: Call,
    pub reply: Reply,
}
