use gi_desk::Reply;

/// What a seat is given for its call.
#[derive(Drop)]
pub struct Receipt {
    /// The seat's number, from 1.
    pub seat: u8,
    /// The call's place in the trail of the office, from 1.
    pub place: u64,
    pub reply: Reply,
}
