use crate::refusal::Refusal;
use gi_pairs::Table;
use gi_parts::Part;

/// What a role makes of the peer's message.
#[derive(Drop)]
pub enum Decision {
    /// The cycle meets this table of the peer.
    Meet(Table),
    /// The part is kept, or is kept already: another one of its cycle is missing.
    Keep(Part),
    /// The cycle has met the same table already, or this part of it.
    Again,
    /// None of these, for this reason.
    Refused(Refusal),
}
