use crate::part::{Part, Whole};

/// Why a part is not taken. Then nothing is changed.
#[derive(Clone, Copy, Debug, PartialEq, Eq)]
pub enum PartFault {
    /// It does not go with one that is kept: that is one of another number of parts, or is for
    /// other hours, or is the same part, of this number, with other rows.
    PartDiffers { part: u8 },
    /// All parts together have a pair and direction twice, in either array.
    PartsOverlap,
    /// All parts together have more rows than a processed or a confirmed table may have.
    TooManyRows,
    /// Memory ran out.
    OutOfMemory,
}

/// What a part comes to with those that are kept of its cycle.
#[derive(Drop)]
pub enum Gathered {
    /// None is missing any more: all parts together are this order or response.
    Complete(Whole),
    /// It is there already, or others are still missing.
    Keep(Part),
    /// Neither, for this reason.
    Refused(PartFault),
}
