use crate::nomination_fault::NominationFault;

/// What becomes of a nomination.
#[derive(Clone, Copy, Debug, PartialEq, Eq)]
pub enum Verdict {
    /// It can be taken: from then on it is the one in force.
    Recordable,
    /// It has the version and the lines of the one in force.
    Repeat,
    /// It cannot be taken, for the first fault whose condition holds.
    Refused(NominationFault),
}
