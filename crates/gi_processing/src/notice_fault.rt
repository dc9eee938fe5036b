use std::error::Error;
use std::fmt;

/// Why a notice is not recorded.
#[derive(Clone, Copy, Debug, PartialEq, Eq)]
pub enum NoticeFault {
    /// Not 1 <= first <= last <= the hours of its day.
    NoticeRange,
    /// More than 1000 per mille.
    PermilleRange,
    /// Memory ran out.
    OutOfMemory,
}

impl fmt::Display for NoticeFault {
    ghost use Rattle.std.specs.Prelude.{Some};
    ghost use Rattle.gi_processing.specs.FaultText.{notice_fault_text};

    ghost output = { λ fault. Some (notice_fault_text fault) };

    fn fmt<W: fmt::Write>(&self, f: &mut fmt::Formatter<W>) -> fmt::Result {
        f.write_str(match self {
            NoticeFault::NoticeRange => "NoticeRange",
            NoticeFault::PermilleRange => "PermilleRange",
            NoticeFault::OutOfMemory => "OutOfMemory",
        })
    }
}

impl Error for NoticeFault {}
