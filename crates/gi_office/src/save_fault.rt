ghost use Rattle.std.specs.Prelude.{Some};

use crate::office_fault::OfficeFault;
use gi_desk::Refusal;
use gi_store::StoreFault;
use std::error::Error;
use std::fmt;

/// Why a turn did not save all that it had to.
#[derive(Clone, Copy, Debug, PartialEq, Eq)]
pub enum SaveFault {
    /// The desk is halted.
    Halted,
    /// The book refused the facts, or has other ones in their place. The desk is halted.
    Store(StoreFault),
    /// The copies of the facts, a mark or the halt was refused, or there was no memory to see how many
    /// facts one row takes.
    Office(OfficeFault),
    /// The facts stand in the book, and the desk refused the mark of one.
    Marked(Refusal),
}

impl fmt::Display for SaveFault {
    ghost use Rattle.gi_office.specs.FaultText.{save_fault_text};

    ghost output = { λ fault. Some (save_fault_text fault) };

    fn fmt<W: fmt::Write>(&self, f: &mut fmt::Formatter<W>) -> fmt::Result {
        match self {
            SaveFault::Halted => f.write_str("Halted"),
            SaveFault::Store(fault) => write!(f, "Store {fault}"),
            SaveFault::Office(fault) => write!(f, "Office {fault}"),
            SaveFault::Marked(refusal) => write!(f, "Marked {refusal}"),
        }
    }
}

impl Error for SaveFault {}
