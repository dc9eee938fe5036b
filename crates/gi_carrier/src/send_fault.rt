use std::error::Error;
use std::fmt;

/// Why a message is not sent.
#[derive(Clone, Copy, Debug, PartialEq, Eq)]
pub enum SendFault {
    /// 4,096 messages wait.
    Full,
    /// Memory ran out.
    OutOfMemory,
}

impl fmt::Display for SendFault {
    ghost use Rattle.std.specs.Prelude.{Some};
    ghost use Rattle.gi_carrier.specs.FaultText.{send_fault_text};

    ghost output = { λ fault. Some (send_fault_text fault) };

    fn fmt<W: fmt::Write>(&self, f: &mut fmt::Formatter<W>) -> fmt::Result {
        f.write_str(match self {
            SendFault::Full => "Full",
            SendFault::OutOfMemory => "OutOfMemory",
        })
    }
}

impl Error for SendFault {}
