ghost use Rattle.std.specs.Prelude.{◌≡◌, Some};

use crate::fault::FieldFault;
use crate::key::Key;
use std::alloc::AllocError;
use std::error::Error;
use std::fmt;

/// Why bytes are no message.
#[derive(Clone, Copy, Debug, PartialEq, Eq)]
pub enum MessageFault {
    /// More than 16,777,216 bytes.
    TooLarge,
    /// The bytes are no JSON text.
    NotJson,
    /// The value is no object, or its `kind` is no kind of a message.
    UnknownKind,
    /// The first field, in the order of the kind, that is missing or wrong.
    Field(Key),
    /// Memory ran out.
    OutOfMemory,
}

impl From<FieldFault> for MessageFault {
    ghost use Rattle.gi_messages.specs.Fault.{fault_of};

    ghost from_gives = { λ fault e. e ≡ fault_of fault };

    fn from(fault: FieldFault) -> MessageFault {
        match fault {
            FieldFault::Wrong(key) => MessageFault::Field(key),
            FieldFault::OutOfMemory => MessageFault::OutOfMemory,
        }
    }
}

impl From<AllocError> for MessageFault {
    ghost use Rattle.gi_messages.specs.declared.message_fault.MessageFault.TheVariants.{OutOfMemory};

    ghost from_gives = { λ _ e. e ≡ OutOfMemory };

    fn from(_refused: AllocError) -> MessageFault {
        MessageFault::OutOfMemory
    }
}

impl fmt::Display for MessageFault {
    ghost use Rattle.gi_messages.specs.Fault.{fault_text};

    ghost output = { λ fault. Some (fault_text fault) };

    fn fmt<W: fmt::Write>(&self, f: &mut fmt::Formatter<W>) -> fmt::Result {
        match self {
            MessageFault::TooLarge => f.write_str("TooLarge"),
            MessageFault::NotJson => f.write_str("NotJson"),
            MessageFault::UnknownKind => f.write_str("UnknownKind"),
            MessageFault::Field(key) => write!(f, "Field {key}"),
            MessageFault::OutOfMemory => f.write_str("OutOfMemory"),
        }
    }
}

impl Error for MessageFault {}
