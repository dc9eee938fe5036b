ghost use Rattle.std.specs.Prelude.{◌≡◌};
ghost use Rattle.gi_messages.specs.declared.fault.FieldFault.TheVariants.{Wrong, OutOfMemory};

use crate::key::Key;
use std::alloc::{AllocError, AllocFailed};

/// Why fields were not read.
#[derive(Clone, Copy, Debug, PartialEq, Eq)]
pub enum FieldFault {
    /// The field at this key is missing or wrong.
    Wrong(Key),
    OutOfMemory,
}

impl From<Key> for FieldFault {
    ghost from_gives = { λ key e. e ≡ Wrong key };

    fn from(key: Key) -> FieldFault {
        FieldFault::Wrong(key)
    }
}

impl From<AllocError> for FieldFault {
    ghost from_gives = { λ _ e. e ≡ OutOfMemory };

    fn from(_refused: AllocError) -> FieldFault {
        FieldFault::OutOfMemory
    }
}

impl<T: Drop> From<AllocFailed<T>> for FieldFault {
    ghost from_gives = { λ _ e. e ≡ OutOfMemory };

    fn from(_refused: AllocFailed<T>) -> FieldFault {
        FieldFault::OutOfMemory
    }
}
