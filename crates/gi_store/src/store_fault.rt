ghost use Rattle.std.specs.Prelude.{◌≡◌, Some};

use crate::owner::Owner;
use sqlite::ErrorCode;
use std::alloc::{AllocError, AllocFailed};
use std::error::Error;
use std::fmt;

/// Why a call on a book was refused.
#[derive(Clone, Copy, Debug, PartialEq, Eq)]
pub enum StoreFault {
    /// The database is no book of version 1 or 2.
    Version,
    /// The book is of another side or point: of these.
    OtherBook(Owner),
    /// This number comes next, and the next row has a higher one.
    Gap(u64),
    /// The row with this number is neither a fact nor an array of 2 to 64 facts, or its number is
    /// below the one that comes next.
    Damaged(i64),
    /// There were no facts, or more than 64.
    BatchSize,
    /// The book was not loaded, or a load was refused, the database failed or memory ran out since.
    NotLoaded,
    /// The fact that comes next has another number, this one.
    NotNext { expected: u32 },
    /// The head beside the book tells so many facts, and the book has fewer, or others.
    Lost(u32),
    /// What stands beside the book as its head is none.
    Head,
    /// Another process has the book open.
    Busy,
    /// The database failed.
    Store,
    /// Memory ran out.
    OutOfMemory,
}

impl From<sqlite::Error> for StoreFault {
    ghost use Rattle.gi_store.specs.FaultText.{fault_of};

    ghost from_gives = { λ error e. e ≡ fault_of error };

    fn from(error: sqlite::Error) -> StoreFault {
        match error {
            sqlite::Error::SqliteFailure(ErrorCode::OutOfMemory) => StoreFault::OutOfMemory,
            _ => StoreFault::Store,
        }
    }
}

impl From<AllocError> for StoreFault {
    ghost use Rattle.gi_store.specs.declared.store_fault.StoreFault.TheVariants.{OutOfMemory};

    ghost from_gives = { λ _ e. e ≡ OutOfMemory };

    fn from(_refused: AllocError) -> StoreFault {
        StoreFault::OutOfMemory
    }
}

impl<T: Drop> From<AllocFailed<T>> for StoreFault {
    ghost use Rattle.gi_store.specs.declared.store_fault.StoreFault.TheVariants.{OutOfMemory};

    ghost from_gives = { λ _ e. e ≡ OutOfMemory };

    fn from(_refused: AllocFailed<T>) -> StoreFault {
        StoreFault::OutOfMemory
    }
}

impl fmt::Display for StoreFault {
    ghost use Rattle.gi_store.specs.FaultText.{fault_text};

    ghost output = { λ fault. Some (fault_text fault) };

    fn fmt<W: fmt::Write>(&self, f: &mut fmt::Formatter<W>) -> fmt::Result {
        f.write_str(match self {
            StoreFault::Version => "Version",
            StoreFault::OtherBook(theirs) => return write!(f, "OtherBook {theirs}"),
            StoreFault::Gap(n) => return write!(f, "Gap {n}"),
            StoreFault::Damaged(n) => return write!(f, "Damaged {n}"),
            StoreFault::BatchSize => "BatchSize",
            StoreFault::NotLoaded => "NotLoaded",
            StoreFault::NotNext { expected } => return write!(f, "NotNext {expected}"),
            StoreFault::Lost(n) => return write!(f, "Lost {n}"),
            StoreFault::Head => "Head",
            StoreFault::Busy => "Busy",
            StoreFault::Store => "Store",
            StoreFault::OutOfMemory => "OutOfMemory",
        })
    }
}

impl Error for StoreFault {}
