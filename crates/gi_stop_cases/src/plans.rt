//! What stops, and what is left then.

use gi_calls::Words;
use gi_pairs::Side;
use sqlite_disk::{Files, Fuse, Memory};
use std::alloc::Global;

/// Which disk stops, and how the offices go on about it.
#[derive(Clone, Copy)]
pub struct Plan {
    /// The side whose disk stops.
    pub side: Side,
    /// The log stops, and not the database file beside it.
    is_log: bool,
    /// Each fact is saved by a turn of its own.
    pub is_each: bool,
    /// A stop leaves all that was written, and not only what was synced.
    pub is_all: bool,
}

/// Whether the word is the first of the two, where it is one of them.
fn is_first(word: &str, (first, second): (&str, &str)) -> Option<bool> {
    if word == first {
        Some(true)
    } else if word == second {
        Some(false)
    } else {
        None
    }
}

impl Plan {
    /// The plan of the words: the side, the disk, `each_saved` or `saved_together`, and `written` or
    /// `synced`.
    pub fn of(mut words: Words<'_>) -> Option<Plan> {
        Some(Plan {
            side: words.side()?,
            is_log: is_first(words.next(), ("log", "database"))?,
            is_each: is_first(words.next(), ("each_saved", "saved_together"))?,
            is_all: is_first(words.next(), ("written", "synced"))?,
        })
    }

    /// New disks, of which one stops after so many calls.
    pub fn disks(self, alloc: Global, calls: u64) -> Files<Fuse<Memory>> {
        let (of_log, of_database) = if self.is_log {
            (calls, u64::MAX)
        } else {
            (u64::MAX, calls)
        };
        Files {
            log: Fuse::new(Memory::new(alloc), of_log),
            db: Fuse::new(Memory::new(alloc), of_database),
        }
    }
}
