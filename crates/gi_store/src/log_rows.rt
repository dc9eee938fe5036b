//! Whether a log has rows.

ghost use Rattle.std.specs.Prelude.{◌≡◌};
ghost use Rattle.gi_store.specs.Copies.{rows_length};

/// A shorter log has no row: it begins with 32 bytes, and each page in it takes 24 and at least 512.
pub(crate) const LEAST_LOG: u64 = 568;

/// Where the number of the first page in a log stands. Pages are numbered from 1: zeros are what a log
/// is made longer with before it is written.
const FIRST_PAGE: usize = 32;

/// How long a log is that may have rows, else 0.
pub(crate) fn length_with_rows(log: &[u8]) -> u64
    ensures { result ≡ rows_length log.now }
{
    if (log.len() as u64) < LEAST_LOG || log[FIRST_PAGE..FIRST_PAGE + 4] == [0; 4] {
        0
    } else {
        log.len() as u64
    }
}
