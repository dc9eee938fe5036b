//! Two tables in one line.

use gi_calls::{Fault, table_of};
use gi_pairs::Table;
use std::alloc::Global;

/// The two tables of a line, with a word between them.
pub(crate) fn two_tables(
    alloc: Global,
    line: &str,
    between: &str,
) -> Result<Option<(Table, Table)>, Fault> {
    let Some((first, second)) = line.split_once(between) else {
        return Ok(None);
    };
    let Some(first) = table_of(alloc, first)? else {
        return Ok(None);
    };
    match table_of(alloc, second) {
        Ok(Some(second)) => Ok(Some((first, second))),
        refused => {
            // (handed to `drop`, by one call: going out of scope here would be checked field by
            // field on each way out)
            drop(first);
            refused.map(|_| None)
        }
    }
}
