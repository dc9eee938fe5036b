//! How a table goes out: whole, or in parts.

ghost use Rattle.std.specs.Prelude.{◌≡◌, ◌≤◌, ◌*◌, IfOk};
ghost use Rattle.gi_messages.specs.Limits.{most_part_elements, most_parts};
ghost use Rattle.gi_parts.specs.Splitting.{part_of_table as part_of_table_by, parts_for as parts_for_rows};

use gi_messages::MOST_PART_ELEMENTS;
use gi_pairs::Table;
use std::alloc::{AllocError, Global};

/// In how many parts a table of so many rows goes out, at most 66,000: whole where it has at most
/// 1,000, else in parts of 1,000 rows each, of which the last may have fewer. A response goes out in
/// as many as its confirmed table does.
pub fn parts_for(rows: usize) -> u8
    requires { rows ≤ most_parts * most_part_elements }
    ensures value { result ≡ parts_for_rows rows }
    ensures from { 1 ≤ result }
    ensures to { result ≤ most_parts }
{
    if rows <= MOST_PART_ELEMENTS {
        return 1;
    }
    rows.div_ceil(MOST_PART_ELEMENTS) as u8
}

/// The part of this number, from 1, of a table: its rows as far as there are any. Part 1 of a table
/// that goes out whole is a copy of it, in the same memory where that is shared.
pub fn part_of_table(alloc: Global, table: &Table, number: u8) -> Result<Table, AllocError>
    requires { 1 ≤ number }
    ensures { IfOk result (λ part. part ≡ part_of_table_by number table.now) }
{
    table.slice(
        alloc,
        MOST_PART_ELEMENTS * usize::from(number - 1),
        MOST_PART_ELEMENTS,
    )
}
