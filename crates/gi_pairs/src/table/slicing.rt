ghost use Rattle.std.specs.Prelude.{◌≡◌, IfOk};
ghost use Rattle.gi_pairs.specs.Slices.{slice_of};

use crate::table::Table;
use std::alloc::{AllocError, Global};

impl Table {
    /// The table of its rows from a place on, counted from 0, at most so many: none where it has no
    /// more. With all of its rows it is an equal table, in the same memory where that is shared.
    pub fn slice(&self, alloc: Global, from: usize, most: usize) -> Result<Table, AllocError>
        ensures { IfOk result (λ table. table ≡ slice_of from most self.now) }
    {
        Ok(Table {
            first: self.first,
            last: self.last,
            rows: self.rows.slice(alloc, from, most)?,
        })
    }
}
