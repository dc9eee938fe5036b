ghost use Rattle.std.specs.Prelude.{◌≡◌, ◌≤◌, length};
ghost use Rattle.gi_pairs.specs.Limits.{most_processed_rows};

use crate::frozen::Frozen;
use gi_pairs::{CycleId, Table};
use std::marker::Model;

/// A cycle that still collects nominations: no table is frozen yet.
#[derive(Drop)]
pub struct Collecting {
    id: CycleId,
}

impl Model for Collecting {
    ghost use Rattle.gi_pairs.specs.declared.cycle_id.CycleId.{CycleId};

    ghost Value = { CycleId };

    ghost view = { λ c. c.id };
}

impl Collecting {
    /// The cycle with nothing frozen.
    pub fn new(id: CycleId) -> Collecting
        ensures { result ≡ id }
    {
        Collecting { id }
    }

    /// Which cycle it is.
    pub fn id(&self) -> CycleId
        ensures { result ≡ self.now }
    {
        self.id
    }

    /// Freezes the processed table, which has at most 4,096 rows.
    pub fn close(self, processed: Table) -> Frozen
        requires { length processed.rows ≤ most_processed_rows }
        ensures id { result.id ≡ self }
        ensures own { result.own ≡ processed }
    {
        Frozen::new(self.id, processed)
    }
}
