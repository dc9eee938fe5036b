ghost use Rattle.std.specs.Prelude.{◌≡◌, IfOk};
ghost use Rattle.gi_pairs.specs.Row.{key_of, IsRow};

use crate::direction::Direction;
use crate::hours::Hours;
use crate::key::Key;
use crate::pair::Pair;
use std::alloc::AllocError;

/// A row of a table: the quantities of a pair in a direction, one for each covered hour.
#[derive(Drop, PartialEq, Eq)]
pub struct Row {
    pub pair: Pair,
    pub direction: Direction,
    pub hours: Hours,
}

impl Row {
    /// What the row is for.
    pub fn key(&self) -> Key
        ensures { result ≡ key_of self.now }
    {
        Key {
            pair: self.pair,
            direction: self.direction,
        }
    }

    /// Every row has codes and quantities.
    pub fn reveal_invariant(&self)
        ensures { IsRow self.now }
    {
        self.pair.initiating.reveal_invariant();
        self.pair.matching.reveal_invariant();
        self.hours.reveal_invariant();
    }

    /// An equal row.
    pub fn copy(&self) -> Result<Row, AllocError>
        ensures { IfOk result (λ row. row ≡ self.now) }
    {
        Ok(Row {
            pair: self.pair,
            direction: self.direction,
            hours: self.hours.copy()?,
        })
    }
}
