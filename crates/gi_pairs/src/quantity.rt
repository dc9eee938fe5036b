ghost use Rattle.std.specs.Prelude.{◌≡◌, OkIff, Some, codes};
ghost use Rattle.gi_pairs.specs.Quantity.{IsQuantity};

use std::error::Error;
use std::fmt;
use std::marker::Model;

/// A number of kWh/h that is no quantity: it is above 999,999,999,999.
#[derive(Clone, Copy, Debug, PartialEq, Eq)]
pub struct QuantityRange;

impl fmt::Display for QuantityRange {
    ghost output = { λ _. Some (codes "QuantityRange") };

    fn fmt<W: fmt::Write>(&self, f: &mut fmt::Formatter<W>) -> fmt::Result {
        f.write_str("QuantityRange")
    }
}

impl Error for QuantityRange {}

/// A quantity in whole kWh/h, from 0 to 999,999,999,999.
#[derive(Clone, Copy, Debug, PartialEq, Eq, PartialOrd, Ord)]
pub struct Quantity {
    value: u64,
}

impl Model for Quantity {
    ghost use Rattle.std.specs.Prelude.{ℕ};
    ghost use Rattle.gi_pairs.specs.Quantity.{IsQuantity};

    ghost Value = { ℕ };

    ghost view = { λ q. q.value };

    ghost invariant = { λ q. IsQuantity q.value };

    ghost inverse = { λ n. record { value = n } };
}

impl Quantity {
    /// The greatest quantity, in kWh/h.
    pub const MAX: u64 = 999_999_999_999;

    /// The quantity of so many kWh/h, or `QuantityRange` above 999,999,999,999.
    pub fn new(value: u64) -> Result<Quantity, QuantityRange>
        ensures { OkIff result (IsQuantity value) value }
    {
        if value > Quantity::MAX {
            return Err(QuantityRange);
        }
        Ok(Quantity { value })
    }

    /// The number of kWh/h.
    pub fn value(self) -> u64
        ensures value { result ≡ self }
        ensures in_range { IsQuantity result }
    {
        self.value
    }

    /// Every quantity is one.
    pub fn reveal_invariant(self)
        ensures { IsQuantity self }
    {}
}
