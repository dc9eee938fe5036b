ghost use Rattle.std.specs.Prelude.{◌≡◌, IfOk, nat_eq};
ghost use Rattle.std.proofs.Common.{rules};
ghost use Rattle.std.specs.Cmp.Rules.{comparing};
ghost use Rattle.std.specs.Cmp.Lexicographic.{pointwise};

use crate::quantity::Quantity;
use std::alloc::AllocError;
use std::marker::Model;

/// The quantities of consecutive hours, in order, each in kWh/h.
#[derive(Drop)]
pub struct Hours {
    quantities: Vec<Quantity>,
}

impl Model for Hours {
    ghost use Rattle.std.specs.Prelude.{List, ℕ, All};
    ghost use Rattle.gi_pairs.specs.Quantity.{IsQuantity};

    ghost Value = { List ℕ };

    ghost view = { λ h. h.quantities.items };

    ghost invariant = { λ h. All IsQuantity h.quantities.items };
}

impl From<Vec<Quantity>> for Hours {
    ghost from_gives = { λ quantities hours. hours ≡ quantities.items };

    fn from(quantities: Vec<Quantity>) -> Hours {
        for quantity in &quantities {
            quantity.reveal_invariant();
        }
        Hours { quantities }
    }
}

impl Hours {
    ghost use Rattle.std.specs.Prelude.{All};
    ghost use Rattle.gi_pairs.specs.Quantity.{IsQuantity};

    /// The quantities, in order.
    pub fn as_slice(&self) -> &[Quantity]
        ensures value { result.now ≡ self.now }
        ensures in_range { All IsQuantity self.now }
    {
        &self.quantities
    }

    /// Every element is a quantity.
    pub fn reveal_invariant(&self)
        ensures { All IsQuantity self.now }
    {
        let _ = self.as_slice();
    }

    /// The quantities, in order, with the memory that they were given in.
    pub fn into_vec(self) -> Vec<Quantity>
        ensures { result.items ≡ self }
    {
        self.quantities
    }

    /// An equal value.
    pub fn copy(&self) -> Result<Hours, AllocError>
        ensures { IfOk result (λ hours. hours ≡ self.now) }
    {
        let alloc = *self.quantities.allocator();
        Ok(Hours::from(Vec::from_slice(alloc, &self.quantities)?))
    }
}

impl PartialEq for Hours {
    ghost eq = { pointwise nat_eq };

    ghost laws = { Prim.search (comparing, rules) };

    fn eq(&self, other: &Hours) -> bool {
        self.as_slice() == other.as_slice()
    }
}

impl Eq for Hours {
    ghost laws = { Prim.search (comparing, rules) };
}
