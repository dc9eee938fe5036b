ghost use Rattle.std.specs.Prelude.{◌≡◌};

use gi_desk::Fact;
use std::marker::Model;

/// Facts in the order of their numbers.
#[derive(Drop)]
pub struct Facts {
    facts: Vec<Fact>,
}

impl Model for Facts {
    ghost use Rattle.std.specs.Prelude.{List};
    ghost use Rattle.gi_facts.specs.declared.fact.Fact.{Fact};

    ghost Value = { List Fact };

    ghost view = { λ f. f.facts.items };
}

impl From<Vec<Fact>> for Facts {
    ghost from_gives = { λ list facts. facts ≡ list.items };

    fn from(facts: Vec<Fact>) -> Facts {
        Facts { facts }
    }
}

impl Facts {
    /// The facts, in order.
    pub fn as_slice(&self) -> &[Fact]
        ensures { result.now ≡ self.now }
    {
        &self.facts
    }

    /// The facts, in order, with the memory that they were given in.
    pub fn into_vec(self) -> Vec<Fact>
        ensures { result.items ≡ self }
    {
        self.facts
    }
}
