ghost use Rattle.std.specs.Prelude.{◌≡◌, IfOk};
ghost use Rattle.gi_facts.specs.Same.{same_fact};

use gi_messages::Nomint;
use gi_pairs::{CycleId, Table};
use gi_processing::{Contract, Notice, Rule};
use std::alloc::AllocError;

/// What an operator has recorded.
#[derive(Drop)]
pub enum Fact {
    /// A portfolio's contract.
    Contracted(Contract),
    /// A notice that cuts what is available.
    Noticed(Notice),
    /// A nomination that was taken.
    Nominated(Nomint),
    /// The cycle was closed, its quantities processed by the rule.
    Closed { id: CycleId, rule: Rule },
    /// The cycle met the peer's table.
    Met { id: CycleId, peer: Table },
}

impl Fact {
    /// An equal fact.
    pub fn copy(&self) -> Result<Fact, AllocError>
        ensures { IfOk result (λ fact. fact ≡ self.now) }
    {
        Ok(match self {
            Fact::Contracted(contract) => Fact::Contracted(*contract),
            Fact::Noticed(notice) => Fact::Noticed(*notice),
            Fact::Nominated(document) => Fact::Nominated(document.copy()?),
            Fact::Closed { id, rule } => Fact::Closed {
                id: *id,
                rule: *rule,
            },
            Fact::Met { id, peer } => Fact::Met {
                id: *id,
                peer: peer.copy()?,
            },
        })
    }

    /// Whether it is the same as another.
    pub fn is(&self, other: &Fact) -> bool
        ensures { result ≡ same_fact self.now other.now }
    {
        match (self, other) {
            (Fact::Contracted(a), Fact::Contracted(b)) => a == b,
            (Fact::Noticed(a), Fact::Noticed(b)) => a == b,
            (Fact::Nominated(a), Fact::Nominated(b)) => a == b,
            (Fact::Closed { id: a, rule }, Fact::Closed { id: b, rule: other }) => {
                a == b && rule == other
            }
            (Fact::Met { id: a, peer }, Fact::Met { id: b, peer: other }) => {
                a == b && peer == other
            }
            _ => false,
        }
    }
}
