ghost use Rattle.std.specs.Prelude.{◌≡◌, IfOk};

use crate::packet::Body;
use gi_facts::Fact;
use gi_pairs::CycleId;
use gi_processing::{Contract, Notice, Rule};
use std::alloc::AllocError;

/// What a desk is asked.
#[derive(Drop)]
pub enum Call {
    /// Record a contract.
    Contract(Contract),
    /// Record a notice.
    Notice(Notice),
    /// Take a shipper's nomination, in these bytes.
    Submit(Body),
    /// Close a cycle by a rule.
    Close { id: CycleId, rule: Rule },
    /// Take the peer's message, in these bytes.
    Deliver(Body),
    /// Let out again what a cycle let out.
    Resend(CycleId),
    /// The fact of number `n`, which is this one, stands on the store.
    MarkSaved { n: u32, fact: Fact },
    /// Stop: every later call is refused.
    Halt,
}

impl Call {
    /// An equal call.
    pub fn copy(&self) -> Result<Call, AllocError>
        ensures { IfOk result (λ call. call ≡ self.now) }
    {
        Ok(match self {
            Call::Contract(contract) => Call::Contract(*contract),
            Call::Notice(notice) => Call::Notice(*notice),
            Call::Submit(body) => Call::Submit(body.copy()?),
            Call::Close { id, rule } => Call::Close {
                id: *id,
                rule: *rule,
            },
            Call::Deliver(body) => Call::Deliver(body.copy()?),
            Call::Resend(id) => Call::Resend(*id),
            Call::MarkSaved { n, fact } => Call::MarkSaved {
                n: *n,
                fact: fact.copy()?,
            },
            Call::Halt => Call::Halt,
        })
    }
}
