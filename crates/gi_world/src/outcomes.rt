ghost use Rattle.std.specs.Prelude.{◌≡◌};

use crate::world_fault::WorldFault;
use crate::world_reply::WorldReply;
use std::marker::Model;

/// What came of the steps of a run, in their order.
#[derive(Drop)]
pub struct Outcomes {
    outcomes: Vec<Result<WorldReply, WorldFault>>,
}

impl Model for Outcomes {
    ghost use Rattle.std.specs.Prelude.{List, Result};
    ghost use Rattle.gi_world.specs.declared.world_fault.WorldFault.{WorldFault};
    ghost use Rattle.gi_world.specs.declared.world_reply.WorldReply.{WorldReply};

    ghost Value = { List (Result WorldReply WorldFault) };

    ghost view = { λ o. o.outcomes.items };
}

impl From<Vec<Result<WorldReply, WorldFault>>> for Outcomes {
    ghost from_gives = { λ list outcomes. outcomes ≡ list.items };

    fn from(outcomes: Vec<Result<WorldReply, WorldFault>>) -> Outcomes {
        Outcomes { outcomes }
    }
}

impl Outcomes {
    /// The outcomes, in order.
    pub fn as_slice(&self) -> &[Result<WorldReply, WorldFault>]
        ensures { result.now ≡ self.now }
    {
        &self.outcomes
    }
}
