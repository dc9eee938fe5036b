ghost use Rattle.std.specs.Prelude.{◌≡◌, Err, IfOk, IsOk};
ghost use Rattle.std.proofs.Common.{rules};
ghost use Rattle.std.specs.Cmp.Rules.{comparing};
ghost use Rattle.std.specs.Cmp.Lexicographic.{pointwise};
ghost use Rattle.gi_carrier.specs.Carrier.{IsPlan, move_at as move_of};
ghost use Rattle.gi_carrier.specs.declared.plan_fault.PlanFault.TheVariants.{PlanLength};

use crate::moves::Move;
use crate::plan_fault::PlanFault;
use std::marker::Model;

/// How many moves a plan has at most.
pub const MOST_MOVES: usize = 1000;

/// The moves of a carrier, which come round again and again.
#[derive(Drop)]
pub struct Plan {
    moves: Vec<Move>,
}

impl Model for Plan {
    ghost use Rattle.std.specs.Prelude.{List};
    ghost use Rattle.gi_carrier.specs.Carrier.{IsPlan};
    ghost use Rattle.gi_carrier.specs.declared.moves.Move.{Move};

    ghost Value = { List Move };

    ghost view = { λ p. p.moves.items };

    ghost invariant = { λ p. IsPlan p.moves.items };
}

impl Plan {
    /// The plan of these moves, in their order. `PlanLength` where they are not 1 to 1,000.
    pub fn build(moves: Vec<Move>) -> Result<Plan, PlanFault>
        ensures made { IfOk result (λ plan. plan ≡ moves.items) }
        ensures refused { ¬ IsPlan moves.items → result ≡ Err PlanLength }
        ensures taken { IsPlan moves.items → IsOk result }
    {
        if moves.is_empty() || MOST_MOVES < moves.len() {
            return Err(PlanFault::PlanLength);
        }
        Ok(Plan { moves })
    }

    /// The moves, in order: 1 to 1,000.
    pub fn as_slice(&self) -> &[Move]
        ensures value { result.now ≡ self.now }
        ensures within { IsPlan result.now }
    {
        &self.moves
    }

    pub(crate) fn move_at(&self, position: u64) -> Move
        ensures { result ≡ move_of self.now position }
    {
        let place = position % self.moves.len() as u64;
        self.moves[place as usize]
    }
}

impl PartialEq for Plan {
    ghost use Rattle.gi_carrier.specs.Moves.{move_eq};

    ghost eq = { pointwise move_eq };

    ghost laws = { Prim.search (comparing, rules) };

    fn eq(&self, other: &Plan) -> bool {
        self.as_slice() == other.as_slice()
    }
}

impl Eq for Plan {
    ghost laws = { Prim.search (comparing, rules) };
}
