ghost use Rattle.std.specs.Prelude.{◌≡◌, ◌∷◌, [], IfErr, IfOk};
ghost use Rattle.gi_messages.specs.Decoding.{decoded};
ghost use Rattle.gi_simulation.specs.Refused.{portfolio_in, refused_by, submitted as submitted_at};
ghost use Rattle.gi_simulation.specs.Runs.{gathered, run as run_of, turns};
ghost use Rattle.gi_simulation.specs.Simulation.{new_simulation};
ghost use Rattle.gi_world.specs.declared.start_fault.StartFault.TheVariants.{OutOfMemory};

use crate::notes::Notes;
use crate::outcome::Outcome;
use crate::run::run;
use crate::simulation::Simulation;
use gi_desk::Call;
use gi_messages::{Message, MessageFault, decode};
use gi_pairs::{Code, Side};
use gi_script::{Instruction, Line, Script};
use gi_world::StartFault;
use std::alloc::{AllocError, Global};
use std::marker::Model;

/// The portfolios of a side's refused submissions.
#[derive(Drop)]
struct Refused {
    alloc: Global,
    side: Side,
    portfolios: Vec<Option<Code>>,
}

impl Model for Refused {
    ghost use Rattle.gi_simulation.specs.Refused.{RefusedState};

    ghost Value = { RefusedState };

    ghost view = { λ r. record { side = r.side; portfolios = r.portfolios.items } };
}

/// The portfolio of a submission; none where its bytes are no NOMINT. Only memory is refused.
pub fn portfolio_of(alloc: Global, body: &[u8]) -> Result<Option<Code>, AllocError>
    ensures { IfOk result (λ portfolio. portfolio ≡ portfolio_in (decoded body.now)) }
{
    match decode(alloc, body) {
        Ok(Message::Nomint(document)) => Ok(Some(document.portfolio)),
        Err(MessageFault::OutOfMemory) => Err(AllocError),
        _ => Ok(None),
    }
}

impl Refused {
    fn new(alloc: Global, side: Side) -> Refused
        ensures { result ≡ record { side = side; portfolios = [] } }
    {
        Refused {
            alloc,
            side,
            portfolios: Vec::new(alloc),
        }
    }
}

impl Notes for Refused {
    ghost use Rattle.gi_simulation.specs.Refused.{recording_outcome};

    ghost noting = { recording_outcome };

    fn note(
        &mut self,
        line: &Line,
        outcome: Option<Outcome>,
        _lines: &str,
    ) -> Result<(), AllocError> {
        let Some(Outcome::Refused(_)) = outcome else {
            return Ok(());
        };
        let Instruction::Call { side, call } = &line.instruction else {
            return Ok(());
        };
        let Call::Submit(body) = call else {
            return Ok(());
        };
        if *side != self.side {
            return Ok(());
        }
        let portfolio = portfolio_of(self.alloc, body.as_slice())?;
        self.portfolios.push(portfolio)?;
        Ok(())
    }
}

/// Makes the lines of a script as `simulate` does, and answers with the portfolio of each submission
/// that the side refused, in order: None where its bytes are no NOMINT. `OutOfMemory` where memory
/// runs out, and no other refusal.
pub fn refused_submissions(
    alloc: Global,
    side: Side,
    script: Script,
) -> Result<(Simulation, Vec<Option<Code>>), StartFault>
    ensures portfolios { IfOk result (λ it. it.1.items ≡ gathered (refused_by side) (new_simulation script.point) (turns script.lines)) }
    ensures simulation { IfOk result (λ it. it.0 ≡ run_of (new_simulation script.point) (turns script.lines)) }
    ensures refused { IfErr result (λ fault. fault ≡ OutOfMemory) }
{
    let mut simulation = match Simulation::new(alloc, script.point()) {
        Ok(simulation) => simulation,
        Err(fault) => {
            // (handed to drop, by one call: going out of scope here would be checked field by field on each way out)
            drop(script);
            return Err(fault);
        }
    };
    let mut refused = Refused::new(alloc, side);
    let Ok(()) = run(&mut simulation, script.into_lines(), &mut refused, false) else {
        drop((simulation, refused));
        return Err(StartFault::OutOfMemory);
    };
    Ok((simulation, refused.portfolios))
}
