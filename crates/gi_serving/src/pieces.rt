//! The submissions among the lines of a script.

ghost use Rattle.std.specs.Prelude.{◌≡◌};
ghost use Rattle.std.specs.Option.{option_map};
ghost use Rattle.gi_serving.specs.Batches.{submission as submission_in};

use gi_desk::{Body, Call};
use gi_pairs::Side;
use gi_script::{Instruction, Line};

pub(crate) fn submission(line: &Line) -> Option<(Side, &Body)>
    ensures { option_map (λ it. (it.0, it.1.now)) result ≡ submission_in line.now.instruction }
{
    match &line.instruction {
        Instruction::Call {
            side,
            call: Call::Submit(body),
        } => Some((*side, body)),
        _ => None,
    }
}
