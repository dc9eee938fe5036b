ghost use Rattle.std.specs.Prelude.{◌≡◌, MatchResult};
ghost use Rattle.gi_desk.specs.declared.call.Call.{Call};
ghost use Rattle.gi_script.specs.Grammar.{Asks};
ghost use Rattle.gi_script.specs.Reading.{Reads};
ghost use Rattle.gi_script.specs.declared.fault.LineFault.TheVariants.{OutOfMemory};

use crate::command::call;
use crate::fault::LineFault;
use crate::words::Words;
use gi_desk::Call;
use std::alloc::Global;

/// The call that a line asks of an office that runs: a script's line without its side, where `deliver`
/// has the bytes of the peer's message to the end of the line, as `submit` has a shipper's. `Unreadable`
/// where the line is no UTF-8, its first word names no call, or its other words are not what that call
/// wants. `OutOfMemory` where memory runs out.
pub fn read_request(alloc: Global, line: &[u8]) -> Result<Call, LineFault>
    ensures read { Reads (Asks line.now) result }
    ensures only { (call : Call) → Asks line.now call → MatchResult result (λ read. read ≡ call) (λ fault. fault ≡ OutOfMemory) }
{
    let Ok(text) = str::from_utf8(line) else {
        return Err(LineFault::Unreadable);
    };
    let mut words = Words::of(text);
    let Some(verb) = words.verb() else {
        return Err(LineFault::Unreadable);
    };
    call(alloc, verb, words)
}
