ghost use Rattle.std.specs.Prelude.{◌≡◌, ◌⊎◌, IfErr};

use crate::fault::Fault;
use std::env;
use std::io::ErrorKind;
use std::rt::Env;

/// The words of the command line that a program was started with, the first being its own name; a
/// word that is not text is a wrong command line.
pub fn given_words<R: Env + AllocGlobal>(rt: &R) -> Result<Vec<String>, Fault>
    ensures fault { IfErr result (λ fault. (fault ≡ Fault.CommandLine) ⊎ (fault ≡ Fault.OutOfMemory)) }
{
    match env::args(rt) {
        Ok(words) => words.collect(rt.alloc()).map_err(|_| Fault::OutOfMemory),
        Err(error) if error.kind() == ErrorKind::OutOfMemory => Err(Fault::OutOfMemory),
        Err(_) => Err(Fault::CommandLine),
    }
}
