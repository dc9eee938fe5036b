//! What is written at once.

ghost use Rattle.std.specs.Prelude.{◌≡◌, IfErr, OnOk};
ghost use Rattle.std.specs.Io.KnownBytes.{Appends};

use crate::live_fault::LiveFault;
use std::io::Write;

/// Writes a text, and hands it on at once. `Write` where the writer fails.
pub(crate) fn write<O: Write>(output: &mut O, text: &[u8]) -> Result<(), LiveFault>
    ensures written { OnOk result (Appends (O.contents output.old) (O.contents output.new) text.now) }
    ensures fault { IfErr result (λ fault. fault ≡ LiveFault.Write) }
{
    match output.write_all(text) {
        Ok(()) => {}
        Err(_) => return Err(LiveFault::Write),
    }
    match output.flush() {
        Ok(()) => Ok(()),
        Err(_) => Err(LiveFault::Write),
    }
}
