ghost use Rattle.std.specs.Prelude.{◌≡◌, IfErr, IfSome, OnOk};
ghost use Rattle.std.specs.Io.KnownBytes.{Appends};
ghost use Rattle.gi_table_commands.specs.Hours.{IsFirstHoursFault, TellsHours};
ghost use Rattle.gi_table_commands.specs.Leaving.{LeavesNothing};
ghost use Rattle.gi_table_commands.specs.Match.{Answers, IsFirstFault};

use crate::fault::Fault;
use crate::hours::hours_text;
use crate::input::{Calls, read_input};
use crate::matching::answer;
use std::alloc::Global;
use std::io::{Read, Write};
use std::thread::Threads;

/// Does `match`: reads both tables, in several threads, and writes the response. The first fault of
/// the stated order is answered, and after it nothing is written, unless the writer failed: that is
/// `Write`, after all others.
pub fn match_tables<R: Read, W: Write>(
    threads: &(impl Threads + Sync),
    alloc: Global,
    input: &mut R,
    output: &mut W,
) -> Result<(), Fault>
    ensures done { OnOk result (IfSome (R.remaining input.old) (λ bytes.
        Answers bytes (W.contents output.old) (W.contents output.new))) }
    ensures leaves { IfErr result (LeavesNothing (W.contents output.old) (W.contents output.new)) }
    ensures first { IfErr result (λ fault. IfSome (R.remaining input.old) (λ bytes.
        IsFirstFault bytes fault)) }
{
    let bytes = read_input(alloc, input, &mut Calls::none())?;
    let text = answer(threads, alloc, bytes.as_slice())?;
    write_text(text.as_slice(), output)
}

/// Does `hours`: writes the hours and cycles of the gas day that the word names. The faults are those
/// of `hours_text`, after which nothing is written, and then `Write`, where the writer fails.
pub fn tell_hours<W: Write>(alloc: Global, day: &str, output: &mut W) -> Result<(), Fault>
    ensures done { OnOk result (TellsHours day.now (W.contents output.old) (W.contents output.new)) }
    ensures leaves { IfErr result (LeavesNothing (W.contents output.old) (W.contents output.new)) }
    ensures first { IfErr result (IsFirstHoursFault day.now) }
{
    let text = hours_text(alloc, day)?;
    write_text(text.as_bytes(), output)
}

/// Writes a text: `Write` where the writer fails, which may have taken a part.
pub fn write_text<W: Write>(text: &[u8], output: &mut W) -> Result<(), Fault>
    ensures written { OnOk result (Appends (W.contents output.old) (W.contents output.new) text.now) }
    ensures failed { IfErr result (λ fault. fault ≡ Fault.Write) }
{
    match output.write_all(text) {
        Ok(()) => Ok(()),
        Err(_) => Err(Fault::Write),
    }
}
