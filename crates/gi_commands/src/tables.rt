//! The commands on tables and days, and how input is read and text written, with the faults of all
//! commands.

ghost use Rattle.std.specs.Prelude.{◌≡◌, ◌≤◌, IfErr, IfOk, IfSome, OnOk, false, length};
ghost use Rattle.std.specs.Io.KnownBytes.{Appends};
ghost use Rattle.gi_commands.specs.Fault.{OfTables};
ghost use Rattle.gi_commands.specs.Leaving.{LeavesNothing};
ghost use Rattle.gi_table_commands.specs.Hours.{IsFirstHoursFault, TellsHours};
ghost use Rattle.gi_table_commands.specs.Input.{IsInputFault, most_input};
ghost use Rattle.gi_table_commands.specs.Match.{Answers, IsFirstFault};

use crate::fault::Fault;
use gi_table_commands::Calls;
use std::alloc::Global;
use std::io::{Read, Write};
use std::thread::Threads;

/// Does `match`, as `gi_table_commands::match_tables` says.
pub(crate) fn match_tables<R: Read, W: Write>(
    threads: &(impl Threads + Sync),
    alloc: Global,
    input: &mut R,
    output: &mut W,
) -> Result<(), Fault>
    ensures done { OnOk result (IfSome (R.remaining input.old) (λ bytes.
        Answers bytes (W.contents output.old) (W.contents output.new))) }
    ensures leaves { IfErr result (LeavesNothing (W.contents output.old) (W.contents output.new)) }
    ensures first { IfErr result (λ fault. IfSome (R.remaining input.old) (λ bytes.
        OfTables (IsFirstFault bytes) fault)) }
{
    Ok(gi_table_commands::match_tables(threads, alloc, input, output)?)
}

/// Does `hours`, as `gi_table_commands::tell_hours` says.
pub(crate) fn tell_hours<W: Write>(alloc: Global, day: &str, output: &mut W) -> Result<(), Fault>
    ensures done { OnOk result (TellsHours day.now (W.contents output.old) (W.contents output.new)) }
    ensures leaves { IfErr result (LeavesNothing (W.contents output.old) (W.contents output.new)) }
    ensures first { IfErr result (OfTables (IsFirstHoursFault day.now)) }
{
    Ok(gi_table_commands::tell_hours(alloc, day, output)?)
}

/// All that the reader has left, as `gi_table_commands::read_input` says.
pub fn read_input<R: Read>(
    alloc: Global,
    input: &mut R,
    calls: &mut Calls,
) -> Result<Vec<u8>, Fault>
    requires made { calls.old.made ≡ 0 }
    requires failed { calls.old.failed ≡ false }
    ensures whole { IfOk result (λ bytes. IfSome (R.remaining input.old) (λ all. bytes.items ≡ all)) }
    ensures within { IfOk result (λ bytes. length bytes.items ≤ most_input) }
    ensures refused { IfErr result (OfTables (IsInputFault (R.remaining input.old) calls.new)) }
{
    Ok(gi_table_commands::read_input(alloc, input, calls)?)
}

/// Writes a text, as `gi_table_commands::write_text` says.
pub(crate) fn write_text<W: Write>(text: &[u8], output: &mut W) -> Result<(), Fault>
    ensures written { OnOk result (Appends (W.contents output.old) (W.contents output.new) text.now) }
    ensures failed { IfErr result (λ fault. fault ≡ Fault.Write) }
{
    Ok(gi_table_commands::write_text(text, output)?)
}
