//! `help NAME`, of a name or a word that the program prints.

ghost use Rattle.std.specs.Prelude.{◌≡◌, IfErr, OnOk, map, option_map};
ghost use Rattle.std.specs.Io.KnownBytes.{Appends};
ghost use Rattle.gi_service.specs.Teaching.{taught_by, taught_in as taught_in_text};

use crate::program_fault::ProgramFault;
use gi_commands::Fault;
use gi_names::{NAMES, entry_in};
use gi_table_commands::write_text;
use std::convert::AsStr;
use std::io::Write;

/// What the words ask to be taught of a text of names, where they are the program's own name, `help` and a name that has an entry there.
fn taught_in<'a, S: AsStr>(text: &'a str, words: &[S]) -> Option<&'a str>
    ensures { option_map (λ entry. entry.now) result ≡ taught_in_text text.now (map S.text words.now) }
{
    match words {
        [_, help, name] if help.as_str() == "help" => entry_in(text, name.as_str()),
        _ => None,
    }
}

/// The same of the names that the program prints.
#[tactic(auto, unfolding(crate::specs::Teaching::taught_by))]
pub(crate) fn taught<S: AsStr>(words: &[S]) -> Option<&'static str>
    ensures { option_map (λ entry. entry.now) result ≡ taught_by (map S.text words.now) }
{
    taught_in(NAMES, words)
}

pub(crate) fn teach<W: Write>(entry: &str, output: &mut W) -> Result<(), ProgramFault>
    ensures written { OnOk result (Appends (W.contents output.old) (W.contents output.new) entry.now) }
    ensures fault { IfErr result (λ fault. fault ≡ ProgramFault.Command Fault.Write) }
{
    match write_text(entry.as_bytes(), output) {
        Ok(()) => Ok(()),
        Err(fault) => Err(ProgramFault::from(fault)),
    }
}
