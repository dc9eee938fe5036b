//! What the program says in place of a command, and of its faults.

ghost use Rattle.std.specs.Prelude.{◌≡◌, ◌≢◌, ◌⊎◌, IfErr, IsErrAnd, OnOk, Err};
ghost use Rattle.std.specs.Io.KnownBytes.{Keeps};
ghost use Rattle.clap.specs.Words.{kind_of};
ghost use Rattle.gi_table_commands.specs.Leaving.{LeavesNothing};

use crate::fault::Fault;
use clap::Error;
use clap::error::ErrorKind;
use gi_command_line::Mistake;
use gi_names::{NAMES, hint_in};
use std::alloc::Global;
use std::fmt::Display;
use std::io::{IsTerminal, Write};

/// Tells what a fault's name means, where memory is there: lines that are indented.
fn tell_meaning<F: Display, E: Write>(alloc: Global, fault: &F, errors: &mut E) {
    let Ok(said) = format!(in alloc; "{fault}") else {
        return;
    };
    if let Some(meaning) = hint_in(NAMES, &said) {
        let _ = errors.write_all(meaning.as_bytes());
    }
    drop(said);
}

/// Writes the one line that names the fault, where there is one, and to a terminal what that name means. A writer that fails leaves
/// it at that.
pub fn reported<F: Display, E: Write + IsTerminal>(
    alloc: Global,
    done: Result<(), F>,
    errors: &mut E,
) -> Result<(), F>
    ensures same { result ≡ done }
    ensures silent { OnOk result (Keeps (E.contents errors.old) (E.contents errors.new)) }
{
    if let Err(fault) = &done {
        let _ = writeln!(errors, "gi_dispatch: {fault}");
        if errors.is_terminal() {
            tell_meaning(alloc, fault, errors);
        }
    }
    done
}

/// Writes what `clap` says in place of a command: help and the version to the output, and what is
/// wrong with the words to the errors.
pub fn explain<W: Write, E: Write + IsTerminal>(
    alloc: Global,
    said: &Error,
    output: &mut W,
    errors: &mut E,
) -> Result<(), Fault>
    ensures memory { kind_of said.now ≡ ErrorKind.OutOfMemory → result ≡ Err Fault.OutOfMemory }
    ensures gives_up { kind_of said.now ≢ ErrorKind.DisplayHelp → kind_of said.now ≢ ErrorKind.DisplayVersion
        → IsErrAnd result (λ fault. (fault ≡ Fault.CommandLine) ⊎ (fault ≡ Fault.OutOfMemory)) }
    ensures mistake { kind_of said.now ≢ ErrorKind.OutOfMemory → kind_of said.now ≢ ErrorKind.DisplayHelp
        → kind_of said.now ≢ ErrorKind.DisplayVersion → result ≡ Err Fault.CommandLine }
    ensures shown { (kind_of said.now ≡ ErrorKind.DisplayHelp)
        ⊎ (kind_of said.now ≡ ErrorKind.DisplayVersion) → IfErr result (λ fault. fault ≡ Fault.Write) }
    ensures silent { OnOk result (Keeps (E.contents errors.old) (E.contents errors.new)) }
    ensures leaves { IfErr result (LeavesNothing (W.contents output.old) (W.contents output.new)) }
{
    if said.kind() == ErrorKind::OutOfMemory {
        return reported(alloc, Err(Fault::OutOfMemory), errors);
    }
    if said.use_stderr() {
        let _ = write!(errors, "{said}");
        return Err(Fault::CommandLine);
    }
    match write!(output, "{said}") {
        Ok(()) => Ok(()),
        Err(_) => reported(alloc, Err(Fault::Write), errors),
    }
}

/// Writes what is wrong with the words of a command, where `clap` objects to nothing.
pub fn point_out<E: Write>(mistake: Mistake<'_>, errors: &mut E) -> Result<(), Fault>
    ensures { result ≡ Err Fault.CommandLine }
{
    let _ = write!(errors, "{mistake}\nFor more information, try '--help'.\n");
    Err(Fault::CommandLine)
}
