//! What is told of a fault: its name, where it is, and what the name means.

ghost use Rattle.std.specs.Prelude.{◌≡◌, OnOk};
ghost use Rattle.std.specs.Io.KnownBytes.{Keeps};

use crate::placing::{asked, files_read};
use crate::program_fault::ProgramFault;
use gi_command_line::Task;
use gi_names::{NAMES, hint_in};
use gi_places::{Remembered, place_of};
use std::alloc::Global;
use std::fs;
use std::io::{IsTerminal, Read, Write};

/// Whether it is to be told where a fault is.
pub(crate) fn tells_places<E: IsTerminal>(is_verbose: bool, errors: &E) -> bool {
    is_verbose || errors.is_terminal()
}

/// Has the input remembered where that is to be told, but of an office, which does not read it whole.
pub(crate) fn remember<R: Read>(
    alloc: Global,
    is_told: bool,
    task: &Task<'_>,
    input: &mut Remembered<R>,
)
    ensures { input.new ≡ input.old }
{
    if is_told && !matches!(task, Task::Office(_)) {
        input.begin(alloc);
    }
}

/// The first of the files which a task only reads that is not there.
fn missing_file<'a>(rt: &HostRuntime, task: &Task<'a>) -> Option<&'a str> {
    for file in files_read(task) {
        match file {
            Some(file) if !fs::exists(rt, file).unwrap_or(true) => return Some(file),
            _ => {}
        }
    }
    None
}

/// Tells where a fault is, by a line that is indented, where that is known and memory is there.
fn tell_place<E: Write>(
    rt: &HostRuntime,
    fault: &str,
    task: &Task<'_>,
    input: Option<&[u8]>,
    errors: &mut E,
) {
    let asked = asked(fault, task, input, missing_file(rt, task));
    if let Some(place) = place_of(rt.alloc(), &asked) {
        let _ = writeln!(errors, "  {place}");
        drop(place);
    }
}

/// Tells the fault, if any, by its line. Where more is to be told, a line behind it tells where the fault is, and on a terminal
/// further ones what its name means. How many steps were refused is told by that line alone.
pub(crate) fn told<E: Write + IsTerminal>(
    rt: &HostRuntime,
    done: Result<(), ProgramFault>,
    is_told: bool,
    task: &Task<'_>,
    input: Option<&[u8]>,
    errors: &mut E,
) -> Result<(), ProgramFault>
    ensures same { result ≡ done }
    ensures silent { OnOk result (Keeps (E.contents errors.old) (E.contents errors.new)) }
{
    match &done {
        Ok(()) => {}
        Err(ProgramFault::Refused(count)) => {
            let _ = writeln!(errors, "{count} refused");
        }
        Err(fault) => tell(rt, fault, is_told, task, input, errors),
    }
    done
}

fn tell<E: Write + IsTerminal>(
    rt: &HostRuntime,
    fault: &ProgramFault,
    is_told: bool,
    task: &Task<'_>,
    input: Option<&[u8]>,
    errors: &mut E,
) {
    let _ = writeln!(errors, "gi_dispatch: {fault}");
    let Ok(name) = format!(in rt.alloc(); "{fault}") else {
        return;
    };
    if is_told {
        tell_place(rt, &name, task, input, errors);
    }
    if errors.is_terminal() {
        tell_meaning(&name, errors);
    }
    drop(name);
}

/// Tells what a fault's name means: lines that are indented.
fn tell_meaning<E: Write>(name: &str, errors: &mut E) {
    if let Some(meaning) = hint_in(NAMES, name) {
        let _ = errors.write_all(meaning.as_bytes());
    }
}
