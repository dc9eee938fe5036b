//! From the words of a command line to what is written, and the fault: all commands together.

ghost use Rattle.std.specs.Prelude.{◌≡◌, ◌≢◌, ◌⊎◌, [], IfErr, IfSome, IsErrAnd, None, OnOk, Err, map, true};
ghost use Rattle.std.specs.Io.KnownBytes.{Appends, Keeps};
ghost use Rattle.clap.specs.Words.{kind_of};
ghost use Rattle.gi_command_line.specs.Asked.{is_strict};
ghost use Rattle.gi_command_line.specs.CommandLine.{AsksForHelp, IsMistaken, asked, objections};
ghost use Rattle.gi_service.specs.Teaching.{taught_by};
ghost use Rattle.gi_service.specs.Tasks.{DoesTask, HoldsRefused, IsEndFault, LeavesEnd, LeavesNothingBut, MayReadTask, NamesNoCode, no_task_code};

use crate::program_fault::ProgramFault;
use crate::tasks::perform_whole;
use crate::teaching::{taught, teach};
use crate::telling::{remember, tells_places, told};
use clap::Error;
use clap::error::ErrorKind;
use gi_command_line::{Mistake, Request, Task, requested};
use gi_commands::Fault;
use gi_places::Remembered;
use gi_refusals::Counted;
use gi_serving::Watch;
use gi_store::BookSource;
use gi_table_commands::reported;
use std::alloc::Global;
use std::convert::AsStr;
use std::io::{IsTerminal, Read, Write};
use std::sync::Wait;
use std::thread::Threads;
use std::time::Clock;

/// Writes what `clap` says in place of a command: help and the version to the output, and what is
/// wrong with the words to the errors.
fn explain<W: Write, E: Write + IsTerminal>(
    alloc: Global,
    said: &Error,
    output: &mut W,
    errors: &mut E,
) -> Result<(), ProgramFault>
    ensures memory { kind_of said.now ≡ ErrorKind.OutOfMemory → result ≡ Err (ProgramFault.Command Fault.OutOfMemory) }
    ensures gives_up { kind_of said.now ≢ ErrorKind.DisplayHelp → kind_of said.now ≢ ErrorKind.DisplayVersion
        → IsErrAnd result (λ fault. (fault ≡ ProgramFault.Command Fault.CommandLine) ⊎ (fault ≡ ProgramFault.Command Fault.OutOfMemory)) }
    ensures mistake { kind_of said.now ≢ ErrorKind.OutOfMemory → kind_of said.now ≢ ErrorKind.DisplayHelp
        → kind_of said.now ≢ ErrorKind.DisplayVersion → result ≡ Err (ProgramFault.Command Fault.CommandLine) }
    ensures shown { (kind_of said.now ≡ ErrorKind.DisplayHelp)
        ⊎ (kind_of said.now ≡ ErrorKind.DisplayVersion) → IfErr result (λ fault. fault ≡ ProgramFault.Command Fault.Write) }
    ensures silent { OnOk result (Keeps (E.contents errors.old) (E.contents errors.new)) }
    ensures leaves { IfErr result (LeavesNothingBut (W.contents output.old) (W.contents output.new)) }
{
    match gi_table_commands::explain(alloc, said, output, errors) {
        Ok(()) => Ok(()),
        Err(fault) => Err(ProgramFault::from(fault)),
    }
}

fn point_out<E: Write>(mistake: Mistake<'_>, errors: &mut E) -> Result<(), ProgramFault>
    ensures { result ≡ Err (ProgramFault.Command Fault.CommandLine) }
{
    match gi_table_commands::point_out(mistake, errors) {
        Ok(()) => Ok(()),
        Err(fault) => Err(ProgramFault::from(fault)),
    }
}

/// What words ask for that ask for no name's meaning, as [`dispatch`] says.
fn dispatch_command<
    B: BookSource,
    S: AsStr,
    R: Read,
    W: Write,
    E: Write + IsTerminal,
    T: Threads + Wait + Clock + Copy + Send + Sync + 'static,
    V: Watch,
>(
    rt: &HostRuntime,
    threads: &T,
    watch: &mut V,
    books: &B,
    is_verbose: bool,
    words: &[S],
    input: &mut Remembered<R>,
    output: &mut Counted<W>,
    errors: &mut E,
) -> Result<(), ProgramFault>
    ensures done { objections (map S.text words.now) ≡ [] → OnOk result (
        DoesTask (B.gives books.now) (asked (map S.text words.now)) input.old output.old output.new) }
    ensures strict { objections (map S.text words.now) ≡ [] → is_strict (asked (map S.text words.now)) ≡ true
        → OnOk result (HoldsRefused output.new 0) }
    ensures first { objections (map S.text words.now) ≡ []
        → IfErr result (IsEndFault (B.gives books.now) (asked (map S.text words.now)) input.old output.new) }
    ensures leaves { objections (map S.text words.now) ≡ [] → IfErr result (
        LeavesEnd (B.gives books.now) (asked (map S.text words.now)) input.old output.old output.new) }
    ensures unread { objections (map S.text words.now) ≡ []
        → MayReadTask (asked (map S.text words.now)) input.old input.new }
    // A point that is no code is told whatever the file is.
    ensures code { objections (map S.text words.now) ≡ [] → NamesNoCode (asked (map S.text words.now))
        → IsErrAnd result (λ fault. (fault ≡ no_task_code) ⊎ (fault ≡ ProgramFault.Command Fault.OutOfMemory)) }
    ensures silent { OnOk result (Keeps (E.contents errors.old) (E.contents errors.new)) }
    ensures unread_where_refused { objections (map S.text words.now) ≢ []
        → Keeps input.old input.new }
    ensures nothing_where_refused { objections (map S.text words.now) ≢ []
        → IfErr result (LeavesNothingBut output.old output.new) }
    ensures taught { AsksForHelp (map S.text words.now) →
        IfErr result (λ fault. (fault ≡ ProgramFault.Command Fault.Write) ⊎ (fault ≡ ProgramFault.Command Fault.OutOfMemory)) }
    ensures mistaken { IsMistaken (map S.text words.now) →
        IsErrAnd result (λ fault. (fault ≡ ProgramFault.Command Fault.CommandLine) ⊎ (fault ≡ ProgramFault.Command Fault.OutOfMemory)) }
{
    match requested(rt.alloc(), words) {
        Ok(Task::AtOnce(Request::Mistaken(mistake))) => point_out(mistake, errors),
        Ok(task) => {
            let is_told = tells_places(is_verbose, errors);
            remember(rt.alloc(), is_told, &task, input);
            let done = perform_whole(rt, threads, watch, books, &task, input, output);
            told(rt, done, is_told, &task, input.remembered(), errors)
        }
        Err(said) => explain(rt.alloc(), &said, output, errors),
    }
}

/// Does what the words ask for, the first being the program's own name, and answers the fault, if
/// any. `help` with a name that the program prints asks for what that means, which [`gi_names::NAMES`]
/// tells. Of all other words, those in which `clap` objects to nothing ask for the command that they
/// name, or else for `match`. Books are read from `books`, by the names in the words, and those of `serve` are files. A
/// fault is one line on `errors` (a wrong command line has more words there). Where that is a terminal, and by `is_verbose`, a line behind
/// it tells where the fault is, if that is known, and on a terminal more lines tell what its name means. It is
/// nothing on `output`, unless memory runs out in a script's step, a running office gives up, books differ or
/// close no cycle, a book is not as expected, or a writer fails: that is `Write`, after all other faults but those five. `serve` and
/// `office`, which write as they go, end by it where their writer fails.
/// Behind all of these comes, of what is asked strictly, how many lines of the output tell a refusal, by a line of its own.
pub fn dispatch<
    B: BookSource,
    S: AsStr,
    R: Read,
    W: Write,
    E: Write + IsTerminal,
    T: Threads + Wait + Clock + Copy + Send + Sync + 'static,
    V: Watch,
>(
    rt: &HostRuntime,
    threads: &T,
    watch: &mut V,
    books: &B,
    is_verbose: bool,
    words: &[S],
    input: &mut Remembered<R>,
    output: &mut Counted<W>,
    errors: &mut E,
) -> Result<(), ProgramFault>
    ensures teaches { IfSome (taught_by (map S.text words.now)) (λ text. OnOk result (Appends output.old output.new text)) }
    ensures teaches_or_fails { IfSome (taught_by (map S.text words.now)) (λ text. IfErr result (λ fault. fault ≡ ProgramFault.Command Fault.Write)) }
    ensures teaches_unread { IfSome (taught_by (map S.text words.now)) (λ text. Keeps input.old input.new) }
    ensures done { taught_by (map S.text words.now) ≡ None → objections (map S.text words.now) ≡ [] → OnOk result (
        DoesTask (B.gives books.now) (asked (map S.text words.now)) input.old output.old output.new) }
    // Strictly none of the lines that were written tells a refusal.
    ensures strict { taught_by (map S.text words.now) ≡ None → objections (map S.text words.now) ≡ [] → is_strict (asked (map S.text words.now)) ≡ true
        → OnOk result (HoldsRefused output.new 0) }
    ensures first { taught_by (map S.text words.now) ≡ None → objections (map S.text words.now) ≡ []
        → IfErr result (IsEndFault (B.gives books.now) (asked (map S.text words.now)) input.old output.new) }
    ensures leaves { taught_by (map S.text words.now) ≡ None → objections (map S.text words.now) ≡ [] → IfErr result (
        LeavesEnd (B.gives books.now) (asked (map S.text words.now)) input.old output.old output.new) }
    ensures unread { taught_by (map S.text words.now) ≡ None → objections (map S.text words.now) ≡ []
        → MayReadTask (asked (map S.text words.now)) input.old input.new }
    // A point that is no code is told whatever the file is.
    ensures code { taught_by (map S.text words.now) ≡ None → objections (map S.text words.now) ≡ [] → NamesNoCode (asked (map S.text words.now))
        → IsErrAnd result (λ fault. (fault ≡ no_task_code) ⊎ (fault ≡ ProgramFault.Command Fault.OutOfMemory)) }
    ensures silent { OnOk result (Keeps (E.contents errors.old) (E.contents errors.new)) }
    ensures unread_where_refused { taught_by (map S.text words.now) ≡ None → objections (map S.text words.now) ≢ []
        → Keeps input.old input.new }
    ensures nothing_where_refused { taught_by (map S.text words.now) ≡ None → objections (map S.text words.now) ≢ []
        → IfErr result (LeavesNothingBut output.old output.new) }
    ensures taught { taught_by (map S.text words.now) ≡ None → AsksForHelp (map S.text words.now) →
        IfErr result (λ fault. (fault ≡ ProgramFault.Command Fault.Write) ⊎ (fault ≡ ProgramFault.Command Fault.OutOfMemory)) }
    ensures mistaken { taught_by (map S.text words.now) ≡ None → IsMistaken (map S.text words.now) →
        IsErrAnd result (λ fault. (fault ≡ ProgramFault.Command Fault.CommandLine) ⊎ (fault ≡ ProgramFault.Command Fault.OutOfMemory)) }
{
    match taught(words) {
        Some(entry) => reported(rt.alloc(), teach(entry, output), errors),
        None => dispatch_command(
            rt, threads, watch, books, is_verbose, words, input, output, errors,
        ),
    }
}
