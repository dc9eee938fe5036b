//! The program that has the commands on tables and days alone, from its words to its bytes.

ghost use Rattle.std.specs.Prelude.{◌≡◌, ◌≢◌, ◌⊎◌, [], IfErr, IsErrAnd, OnOk, Err, map};
ghost use Rattle.std.specs.Io.KnownBytes.{Keeps};
ghost use Rattle.gi_command_line.specs.Asked.{task_meaning};
ghost use Rattle.gi_command_line.specs.CommandLine.{AsksForHelp, IsMistaken, asked, objections};
ghost use Rattle.gi_table_commands.specs.Leaving.{LeavesNothing};
ghost use Rattle.gi_table_commands.specs.Tables.{DoesTables, IsTablesFault, MayReadTables};

use crate::commands::{match_tables, tell_hours};
use crate::fault::Fault;
use crate::said::{explain, point_out, reported};
use gi_command_line::{Request, Task, requested};
use std::alloc::Global;
use std::convert::AsStr;
use std::io::{IsTerminal, Read, Write};
use std::thread::Threads;

/// Tells which program has a command that this one has not.
fn refer<E: Write>(errors: &mut E) -> Result<(), Fault>
    ensures { result ≡ Err Fault.CommandLine }
{
    let _ = write!(
        errors,
        "error: gi_match has the commands 'match' and 'hours' alone; gi_dispatch has this one\n"
    );
    Err(Fault::CommandLine)
}

fn perform_tables<R: Read, W: Write, E: Write + IsTerminal>(
    threads: &(impl Threads + Sync),
    alloc: Global,
    task: Task<'_>,
    input: &mut R,
    output: &mut W,
    errors: &mut E,
) -> Result<(), Fault>
    ensures done { OnOk result (
        DoesTables (task_meaning task.entry) (R.remaining input.old) (W.contents output.old) (W.contents output.new)) }
    ensures first { IfErr result (IsTablesFault (task_meaning task.entry) (R.remaining input.old)) }
    ensures leaves { IfErr result (LeavesNothing (W.contents output.old) (W.contents output.new)) }
    ensures unread { MayReadTables (task_meaning task.entry) (R.remaining input.old) (R.remaining input.new) }
    ensures silent { OnOk result (Keeps (E.contents errors.old) (E.contents errors.new)) }
{
    match task {
        Task::AtOnce(Request::Match) => {
            reported(alloc, match_tables(threads, alloc, input, output), errors)
        }
        Task::AtOnce(Request::Hours(day)) => {
            reported(alloc, tell_hours(alloc, day, output), errors)
        }
        Task::AtOnce(Request::Mistaken(mistake)) => point_out(mistake, errors),
        Task::AtOnce(_) => refer(errors),
        Task::Office(_) => refer(errors),
        Task::Serve(_) => refer(errors),
    }
}

/// Does what the words ask for, the first being the program's own name, and answers the fault, if
/// any, as the whole program does. Words in which `clap` objects to nothing ask for the command that
/// they name, or else for `match`. A command other than `match` and `hours` is a wrong command line.
/// A fault is one line on `errors`, and what it means behind it where that is a terminal (a wrong command line has more words there),
/// and nothing on `output`, unless a writer fails: that is `Write`, after all other faults.
pub fn dispatch_tables<S: AsStr, R: Read, W: Write, E: Write + IsTerminal>(
    threads: &(impl Threads + Sync),
    alloc: Global,
    words: &[S],
    input: &mut R,
    output: &mut W,
    errors: &mut E,
) -> Result<(), Fault>
    ensures done { objections (map S.text words.now) ≡ [] → OnOk result (
        DoesTables (asked (map S.text words.now)) (R.remaining input.old) (W.contents output.old) (W.contents output.new)) }
    ensures first { objections (map S.text words.now) ≡ []
        → IfErr result (IsTablesFault (asked (map S.text words.now)) (R.remaining input.old)) }
    ensures leaves { IfErr result (LeavesNothing (W.contents output.old) (W.contents output.new)) }
    ensures unread { objections (map S.text words.now) ≡ []
        → MayReadTables (asked (map S.text words.now)) (R.remaining input.old) (R.remaining input.new) }
    ensures silent { OnOk result (Keeps (E.contents errors.old) (E.contents errors.new)) }
    ensures unread_where_refused { objections (map S.text words.now) ≢ []
        → Keeps (R.remaining input.old) (R.remaining input.new) }
    ensures taught { AsksForHelp (map S.text words.now) →
        IfErr result (λ fault. (fault ≡ Fault.Write) ⊎ (fault ≡ Fault.OutOfMemory)) }
    ensures mistaken { IsMistaken (map S.text words.now) →
        IsErrAnd result (λ fault. (fault ≡ Fault.CommandLine) ⊎ (fault ≡ Fault.OutOfMemory)) }
{
    match requested(alloc, words) {
        Ok(task) => perform_tables(threads, alloc, task, input, output, errors),
        Err(said) => explain(alloc, &said, output, errors),
    }
}
