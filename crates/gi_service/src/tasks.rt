ghost use Rattle.std.specs.Prelude.{◌≡◌, IfErr, OnOk, Err, true};
ghost use Rattle.gi_command_line.specs.Asked.{is_strict, task_meaning};
ghost use Rattle.gi_service.specs.Tasks.{DoesTask, HoldsRefused, IsEndFault, IsStrictFault, IsTaskFault, LeavesEnd, LeavesTask, MayReadTask, NamesNoCode, no_task_code};

use crate::living::run_office;
use crate::program_fault::ProgramFault;
use crate::service::serve_script;
use gi_command_line::Task;
use gi_commands::perform;
use gi_refusals::Counted;
use gi_serving::Watch;
use gi_store::BookSource;
use std::io::{Read, Write};
use std::sync::Wait;
use std::thread::Threads;
use std::time::Clock;

/// Does what a command line asks for, and answers the fault, if any: see `perform`,
/// `serve_script` and `run_office`. All but `serve` and `office` read books from `books`.
pub fn perform_task<
    B: BookSource,
    R: Read,
    W: Write,
    T: Threads + Wait + Clock + Copy + Send + Sync + 'static,
    V: Watch,
>(
    rt: &HostRuntime,
    threads: &T,
    watch: &mut V,
    books: &B,
    task: &Task<'_>,
    input: &mut R,
    output: &mut W,
) -> Result<(), ProgramFault>
    ensures done { OnOk result (DoesTask (B.gives books.now) (task_meaning task.now) (R.remaining input.old) (W.contents output.old) (W.contents output.new)) }
    ensures first { IfErr result (IsTaskFault (B.gives books.now) (task_meaning task.now) (R.remaining input.old)) }
    ensures leaves { IfErr result (LeavesTask (B.gives books.now) (task_meaning task.now) (R.remaining input.old) (W.contents output.old) (W.contents output.new)) }
    ensures unread { MayReadTask (task_meaning task.now) (R.remaining input.old) (R.remaining input.new) }
    ensures code { NamesNoCode (task_meaning task.now) → result ≡ Err no_task_code }
{
    match task {
        Task::AtOnce(request) => match perform(
            rt.alloc(),
            threads,
            books,
            *request,
            input,
            output,
        ) {
            Ok(()) => Ok(()),
            Err(fault) => Err(ProgramFault::Command(fault)),
        },
        Task::Serve(service) => serve_script(rt, threads, watch, service, input, output),
        Task::Office(run) => run_office(rt, threads, run, input, output),
    }
}

/// What was done ends well, but what is asked strictly only where no step was refused.
fn ended<W: Write>(task: &Task<'_>, output: &Counted<W>) -> Result<(), ProgramFault>
    ensures none { OnOk result (is_strict (task_meaning task.now) ≡ true → HoldsRefused output.now 0) }
    ensures some { IfErr result (IsStrictFault (task_meaning task.now) output.now) }
{
    let refused = output.refused();
    if task.is_strict() && refused > 0 {
        Err(ProgramFault::Refused(refused))
    } else {
        Ok(())
    }
}

/// Does what a command line asks for, and answers the fault, if any: see `perform_task`. Behind all
/// other faults comes, of what is asked strictly, that lines of the output tell a refusal, and how many.
pub fn perform_whole<
    B: BookSource,
    R: Read,
    W: Write,
    T: Threads + Wait + Clock + Copy + Send + Sync + 'static,
    V: Watch,
>(
    rt: &HostRuntime,
    threads: &T,
    watch: &mut V,
    books: &B,
    task: &Task<'_>,
    input: &mut R,
    output: &mut Counted<W>,
) -> Result<(), ProgramFault>
    ensures done { OnOk result (DoesTask (B.gives books.now) (task_meaning task.now) (R.remaining input.old) output.old output.new) }
    ensures strict { OnOk result (is_strict (task_meaning task.now) ≡ true → HoldsRefused output.new 0) }
    ensures first { IfErr result (IsEndFault (B.gives books.now) (task_meaning task.now) (R.remaining input.old) output.new) }
    ensures leaves { IfErr result (LeavesEnd (B.gives books.now) (task_meaning task.now) (R.remaining input.old) output.old output.new) }
    ensures unread { MayReadTask (task_meaning task.now) (R.remaining input.old) (R.remaining input.new) }
    ensures code { NamesNoCode (task_meaning task.now) → result ≡ Err no_task_code }
{
    match perform_task(rt, threads, watch, books, task, input, output) {
        Ok(()) => ended(task, output),
        Err(fault) => Err(fault),
    }
}
