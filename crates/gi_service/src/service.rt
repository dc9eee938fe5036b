ghost use Rattle.std.specs.Prelude.{◌≡◌, IfErr, IfOk, IfSome, Ok, OnErr, OnOk, true};
ghost use Rattle.std.specs.Io.KnownBytes.{Keeps};
ghost use Rattle.gi_service.specs.Copies.{AreCopies, HaveOnePastOf};
ghost use Rattle.gi_service.specs.Serving.{IsFilesFault, IsFirstServeFault, IsInputOf, IsScriptFault, IsServed, IsServedFrom, IsTextFault, IsUndone, LeavesServed, MayBeTold, Serves};

use crate::copies::InCopies;
use crate::places::{InFiles, InMemory};
use crate::program_fault::ProgramFault;
use crate::stations::served;
use gi_command_line::{Service, Sessions};
use gi_commands::{Fault, read_input};
use gi_script::{Script, read_office_script};
use gi_serving::{ServeFault, Watch};
use gi_store::StoreFault;
use gi_table_commands::Calls;
use std::alloc::Global;
use std::io::{Read, Write};
use std::sync::Wait;
use std::thread::Threads;

fn script_of<R: Read>(alloc: Global, input: &mut R) -> Result<Script, Fault>
    ensures script { IfOk result (λ script. IfSome (R.remaining input.old) (IsInputOf script)) }
    ensures fault { IfErr result (λ fault. IfSome (R.remaining input.old) (λ bytes. IsScriptFault bytes fault)) }
{
    let bytes = read_input(alloc, input, &mut Calls::none())?;
    Ok(read_office_script(alloc, bytes.as_slice())?)
}

/// How a script ended, and what came of closing the books that it was served over.
type Done = (Result<(), ServeFault>, Result<(), StoreFault>);

fn served_in_memory<T: Threads + Wait + Sync, V: Watch, O: Write>(
    threads: &T,
    watch: &mut V,
    alloc: Global,
    script: &Script,
    sessions: Sessions,
    output: &mut O,
) -> Result<Done, Fault>
    ensures served { IfOk result (λ done. IsServedFrom sessions script.now (O.contents output.old) (O.contents output.new) done.0) }
    ensures none { IfOk result (λ done. done.1 ≡ Ok tt) }
    ensures unwritten { OnErr result (Keeps (O.contents output.old) (O.contents output.new)) }
    ensures fault { IfErr result (IsFilesFault script.now.point) }
{
    let point = script.point();
    let place = InMemory { alloc, point };
    match served(threads, watch, alloc, script, sessions, &place, output) {
        Ok(end) => Ok((end, Ok(()))),
        Err(fault) => Err(fault),
    }
}

/// Serves a script over copies: by what it is given no file is opened.
fn served_in_copies<T: Threads + Wait + Sync, V: Watch, O: Write>(
    threads: &T,
    watch: &mut V,
    alloc: Global,
    script: &Script,
    sessions: Sessions,
    copies: &InCopies,
    output: &mut O,
) -> Result<Done, Fault>
    ensures served { IfOk result (λ done. IsServedFrom sessions script.now (O.contents output.old) (O.contents output.new) done.0) }
    ensures copies { IfOk result (λ done. HaveOnePastOf copies.now.initiating.facts copies.now.matching.facts script.now.point) }
    ensures none { IfOk result (λ done. done.1 ≡ Ok tt) }
    ensures unwritten { OnErr result (Keeps (O.contents output.old) (O.contents output.new)) }
    ensures fault { IfErr result (IsFilesFault script.now.point) }
{
    match served(threads, watch, alloc, script, sessions, copies, output) {
        Ok(end) => Ok((end, Ok(()))),
        Err(fault) => Err(fault),
    }
}

fn served_in_files<T: Threads + Wait + Sync, V: Watch, O: Write>(
    rt: &HostRuntime,
    threads: &T,
    watch: &mut V,
    script: &Script,
    service: &Service<'_>,
    prefix: &str,
    output: &mut O,
) -> Result<Done, Fault>
    ensures served { IfOk result (λ done. IsServedFrom service.now.sessions script.now (O.contents output.old) (O.contents output.new) done.0) }
    ensures unwritten { OnErr result (Keeps (O.contents output.old) (O.contents output.new)) }
    ensures fault { IfErr result (IsFilesFault script.now.point) }
{
    let place = InFiles::at(rt, prefix, script.point(), service.wait, service.only_old)?;
    match served(
        threads,
        watch,
        rt.alloc(),
        script,
        service.sessions,
        &place,
        output,
    ) {
        // (a book that failed is left as it is: to close it would begin its log anew)
        Ok(end) => match &end {
            Ok(()) | Err(ServeFault::Write) => Ok((end, place.close())),
            Err(_) => Ok((end, Ok(()))),
        },
        Err(fault) => Err(fault),
    }
}

/// Serves a script over the books that are asked for.
fn served_over_books<T: Threads + Wait + Sync, V: Watch, O: Write>(
    rt: &HostRuntime,
    threads: &T,
    watch: &mut V,
    script: &Script,
    service: &Service<'_>,
    output: &mut O,
) -> Result<Done, Fault>
    ensures served { IfOk result (λ done. IsServedFrom service.now.sessions script.now (O.contents output.old) (O.contents output.new) done.0) }
    ensures copies { IfOk result (λ done. service.now.dry_run ≡ true → IfSome service.now.books (λ prefix. AreCopies script.now.point)) }
    ensures dry { IfOk result (λ done. service.now.dry_run ≡ true → done.1 ≡ Ok tt) }
    ensures unwritten { OnErr result (Keeps (O.contents output.old) (O.contents output.new)) }
    ensures fault { IfErr result (IsFilesFault script.now.point) }
{
    match service.books {
        None => served_in_memory(threads, watch, rt.alloc(), script, service.sessions, output),
        Some(prefix) if service.dry_run => {
            let copies = InCopies::of(rt, prefix, script.point(), service.only_old)?;
            let (alloc, sessions) = (rt.alloc(), service.sessions);
            let done = served_in_copies(threads, watch, alloc, script, sessions, &copies, output);
            // (handed to drop, by one call: going out of scope here would be checked field by field on each way out)
            drop(copies);
            done
        }
        Some(prefix) => served_in_files(rt, threads, watch, script, service, prefix, output),
    }
}

#[tactic(auto, using(crate::proofs::Told::served_of))]
fn script_served<R: Read, T: Threads + Wait + Sync, V: Watch, O: Write>(
    rt: &HostRuntime,
    threads: &T,
    watch: &mut V,
    service: &Service<'_>,
    input: &mut R,
    output: &mut O,
) -> Result<Done, Fault>
    ensures served { IfOk result (λ done. IfSome (R.remaining input.old) (λ bytes.
        IsServed service.now.sessions bytes (O.contents output.old) (O.contents output.new) done.0)) }
    ensures dry { IfOk result (λ done. service.now.dry_run ≡ true → done.1 ≡ Ok tt) }
    ensures unwritten { OnErr result (Keeps (O.contents output.old) (O.contents output.new)) }
    ensures fault { IfErr result (λ fault. IfSome (R.remaining input.old) (λ bytes. IsTextFault bytes fault)) }
{
    let script = script_of(rt.alloc(), input)?;
    served_over_books(rt, threads, watch, &script, service, output)
}

fn ended(done: Done) -> Result<(), ProgramFault>
    ensures whole { OnOk result (done.0 ≡ Ok tt) }
    ensures closed { OnOk result (done.1 ≡ Ok tt) }
    ensures fault { IfErr result (IsUndone done.0 done.1) }
{
    let (end, closed) = done;
    match end {
        Ok(()) => {}
        Err(ServeFault::Write) => return Err(ProgramFault::Command(Fault::Write)),
        Err(fault) => return Err(ProgramFault::Served(fault)),
    }
    match closed {
        Ok(()) => Ok(()),
        Err(fault) => Err(ProgramFault::Closed(fault)),
    }
}

/// Runs both offices by the script on the input, each with so many sessions, over the books in the
/// files whose names begin so, else in memory, and writes what is told of each batch and each other line once it
/// is saved. Books in files are closed then, but after a fault of the run, so that each file alone is the whole book. In a dry
/// run the books are copies in memory of those in files, which stay as they are. The faults come in this order: those of reading the input and the script; `MissingBook`, and what is told of
/// copies of the two books; those of the initiating side's book, and then of the matching side's; `TwoPasts`;
/// `Write`, or what ended the run, whichever came first; and what kept a book from being closed. Where a writer
/// fails no further line is made, and what was made before is saved. The watch is told how far it is.
pub fn serve_script<R: Read, W: Write, T: Threads + Wait + Sync, V: Watch>(
    rt: &HostRuntime,
    threads: &T,
    watch: &mut V,
    service: &Service<'_>,
    input: &mut R,
    output: &mut W,
) -> Result<(), ProgramFault>
    ensures done { OnOk result (IfSome (R.remaining input.old) (λ bytes.
        Serves service.now.sessions bytes (W.contents output.old) (W.contents output.new))) }
    ensures first { IfErr result (λ fault. IfSome (R.remaining input.old) (λ bytes.
        IsFirstServeFault service.now.sessions bytes fault)) }
    ensures dry { IfErr result (MayBeTold service.now.dry_run) }
    ensures leaves { IfErr result (LeavesServed service.now.sessions (R.remaining input.old) (W.contents output.old) (W.contents output.new)) }
{
    match script_served(rt, threads, watch, service, input, output) {
        Ok(done) => ended(done),
        Err(fault) => Err(ProgramFault::Command(fault)),
    }
}
