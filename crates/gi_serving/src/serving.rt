//! A script, served by both offices.

ghost use Rattle.std.specs.Prelude.{◌≡◌, ◌≤◌, ◌<◌, ◌+◌, Err, IfErr, IfOk, Ok, OnOk, false, is_none, length, max, string_bytes};
ghost use Rattle.sqlite.specs.Held.{state};
ghost use Rattle.gi_store.specs.Book.{IsRead, counted};
ghost use Rattle.gi_store.specs.Clean.{IsClean};
ghost use Rattle.gi_serving.specs.Asking.{EndsAtLast};
ghost use Rattle.gi_serving.specs.Batches.{submission as submission_in};
ghost use Rattle.gi_pairs.specs.declared.side.Side.TheVariants.{I, M};
ghost use Rattle.gi_serving.specs.Ending.{AreSamePlaces, Closes, Ends, IsCut, IsEarly, IsTold, LeavesNothing, LeavesRun};
ghost use Rattle.gi_serving.specs.Faulting.{BothGoWell, IsOfTurns, TellsTurns};
ghost use Rattle.gi_office.specs.Saving.{TakesTurn};
ghost use Rattle.gi_serving.specs.Making.{MakesFirst, SavesFirst, WritesFirst, WritesTo, new_offices, offices_of};
ghost use Rattle.gi_serving.specs.Runs.{lead};

use crate::both::Both;
use crate::closing::Closed;
use crate::pieces::submission;
use crate::serve_fault::ServeFault;
use crate::station::Station;
use crate::telling::write;
use crate::turns::Turns;
use crate::watch::Watch;
use gi_desk::Desk;
use gi_initiator::Initiating;
use gi_matcher::Matching;
use gi_script::{Line, Script};
use gi_store::BookStore;
use sqlite::Alter;
use std::alloc::Global;
use std::io::Write;
use std::marker::Brand;
use std::sync::Wait;
use std::sync::ledger::{Blank, Ledger};
use std::thread::Threads;

fn is_single(line: &Line) -> bool
    ensures { result ≡ is_none (submission_in line.now.instruction) }
{
    submission(line).is_none()
}

fn batch_length(lines: &[Line]) -> usize
    ensures counted { result ≡ lead lines.now }
    ensures within { result ≤ length lines.now }
{
    for i in 0..lines.len() {
        if is_single(&lines[i]) {
            return i;
        }
    }
    lines.len()
}

#[tactic(auto, using(crate::proofs::Walking::first_batch))]
fn made<
    L: Ledger + Send + Sync,
    K: Ledger + Send + Sync,
    B: Turns + Drop + Send,
    C: Turns + Drop + Send,
    T: Threads + Wait + Sync,
>(rt: &T, both: &mut Both<L, K, B, C>, lines: &[Line], batch: usize) -> Result<String, ServeFault>
    requires some { 0 < length lines.now }
    requires batch { batch ≡ lead lines.now }
    requires within { batch ≤ length lines.now }
    requires ours { length both.old.initiating.seats.items ≡ both.old.sessions + 1 }
    requires theirs { length both.old.matching.seats.items ≡ both.old.sessions + 1 }
    ensures sessions { both.new.sessions ≡ both.old.sessions }
    ensures ours { OnOk result (AreSamePlaces both.old.initiating.seats.items both.new.initiating.seats.items) }
    ensures theirs { OnOk result (AreSamePlaces both.old.matching.seats.items both.new.matching.seats.items) }
    ensures made { IfOk result (λ text. MakesFirst both.old.sessions lines.now (max batch 1)
        (offices_of both.old.initiating both.old.matching) (string_bytes text) (offices_of both.new.initiating both.new.matching)) }
    ensures cut { IfErr result (λ fault. IsCut (Err fault)) }
    ensures well { OnOk result (BothGoWell (B.takes I) (C.takes M) both.old.initiating.book both.old.matching.book both.new.initiating.book both.new.matching.book) }
    ensures tells { IfErr result (TellsTurns (B.takes I) (C.takes M) both.old.initiating.book both.old.matching.book both.new.initiating.book both.new.matching.book) }
{
    if batch == 0 {
        both.line(rt, &lines[0])
    } else {
        both.batch(rt, &lines[..batch])
    }
}

/// Makes the first piece, saves what it recorded, and sends what was let out.
fn made_and_saved<
    L: Ledger + Send + Sync,
    K: Ledger + Send + Sync,
    B: Turns + Drop + Send,
    C: Turns + Drop + Send,
    T: Threads + Wait + Sync,
>(rt: &T, both: &mut Both<L, K, B, C>, lines: &[Line], batch: usize) -> Result<String, ServeFault>
    requires some { 0 < length lines.now }
    requires batch { batch ≡ lead lines.now }
    requires within { batch ≤ length lines.now }
    requires ours { length both.old.initiating.seats.items ≡ both.old.sessions + 1 }
    requires theirs { length both.old.matching.seats.items ≡ both.old.sessions + 1 }
    ensures sessions { both.new.sessions ≡ both.old.sessions }
    ensures ours { OnOk result (AreSamePlaces both.old.initiating.seats.items both.new.initiating.seats.items) }
    ensures theirs { OnOk result (AreSamePlaces both.old.matching.seats.items both.new.matching.seats.items) }
    ensures made { IfOk result (λ text. SavesFirst both.old.sessions lines.now (max batch 1)
        (offices_of both.old.initiating both.old.matching) (string_bytes text) (offices_of both.new.initiating both.new.matching)) }
    ensures cut { IfErr result (λ fault. IsCut (Err fault)) }
    ensures well { OnOk result (BothGoWell (B.takes I) (C.takes M) both.old.initiating.book both.old.matching.book both.new.initiating.book both.new.matching.book) }
    ensures tells { IfErr result (TellsTurns (B.takes I) (C.takes M) both.old.initiating.book both.old.matching.book both.new.initiating.book both.new.matching.book) }

    // Each office's turns ended with one that saved nothing: so all that the piece recorded is saved.
    ensures ends { OnOk result (EndsAtLast (B.takes I) both.new.initiating.book (Ok tt) both.new.initiating.seats.items) }
    ensures peer_ends { OnOk result (EndsAtLast (C.takes M) both.new.matching.book (Ok tt) both.new.matching.seats.items) }
{
    let said = match made(rt, both, lines, batch) {
        Ok(said) => said,
        Err(fault) => return Err(fault),
    };
    match both.turns(rt) {
        Ok(()) => Ok(said),
        Err(fault) => Err(fault),
    }
}

/// Makes the first piece, saves what it recorded, sends what was let out, and writes its lines.
fn step<
    L: Ledger + Send + Sync,
    K: Ledger + Send + Sync,
    B: Turns + Drop + Send,
    C: Turns + Drop + Send,
    T: Threads + Wait + Sync,
    O: Write,
>(
    rt: &T,
    both: &mut Both<L, K, B, C>,
    lines: &[Line],
    batch: usize,
    output: &mut O,
) -> Result<(), ServeFault>
    requires some { 0 < length lines.now }
    requires batch { batch ≡ lead lines.now }
    requires within { batch ≤ length lines.now }
    requires ours { length both.old.initiating.seats.items ≡ both.old.sessions + 1 }
    requires theirs { length both.old.matching.seats.items ≡ both.old.sessions + 1 }
    ensures sessions { both.new.sessions ≡ both.old.sessions }
    ensures ours { OnOk result (AreSamePlaces both.old.initiating.seats.items both.new.initiating.seats.items) }
    ensures theirs { OnOk result (AreSamePlaces both.old.matching.seats.items both.new.matching.seats.items) }
    ensures made { OnOk result (WritesFirst both.old.sessions lines.now (max batch 1)
        (offices_of both.old.initiating both.old.matching) (O.contents output.old) (O.contents output.new) (offices_of both.new.initiating both.new.matching)) }
    ensures leaves { IfErr result (LeavesNothing (O.contents output.old) (O.contents output.new)) }
    ensures early { IfErr result (λ fault. IsEarly (Err fault)) }
    ensures well { OnOk result (BothGoWell (B.takes I) (C.takes M) both.old.initiating.book both.old.matching.book both.new.initiating.book both.new.matching.book) }
    ensures tells { IfErr result (TellsTurns (B.takes I) (C.takes M) both.old.initiating.book both.old.matching.book both.new.initiating.book both.new.matching.book) }

    // Each office's turns ended with one that saved nothing: so all that the piece recorded is saved before it is told of.
    ensures ends { OnOk result (EndsAtLast (B.takes I) both.new.initiating.book (Ok tt) both.new.initiating.seats.items) }
    ensures peer_ends { OnOk result (EndsAtLast (C.takes M) both.new.matching.book (Ok tt) both.new.matching.seats.items) }
{
    let said = match made_and_saved(rt, both, lines, batch) {
        Ok(said) => said,
        Err(fault) => return Err(fault),
    };
    write(output, said.as_bytes())
}

fn run<
    L: Ledger + Send + Sync,
    K: Ledger + Send + Sync,
    B: Turns + Drop + Send,
    C: Turns + Drop + Send,
    T: Threads + Wait + Sync,
    V: Watch,
    O: Write,
>(
    rt: &T,
    both: &mut Both<L, K, B, C>,
    lines: &[Line],
    watch: &mut V,
    output: &mut O,
) -> Result<(), ServeFault>
    requires begun { V.told watch.old ≡ 0 }
    requires counted { V.whole watch.old ≡ length lines.now }
    requires ours { length both.old.initiating.seats.items ≡ both.old.sessions + 1 }
    requires theirs { length both.old.matching.seats.items ≡ both.old.sessions + 1 }
    ensures sessions { both.new.sessions ≡ both.old.sessions }
    ensures ours { OnOk result (AreSamePlaces both.old.initiating.seats.items both.new.initiating.seats.items) }
    ensures theirs { OnOk result (AreSamePlaces both.old.matching.seats.items both.new.matching.seats.items) }
    ensures whole { OnOk result (WritesTo both.old.sessions lines.now (length lines.now)
        (offices_of both.old.initiating both.old.matching) (O.contents output.old) (O.contents output.new) (offices_of both.new.initiating both.new.matching)) }
    ensures leaves { IfErr result (LeavesRun both.old.sessions lines.now (V.told watch.new)
        (offices_of both.old.initiating both.old.matching) (O.contents output.old) (O.contents output.new)) }
    ensures early { IfErr result (λ fault. IsEarly (Err fault)) }
    ensures well { OnOk result (BothGoWell (B.takes I) (C.takes M) both.old.initiating.book both.old.matching.book both.new.initiating.book both.new.matching.book) }
    ensures tells { IfErr result (TellsTurns (B.takes I) (C.takes M) both.old.initiating.book both.old.matching.book both.new.initiating.book both.new.matching.book) }
    ensures left { IfErr result (λ fault. V.told watch.new < length lines.now) }
    ensures over { OnOk result (V.told watch.new ≡ length lines.now) }
    ensures counted { V.whole watch.new ≡ length lines.now }
{
    let mut at = 0;
    while at < lines.len() {
        let left = &lines[at..];
        let batch = batch_length(left);
        if let Err(fault) = step(rt, both, left, batch, output) {
            return Err(fault);
        }
        at += batch.max(1);
        watch.made(at, lines.len());
    }
    Ok(())
}

fn told<O: Write>(output: &mut O, closed: Closed) -> Result<(), ServeFault>
    ensures { IsTold (O.contents output.old) (string_bytes closed.text) closed.end (O.contents output.new) result }
{
    let Closed { text: last, end } = closed;
    match write(output, last.as_bytes()) {
        Ok(()) => end,
        Err(unwritten) => Err(unwritten),
    }
}

fn closed<L: Ledger, K: Ledger, B: Turns + Drop, C: Turns + Drop, O: Write>(
    both: Both<L, K, B, C>,
    output: &mut O,
) -> Result<(), ServeFault>
    ensures { Closes L.parts K.parts both.sessions (offices_of both.initiating both.matching) (O.contents output.old) (O.contents output.new) result }
{
    match both.close() {
        Ok(closed) => told(output, closed),
        Err(_) => Err(ServeFault::OutOfMemory),
    }
}

fn end_of<
    L: Ledger + Send + Sync,
    K: Ledger + Send + Sync,
    B: Turns + Drop + Send,
    C: Turns + Drop + Send,
    T: Threads + Wait + Sync,
    V: Watch,
    O: Write,
>(
    rt: &T,
    both: Both<L, K, B, C>,
    lines: &[Line],
    watch: &mut V,
    output: &mut O,
) -> Result<(), ServeFault>
    requires begun { V.told watch.old ≡ 0 }
    requires counted { V.whole watch.old ≡ length lines.now }
    requires parts { L.parts ≡ 16 }
    requires peer_parts { K.parts ≡ 16 }
    requires new { offices_of both.initiating both.matching ≡ new_offices both.sessions }
    ensures ends { Ends both.sessions lines.now (V.told watch.new) (O.contents output.old) (O.contents output.new) result }
    ensures all { ¬ IsEarly result → V.told watch.new ≡ length lines.now }
    ensures counted { V.whole watch.new ≡ length lines.now }

    // The fault of a turn is one by which a turn ended.
    ensures turn { IfErr result (IsOfTurns (B.takes I) (C.takes M) both.initiating.book both.matching.book) }
{
    let mut both = both;
    match run(rt, &mut both, lines, watch, output) {
        Ok(()) => closed(both, output),
        // (handed to drop, by one call: going out of scope here would be checked field by field on each way out)
        Err(fault) => {
            drop(both);
            Err(fault)
        }
    }
}

/// Over two ledgers and two types of book, so that here and below a seat or a book of one office is of
/// another type than the other's.
fn serve_by<
    L: Ledger + Send + Sync,
    K: Ledger + Send + Sync,
    B: Turns + Drop + Send,
    C: Turns + Drop + Send,
    T: Threads + Wait + Sync,
    V: Watch,
    O: Write,
>(
    rt: &T,
    sessions: u8,
    initiating: Station<Initiating, B>,
    matching: Station<Matching, C>,
    lines: &[Line],
    watch: &mut V,
    output: &mut O,
) -> Result<(), ServeFault>
    requires begun { V.told watch.old ≡ 0 }
    requires counted { V.whole watch.old ≡ length lines.now }
    requires some { 1 ≤ sessions }
    requires few { sessions < 16 }
    requires name { initiating.blank.name ≡ L.name }
    requires whole { initiating.blank.parts ≡ L.parts }
    requires parts { initiating.blank.parts ≡ 16 }
    requires saved { initiating.desk.saved ≡ length initiating.desk.facts }
    requires runs { initiating.desk.halted ≡ false }
    requires book { B.holds initiating.book initiating.desk.facts }
    requires peer_name { matching.blank.name ≡ K.name }
    requires peer_whole { matching.blank.parts ≡ K.parts }
    requires peer_parts { matching.blank.parts ≡ 16 }
    requires peer_saved { matching.desk.saved ≡ length matching.desk.facts }
    requires peer_runs { matching.desk.halted ≡ false }
    requires peer_book { C.holds matching.book matching.desk.facts }
    ensures ends { Ends sessions lines.now (V.told watch.new) (O.contents output.old) (O.contents output.new) result }
    ensures all { ¬ IsEarly result → V.told watch.new ≡ length lines.now }
    ensures counted { V.whole watch.new ≡ length lines.now }
    ensures turn { IfErr result (IsOfTurns (B.takes I) (C.takes M) initiating.book matching.book) }
{
    match Both::<L, K, B, C>::open(sessions, initiating, matching) {
        Ok(both) => end_of(rt, both, lines, watch, output),
        Err(_) => Err(ServeFault::OutOfMemory),
    }
}

/// Serves a script by both offices, each with so many sessions, from 1 to 15, from desks of its point that
/// are not halted and whose facts are all saved, and their books, which are loaded and have these facts. The
/// lines of each batch and of each other line are written once what it recorded is saved, and at the end the
/// last lines of both offices, handed all their seats. Where a turn that saves answers a fault, or memory
/// runs out, that is the end, a turn's fault before want of memory, and the lines of what was done before are
/// written; so is `Write`, where the writer fails, and no further line is made then. The watch is told after
/// each batch and each other line how many lines are made and written, of how many: of a run that came to its
/// end, all.
pub fn serve<S: Alter + Drop + Send, T: Threads + Wait + Sync, V: Watch, O: Write>(
    rt: &T,
    alloc: Global,
    script: &Script,
    sessions: u8,
    initiating: (Desk<Initiating>, BookStore<S>),
    matching: (Desk<Matching>, BookStore<S>),
    watch: &mut V,
    output: &mut O,
) -> Result<(), ServeFault>
    requires some { 1 ≤ sessions }
    requires few { sessions < 16 }
    requires point { initiating.0.point ≡ script.now.point }
    requires saved { initiating.0.saved ≡ length initiating.0.facts }
    requires runs { initiating.0.halted ≡ false }
    requires loaded { initiating.1.loaded ≡ counted (length initiating.0.facts) }
    requires facts { IsClean S.Store initiating.1.connection → IsRead (state S.Store initiating.1.connection) initiating.0.facts }
    requires peer_point { matching.0.point ≡ script.now.point }
    requires peer_saved { matching.0.saved ≡ length matching.0.facts }
    requires peer_runs { matching.0.halted ≡ false }
    requires peer_loaded { matching.1.loaded ≡ counted (length matching.0.facts) }
    requires peer_facts { IsClean S.Store matching.1.connection → IsRead (state S.Store matching.1.connection) matching.0.facts }
    ensures ends { Ends sessions script.now.lines (V.told watch.new) (O.contents output.old) (O.contents output.new) result }
    ensures all { ¬ IsEarly result → V.told watch.new ≡ length script.now.lines }
    ensures counted { V.whole watch.new ≡ length script.now.lines }

    // The fault of a turn is one by which a turn can end, after turns that went well, from the books as they were handed over.
    ensures turn { IfErr result (IsOfTurns (TakesTurn I S.Store) (TakesTurn M S.Store) initiating.1 matching.1) }
{
    let lines = script.lines();
    watch.made(0, lines.len());
    let (desk, book) = initiating;
    let initiating = Station {
        alloc,
        blank: Blank::new(16),
        desk,
        book,
    };
    let (desk, book) = matching;
    let matching = Station {
        alloc,
        blank: Blank::new(16),
        desk,
        book,
    };
    let end = serve_by::<Brand, Brand, BookStore<S>, BookStore<S>, T, V, O>(
        rt, sessions, initiating, matching, lines, watch, output,
    );
    watch.ended();
    end
}
