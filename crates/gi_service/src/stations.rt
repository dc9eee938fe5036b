//! What each side of two running offices begins with: its desk, replayed from its book.

ghost use Rattle.std.specs.Prelude.{◌≡◌, [], IfErr, IfOk, OnErr, OnOk, false, length};
ghost use Rattle.std.specs.Io.KnownBytes.{Keeps};
ghost use Rattle.sqlite.specs.Held.{state};
ghost use Rattle.gi_store.specs.Book.{IsRead, counted};
ghost use Rattle.gi_store.specs.Clean.{IsClean};
ghost use Rattle.gi_pairs.specs.declared.side.Side.TheVariants.{I, M};
ghost use Rattle.gi_audit.specs.Agreeing.{Agree};
ghost use Rattle.gi_commands.specs.Reporting.{desk_of};
ghost use Rattle.gi_service.specs.KeptFrom.{IsKeptFrom};
ghost use Rattle.gi_service.specs.Opening.{IsFirstSideFault, IsSideFault};
ghost use Rattle.gi_service.specs.Pasts.{HaveOnePast, IsPastFault};
ghost use Rattle.gi_service.specs.Serving.{IsBooksFault, IsServedFrom};
ghost use Rattle.gi_service.specs.Stations.{IsStationFault};

use crate::places::Place;
use gi_audit::{Audited, Verdict, audit};
use gi_command_line::Sessions;
use gi_commands::{Fault, replayed};
use gi_desk::{Desk, Fact, Role};
use gi_initiator::Initiating;
use gi_matcher::Matching;
use gi_pairs::Code;
use gi_script::Script;
use gi_serving::{ServeFault, Watch, serve};
use gi_store::BookStore;
use sqlite::Alter;
use std::alloc::Global;
use std::io::Write;
use std::sync::Wait;
use std::thread::Threads;

/// The desk of a side, and the book that it is replayed from.
pub(crate) fn station<R: Role, P: Place>(
    alloc: Global,
    point: Code,
    place: &P,
) -> Result<(Desk<R>, BookStore<P::Store>), Fault>
    ensures point { IfOk result (λ it. it.0.point ≡ point) }
    ensures saved { IfOk result (λ it. it.0.saved ≡ length it.0.facts) }
    ensures runs { IfOk result (λ it. it.0.halted ≡ false) }
    ensures none { IfOk result (λ it. it.0.kept ≡ []) }
    ensures loaded { IfOk result (λ it. it.1.loaded ≡ counted (length it.0.facts)) }
    ensures facts { IfOk result (λ it. IsClean P.Store.Store it.1.connection → IsRead (state P.Store.Store it.1.connection) it.0.facts) }
    ensures opened { IfOk result (λ it. IsKeptFrom P.Store.Store (P.opens place.now R.SIDE) it.1) }
    ensures kept { IfOk result (λ it. P.keeps place.now R.SIDE it.0.facts it.1) }
    ensures fault { IfErr result (IsStationFault R.SIDE point) }
    ensures first { IfErr result (IsSideFault (P.opens place.now R.SIDE) (P.refuses place.now R.SIDE) R.SIDE point) }
{
    let mut book = place.book(R::SIDE)?;
    let facts = book.load()?;
    place.keep(R::SIDE, &mut book, &facts)?;
    match replayed(alloc, point, facts) {
        Ok(desk) => Ok((desk, book)),
        Err(fault) => Err(fault),
    }
}

/// Those of both sides, the initiating one's first.
fn stations<P: Place>(
    alloc: Global,
    point: Code,
    place: &P,
) -> Result<
    (
        (Desk<Initiating>, BookStore<P::Store>),
        (Desk<Matching>, BookStore<P::Store>),
    ),
    Fault,
>
    ensures point { IfOk result (λ it. it.0.0.point ≡ point) }
    ensures saved { IfOk result (λ it. it.0.0.saved ≡ length it.0.0.facts) }
    ensures runs { IfOk result (λ it. it.0.0.halted ≡ false) }
    ensures none { IfOk result (λ it. it.0.0.kept ≡ []) }
    ensures loaded { IfOk result (λ it. it.0.1.loaded ≡ counted (length it.0.0.facts)) }
    ensures facts { IfOk result (λ it. IsClean P.Store.Store it.0.1.connection → IsRead (state P.Store.Store it.0.1.connection) it.0.0.facts) }
    ensures opened { IfOk result (λ it. IsKeptFrom P.Store.Store (P.opens place.now I) it.0.1) }
    ensures peer_point { IfOk result (λ it. it.1.0.point ≡ point) }
    ensures peer_saved { IfOk result (λ it. it.1.0.saved ≡ length it.1.0.facts) }
    ensures peer_runs { IfOk result (λ it. it.1.0.halted ≡ false) }
    ensures peer_none { IfOk result (λ it. it.1.0.kept ≡ []) }
    ensures peer_loaded { IfOk result (λ it. it.1.1.loaded ≡ counted (length it.1.0.facts)) }
    ensures peer_facts { IfOk result (λ it. IsClean P.Store.Store it.1.1.connection → IsRead (state P.Store.Store it.1.1.connection) it.1.0.facts) }
    ensures peer_opened { IfOk result (λ it. IsKeptFrom P.Store.Store (P.opens place.now M) it.1.1) }
    ensures fault { IfErr result (IsBooksFault point) }
    ensures first { IfErr result (IsFirstSideFault (P.opens place.now) (P.refuses place.now) point) }
{
    let initiating = station::<Initiating, P>(alloc, point, place)?;
    match station::<Matching, P>(alloc, point, place) {
        Ok(matching) => Ok((initiating, matching)),
        // (handed to drop, by one call: going out of scope here would be checked field by field on each way out)
        Err(fault) => {
            drop(initiating);
            Err(fault)
        }
    }
}

/// Whether both desks have one past: no table of theirs differs. `TwoPasts` names the first cycle that differs.
fn agreed(
    alloc: Global,
    initiating: &Desk<Initiating>,
    matching: &Desk<Matching>,
) -> Result<(), Fault>
    ensures agreed { OnOk result (Agree initiating.now matching.now) }
    ensures fault { IfErr result (IsPastFault initiating.now matching.now) }
{
    let Audited { text, verdict } = audit(alloc, initiating, matching)?;
    drop(text);
    match verdict {
        Verdict::Differs(id) => Err(Fault::TwoPasts(id.day, id.cycle)),
        _ => Ok(()),
    }
}

/// The desks of the point that the facts of both sides make, where they have one past: of I's side is told first why they
/// make none.
#[tactic(auto, using(crate::proofs::Agreed::of_ours, crate::proofs::Agreed::of_theirs, crate::proofs::Agreed::of_both))]
pub(crate) fn one_past(
    alloc: Global,
    point: Code,
    initiating: Vec<Fact>,
    matching: Vec<Fact>,
) -> Result<(Desk<Initiating>, Desk<Matching>), Fault>
    ensures initiating { IfOk result (λ desks. desks.0 ≡ desk_of point initiating.items) }
    ensures matching { IfOk result (λ desks. desks.1 ≡ desk_of point matching.items) }
    ensures agreed { IfOk result (λ desks. Agree desks.0 desks.1) }
    ensures fault { IfErr result (IsBooksFault point) }
{
    let ours: Desk<Initiating> = match replayed(alloc, point, initiating) {
        Ok(desk) => desk,
        Err(fault) => {
            drop(matching);
            return Err(fault);
        }
    };
    let theirs: Desk<Matching> = match replayed(alloc, point, matching) {
        Ok(desk) => desk,
        Err(fault) => {
            drop(ours);
            return Err(fault);
        }
    };
    match agreed(alloc, &ours, &theirs) {
        Ok(()) => Ok((ours, theirs)),
        Err(fault) => {
            drop((ours, theirs));
            Err(fault)
        }
    }
}

/// Serves a script over the books of both sides, the initiating one's loaded before the matching
/// one's is opened, where they have one past, and answers how that ended. The fault is of one of the books or of both, or
/// `OutOfMemory`, before the first step: the first of them.
pub(crate) fn served<P: Place, T: Threads + Wait + Sync, V: Watch, O: Write>(
    threads: &T,
    watch: &mut V,
    alloc: Global,
    script: &Script,
    sessions: Sessions,
    place: &P,
    output: &mut O,
) -> Result<Result<(), ServeFault>, Fault>
    ensures served { IfOk result (IsServedFrom sessions script.now (O.contents output.old) (O.contents output.new)) }
    ensures unwritten { OnErr result (Keeps (O.contents output.old) (O.contents output.new)) }
    ensures agreed { IfOk result (λ end. HaveOnePast P.Store.Store (P.opens place.now) script.now.point) }
    ensures fault { IfErr result (IsBooksFault script.now.point) }
    ensures first { IfErr result (IsFirstSideFault (P.opens place.now) (P.refuses place.now) script.now.point) }
{
    let (initiating, matching) = stations(alloc, script.point(), place)?;
    if let Err(fault) = agreed(alloc, &initiating.0, &matching.0) {
        drop((initiating, matching));
        return Err(fault);
    }
    Ok(serve(
        threads,
        alloc,
        script,
        sessions.count(),
        initiating,
        matching,
        watch,
        output,
    ))
}
