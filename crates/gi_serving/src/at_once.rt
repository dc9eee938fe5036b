//! A batch at both offices at once, and the turns that save meanwhile.

ghost use Rattle.std.specs.Prelude.{◌≡◌, ◌⊎◌, ◌≤◌, ◌<◌, ◌+◌, ◌++◌, ◌∷◌, [], Err, IfErr, IfOk, IfSome, IsOk, Ok, OnOk, is_some, length, true};
ghost use Rattle.std.specs.Thread.{IsSync};
ghost use Rattle.gi_pairs.specs.declared.side.Side.TheVariants.{I, M};
ghost use Rattle.gi_serving.specs.Asking.{EndsTurns, IsTurned, NotesMarks, OtherIs};
ghost use Rattle.gi_serving.specs.Ending.{AreSamePlaces, IsCut, IsTurnFault, place_of};
ghost use Rattle.gi_serving.specs.Faulting.{BothGoWell, TellsTurns, TurnsEnd};
ghost use Rattle.gi_serving.specs.Submitting.{HasMain, SessionsMake, SubmitsBatch};
ghost use Rattle.gi_serving.specs.declared.serve_fault.ServeFault.TheVariants.{OutOfMemory, Turn};

use crate::batch::submitted;
use crate::once::Once;
use crate::paired::both_of;
use crate::serve_fault::ServeFault;
use crate::turns::Turns;
use crate::word::Word;
use crossbeam_channel::{Receiver, unbounded};
use gi_desk::Body;
use gi_initiator::Initiating;
use gi_matcher::Matching;
use gi_office::{Office, SaveFault, Seat, Waker};
use gi_pairs::Side;
use std::alloc::{AllocError, Global};
use std::sync::Wait;
use std::sync::ledger::Ledger;
use std::thread;
use std::thread::Threads;

/// Seats of an office, and a word of each body that its sessions submitted.
type Made<L> = (Vec<Seat<L>>, Vec<Word>);

/// What the turns take over: the notices, and both main seats.
type Turning<L, K> = (Receiver<Side>, Seat<L>, Seat<K>);

/// What the sessions of both offices take over.
type Submitting<L, K> = (
    Waker,
    Vec<Seat<L>>,
    Vec<Body>,
    Waker,
    Vec<Seat<K>>,
    Vec<Body>,
);

/// What came of the bodies of an office, with its sessions' seats.
type Submitted<L> = Result<Made<L>, AllocError>;

fn wakers(alloc: Global) -> Result<(Waker, Waker, Receiver<Side>), AllocError>
    ensures { IfOk result (λ wakers. (wakers.0 ≡ I) × (wakers.1 ≡ M)) }
{
    let (sender, notices) = unbounded(alloc)?;
    let peer_sender = sender.clone()?;
    Ok((
        Waker::new(Side::I, sender),
        Waker::new(Side::M, peer_sender),
        notices,
    ))
}

fn turned_at<L: Ledger, K: Ledger, B: Turns, C: Turns, W: Wait>(
    rt: &W,
    side: Side,
    office: &Office<Initiating, L>,
    book: &mut B,
    main: Seat<L>,
    peer: &Office<Matching, K>,
    peer_book: &mut C,
    peer_main: Seat<K>,
) -> (Seat<L>, Seat<K>, Result<bool, SaveFault>)
    ensures place { place_of result.0 ≡ place_of main }
    ensures peer_place { place_of result.1 ≡ place_of peer_main }
    ensures marks { OnOk result.2 (NotesMarks main result.0) }
    ensures peer_marks { OnOk result.2 (NotesMarks peer_main result.1) }
    ensures other { OtherIs side main result.0 peer_main result.1 }
    ensures books { OtherIs side book.old book.new peer_book.old peer_book.new }
    ensures fault { IfErr result.2 IsTurnFault }
    ensures turn { side ≡ I → IsTurned (B.takes I book.old book.new) main result.2 result.0 }
    ensures peer_turn { side ≡ M → IsTurned (C.takes M peer_book.old peer_book.new) peer_main result.2 result.1 }
{
    match side {
        Side::I => {
            let (main, saved) = book.turned(rt, office, main);
            (main, peer_main, saved)
        }
        Side::M => {
            let (peer_main, saved) = peer_book.turned(rt, peer, peer_main);
            (main, peer_main, saved)
        }
    }
}

/// Ends when nobody is left to send a notice, or at a fault: after that nobody takes notices, so that no
/// session waits for it.
fn saved_meanwhile<L: Ledger, K: Ledger, B: Turns, C: Turns, W: Wait>(
    rt: &W,
    notices: Receiver<Side>,
    office: &Office<Initiating, L>,
    book: &mut B,
    main: Seat<L>,
    peer: &Office<Matching, K>,
    peer_book: &mut C,
    peer_main: Seat<K>,
) -> (Seat<L>, Seat<K>, Result<(), SaveFault>)
    ensures place { place_of result.0 ≡ place_of main }
    ensures peer_place { place_of result.1 ≡ place_of peer_main }
    ensures marks { OnOk result.2 (NotesMarks main result.0) }
    ensures peer_marks { OnOk result.2 (NotesMarks peer_main result.1) }
    ensures fault { IfErr result.2 IsTurnFault }
    ensures last { IfErr result.2 (λ fault. EndsTurns (B.takes I) book.new (Err fault) result.0 ⊎ EndsTurns (C.takes M) peer_book.new (Err fault) result.1) }
    ensures ends { TurnsEnd (B.takes I) (C.takes M) book.old peer_book.old book.new peer_book.new result.2 }
{
    let mut main = main;
    let mut peer_main = peer_main;
    for side in notices.iter(rt) {
        let (back, peer_back, saved) = turned_at(
            rt, side, office, book, main, peer, peer_book, peer_main,
        );
        main = back;
        peer_main = peer_back;
        if let Err(fault) = saved {
            return (main, peer_main, Err(fault));
        }
    }
    (main, peer_main, Ok(()))
}

fn both_submitted<L: Ledger + Send + Sync, K: Ledger + Send + Sync, T: Threads + Wait + Sync>(
    rt: &T,
    alloc: Global,
    sessions: u8,
    office: &Office<Initiating, L>,
    waker: Waker,
    seats: Vec<Seat<L>>,
    bodies: Vec<Body>,
    peer: &Office<Matching, K>,
    peer_waker: Waker,
    peer_seats: Vec<Seat<K>>,
    peer_bodies: Vec<Body>,
) -> (Submitted<L>, Submitted<K>)
    requires named { waker ≡ I }
    requires peer_named { peer_waker ≡ M }
    requires some { 1 ≤ sessions }
    requires few { sessions < 16 }
    requires ours { length seats.items ≡ sessions }
    requires theirs { length peer_seats.items ≡ sessions }
    ensures places { IfOk result.0 (λ submitted. AreSamePlaces seats.items submitted.0.items) }
    ensures peer_places { IfOk result.1 (λ submitted. AreSamePlaces peer_seats.items submitted.0.items) }
    ensures make { IfOk result.0 (λ submitted. SessionsMake I sessions bodies.items seats.items submitted.1.items submitted.0.items) }
    ensures peer_make { IfOk result.1 (λ submitted. SessionsMake M sessions peer_bodies.items peer_seats.items submitted.1.items submitted.0.items) }
{
    thread::join(
        rt,
        move || -> Submitted<L>
            requires { IsSync T.row × (waker ≡ I) × (1 ≤ sessions) × (sessions < 16) × (length seats.items ≡ sessions) }
            ensures { IfOk result (λ submitted. AreSamePlaces seats.items submitted.0.items) × IfOk result (λ submitted. SessionsMake I sessions bodies.items seats.items submitted.1.items submitted.0.items) }
        { submitted(rt, alloc, office, waker, sessions, seats, bodies) },
        move || -> Submitted<K>
            requires { IsSync T.row × (peer_waker ≡ M) × (1 ≤ sessions) × (sessions < 16) × (length peer_seats.items ≡ sessions) }
            ensures { IfOk result (λ submitted. AreSamePlaces peer_seats.items submitted.0.items) × IfOk result (λ submitted. SessionsMake M sessions peer_bodies.items peer_seats.items submitted.1.items submitted.0.items) }
        {
            submitted(
                rt,
                alloc,
                peer,
                peer_waker,
                sessions,
                peer_seats,
                peer_bodies,
            )
        },
    )
}

/// The seats of the sessions, and behind them the main one.
fn parted<L: Ledger>(seats: Vec<Seat<L>>) -> (Vec<Seat<L>>, Seat<L>)
    requires { 0 < length seats.items }
    ensures { seats.items ≡ result.0.items ++ result.1 ∷ [] }
{
    let mut seats = seats;
    let main = seats.pop().unwrap();
    (seats, main)
}

/// The fault of a turn comes before want of memory.
fn unless_cut<L: Ledger, K: Ledger>(
    submitted: (Submitted<L>, Submitted<K>),
    saved: Result<(), SaveFault>,
) -> Result<(Made<L>, Made<K>), ServeFault>
    requires { IfErr saved IsTurnFault }
    ensures ours { IfOk result (λ both. submitted.0 ≡ Ok both.0) }
    ensures theirs { IfOk result (λ both. submitted.1 ≡ Ok both.1) }
    ensures saved { OnOk result (IsOk saved) }
    ensures turn { IfErr saved (λ fault. result ≡ Err (Turn fault)) }
    ensures short { IsOk saved → IfErr submitted.0 (λ _. result ≡ Err OutOfMemory) }
    ensures peer_short { IsOk saved → IfErr submitted.1 (λ _. result ≡ Err OutOfMemory) }
    ensures no_turn { IsOk saved → IfErr result (λ fault. fault ≡ OutOfMemory) }
    ensures cut { IfErr result (λ fault. IsCut (Err fault)) }
{
    let (ours, theirs) = submitted;
    match saved {
        Ok(()) => match both_of(ours, theirs) {
            Ok(both) => Ok(both),
            Err(_) => Err(ServeFault::OutOfMemory),
        },
        Err(fault) => {
            drop((ours, theirs));
            Err(ServeFault::Turn(fault))
        }
    }
}

fn with_main<L: Ledger>(made: Made<L>, main: Seat<L>) -> Submitted<L>
    ensures seats { IfOk result (λ all. all.0.items ≡ made.0.items ++ main ∷ []) }
    ensures words { IfOk result (λ all. all.1 ≡ made.1) }
{
    let (mut seats, words) = made;
    seats.push(main)?;
    Ok((seats, words))
}

#[tactic(auto, using(crate::proofs::Asked::no_fault))]
fn whole<L: Ledger, K: Ledger>(
    saved: (Seat<L>, Seat<K>, Result<(), SaveFault>),
    submitted: (Submitted<L>, Submitted<K>),
) -> Result<(Made<L>, Made<K>), ServeFault>
    requires { IfErr saved.2 IsTurnFault }
    ensures ours { IfOk result (λ both. HasMain submitted.0 saved.0 both.0.0.items both.0.1.items) }
    ensures theirs { IfOk result (λ both. HasMain submitted.1 saved.1 both.1.0.items both.1.1.items) }
    ensures saved { OnOk result (IsOk saved.2) }
    ensures turn { IfErr saved.2 (λ fault. result ≡ Err (Turn fault)) }
    ensures no_turn { IsOk saved.2 → IfErr result (λ fault. fault ≡ OutOfMemory) }
    ensures cut { IfErr result (λ fault. IsCut (Err fault)) }
{
    let (main, peer_main, saved) = saved;
    let (ours, theirs) = match unless_cut(submitted, saved) {
        Ok(both) => both,
        // (handed to drop, by one call: going out of scope here would be checked field by field on each way out)
        Err(fault) => {
            drop((main, peer_main));
            return Err(fault);
        }
    };
    Ok(both_of(with_main(ours, main), with_main(theirs, peer_main))?)
}

/// The turns beside the sessions. They are lent to their threads with what they take over, so that what
/// the turns make of the books is known behind it.
fn joined<
    L: Ledger + Send + Sync,
    K: Ledger + Send + Sync,
    B: Turns + Send,
    C: Turns + Send,
    X: Once<Item = Turning<L, K>> + Send,
    Y: Once<Item = Submitting<L, K>>,
    T: Threads + Wait + Sync,
>(
    rt: &T,
    alloc: Global,
    sessions: u8,
    office: &Office<Initiating, L>,
    book: &mut B,
    peer: &Office<Matching, K>,
    peer_book: &mut C,
    turning: &mut X,
    submitting: &mut Y,
) -> (
    (Seat<L>, Seat<K>, Result<(), SaveFault>),
    (Submitted<L>, Submitted<K>),
)
    requires some { 1 ≤ sessions }
    requires few { sessions < 16 }
    requires turning { is_some (X.left turning.old) ≡ true }
    requires submitting { is_some (Y.left submitting.old) ≡ true }
    requires seats { IfSome (Y.left submitting.old) (λ it. (it.0 ≡ I) × (it.3 ≡ M) × (length it.1.items ≡ sessions) × (length it.4.items ≡ sessions)) }
    ensures turned { IfSome (X.left turning.old) (λ it. (place_of result.0.0 ≡ place_of it.1) × (place_of result.0.1 ≡ place_of it.2)
        × OnOk result.0.2 (NotesMarks it.1 result.0.0) × OnOk result.0.2 (NotesMarks it.2 result.0.1)) }
    ensures fault { IfErr result.0.2 IsTurnFault }
    ensures ends { TurnsEnd (B.takes I) (C.takes M) book.old peer_book.old book.new peer_book.new result.0.2 }
    ensures submitted { IfSome (Y.left submitting.old) (λ it. IfOk result.1.0 (λ submitted. AreSamePlaces it.1.items submitted.0.items)
        × IfOk result.1.1 (λ submitted. AreSamePlaces it.4.items submitted.0.items)
        × IfOk result.1.0 (λ submitted. SessionsMake I sessions it.2.items it.1.items submitted.1.items submitted.0.items)
        × IfOk result.1.1 (λ submitted. SessionsMake M sessions it.5.items it.4.items submitted.1.items submitted.0.items)) }
{
    thread::join_mut(
        rt,
        &mut || -> (Seat<L>, Seat<K>, Result<(), SaveFault>)
            requires { is_some (X.left turning.now) ≡ true }
            ensures { IfSome (X.left turning.entry.now) (λ it. (place_of result.0 ≡ place_of it.1) × (place_of result.1 ≡ place_of it.2)
                × OnOk result.2 (NotesMarks it.1 result.0) × OnOk result.2 (NotesMarks it.2 result.1)) × IfErr result.2 IsTurnFault
                × TurnsEnd (B.takes I) (C.takes M) book.entry.now peer_book.entry.now book.exit.now peer_book.exit.now result.2 }
        {
            let (notices, main, peer_main) = turning.once();
            saved_meanwhile(rt, notices, office, book, main, peer, peer_book, peer_main)
        },
        &mut || -> (Submitted<L>, Submitted<K>)
            requires { IsSync T.row × (1 ≤ sessions) × (sessions < 16) × (is_some (Y.left submitting.now) ≡ true)
                × IfSome (Y.left submitting.now) (λ it. (it.0 ≡ I) × (it.3 ≡ M) × (length it.1.items ≡ sessions) × (length it.4.items ≡ sessions)) }
            ensures { IfSome (Y.left submitting.entry.now) (λ it. IfOk result.0 (λ submitted. AreSamePlaces it.1.items submitted.0.items)
                × IfOk result.1 (λ submitted. AreSamePlaces it.4.items submitted.0.items)
                × IfOk result.0 (λ submitted. SessionsMake I sessions it.2.items it.1.items submitted.1.items submitted.0.items)
                × IfOk result.1 (λ submitted. SessionsMake M sessions it.5.items it.4.items submitted.1.items submitted.0.items)) }
        {
            let (waker, seats, bodies, peer_waker, peer_seats, peer_bodies) = submitting.once();
            both_submitted(
                rt,
                alloc,
                sessions,
                office,
                waker,
                seats,
                bodies,
                peer,
                peer_waker,
                peer_seats,
                peer_bodies,
            )
        },
    )
}

/// Where no thread can be started the sessions come first, so that the turns wait for nobody.
pub(crate) fn at_once<
    L: Ledger + Send + Sync,
    K: Ledger + Send + Sync,
    B: Turns + Send,
    C: Turns + Send,
    T: Threads + Wait + Sync,
>(
    rt: &T,
    alloc: Global,
    sessions: u8,
    office: &Office<Initiating, L>,
    book: &mut B,
    seats: Vec<Seat<L>>,
    bodies: Vec<Body>,
    peer: &Office<Matching, K>,
    peer_book: &mut C,
    peer_seats: Vec<Seat<K>>,
    peer_bodies: Vec<Body>,
) -> Result<(Made<L>, Made<K>), ServeFault>
    requires some { 1 ≤ sessions }
    requires few { sessions < 16 }
    requires ours { length seats.items ≡ sessions + 1 }
    requires theirs { length peer_seats.items ≡ sessions + 1 }
    ensures places { IfOk result (λ both. AreSamePlaces seats.items both.0.0.items) }
    ensures peer_places { IfOk result (λ both. AreSamePlaces peer_seats.items both.1.0.items) }
    ensures submits { IfOk result (λ both. SubmitsBatch I sessions bodies.items seats.items both.0.1.items both.0.0.items) }
    ensures peer_submits { IfOk result (λ both. SubmitsBatch M sessions peer_bodies.items peer_seats.items both.1.1.items both.1.0.items) }
    ensures cut { IfErr result (λ fault. IsCut (Err fault)) }
    ensures well { OnOk result (BothGoWell (B.takes I) (C.takes M) book.old peer_book.old book.new peer_book.new) }
    ensures tells { IfErr result (TellsTurns (B.takes I) (C.takes M) book.old peer_book.old book.new peer_book.new) }
{
    let (waker, peer_waker, notices) = wakers(alloc)?;
    let (seats, main) = parted(seats);
    let (peer_seats, peer_main) = parted(peer_seats);
    let mut turning = Some((notices, main, peer_main));
    let mut submitting = Some((waker, seats, bodies, peer_waker, peer_seats, peer_bodies));
    let (saved, submitted) = joined(
        rt,
        alloc,
        sessions,
        office,
        book,
        peer,
        peer_book,
        &mut turning,
        &mut submitting,
    );
    // (handed to drop, by one call each: going out of scope here would be checked field by field)
    drop(turning);
    drop(submitting);
    whole(saved, submitted)
}
