//! The lives of an office whose disk stops, beside its peer, whose disks do not.

ghost use Rattle.std.specs.Prelude.{◌≡◌};

use crate::books::{book_over, left};
use crate::ends::{Met, Told};
use crate::lent::Lent;
use crate::plans::Plan;
use crate::scripts::Script;
use crate::sittings::Sitting;
use gi_calls::Answer;
use gi_desk::{Body, Role};
use gi_office::{SaveFault, Settled, join_lives};
use gi_store::BookStore;
use sqlite::Alter;
use sqlite_disk::{Disk, Files, Memory};
use std::alloc::Global;
use std::sync::Wait;
use std::sync::ledger::{Blank, Ledger};

/// What a life came to.
#[derive(Drop)]
struct Life<R: Role> {
    settled: Option<Settled<R>>,
    /// What the office sent, in this life and in those before.
    sent: Vec<Body>,
    /// How many facts it began with.
    begun_with: u32,
    is_stopped: bool,
}

/// Both go on in turns until nothing is left to do. Tells why a turn of the first one saved nothing, and
/// then they go no further.
fn exchange<R: Role, Q: Role, L: Ledger, M: Ledger, S: Alter + Drop, T: Alter + Drop, W: Wait>(
    handle: &W,
    office: &mut Sitting<'_, R, L, S>,
    peer: &mut Sitting<'_, Q, M, T>,
) -> Option<SaveFault> {
    for _ in 0..2u8 {
        if let Some(fault) = office.advance(handle, peer.sent()) {
            return Some(fault);
        }
        let _none = peer.advance(handle, office.sent());
    }
    None
}

/// The life of the office of this book. Adds what is answered at a stop, and what after it.
fn live<R: Role, Q: Role, L: Ledger, M: Ledger, S: Alter + Drop, T: Alter + Drop, W: Wait>(
    handle: &W,
    alloc: Global,
    blank: Blank,
    script: (&Script, bool),
    book: BookStore<S>,
    sent: Vec<Body>,
    peer: &mut Sitting<'_, Q, M, T>,
    stop: &mut Answer,
) -> Option<Life<R>>
    requires name { blank.name ≡ L.name }
    requires whole { blank.parts ≡ L.parts }
    requires parts { blank.parts ≡ 16 }
{
    let mut office: Sitting<'_, R, L, S> = Sitting::open(alloc, blank, script, book, sent)?;
    let begun_with = office.facts();
    office.resend(handle);
    let fault = exchange(handle, &mut office, peer);
    let is_stopped = fault.is_some();
    if let Some(fault) = fault {
        stop.word(fault);
        office.call_each(handle, peer.sent(), stop);
    }
    let (settled, sent) = office.end();
    Some(Life {
        settled,
        sent,
        begun_with,
        is_stopped,
    })
}

/// The life of the office over these disks. `None` where its book cannot be opened or loaded.
fn live_over<R: Role, Q: Role, L: Ledger, M: Ledger, D: Disk + Drop, T: Alter + Drop, W: Wait>(
    handle: &W,
    alloc: Global,
    blank: Blank,
    script: (&Script, bool),
    files: Files<D>,
    sent: Vec<Body>,
    peer: &mut Sitting<'_, Q, M, T>,
    stop: &mut Answer,
) -> Option<Life<R>>
    requires name { blank.name ≡ L.name }
    requires whole { blank.parts ≡ L.parts }
    requires parts { blank.parts ≡ 16 }
{
    match book_over(alloc, files) {
        Some(book) => live::<R, Q, L, M, _, T, W>(
            handle, alloc, blank, script, book, sent, peer, stop,
        ),
        None => {
            drop((blank, sent));
            None
        }
    }
}

/// Joins a life with the one before, where there was one.
fn joined<R: Role>(
    former: Option<Settled<R>>,
    later: Option<Settled<R>>,
    stop: &mut Answer,
) -> Option<Settled<R>> {
    let Some(later) = later else {
        drop(former);
        return None;
    };
    let Some(former) = former else {
        return Some(later);
    };
    match join_lives(former, later) {
        Ok(joined) => {
            stop.word("joined");
            Some(joined)
        }
        Err(fault) => {
            stop.word(fault);
            None
        }
    }
}

/// The life after a stop, over what that left, joined with the one before.
fn go_on<R: Role, Q: Role, L: Ledger, M: Ledger, D: Disk + Drop, T: Alter + Drop, W: Wait>(
    handle: &W,
    alloc: Global,
    blank: Blank,
    script: (&Script, bool),
    files: Files<D>,
    former: Option<Life<R>>,
    peer: &mut Sitting<'_, Q, M, T>,
    stop: &mut Answer,
) -> Option<Settled<R>>
    requires name { blank.name ≡ L.name }
    requires whole { blank.parts ≡ L.parts }
    requires parts { blank.parts ≡ 16 }
{
    let (former, sent) = match former {
        Some(life) => (life.settled, life.sent),
        None => (None, Vec::new(alloc)),
    };
    match live_over::<R, Q, L, M, D, T, W>(handle, alloc, blank, script, files, sent, peer, stop) {
        Some(life) => {
            drop(life.sent);
            stop.add(", facts left");
            stop.word(life.begun_with);
            stop.add(",");
            joined(former, life.settled, stop)
        }
        None => {
            drop(former);
            None
        }
    }
}

/// Where a life was stopped.
fn met<R: Role>(life: &Option<Life<R>>) -> Met {
    match life {
        None => Met::Opening,
        Some(life) if life.is_stopped => Met::Saving,
        Some(_) => Met::Nothing,
    }
}

/// A life over new disks, of which one stops after so many calls, and what the stop leaves.
fn live_to_stop<R: Role, Q: Role, L: Ledger, M: Ledger, T: Alter + Drop, W: Wait>(
    handle: &W,
    alloc: Global,
    blank: Blank,
    plan: Plan,
    script: &Script,
    calls: u64,
    peer: &mut Sitting<'_, Q, M, T>,
    stop: &mut Answer,
) -> (Option<Life<R>>, Files<Memory>)
    requires name { blank.name ≡ L.name }
    requires whole { blank.parts ≡ L.parts }
    requires parts { blank.parts ≡ 16 }
{
    let mut files = plan.disks(alloc, calls);
    let lent = Files {
        log: Lent::of(&mut files.log),
        db: Lent::of(&mut files.db),
    };
    let script = (script, plan.is_each);
    let sent = Vec::new(alloc);
    let life = live_over::<R, Q, L, M, _, T, W>(
        handle, alloc, blank, script, lent, sent, peer, stop,
    );
    (life, left(alloc, files, plan.is_all))
}

/// What is left of a life that was not stopped.
fn ended<R: Role>(life: Option<Life<R>>) -> Option<Settled<R>> {
    match life {
        Some(life) => {
            drop(life.sent);
            life.settled
        }
        None => None,
    }
}

/// The office's lives beside its peer.
fn run_beside<R: Role, Q: Role, A: Ledger, B: Ledger, C: Ledger, T: Alter + Drop, W: Wait>(
    handle: &W,
    alloc: Global,
    first: Blank,
    later: Blank,
    plan: Plan,
    script: &Script,
    calls: u64,
    peer: &mut Sitting<'_, Q, C, T>,
    told: &mut Told,
) -> Option<Settled<R>>
    requires first { (first.name ≡ A.name) × (first.parts ≡ A.parts) × (first.parts ≡ 16) }
    requires later { (later.name ≡ B.name) × (later.parts ≡ B.parts) × (later.parts ≡ 16) }
{
    let stop = &mut told.stop;
    let (former, files) = live_to_stop::<R, Q, A, C, T, W>(
        handle, alloc, first, plan, script, calls, peer, stop,
    );
    told.met = met(&former);
    if told.met == Met::Nothing {
        drop((later, files));
        return ended(former);
    }
    let script = (script, plan.is_each);
    go_on::<R, Q, B, C, Memory, T, W>(handle, alloc, later, script, files, former, peer, stop)
}

/// One run, in which a disk of the office of the first script stops after so many calls: what is left
/// of both offices.
pub fn run<R: Role, Q: Role, A: Ledger, B: Ledger, C: Ledger, W: Wait>(
    handle: &W,
    alloc: Global,
    first: Blank,
    later: Blank,
    other: Blank,
    plan: Plan,
    script: &Script,
    peers: &Script,
    calls: u64,
    told: &mut Told,
) -> (Option<Settled<R>>, Option<Settled<Q>>)
    requires first { (first.name ≡ A.name) × (first.parts ≡ A.parts) × (first.parts ≡ 16) }
    requires later { (later.name ≡ B.name) × (later.parts ≡ B.parts) × (later.parts ≡ 16) }
    requires other { (other.name ≡ C.name) × (other.parts ≡ C.parts) × (other.parts ≡ 16) }
{
    let book = book_over(alloc, plan.disks(alloc, u64::MAX));
    let opened = match book {
        Some(book) => Sitting::open(alloc, other, (peers, plan.is_each), book, Vec::new(alloc)),
        None => {
            drop(other);
            None
        }
    };
    let Some(mut peer) = opened else {
        drop((first, later));
        return (None, None);
    };
    let peer_office: &mut Sitting<'_, Q, C, _> = &mut peer;
    let settled = run_beside::<R, Q, A, B, C, _, W>(
        handle,
        alloc,
        first,
        later,
        plan,
        script,
        calls,
        peer_office,
        told,
    );
    let (left, sent) = peer.end();
    drop(sent);
    (settled, left)
}
