//! Sessions that run side by side.

use crate::offices::documents::documents;
use crate::offices::gates::{FirstOnce, SecondFirst};
use crate::offices::seats::{put_back, taken};
use crate::offices::texts::is_recorded;
use crossbeam_channel::{Receiver, unbounded};
use gi_calls::{Answer, Fault, Words};
use gi_desk::Body;
use gi_initiator::Initiating;
use gi_office::{Gate, Office, Receipt, Seat, Served, Session, Waker};
use gi_pairs::{Code, Side};
use std::alloc::Global;
use std::rt::Clock;
use std::sync::Wait;
use std::sync::ledger::Ledger;
use std::thread::Threads;

/// So many documents of the portfolio P and the number.
fn bodies_of(alloc: Global, number: u8, each: u32) -> Result<Option<Vec<Body>>, Fault> {
    let portfolio = format!(in alloc; "P{number}")?;
    match Code::read(portfolio.as_str()) {
        Ok(portfolio) => Ok(Some(documents(alloc, portfolio, each)?)),
        Err(_) => Ok(None),
    }
}

/// Adds a session from the seat of this number, which submits so many documents.
fn add_session<L: Ledger>(
    alloc: Global,
    seats: &mut Vec<Seat<L>>,
    number: u8,
    each: u32,
    sessions: &mut Vec<Session<L>>,
) -> Result<bool, Fault> {
    let Some(bodies) = bodies_of(alloc, number, each)? else {
        return Ok(false);
    };
    let Some(seat) = taken(seats, number) else {
        // (handed to `drop`, by one call: going out of scope here would be checked field by field
        // on each way out)
        drop(bodies);
        return Ok(false);
    };
    sessions.push(Session::new(seat, bodies))?;
    Ok(true)
}

/// Adds sessions from so many seats, from the first on.
fn add_sessions<L: Ledger>(
    alloc: Global,
    seats: &mut Vec<Seat<L>>,
    each: u32,
    count: u8,
    sessions: &mut Vec<Session<L>>,
) -> Result<bool, Fault> {
    for before in 0..count {
        if !add_session(alloc, seats, before.wrapping_add(1), each, sessions)? {
            return Ok(false);
        }
    }
    Ok(true)
}

/// Keeps the receipts that a session was given. Adds how many facts it recorded.
fn keep_receipts(
    receipts: &mut Vec<Receipt>,
    given: Vec<Receipt>,
    text: &mut Answer,
) -> Result<(), Fault> {
    let mut given = given;
    text.word(given.iter().filter(|it| is_recorded(it)).count());
    let kept = receipts.append(&mut given);
    drop(given);
    kept?;
    Ok(())
}

/// Adds how many notices there are of each side, once nobody sends any more.
fn add_notices<W: Wait>(handle: &W, receiver: Receiver<Side>, text: &mut Answer) {
    let (mut initiating, mut matching) = (0u32, 0u32);
    for side in receiver.iter(handle) {
        match side {
            Side::I => initiating = initiating.wrapping_add(1),
            Side::M => matching = matching.wrapping_add(1),
        }
    }
    text.end_line();
    text.add("notices I");
    text.word(initiating);
    text.add(" M");
    text.word(matching);
}

/// Keeps the seat and the receipts of a session. Adds how many facts it recorded, and its fault.
fn keep_served<L: Ledger>(
    seats: &mut Vec<Seat<L>>,
    receipts: &mut Vec<Receipt>,
    served: Served<L>,
    text: &mut Answer,
) -> Result<(), Fault> {
    let (seat, given, fault) = served.into_parts();
    let kept = keep_receipts(receipts, given, text);
    if let Some(fault) = fault {
        text.word(fault);
    }
    put_back(seats, seat)?;
    kept
}

/// Keeps what came of all sessions.
fn keep_all<L: Ledger>(
    seats: &mut Vec<Seat<L>>,
    receipts: &mut Vec<Receipt>,
    served: Vec<Served<L>>,
    text: &mut Answer,
) -> Result<bool, Fault> {
    text.add("recorded");
    let mut kept = Ok(true);
    for one in served {
        if let Err(fault) = keep_served(seats, receipts, one, text) {
            kept = Err(fault);
        }
    }
    kept
}

/// Serves the sessions by the gate: `recorded`, and how many facts each of them recorded.
fn serve_by<L: Ledger + Send + Sync, T: Threads + Wait + Sync, G: Gate + Sync>(
    handle: &T,
    office: &Office<Initiating, L>,
    seats: &mut Vec<Seat<L>>,
    receipts: &mut Vec<Receipt>,
    gate: &G,
    sessions: Vec<Session<L>>,
    text: &mut Answer,
) -> Result<bool, Fault> {
    match office.serve(handle, gate, sessions) {
        Ok(served) => keep_all(seats, receipts, served, text),
        Err(refused) => {
            drop(refused);
            Err(Fault::OutOfMemory)
        }
    }
}

/// The same by a waker, and how many notices it sent.
fn serve_by_waker<L: Ledger + Send + Sync, T: Threads + Wait + Sync>(
    handle: &T,
    alloc: Global,
    office: &Office<Initiating, L>,
    seats: &mut Vec<Seat<L>>,
    receipts: &mut Vec<Receipt>,
    sessions: Vec<Session<L>>,
    text: &mut Answer,
) -> Result<bool, Fault> {
    let Ok((sender, receiver)) = unbounded(alloc) else {
        drop(sessions);
        return Err(Fault::OutOfMemory);
    };
    let waker = Waker::new(Side::I, sender);
    let served = serve_by(handle, office, seats, receipts, &waker, sessions, text);
    drop(waker);
    add_notices(handle, receiver, text);
    served
}

/// Serves the sessions by the gate of this name.
fn serve_by_name<L: Ledger + Send + Sync, T: Threads + Wait + Clock + Sync>(
    handle: &T,
    alloc: Global,
    office: &Office<Initiating, L>,
    seats: &mut Vec<Seat<L>>,
    receipts: &mut Vec<Receipt>,
    gate: &str,
    sessions: Vec<Session<L>>,
    text: &mut Answer,
) -> Result<bool, Fault> {
    match gate {
        "second_first" => {
            let gate = SecondFirst::new(handle);
            serve_by(handle, office, seats, receipts, &gate, sessions, text)
        }
        "first_once" => serve_by(handle, office, seats, receipts, &FirstOnce, sessions, text),
        "waker" => serve_by_waker(handle, alloc, office, seats, receipts, sessions, text),
        _ => {
            drop(sessions);
            Ok(false)
        }
    }
}

/// `serve GATE EACH COUNT`: so many sessions at the same time, each of which submits so many
/// documents.
pub fn serve<L: Ledger + Send + Sync, T: Threads + Wait + Clock + Sync>(
    handle: &T,
    alloc: Global,
    office: &Office<Initiating, L>,
    seats: &mut Vec<Seat<L>>,
    receipts: &mut Vec<Receipt>,
    mut words: Words<'_>,
    text: &mut Answer,
) -> Result<bool, Fault> {
    let gate = words.next();
    let (Some(each), Some(count)) = (words.number(), words.byte()) else {
        return Ok(false);
    };
    let mut sessions = Vec::new(alloc);
    match add_sessions(alloc, seats, each, count, &mut sessions) {
        Ok(true) => serve_by_name(handle, alloc, office, seats, receipts, gate, sessions, text),
        refused => {
            drop(sessions);
            refused
        }
    }
}
