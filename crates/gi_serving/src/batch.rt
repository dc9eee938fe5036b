//! A batch: submissions, which the sessions of an office make at once.

ghost use Rattle.std.specs.Prelude.{◌≡◌, ◌≤◌, ◌<◌, ◌++◌, ◌∷◌, [], All, IfOk, OnErr, OnOk, drop, false, length, map, slice_get, true, vec_capacity};
ghost use Rattle.gi_pairs.specs.declared.side.Side.TheVariants.{I, M};
ghost use Rattle.gi_serving.specs.Assigning.{IsNumber, sessions_of as sessions_for};
ghost use Rattle.gi_serving.specs.Batches.{submission as submission_in};
ghost use Rattle.gi_serving.specs.Ending.{AreSamePlaces};
ghost use Rattle.gi_serving.specs.Submitting.{AreWords, SessionsMake, SessionsSubmit, begun_by, bodies_in, bodies_of, body_for, dealt, dealt_to_all, in_order, is_short, receipts_in, seat_in, short_of, word_for};

use crate::assigning::sessions_of;
use crate::pieces::submission;
use crate::word::Word;
use gi_desk::{Body, Role};
use gi_office::{Office, OfficeFault, Receipt, Seat, Served, Session, Waker};
use gi_pairs::Side;
use gi_script::Line;
use std::alloc::{AllocError, Global};
use std::sync::Wait;
use std::sync::ledger::Ledger;
use std::thread::Threads;

fn add_body(bodies: &mut Vec<Body>, side: Side, line: &Line) -> Result<(), AllocError>
    ensures { OnOk result (bodies.new.items ≡ bodies.old.items ++ body_for side (submission_in line.now.instruction)) }
{
    match (submission(line), side) {
        (Some((Side::I, body)), Side::I) => bodies.push(body.copy()?)?,
        (Some((Side::M, body)), Side::M) => bodies.push(body.copy()?)?,
        _ => {}
    }
    Ok(())
}

fn bodies_at(alloc: Global, side: Side, lines: &[Line]) -> Result<Vec<Body>, AllocError>
    ensures { IfOk result (λ bodies. bodies.items ≡ bodies_of side lines.now) }
{
    let mut bodies = Vec::new(alloc);
    for line in lines {
        add_body(&mut bodies, side, line)?;
    }
    Ok(bodies)
}

pub(crate) fn bodies_of_both(
    alloc: Global,
    lines: &[Line],
) -> Result<(Vec<Body>, Vec<Body>), AllocError>
    ensures ours { IfOk result (λ both. both.0.items ≡ bodies_of I lines.now) }
    ensures theirs { IfOk result (λ both. both.1.items ≡ bodies_of M lines.now) }
{
    let ours = bodies_at(alloc, Side::I, lines)?;
    let theirs = bodies_at(alloc, Side::M, lines)?;
    Ok((ours, theirs))
}

fn given(
    alloc: Global,
    number: u8,
    numbers: &[u8],
    bodies: &[Body],
) -> Result<Vec<Body>, AllocError>
    requires { length numbers.now ≡ length bodies.now }
    ensures { IfOk result (λ given. given.items ≡ dealt number numbers.now bodies.now) }
{
    let mut dealt = Vec::new(alloc);
    for i in 0..bodies.len() {
        if numbers[i] == number {
            dealt.push(bodies[i].copy()?)?;
        }
    }
    Ok(dealt)
}

/// What goes to the session of this number, behind what goes to those before it.
fn deal(
    alloc: Global,
    number: u8,
    numbers: &[u8],
    bodies: &[Body],
    lists: &mut Vec<Vec<Body>>,
) -> Result<(), AllocError>
    requires { length numbers.now ≡ length bodies.now }
    ensures { OnOk result (map bodies_in lists.new.items ≡ map bodies_in lists.old.items ++ dealt number numbers.now bodies.now ∷ []) }
{
    lists.push(given(alloc, number, numbers, bodies)?)?;
    Ok(())
}

fn dealt_to(
    alloc: Global,
    sessions: u8,
    numbers: &[u8],
    bodies: &[Body],
) -> Result<Vec<Vec<Body>>, AllocError>
    requires { length numbers.now ≡ length bodies.now }
    ensures count { IfOk result (λ dealt. length dealt.items ≡ sessions) }
    ensures dealt { IfOk result (λ dealt. map bodies_in dealt.items ≡ dealt_to_all sessions numbers.now bodies.now) }
{
    let mut dealt = Vec::with_capacity(alloc, sessions as usize)?;
    for before in 0..sessions {
        // (handed to drop, by one call: going out of scope here would be checked field by field on each way out)
        let Ok(()) = deal(alloc, before + 1, numbers, bodies, &mut dealt) else {
            drop(dealt);
            return Err(AllocError);
        };
    }
    Ok(dealt)
}

fn begun<L: Ledger>(
    seats: Vec<Seat<L>>,
    dealt: Vec<Vec<Body>>,
    sessions: Vec<Session<L>>,
) -> Vec<Session<L>>
    requires all { length seats.items ≤ length dealt.items }
    requires none { sessions.items ≡ [] }
    requires room { length seats.items ≤ vec_capacity sessions }
    ensures { result.items ≡ begun_by seats.items (map bodies_in dealt.items) }
{
    let mut dealt = dealt.into_iter();
    let mut sessions = sessions;
    for seat in seats {
        let bodies = dealt.next().unwrap();
        sessions.push_reserved(Session::new(seat, bodies));
    }
    sessions
}

fn wanted(fault: &Option<OfficeFault>) -> bool
    ensures { result ≡ is_short fault.now }
{
    match fault {
        Some(OfficeFault::OutOfMemory) => true,
        Some(OfficeFault::SeatFull) => false,
        None => false,
    }
}

/// The receipts come back the last one first, so that `next_word` pops them in order.
fn taken_apart<L: Ledger>(served: Served<L>) -> (Seat<L>, Vec<Receipt>, bool)
    ensures seat { result.0 ≡ seat_in served }
    ensures receipts { in_order result.1 ≡ receipts_in served }
    ensures short { result.2 ≡ is_short served.fault }
{
    let (seat, mut receipts, fault) = served.into_parts();
    receipts.reverse();
    (seat, receipts, wanted(&fault))
}

/// And whether a session ended for want of memory.
fn all_apart<L: Ledger>(
    served: Vec<Served<L>>,
    seats: Vec<Seat<L>>,
    receipts: Vec<Vec<Receipt>>,
) -> (Vec<Seat<L>>, Vec<Vec<Receipt>>, bool)
    requires none { seats.items ≡ [] }
    requires room { length served.items ≤ vec_capacity seats }
    requires none_yet { receipts.items ≡ [] }
    requires receipts { length served.items ≤ vec_capacity receipts }
    ensures seats { result.0.items ≡ map seat_in served.items }
    ensures receipts { map in_order result.1.items ≡ map receipts_in served.items }
    ensures short { result.2 ≡ short_of false served.items }
{
    let mut seats = seats;
    let mut receipts = receipts;
    let mut wants = false;
    for one in served {
        let (seat, given, short) = taken_apart(one);
        seats.push_reserved(seat);
        receipts.push_reserved(given);
        wants = wants || short;
    }
    (seats, receipts, wants)
}

fn ended<L: Ledger>(
    served: Vec<Served<L>>,
    seats: Vec<Seat<L>>,
    receipts: Vec<Vec<Receipt>>,
) -> Result<(Vec<Seat<L>>, Vec<Vec<Receipt>>), AllocError>
    requires none { seats.items ≡ [] }
    requires room { length served.items ≤ vec_capacity seats }
    requires none_yet { receipts.items ≡ [] }
    requires receipts { length served.items ≤ vec_capacity receipts }
    ensures seats { IfOk result (λ ended. ended.0.items ≡ map seat_in served.items) }
    ensures receipts { IfOk result (λ ended. map in_order ended.1.items ≡ map receipts_in served.items) }
    ensures memory { OnOk result (short_of false served.items ≡ false) }
    ensures short { OnErr result (short_of false served.items ≡ true) }
{
    let (seats, receipts, wants) = all_apart(served, seats, receipts);
    if wants {
        return Err(AllocError);
    }
    Ok((seats, receipts))
}

/// Room for sessions, and once they are over for the seats and the receipts.
type Rooms<L> = (Vec<Session<L>>, Vec<Seat<L>>, Vec<Vec<Receipt>>);

fn rooms_for<L: Ledger>(alloc: Global, count: usize) -> Result<Rooms<L>, AllocError>
    ensures sessions { IfOk result (λ rooms. (rooms.0.items ≡ []) × (count ≤ vec_capacity rooms.0)) }
    ensures seats { IfOk result (λ rooms. (rooms.1.items ≡ []) × (count ≤ vec_capacity rooms.1)) }
    ensures receipts { IfOk result (λ rooms. (rooms.2.items ≡ []) × (count ≤ vec_capacity rooms.2)) }
{
    let sessions = Vec::with_capacity(alloc, count)?;
    let seats = Vec::with_capacity(alloc, count)?;
    let receipts = Vec::with_capacity(alloc, count)?;
    Ok((sessions, seats, receipts))
}

fn next_word(receipts: &mut Vec<Receipt>) -> Word
    ensures word { result ≡ word_for (slice_get (in_order receipts.old) 0) }
    ensures left { in_order receipts.new ≡ drop 1 (in_order receipts.old) }
{
    match receipts.pop() {
        Some(receipt) => Word::of(&receipt.reply.answer),
        None => Word::SeatFull,
    }
}

fn words_of(
    alloc: Global,
    numbers: &[u8],
    receipts: Vec<Vec<Receipt>>,
) -> Result<Vec<Word>, AllocError>
    requires { All (IsNumber (length receipts.items)) numbers.now }
    ensures { IfOk result (λ words. AreWords numbers.now (map in_order receipts.items) words.items) }
{
    let mut receipts = receipts;
    let mut words = Vec::with_capacity(alloc, numbers.len())?;
    for number in numbers {
        let list = &mut receipts[*number as usize - 1];
        words.push(next_word(list))?;
    }
    Ok(words)
}

fn serve_all<R: Role<Received: Send> + Send, L: Ledger + Send, T: Threads + Wait + Sync>(
    rt: &T,
    office: &Office<R, L>,
    waker: &Waker,
    seats: Vec<Seat<L>>,
    dealt: Vec<Vec<Body>>,
    rooms: Rooms<L>,
) -> Result<(Vec<Seat<L>>, Vec<Vec<Receipt>>), AllocError>
    requires named { waker.now ≡ R.SIDE }
    requires dealt { length seats.items ≡ length dealt.items }
    requires sessions { (rooms.0.items ≡ []) × (length seats.items ≤ vec_capacity rooms.0) }
    requires seats { (rooms.1.items ≡ []) × (length seats.items ≤ vec_capacity rooms.1) }
    requires receipts { (rooms.2.items ≡ []) × (length seats.items ≤ vec_capacity rooms.2) }
    ensures places { IfOk result (λ served. AreSamePlaces seats.items served.0.items) }
    ensures count { IfOk result (λ served. length served.1.items ≡ length dealt.items) }
    ensures done { IfOk result (λ served. SessionsSubmit R.SIDE (map bodies_in dealt.items) seats.items (map in_order served.1.items) served.0.items) }
{
    let (sessions, back, receipts) = rooms;
    match office.serve(rt, waker, begun(seats, dealt, sessions)) {
        Ok(served) => ended(served, back, receipts),
        Err(_) => Err(AllocError),
    }
}

/// Each session submits what it is dealt.
fn dealt_and_served<R: Role<Received: Send> + Send, L: Ledger + Send, T: Threads + Wait + Sync>(
    rt: &T,
    alloc: Global,
    office: &Office<R, L>,
    waker: &Waker,
    sessions: u8,
    seats: Vec<Seat<L>>,
    numbers: &[u8],
    bodies: &[Body],
) -> Result<(Vec<Seat<L>>, Vec<Vec<Receipt>>), AllocError>
    requires named { waker.now ≡ R.SIDE }
    requires seats { length seats.items ≡ sessions }
    requires numbers { length numbers.now ≡ length bodies.now }
    ensures places { IfOk result (λ served. AreSamePlaces seats.items served.0.items) }
    ensures count { IfOk result (λ served. length served.1.items ≡ sessions) }
    ensures done { IfOk result (λ served. SessionsSubmit R.SIDE (dealt_to_all sessions numbers.now bodies.now) seats.items (map in_order served.1.items) served.0.items) }
{
    let dealt = dealt_to(alloc, sessions, numbers, bodies)?;
    let rooms = rooms_for(alloc, seats.len())?;
    serve_all(rt, office, waker, seats, dealt, rooms)
}

/// Each body has the next word of its own session.
fn told<L: Ledger>(
    alloc: Global,
    numbers: &[u8],
    served: (Vec<Seat<L>>, Vec<Vec<Receipt>>),
) -> Result<(Vec<Seat<L>>, Vec<Word>), AllocError>
    requires { All (IsNumber (length served.1.items)) numbers.now }
    ensures seats { IfOk result (λ told. told.0 ≡ served.0) }
    ensures words { IfOk result (λ told. AreWords numbers.now (map in_order served.1.items) told.1.items) }
{
    let (seats, receipts) = served;
    let words = words_of(alloc, numbers, receipts)?;
    Ok((seats, words))
}

/// Each session submits the bodies beside its number.
fn numbered<R: Role<Received: Send> + Send, L: Ledger + Send, T: Threads + Wait + Sync>(
    rt: &T,
    alloc: Global,
    office: &Office<R, L>,
    waker: &Waker,
    sessions: u8,
    seats: Vec<Seat<L>>,
    numbers: &[u8],
    bodies: &[Body],
) -> Result<(Vec<Seat<L>>, Vec<Word>), AllocError>
    requires named { waker.now ≡ R.SIDE }
    requires seats { length seats.items ≡ sessions }
    requires numbers { numbers.now ≡ sessions_for sessions bodies.now }
    requires each { All (IsNumber sessions) numbers.now }
    ensures places { IfOk result (λ submitted. AreSamePlaces seats.items submitted.0.items) }
    ensures all { IfOk result (λ submitted. SessionsMake R.SIDE sessions bodies.now seats.items submitted.1.items submitted.0.items) }
{
    let served = dealt_and_served(rt, alloc, office, waker, sessions, seats, numbers, bodies)?;
    told(alloc, numbers, served)
}

/// The waker is dropped when the sessions are done, which ends the loop that waits for notices.
pub(crate) fn submitted<R: Role<Received: Send> + Send, L: Ledger + Send, T: Threads + Wait + Sync>(
    rt: &T,
    alloc: Global,
    office: &Office<R, L>,
    waker: Waker,
    sessions: u8,
    seats: Vec<Seat<L>>,
    bodies: Vec<Body>,
) -> Result<(Vec<Seat<L>>, Vec<Word>), AllocError>
    requires named { waker ≡ R.SIDE }
    requires some { 1 ≤ sessions }
    requires few { sessions < 16 }
    requires seats { length seats.items ≡ sessions }
    ensures places { IfOk result (λ submitted. AreSamePlaces seats.items submitted.0.items) }
    ensures all { IfOk result (λ submitted. SessionsMake R.SIDE sessions bodies.items seats.items submitted.1.items submitted.0.items) }
{
    let Ok(numbers) = sessions_of(alloc, sessions, &bodies) else {
        drop((waker, seats, bodies));
        return Err(AllocError);
    };
    let made = numbered(
        rt, alloc, office, &waker, sessions, seats, &numbers, &bodies,
    );
    drop((waker, numbers, bodies));
    made
}
