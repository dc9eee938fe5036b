ghost use Rattle.std.specs.Prelude.{◌≡◌, ◌≢◌, IfSome, ◌<◌, ◌≤◌, ◌↔◌, ◌+◌, [], ◌∷◌, ◌++◌, Err, IfErr, IfOk, OnErr, OnOk, false, length, vec_capacity, vec_len};
ghost use Rattle.gi_desk.specs.Machine.{after, prepared as prepared_of, reply as reply_of};
ghost use Rattle.gi_office.specs.Entering.{entered, noted, receipt_of};
ghost use Rattle.gi_office.specs.Keeping.{IsFull, HeldInvariant};
ghost use Rattle.gi_office.specs.Limits.{most_seats};
ghost use Rattle.gi_office.specs.Opening.{new_held, new_seats};
ghost use Rattle.gi_office.specs.Saving.{CanBeWritten, look_of};
ghost use Rattle.gi_office.specs.Settling.{CountsAll, Settles};
ghost use Rattle.gi_office.specs.Waiting.{waited_for};

use crate::copying::{next_facts, reply_copy};
use crate::entry::Entry;
use crate::facts::Facts;
use crate::look::Look;
use crate::note::Note;
use crate::office_fault::OfficeFault;
use crate::open_fault::OpenFault;
use crate::receipt::Receipt;
use crate::seat::{MOST_NOTES, Seat};
use crate::seating::seats_of;
use crate::settled::Settled;
use crate::settling::{first_fault, merge};
use crate::unsettled::Unsettled;
use crate::waited::Waited;
use gi_desk::{Call, Desk, Prepared, Reply, Role, only_appends};
use std::alloc::{AllocError, Global};
use std::marker::Model;
use std::sync::ledger::{Blank, Book, Ledger};

/// How many seats an office has at most.
pub const MOST_SEATS: usize = 16;

/// Room for one more in each; what they hold stays, whatever comes.
fn room(trail: &mut Vec<Entry>, notes: &mut Vec<Note>) -> Result<(), AllocError>
    ensures trail { trail.new.items ≡ trail.old.items }
    ensures notes { notes.new.items ≡ notes.old.items }
    ensures entry { OnOk result (vec_len trail.new < vec_capacity trail.new) }
    ensures note { OnOk result (vec_len notes.new < vec_capacity notes.new) }
{
    trail.reserve(1)?;
    notes.reserve(1)
}

fn entry_of(alloc: Global, number: u8, call: &Call, reply: &Reply) -> Result<Entry, AllocError>
    ensures { IfOk result (λ entry. entry ≡ record { seat = number; call = call.now; reply = reply.now }) }
{
    let reply = reply_copy(alloc, reply)?;
    let Ok(call) = call.copy() else {
        // (handed to drop, by one call: going out of scope here would be checked field by field on each way out)
        drop(reply);
        return Err(AllocError);
    };
    Ok(Entry {
        seat: number,
        call,
        reply,
    })
}

fn note_of(alloc: Global, place: u64, call: Call, reply: &Reply) -> Result<Note, AllocError>
    ensures { IfOk result (λ note. note ≡ record { place = place; call = call; reply = reply.now }) }
{
    let Ok(reply) = reply_copy(alloc, reply) else {
        drop(call);
        return Err(AllocError);
    };
    Ok(Note { place, call, reply })
}

/// What is kept of a call: the entry of the trail and the note of the seat.
fn written(
    alloc: Global,
    number: u8,
    place: u64,
    call: Call,
    reply: &Reply,
) -> Result<(Entry, Note), AllocError>
    ensures entry { IfOk result (λ both. both.0 ≡ record { seat = number; call = call; reply = reply.now }) }
    ensures note { IfOk result (λ both. both.1 ≡ record { place = place; call = call; reply = reply.now }) }
{
    let Ok(entry) = entry_of(alloc, number, &call, reply) else {
        drop(call);
        return Err(AllocError);
    };
    let Ok(note) = note_of(alloc, place, call, reply) else {
        drop(entry);
        return Err(AllocError);
    };
    Ok((entry, note))
}

/// A step that is prepared, and what is kept of its call.
fn prepared<R: Role>(
    alloc: Global,
    desk: &Desk<R>,
    number: u8,
    place: u64,
    call: Call,
) -> Result<(Prepared, (Entry, Note)), AllocError>
    ensures step { IfOk result (λ both. both.0 ≡ prepared_of R.SIDE desk.now call) }
    ensures entry { IfOk result (λ both. both.1.0 ≡ record { seat = number; call = call; reply = reply_of R.SIDE desk.now call }) }
    ensures note { IfOk result (λ both. both.1.1 ≡ record { place = place; call = call; reply = reply_of R.SIDE desk.now call }) }
{
    let Ok(prepared) = desk.prepare(&call) else {
        drop(call);
        return Err(AllocError);
    };
    let Ok(copies) = written(alloc, number, place, call, prepared.reply()) else {
        drop(prepared);
        return Err(AllocError);
    };
    Ok((prepared, copies))
}

/// Makes a step of the desk, and gives its reply and what is kept of it. The copies are made before
/// the desk changes, so that want of memory leaves nothing to take back.
fn step<R: Role>(
    alloc: Global,
    desk: &mut Desk<R>,
    number: u8,
    place: u64,
    call: Call,
) -> Result<(Reply, (Entry, Note)), AllocError>
    ensures reply { IfOk result (λ step. step.0 ≡ reply_of R.SIDE desk.old call) }
    ensures entry { IfOk result (λ step. step.1.0 ≡ record { seat = number; call = call; reply = reply_of R.SIDE desk.old call }) }
    ensures note { IfOk result (λ step. step.1.1 ≡ record { place = place; call = call; reply = reply_of R.SIDE desk.old call }) }
    ensures next { OnOk result (desk.new ≡ after R.SIDE desk.old call) }
    ensures unchanged { OnErr result (desk.new ≡ desk.old) }
{
    let (prepared, copies) = prepared(alloc, desk, number, place, call)?;
    let Ok(reply) = desk.make(prepared) else {
        drop(copies);
        return Err(AllocError);
    };
    Ok((reply, copies))
}

fn keep(trail: &mut Vec<Entry>, notes: &mut Vec<Note>, copies: (Entry, Note))
    requires entry { vec_len trail.old < vec_capacity trail.old }
    requires note { vec_len notes.old < vec_capacity notes.old }
    ensures trail { trail.new.items ≡ trail.old.items ++ copies.0 ∷ [] }
    ensures notes { notes.new.items ≡ notes.old.items ++ copies.1 ∷ [] }
{
    let (entry, note) = copies;
    trail.push_reserved(entry);
    notes.push_reserved(note);
}

/// Makes a step of the desk, and puts what is kept of it behind the trail and the notes. Room is made
/// first, so that all is as before where memory is refused.
fn taken<R: Role>(
    alloc: Global,
    desk: &mut Desk<R>,
    trail: &mut Vec<Entry>,
    notes: &mut Vec<Note>,
    number: u8,
    call: Call,
) -> Result<Receipt, AllocError>
    ensures receipt { IfOk result (λ receipt. receipt ≡ record { seat = number; place = length trail.old.items + 1; reply = reply_of R.SIDE desk.old call }) }
    ensures next { OnOk result (desk.new ≡ after R.SIDE desk.old call) }
    ensures trail { OnOk result (trail.new.items ≡ trail.old.items ++ record { seat = number; call = call; reply = reply_of R.SIDE desk.old call } ∷ []) }
    ensures notes { OnOk result (notes.new.items ≡ notes.old.items ++ record { place = length trail.old.items + 1; call = call; reply = reply_of R.SIDE desk.old call } ∷ []) }
    ensures unchanged { OnErr result ((desk.new ≡ desk.old) × (trail.new.items ≡ trail.old.items) × (notes.new.items ≡ notes.old.items)) }
{
    if let Err(refused) = room(trail, notes) {
        drop(call);
        return Err(refused);
    }
    let place = trail.len() as u64 + 1;
    let (reply, copies) = step(alloc, desk, number, place, call)?;
    keep(trail, notes, copies);
    Ok(Receipt {
        seat: number,
        place,
        reply,
    })
}

/// What the lock of an office keeps: the desk, and the trail of all calls since it was opened.
#[derive(Drop)]
pub struct Held<R: Role, L: Ledger> {
    alloc: Global,
    /// How many facts the desk was opened with.
    opening: u32,
    seats: u8,
    desk: Desk<R>,
    trail: Vec<Entry>,
    /// Counts the entries of the trail.
    book: Book<L>,
}

impl<R: Role, L: Ledger> Model for Held<R, L> {
    ghost use Rattle.gi_office.specs.Keeping.{HeldState, HeldInvariant};

    ghost Value = { HeldState };

    ghost view = { λ h. record { opening = h.opening; seats = h.seats; desk = h.desk; trail = h.trail.items; total = h.book.total } };

    ghost invariant = { λ h. HeldInvariant R.SIDE (record { opening = h.opening; seats = h.seats; desk = h.desk; trail = h.trail.items; total = h.book.total }) };
}

/// The office over a desk, and its seats, among which the parts of the ledger are split.
#[tactic(auto, using(crate::proofs::Runs::new_kept))]
fn opened<R: Role, L: Ledger>(
    alloc: Global,
    blank: Blank,
    desk: Desk<R>,
    seats: u8,
) -> Result<(Held<R, L>, Vec<Seat<L>>), OpenFault>
    requires name { blank.name ≡ L.name }
    requires whole { blank.parts ≡ L.parts }
    requires parts { blank.parts ≡ 16 }
    requires saved { desk.saved ≡ length desk.facts }
    requires runs { desk.halted ≡ false }
    requires some { 1 ≤ seats }
    requires few { seats ≤ most_seats }
    ensures held { IfOk result (λ office. office.0 ≡ new_held desk seats) }
    ensures seats { IfOk result (λ office. office.1.items ≡ new_seats seats) }
    ensures fault { IfErr result (λ fault. fault ≡ OpenFault.OutOfMemory) }
{
    let (book, share) = blank.open::<L>();
    let Ok(places) = seats_of(alloc, share, seats) else {
        drop(desk);
        return Err(OpenFault::OutOfMemory);
    };
    let held = Held {
        alloc,
        opening: desk.len(),
        seats,
        desk,
        trail: Vec::new(alloc),
        book,
    };
    Ok((held, places))
}

impl<R: Role, L: Ledger> Held<R, L> {
    /// A desk that is not halted and whose facts are all saved, with so many seats, from 1 to 16, else
    /// `SeatCount`; then `OutOfMemory`. It opens the ledger and splits it by seat.
    pub fn open(
        alloc: Global,
        blank: Blank,
        desk: Desk<R>,
        seats: usize,
    ) -> Result<(Held<R, L>, Vec<Seat<L>>), OpenFault>
        requires name { blank.name ≡ L.name }
        requires whole { blank.parts ≡ L.parts }
        requires parts { blank.parts ≡ 16 }
        requires saved { desk.saved ≡ length desk.facts }
        requires runs { desk.halted ≡ false }
        ensures refused { (result ≡ Err OpenFault.SeatCount) ↔ ¬ ((1 ≤ seats) × (seats ≤ most_seats)) }
        ensures held { IfOk result (λ office. office.0 ≡ new_held desk seats) }
        ensures seats { IfOk result (λ office. office.1.items ≡ new_seats seats) }
    {
        if seats < 1 || MOST_SEATS < seats {
            drop(desk);
            return Err(OpenFault::SeatCount);
        }
        opened(alloc, blank, desk, seats as u8)
    }

    /// The facts that the desk was opened with and the calls since then are a legal life, of which
    /// the desk is the end; and the ledger counts the calls.
    pub fn reveal_invariant(&self)
        ensures { HeldInvariant R.SIDE self.now }
    {
        let _ = self.trail.len();
    }

    /// Makes one step of the desk, which is one entry of the trail and one note of the seat; each is
    /// counted. A refusal of the desk is an entry like any other reply, but for want of memory: then,
    /// or where a copy or its place is refused, `OutOfMemory` comes and all is as before. `SeatFull`
    /// comes first, exactly where the seat has noted 4,000,000 calls.
    pub fn enter(&mut self, seat: &mut Seat<L>, call: Call) -> Result<Receipt, OfficeFault>
        ensures full { (result ≡ Err OfficeFault.SeatFull) ↔ IsFull seat.old }
        ensures receipt { IfOk result (λ receipt. receipt ≡ receipt_of R.SIDE self.old seat.old call) }
        ensures held { OnOk result (self.new ≡ entered R.SIDE self.old seat.old call) }
        ensures seat { IfOk result (λ receipt. seat.new ≡ noted seat.old call receipt) }
        ensures unchanged { OnErr result ((self.new ≡ self.old) × (seat.new ≡ seat.old)) }
    {
        if seat.notes.len() >= MOST_NOTES {
            drop(call);
            return Err(OfficeFault::SeatFull);
        }
        only_appends();
        let Ok(receipt) = taken(
            self.alloc,
            &mut self.desk,
            &mut self.trail,
            &mut seat.notes,
            seat.number,
            call,
        ) else {
            return Err(OfficeFault::OutOfMemory);
        };
        self.book.add(&mut seat.share, 1);
        Ok(receipt)
    }

    /// What is to be saved of the desk: copies of its next facts, where it is not halted.
    pub fn look(&self) -> Result<Look, AllocError>
        ensures value { IfOk result (λ look. look ≡ look_of self.now.desk) }
        ensures writable { IfOk result CanBeWritten }
    {
        if self.desk.halted() {
            return Ok(Look::Halted);
        }
        let facts = next_facts(self.alloc, &self.desk)?;
        if facts.is_empty() {
            return Ok(Look::Nothing);
        }
        Ok(Look::Next {
            n: self.desk.saved() + 1,
            facts: Facts::from(facts),
        })
    }

    /// What became of fact number `n`; nothing while it may still be saved.
    pub fn waited(&self, n: u32) -> Option<Waited>
        ensures value { result ≡ waited_for self.now.desk n }
        ensures known { IfSome result (λ waited. waited ≢ Waited.NoFact) }
    {
        if self.desk.acknowledged(n) {
            return Some(Waited::Saved);
        }
        if self.desk.halted() {
            return Some(Waited::Stopped);
        }
        None
    }

    /// Takes the office apart. `Ok` exactly where the list of each seat is the trail's entries of the
    /// seat, in order, each once and with its place; else the first difference. It merges the shares,
    /// and takes no memory.
    pub fn settle(self, seats: Vec<Seat<L>>) -> Result<Settled<R>, Unsettled>
        ensures settles { Settles self.seats self seats.items result }
        ensures counted { CountsAll L.parts self seats.items }
    {
        let count = self.seats;
        self.settle_seats(count, seats)
    }

    /// The same, where it is known beside the lock how many seats there are.
    pub(crate) fn settle_seats(
        self,
        count: u8,
        seats: Vec<Seat<L>>,
    ) -> Result<Settled<R>, Unsettled>
        ensures settles { Settles count self seats.items result }
        ensures counted { CountsAll L.parts self seats.items }
    {
        let unsettled = first_fault(count, &seats, &self.trail);
        let Held {
            alloc,
            opening,
            seats: _,
            desk,
            trail,
            book,
        } = self;
        merge(book, seats);
        match unsettled {
            Some(fault) => {
                drop(desk);
                drop(trail);
                Err(fault)
            }
            None => Ok(Settled {
                earlier: Vec::new(alloc),
                before: 0,
                opening,
                trail,
                desk,
            }),
        }
    }
}
