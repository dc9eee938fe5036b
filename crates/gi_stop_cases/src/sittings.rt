//! An office at work with its book, called from its one seat.

ghost use Rattle.std.specs.Prelude.{◌≡◌, IfSome, false, length};

use crate::scripts::{KINDS, OWN, Script};
use gi_calls::Answer;
use gi_day::Calendar;
use gi_desk::{Body, Call, Desk, Fact, Packet, Recipient, Refusal, Role};
use gi_office::{Note, Office, OfficeFault, Receipt, SaveFault, Seat, Settled, Turn};
use gi_pairs::Code;
use gi_store::BookStore;
use sqlite::Alter;
use std::alloc::Global;
use std::sync::Wait;
use std::sync::ledger::{Blank, Ledger};

/// An office at work with its book.
pub struct Sitting<'a, R: Role, L: Ledger, S: Alter> {
    alloc: Global,
    script: &'a Script,
    is_each: bool,
    office: Office<R, L>,
    /// Away while a call is made from it.
    seat: Option<Seat<L>>,
    book: BookStore<S>,
    /// How many facts its desk has.
    facts: u32,
    /// How many notes of its seat were looked at.
    seen: usize,
    /// How many packets of its peer were delivered to it.
    delivered: usize,
    /// What it let out to its peer, in this life and in those before.
    sent: Vec<Body>,
}

/// The desk of these facts.
fn desk_of<R: Role>(alloc: Global, point: Code, facts: Vec<Fact>) -> Option<Desk<R>>
    ensures { IfSome result (λ desk. (desk.saved ≡ length desk.facts) × (desk.halted ≡ false)) }
{
    match Calendar::new() {
        Ok(calendar) => Desk::replay(alloc, calendar, point, facts).ok(),
        Err(_) => {
            // (handed to `drop`, by one call: going out of scope here would be checked field by field)
            drop(facts);
            None
        }
    }
}

/// The office of these facts, with one seat.
fn office_of<R: Role, L: Ledger>(
    alloc: Global,
    blank: Blank,
    point: Code,
    facts: Vec<Fact>,
) -> Option<(Office<R, L>, Vec<Seat<L>>)>
    requires name { blank.name ≡ L.name }
    requires whole { blank.parts ≡ L.parts }
    requires parts { blank.parts ≡ 16 }
{
    match desk_of(alloc, point, facts) {
        Some(desk) => Office::new(alloc, blank, desk, 1).ok(),
        None => {
            drop(blank);
            None
        }
    }
}

/// Makes the call from the seat.
fn asked<R: Role, L: Ledger, W: Wait>(
    handle: &W,
    office: &Office<R, L>,
    seat: Seat<L>,
    call: Call,
) -> (Seat<L>, Result<Receipt, OfficeFault>) {
    match call {
        Call::Contract(contract) => office.contract(handle, seat, contract),
        Call::Notice(notice) => office.notice(handle, seat, notice),
        Call::Submit(body) => office.submit(handle, seat, body),
        Call::Close { id, rule } => office.close_cycle(handle, seat, id, rule),
        Call::Deliver(body) => office.deliver(handle, seat, body),
        Call::Resend(id) => office.resend(handle, seat, id),
        _ => office.halt(handle, seat),
    }
}

/// Keeps the packets for the peer. One that there is no memory for is lost, as on a carrier.
fn send(packets: &[Packet], sent: &mut Vec<Body>) {
    for packet in packets {
        if packet.to == Recipient::Peer {
            if let Ok(body) = packet.body.copy() {
                let _ = sent.push(body);
            }
        }
    }
}

/// Sends what the notes let out to the peer, and counts the facts that they recorded.
fn send_all(notes: &[Note], sent: &mut Vec<Body>) -> u32 {
    let mut recorded = 0u32;
    for note in notes {
        if let gi_desk::Answer::Recorded { .. } = note.reply.answer {
            recorded = recorded.wrapping_add(1);
        }
        send(note.reply.out.as_slice(), sent);
    }
    recorded
}

/// Whether the call was answered that the desk is halted. Else what it was answered is added.
fn is_halted(answer: &Result<Receipt, OfficeFault>, text: &mut Answer) -> bool {
    match answer {
        Ok(receipt) => match receipt.reply.answer {
            gi_desk::Answer::Refused(Refusal::Halted) => return true,
            gi_desk::Answer::Refused(refusal) => text.word(refusal),
            _ => text.word("made"),
        },
        Err(fault) => text.word(*fault),
    }
    false
}

/// Why the turn saved nothing.
fn fault_of(turn: Result<Turn, SaveFault>) -> Option<SaveFault> {
    match turn {
        Ok(turn) => {
            drop(turn);
            None
        }
        Err(fault) => Some(fault),
    }
}

impl<'a, R: Role, L: Ledger, S: Alter + Drop> Sitting<'a, R, L, S> {
    /// Opens the office over the facts of its book. `None` where the book cannot be loaded.
    pub fn open(
        alloc: Global,
        blank: Blank,
        script: (&'a Script, bool),
        book: BookStore<S>,
        sent: Vec<Body>,
    ) -> Option<Sitting<'a, R, L, S>>
        requires name { blank.name ≡ L.name }
        requires whole { blank.parts ≡ L.parts }
        requires parts { blank.parts ≡ 16 }
    {
        let (script, is_each) = script;
        let mut book = book;
        let Ok(facts) = book.load() else {
            drop((blank, book, sent));
            return None;
        };
        let Some((office, mut seats)) = office_of(alloc, blank, script.point, facts) else {
            drop((book, sent));
            return None;
        };
        let facts = book.count().unwrap_or(0);
        let seat = seats.pop();
        drop(seats);
        Some(Sitting {
            alloc,
            script,
            is_each,
            office,
            seat,
            book,
            facts,
            seen: 0,
            delivered: 0,
            sent,
        })
    }

    /// How many facts its desk has.
    pub fn facts(&self) -> u32 {
        self.facts
    }

    /// What it let out to its peer.
    pub fn sent(&self) -> &[Body] {
        &self.sent
    }

    /// Puts the seat back, and sends what its further notes let out.
    fn put_back(&mut self, seat: Seat<L>) {
        let notes = seat.notes();
        if self.seen <= notes.len() {
            let recorded = send_all(&notes[self.seen..], &mut self.sent);
            self.facts = self.facts.wrapping_add(recorded);
            self.seen = notes.len();
        }
        drop(self.seat.replace(seat));
    }

    /// Makes a call, where there is one.
    fn ask<W: Wait>(
        &mut self,
        handle: &W,
        call: Option<Call>,
    ) -> Option<Result<Receipt, OfficeFault>> {
        let call = call?;
        match self.seat.take() {
            Some(seat) => {
                let (seat, answer) = asked(handle, &self.office, seat, call);
                self.put_back(seat);
                Some(answer)
            }
            None => {
                drop(call);
                None
            }
        }
    }

    /// Makes a turn that saves, and tells why it did not.
    fn save<W: Wait>(&mut self, handle: &W) -> Option<SaveFault> {
        let seat = self.seat.take()?;
        let (seat, turn) = self.office.save_turn(handle, seat, &mut self.book);
        self.put_back(seat);
        fault_of(turn)
    }

    /// Makes a call, and a turn where each fact has one of its own.
    fn make<W: Wait>(&mut self, handle: &W, call: Option<Call>) -> Option<SaveFault> {
        drop(self.ask(handle, call));
        if self.is_each {
            self.save(handle)
        } else {
            None
        }
    }

    /// Sends again what a saved closing let out.
    pub fn resend<W: Wait>(&mut self, handle: &W) {
        if OWN <= self.facts {
            drop(self.ask(handle, Some(Call::Resend(self.script.id))));
        }
    }

    /// Makes the own calls that its desk has no facts of, and saves them.
    fn make_own<W: Wait>(&mut self, handle: &W) -> Option<SaveFault> {
        for number in self.facts..OWN {
            if let Some(fault) = self.make(handle, self.script.call(number)) {
                return Some(fault);
            }
        }
        self.save(handle)
    }

    /// Takes what its peer sent, and saves what comes of it.
    fn take_all<W: Wait>(&mut self, handle: &W, packets: &[Body]) -> Option<SaveFault> {
        for packet in packets.iter().skip(self.delivered) {
            self.delivered = self.delivered.wrapping_add(1);
            let call = packet.copy().ok().map(Call::Deliver);
            if let Some(fault) = self.make(handle, call) {
                return Some(fault);
            }
        }
        self.save(handle)
    }

    /// Does all that it can do now. Tells why a turn saved nothing, and then it goes no further.
    pub fn advance<W: Wait>(&mut self, handle: &W, packets: &[Body]) -> Option<SaveFault> {
        match self.make_own(handle) {
            Some(fault) => Some(fault),
            None => self.take_all(handle, packets),
        }
    }

    /// Makes a call. Gives how many were answered that the desk is halted, and adds any other answer.
    fn try_call<W: Wait>(&mut self, handle: &W, call: Option<Call>, text: &mut Answer) -> u32 {
        let Some(answer) = self.ask(handle, call) else {
            return 0;
        };
        let is_halted = is_halted(&answer, text);
        drop(answer);
        u32::from(is_halted)
    }

    /// Makes a call of each kind on the desk that is halted, and a turn, and adds what that is answered, and where not
    /// each of these calls was answered `Halted`, how many were. What is delivered is a packet of the peer, where there
    /// is one.
    pub fn call_each<W: Wait>(&mut self, handle: &W, packets: &[Body], text: &mut Answer) {
        let mut halted = 0u32;
        for number in 0..KINDS {
            let one = self.try_call(handle, self.script.call(number), text);
            halted = halted.wrapping_add(one);
        }
        if halted != KINDS {
            text.word("halted for");
            text.word(halted);
        }
        if let Some(packet) = packets.first() {
            let _ = self.try_call(handle, packet.copy().ok().map(Call::Deliver), text);
        }
        if let Some(fault) = self.save(handle) {
            text.word(fault);
        }
    }

    /// What is left of the office, and what it sent.
    pub fn end(self) -> (Option<Settled<R>>, Vec<Body>) {
        let Sitting {
            alloc,
            script: _,
            is_each: _,
            office,
            seat,
            book,
            facts: _,
            seen: _,
            delivered: _,
            sent,
        } = self;
        drop(book);
        let mut seats = Vec::new(alloc);
        if let Some(seat) = seat {
            let _ = seats.push(seat);
        }
        (office.settle(seats).ok(), sent)
    }
}
