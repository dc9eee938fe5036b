//! One office under way: its book, its seats, and the way to it.

ghost use Rattle.std.specs.Prelude.{◌≡◌, ◌<◌, ◌+◌, ◌++◌, IfErr, IfOk, OnOk, false, is_some, length, string_bytes, None, true};
ghost use Rattle.std.specs.Option.{option_map};
ghost use Rattle.gi_carrier.specs.Carrier.{given};
ghost use Rattle.gi_carrier.specs.Kept.{bytes_of};
ghost use Rattle.gi_office.specs.Opening.{new_seats};
ghost use Rattle.gi_simulation.specs.Simulation.{moved_on, new_link};
ghost use Rattle.gi_serving.specs.Asking.{Answers, AsksLast, Carries, EndsAtLast, EndsTurns, LetsOut, MakesAt, MakesSeats, MarksLast, NotesMarks, NotesTurns, Sends, out_behind, way_after};
ghost use Rattle.gi_serving.specs.Ending.{AreSamePlaces, IsTurnFault, place_of};
ghost use Rattle.gi_serving.specs.Faulting.{EndBy, GoWell};
ghost use Rattle.gi_serving.specs.Making.{state_of};
ghost use Rattle.gi_serving.specs.Runs.{is_made, is_told, side_in};
ghost use Rattle.gi_serving.specs.Words.{word_in};

use crate::station::Station;
use crate::telling::told_text;
use crate::turns::Turns;
use crate::word::Word;
use gi_carrier::Plan;
use gi_desk::{Body, Call, Desk, Packet, Role};
use gi_office::{Note, Office, OfficeFault, Receipt, SaveFault, Seat};
use gi_script::{Instruction, Line};
use gi_simulation::Link;
use std::alloc::{AllocError, Global};
use std::sync::Wait;
use std::sync::ledger::{Blank, Ledger};

#[derive(Drop)]
pub(crate) struct Running<R: Role, L: Ledger, B: Drop> {
    pub(crate) alloc: Global,
    pub(crate) office: Office<R, L>,
    pub(crate) book: B,
    /// The seats of the sessions, in order, and then the main one.
    pub(crate) seats: Vec<Seat<L>>,
    /// How many of the main seat's notes were sent.
    pub(crate) sent: usize,
    /// The way to this office.
    pub(crate) way: Link,
}

/// Makes a call from the seat. A mark is not made: turns alone make those.
pub fn called<R: Role, L: Ledger, W: Wait>(
    rt: &W,
    office: &Office<R, L>,
    seat: Seat<L>,
    call: Call,
) -> (Seat<L>, Option<Result<Receipt, OfficeFault>>)
    ensures place { place_of result.0 ≡ place_of seat }
    ensures made { is_some result.1 ≡ is_made call }
    ensures answered { Answers R.SIDE seat call result.1 result.0 }
{
    let (seat, answer) = match call {
        Call::Contract(contract) => office.contract(rt, seat, contract),
        Call::Notice(notice) => office.notice(rt, seat, notice),
        Call::Submit(body) => office.submit(rt, seat, body),
        Call::Close { id, rule } => office.close_cycle(rt, seat, id, rule),
        Call::Deliver(body) => office.deliver(rt, seat, body),
        Call::Resend(id) => office.resend(rt, seat, id),
        Call::Halt => office.halt(rt, seat),
        // (handed to drop, by one call: going out of scope here would be checked field by field on each way out)
        mark @ Call::MarkSaved { .. } => {
            drop(mark);
            return (seat, None);
        }
    };
    (seat, Some(answer))
}

fn word_of(answer: Option<Result<Receipt, OfficeFault>>) -> Result<Option<Word>, AllocError>
    ensures told { IfOk result (λ word. is_some word ≡ is_some answer) }
    ensures word { IfOk result (λ word. word ≡ word_in answer) }
{
    let Some(answer) = answer else {
        return Ok(None);
    };
    match Word::of_call(answer) {
        Some(word) => Ok(Some(word)),
        None => Err(AllocError),
    }
}

/// Turns, until one saves nothing, as where all is saved or the desk is halted, or answers a fault.
pub fn saved_all<R: Role, L: Ledger, B: Turns, W: Wait>(
    rt: &W,
    office: &Office<R, L>,
    book: &mut B,
    seat: Seat<L>,
) -> (Seat<L>, Result<(), SaveFault>)
    ensures place { place_of result.0 ≡ place_of seat }
    ensures marks { OnOk result.1 (NotesMarks seat result.0) }
    ensures notes { NotesTurns seat result.0 }
    ensures fault { IfErr result.1 IsTurnFault }
    ensures last { EndsTurns (B.takes R.SIDE) book.new result.1 result.0 }
    ensures well { OnOk result.1 (GoWell (B.takes R.SIDE) book.old book.new) }
    ensures ended { IfErr result.1 (EndBy (B.takes R.SIDE) book.old book.new) }
{
    let mut main = seat;
    for _ in rt.forever() {
        let (back, saved) = book.turned(rt, office, main);
        main = back;
        match saved {
            Ok(true) => {}
            Ok(false) => return (main, Ok(())),
            Err(fault) => return (main, Err(fault)),
        }
    }
    unreachable!()
}

fn add_copies(packets: &mut Vec<Packet>, more: &[Packet]) -> Result<(), AllocError>
    ensures { OnOk result (packets.new.items ≡ packets.old.items ++ more.now) }
{
    for packet in more {
        packets.push(packet.copy()?)?;
    }
    Ok(())
}

fn out_since(alloc: Global, notes: &[Note], sent: usize) -> Result<Vec<Packet>, AllocError>
    ensures { IfOk result (λ packets. packets.items ≡ out_behind sent notes.now) }
{
    let mut packets = Vec::new(alloc);
    for note in &notes[sent.min(notes.len())..] {
        add_copies(&mut packets, note.reply.out.as_slice())?;
    }
    Ok(packets)
}

/// With so many sessions, and the main seat.
fn opened<R: Role, L: Ledger>(
    alloc: Global,
    blank: Blank,
    desk: Desk<R>,
    sessions: u8,
) -> Result<(Office<R, L>, Vec<Seat<L>>), AllocError>
    requires name { blank.name ≡ L.name }
    requires whole { blank.parts ≡ L.parts }
    requires parts { blank.parts ≡ 16 }
    requires few { sessions < 16 }
    requires saved { desk.saved ≡ length desk.facts }
    requires runs { desk.halted ≡ false }
    ensures office { IfOk result (λ opened. opened.0.seats ≡ sessions + 1) }
    ensures seats { IfOk result (λ opened. opened.1.items ≡ new_seats (sessions + 1)) }
{
    match Office::new(alloc, blank, desk, sessions as usize + 1) {
        Ok(opened) => Ok(opened),
        Err(_) => Err(AllocError),
    }
}

fn just_opened<R: Role, L: Ledger, B: Drop>(
    alloc: Global,
    office: Office<R, L>,
    book: B,
    seats: Vec<Seat<L>>,
    way: Link,
) -> Running<R, L, B>
    ensures office { result.office ≡ office }
    ensures book { result.book ≡ book }
    ensures seats { result.seats ≡ seats }
    ensures sent { result.sent ≡ 0 }
    ensures way { result.way ≡ way }
{
    Running {
        alloc,
        office,
        book,
        seats,
        sent: 0,
        way,
    }
}

impl<R: Role, L: Ledger, B: Turns + Drop> Running<R, L, B> {
    pub(crate) fn open(station: Station<R, B>, sessions: u8) -> Result<Running<R, L, B>, AllocError>
        requires name { station.blank.name ≡ L.name }
        requires whole { station.blank.parts ≡ L.parts }
        requires parts { station.blank.parts ≡ 16 }
        requires few { sessions < 16 }
        requires saved { station.desk.saved ≡ length station.desk.facts }
        requires runs { station.desk.halted ≡ false }
        requires book { B.holds station.book station.desk.facts }
        ensures office { IfOk result (λ running. running.office.seats ≡ sessions + 1) }
        ensures book { IfOk result (λ running. running.book ≡ station.book) }
        ensures seats { IfOk result (λ running. running.seats.items ≡ new_seats (sessions + 1)) }
        ensures sent { IfOk result (λ running. running.sent ≡ 0) }
        ensures way { IfOk result (λ running. running.way ≡ new_link) }
    {
        let Ok(way) = Link::new(station.alloc) else {
            drop(station);
            return Err(AllocError);
        };
        let Station {
            alloc,
            blank,
            desk,
            book,
        } = station;
        match opened(alloc, blank, desk, sessions) {
            Ok((office, seats)) => Ok(just_opened(alloc, office, book, seats, way)),
            Err(refused) => {
                drop((book, way));
                Err(refused)
            }
        }
    }

    fn ask<W: Wait>(&mut self, rt: &W, call: Call) -> Result<Option<Word>, AllocError>
        requires { 0 < length self.old.seats.items }
        ensures office { self.new.office ≡ self.old.office }
        ensures book { self.new.book ≡ self.old.book }
        ensures seats { AreSamePlaces self.old.seats.items self.new.seats.items }
        ensures sent { self.new.sent ≡ self.old.sent }
        ensures way { self.new.way ≡ self.old.way }
        ensures told { IfOk result (λ word. is_some word ≡ is_made call) }
        ensures asked { IfOk result (λ word. AsksLast R.SIDE self.old.seats.items call word self.new.seats.items) }
    {
        let main = self.seats.pop().unwrap();
        let (main, answer) = called(rt, &self.office, main, call);
        self.seats.push_reserved(main);
        word_of(answer)
    }

    fn ask_copy<W: Wait>(&mut self, rt: &W, call: &Call) -> Result<Option<Word>, AllocError>
        requires { 0 < length self.old.seats.items }
        ensures office { self.new.office ≡ self.old.office }
        ensures book { self.new.book ≡ self.old.book }
        ensures seats { AreSamePlaces self.old.seats.items self.new.seats.items }
        ensures sent { self.new.sent ≡ self.old.sent }
        ensures way { self.new.way ≡ self.old.way }
        ensures told { IfOk result (λ word. is_some word ≡ is_made call.now) }
        ensures asked { IfOk result (λ word. AsksLast R.SIDE self.old.seats.items call.now word self.new.seats.items) }
    {
        let call = call.copy()?;
        self.ask(rt, call)
    }

    fn set(&mut self, plan: &Plan) -> Result<Option<Word>, AllocError>
        ensures office { self.new.office ≡ self.old.office }
        ensures book { self.new.book ≡ self.old.book }
        ensures seats { self.new.seats ≡ self.old.seats }
        ensures sent { self.new.sent ≡ self.old.sent }
        ensures way { OnOk result (self.new.way ≡ record { carrier = self.old.way.carrier; plan = plan.now }) }
        ensures told { IfOk result (λ word. word ≡ None) }
    {
        self.way.set(plan)?;
        Ok(None)
    }

    /// Where the carrier gave nothing, none is delivered.
    fn deliver<W: Wait>(
        &mut self,
        rt: &W,
        message: Option<Vec<u8>>,
    ) -> Result<Option<Word>, AllocError>
        requires { 0 < length self.old.seats.items }
        ensures office { self.new.office ≡ self.old.office }
        ensures book { self.new.book ≡ self.old.book }
        ensures seats { AreSamePlaces self.old.seats.items self.new.seats.items }
        ensures sent { self.new.sent ≡ self.old.sent }
        ensures way { self.new.way ≡ self.old.way }
        ensures told { IfOk result (λ word. is_some word ≡ true) }
        ensures carried { IfOk result (λ word. Carries R.SIDE (option_map bytes_of message) self.old.seats.items word self.new.seats.items) }
    {
        match message {
            Some(message) => self.ask(rt, Call::Deliver(Body::from(message))),
            None => Ok(Some(Word::Nothing)),
        }
    }

    fn carry<W: Wait>(&mut self, rt: &W) -> Result<Option<Word>, AllocError>
        requires { 0 < length self.old.seats.items }
        ensures office { self.new.office ≡ self.old.office }
        ensures book { self.new.book ≡ self.old.book }
        ensures seats { AreSamePlaces self.old.seats.items self.new.seats.items }
        ensures sent { self.new.sent ≡ self.old.sent }
        ensures way { OnOk result (self.new.way ≡ moved_on self.old.way) }
        ensures told { IfOk result (λ word. is_some word ≡ true) }
        ensures carried { IfOk result (λ word. Carries R.SIDE (given self.old.way.plan self.old.way.carrier) self.old.seats.items word self.new.seats.items) }
    {
        let message = self.way.next()?;
        self.deliver(rt, message)
    }

    fn make<W: Wait>(
        &mut self,
        rt: &W,
        instruction: &Instruction,
    ) -> Result<Option<Word>, AllocError>
        requires { 0 < length self.old.seats.items }
        ensures office { self.new.office ≡ self.old.office }
        ensures book { self.new.book ≡ self.old.book }
        ensures seats { AreSamePlaces self.old.seats.items self.new.seats.items }
        ensures sent { self.new.sent ≡ self.old.sent }
        ensures way { OnOk result (self.new.way ≡ way_after instruction.now self.old.way) }
        ensures told { IfOk result (λ word. is_some word ≡ is_told instruction.now) }
        ensures made { IfOk result (λ word. MakesSeats R.SIDE instruction.now self.old.way self.old.seats.items word self.new.seats.items) }
    {
        match instruction {
            Instruction::Call { side: _, call } => self.ask_copy(rt, call),
            Instruction::Carry { side: _ } => self.carry(rt),
            Instruction::Plan { side: _, plan } => self.set(plan),
            _ => Ok(None),
        }
    }

    /// The text of what comes of the line, which is for this side.
    pub(crate) fn line<W: Wait>(&mut self, rt: &W, line: &Line) -> Result<String, AllocError>
        requires some { 0 < length self.old.seats.items }
        requires side { side_in line.now.instruction ≡ R.SIDE }
        ensures office { self.new.office ≡ self.old.office }
        ensures book { self.new.book ≡ self.old.book }
        ensures seats { AreSamePlaces self.old.seats.items self.new.seats.items }
        ensures made { IfOk result (λ text. MakesAt R.SIDE line.now (state_of self.old) (string_bytes text) (state_of self.new)) }
    {
        let word = self.make(rt, &line.instruction)?;
        told_text(self.alloc, line.number, R::SIDE, word)
    }

    pub(crate) fn save_all<W: Wait>(&mut self, rt: &W) -> Result<(), SaveFault>
        requires { 0 < length self.old.seats.items }
        ensures office { self.new.office ≡ self.old.office }
        ensures seats { AreSamePlaces self.old.seats.items self.new.seats.items }
        ensures sent { self.new.sent ≡ self.old.sent }
        ensures way { self.new.way ≡ self.old.way }
        ensures marks { OnOk result (MarksLast self.old.seats.items self.new.seats.items) }
        ensures fault { IfErr result IsTurnFault }
        ensures last { EndsAtLast (B.takes R.SIDE) self.new.book result self.new.seats.items }
        ensures well { OnOk result (GoWell (B.takes R.SIDE) self.old.book self.new.book) }
        ensures ended { IfErr result (EndBy (B.takes R.SIDE) self.old.book self.new.book) }
    {
        let main = self.seats.pop().unwrap();
        let (main, saved) = saved_all(rt, &self.office, &mut self.book, main);
        self.seats.push_reserved(main);
        saved
    }

    fn let_out(&mut self) -> Result<Vec<Packet>, AllocError>
        requires { 0 < length self.old.seats.items }
        ensures office { self.new.office ≡ self.old.office }
        ensures book { self.new.book ≡ self.old.book }
        ensures seats { self.new.seats ≡ self.old.seats }
        ensures way { self.new.way ≡ self.old.way }
        ensures out { IfOk result (λ packets. LetsOut self.old.sent self.old.seats.items packets.items self.new.sent) }
    {
        let notes = self.seats.last().unwrap().notes();
        let packets = out_since(self.alloc, notes, self.sent)?;
        self.sent = notes.len();
        Ok(packets)
    }

    /// Over the way to the other office.
    pub(crate) fn send(&mut self, way: &mut Link) -> Result<(), AllocError>
        requires { 0 < length self.old.seats.items }
        ensures office { self.new.office ≡ self.old.office }
        ensures book { self.new.book ≡ self.old.book }
        ensures seats { self.new.seats ≡ self.old.seats }
        ensures way { self.new.way ≡ self.old.way }
        ensures sent { OnOk result (Sends self.old.sent self.old.seats.items self.new.sent way.old way.new) }
    {
        let packets = self.let_out()?;
        way.send_packets(packets)
    }

    pub(crate) fn into_parts(self) -> (Office<R, L>, Vec<Seat<L>>)
        ensures office { result.0 ≡ self.office }
        ensures seats { result.1 ≡ self.seats }
    {
        let Running {
            alloc: _,
            office,
            book: _,
            seats,
            sent: _,
            way: _,
        } = self;
        (office, seats)
    }
}
