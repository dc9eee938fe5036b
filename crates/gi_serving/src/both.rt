//! Both offices under way, and what a line or a batch of a script makes of them.

ghost use Rattle.std.specs.Prelude.{◌≡◌, ◌⊎◌, ◌≤◌, ◌<◌, ◌+◌, IfErr, IfOk, Err, Ok, OnErr, OnOk, false, length, string_bytes};
ghost use Rattle.gi_pairs.specs.declared.side.Side.TheVariants.{I, M};
ghost use Rattle.gi_serving.specs.Asking.{EndsAtLast, MarksLast, Sends};
ghost use Rattle.gi_serving.specs.Closing.{IsClosed};
ghost use Rattle.gi_serving.specs.Ending.{AreSamePlaces, EndsTurnsOf, IsCut};
ghost use Rattle.gi_serving.specs.Faulting.{BothGoWell, TellsTurns};
ghost use Rattle.gi_serving.specs.Making.{MakesBatch, MakesLine, SavesAndSends, new_offices, offices_of};
ghost use Rattle.gi_serving.specs.Runs.{side_in};
ghost use Rattle.gi_serving.specs.Submitting.{SubmitsBatch};

use crate::at_once::at_once;
use crate::batch::bodies_of_both;
use crate::closing::{Closed, close_both};
use crate::paired::both_of;
use crate::running::Running;
use crate::serve_fault::ServeFault;
use crate::station::Station;
use crate::telling::batch_text;
use crate::turns::Turns;
use crate::word::Word;
use gi_desk::Body;
use gi_initiator::Initiating;
use gi_matcher::Matching;
use gi_office::{Office, Seat};
use gi_pairs::Side;
use gi_script::{Instruction, Line};
use std::alloc::{AllocError, Global};
use std::mem;
use std::sync::Wait;
use std::sync::ledger::Ledger;
use std::thread::Threads;

#[derive(Drop)]
pub(crate) struct Both<L: Ledger, K: Ledger, B: Drop, C: Drop> {
    pub(crate) alloc: Global,
    pub(crate) sessions: u8,
    pub(crate) initiating: Running<Initiating, L, B>,
    pub(crate) matching: Running<Matching, K, C>,
    ghost some: { 1 ≤ sessions },
    ghost few: { sessions < 16 },
    ghost ours: { initiating.office.seats ≡ sessions + 1 },
    ghost theirs: { matching.office.seats ≡ sessions + 1 },
}

fn side_of(instruction: &Instruction) -> Side
    ensures { result ≡ side_in instruction.now }
{
    match instruction {
        Instruction::Call { side, .. } => *side,
        Instruction::Save { side, .. } => *side,
        Instruction::Deliver { side, .. } => *side,
        Instruction::Restart { side, .. } => *side,
        Instruction::Plan { side, .. } => *side,
        Instruction::Carry { side } => *side,
    }
}

fn put<A: Drop>(place: &mut A, value: A)
    ensures { place.new ≡ value }
{
    *place = value;
}

/// Submits at both offices at once, by all of their seats, which come back.
fn submit_from<
    L: Ledger + Send + Sync,
    K: Ledger + Send + Sync,
    B: Turns + Send,
    C: Turns + Send,
    T: Threads + Wait + Sync,
>(
    rt: &T,
    alloc: Global,
    sessions: u8,
    office: &Office<Initiating, L>,
    book: &mut B,
    seats: &mut Vec<Seat<L>>,
    bodies: Vec<Body>,
    peer: &Office<Matching, K>,
    peer_book: &mut C,
    peer_seats: &mut Vec<Seat<K>>,
    peer_bodies: Vec<Body>,
) -> Result<(Vec<Word>, Vec<Word>), ServeFault>
    requires some { 1 ≤ sessions }
    requires few { sessions < 16 }
    requires ours { length seats.old.items ≡ sessions + 1 }
    requires theirs { length peer_seats.old.items ≡ sessions + 1 }
    ensures ours { OnOk result (AreSamePlaces seats.old.items seats.new.items) }
    ensures theirs { OnOk result (AreSamePlaces peer_seats.old.items peer_seats.new.items) }
    ensures submits { IfOk result (λ words. SubmitsBatch I sessions bodies.items seats.old.items words.0.items seats.new.items) }
    ensures peer_submits { IfOk result (λ words. SubmitsBatch M sessions peer_bodies.items peer_seats.old.items words.1.items peer_seats.new.items) }
    ensures cut { IfErr result (λ fault. IsCut (Err fault)) }
    ensures well { OnOk result (BothGoWell (B.takes I) (C.takes M) book.old peer_book.old book.new peer_book.new) }
    ensures tells { IfErr result (TellsTurns (B.takes I) (C.takes M) book.old peer_book.old book.new peer_book.new) }
{
    let all = mem::replace(seats, Vec::new(alloc));
    let peer_all = mem::replace(peer_seats, Vec::new(alloc));
    let ((all, words), (peer_all, peer_words)) = at_once(
        rt,
        alloc,
        sessions,
        office,
        book,
        all,
        bodies,
        peer,
        peer_book,
        peer_all,
        peer_bodies,
    )?;
    put(seats, all);
    put(peer_seats, peer_all);
    Ok((words, peer_words))
}

impl<L: Ledger, K: Ledger, B: Turns + Drop, C: Turns + Drop> Both<L, K, B, C> {
    pub(crate) fn open(
        sessions: u8,
        initiating: Station<Initiating, B>,
        matching: Station<Matching, C>,
    ) -> Result<Both<L, K, B, C>, AllocError>
        requires some { 1 ≤ sessions }
        requires few { sessions < 16 }
        requires name { initiating.blank.name ≡ L.name }
        requires whole { initiating.blank.parts ≡ L.parts }
        requires parts { initiating.blank.parts ≡ 16 }
        requires saved { initiating.desk.saved ≡ length initiating.desk.facts }
        requires runs { initiating.desk.halted ≡ false }
        requires book { B.holds initiating.book initiating.desk.facts }
        requires peer_name { matching.blank.name ≡ K.name }
        requires peer_whole { matching.blank.parts ≡ K.parts }
        requires peer_parts { matching.blank.parts ≡ 16 }
        requires peer_saved { matching.desk.saved ≡ length matching.desk.facts }
        requires peer_runs { matching.desk.halted ≡ false }
        requires peer_book { C.holds matching.book matching.desk.facts }
        ensures sessions { IfOk result (λ both. both.sessions ≡ sessions) }
        ensures new { IfOk result (λ both. offices_of both.initiating both.matching ≡ new_offices sessions) }
        ensures book { IfOk result (λ both. both.initiating.book ≡ initiating.book) }
        ensures peer_book { IfOk result (λ both. both.matching.book ≡ matching.book) }
    {
        let alloc = initiating.alloc;
        let initiating = Running::<Initiating, L, B>::open(initiating, sessions);
        let matching = Running::<Matching, K, C>::open(matching, sessions);
        let (initiating, matching) = both_of(initiating, matching)?;
        Ok(Both {
            alloc,
            sessions,
            initiating,
            matching,
        })
    }

    pub(crate) fn line<W: Wait>(&mut self, rt: &W, line: &Line) -> Result<String, ServeFault>
        requires ours { 0 < length self.old.initiating.seats.items }
        requires theirs { 0 < length self.old.matching.seats.items }
        ensures sessions { self.new.sessions ≡ self.old.sessions }
        ensures ours { AreSamePlaces self.old.initiating.seats.items self.new.initiating.seats.items }
        ensures theirs { AreSamePlaces self.old.matching.seats.items self.new.matching.seats.items }
        ensures made { IfOk result (λ text. MakesLine (side_in line.now.instruction) line.now
            (offices_of self.old.initiating self.old.matching) (string_bytes text) (offices_of self.new.initiating self.new.matching)) }
        ensures cut { IfErr result (λ fault. fault ≡ ServeFault.OutOfMemory) }
        ensures book { self.new.initiating.book ≡ self.old.initiating.book }
        ensures peer_book { self.new.matching.book ≡ self.old.matching.book }
    {
        let said = match side_of(&line.instruction) {
            Side::I => self.initiating.line(rt, line),
            Side::M => self.matching.line(rt, line),
        };
        match said {
            Ok(text) => Ok(text),
            Err(_) => Err(ServeFault::OutOfMemory),
        }
    }

    fn send(&mut self) -> Result<(), AllocError>
        requires ours { 0 < length self.old.initiating.seats.items }
        requires theirs { 0 < length self.old.matching.seats.items }
        ensures sessions { self.new.sessions ≡ self.old.sessions }
        ensures ours { self.new.initiating.seats ≡ self.old.initiating.seats }
        ensures theirs { self.new.matching.seats ≡ self.old.matching.seats }
        ensures book { self.new.initiating.book ≡ self.old.initiating.book }
        ensures peer_book { self.new.matching.book ≡ self.old.matching.book }
        ensures orders { OnOk result (Sends self.old.initiating.sent self.old.initiating.seats.items self.new.initiating.sent self.old.matching.way self.new.matching.way) }
        ensures answers { OnOk result (Sends self.old.matching.sent self.old.matching.seats.items self.new.matching.sent self.old.initiating.way self.new.initiating.way) }
    {
        self.initiating.send(&mut self.matching.way)?;
        self.matching.send(&mut self.initiating.way)
    }

    pub(crate) fn turns<W: Wait>(&mut self, rt: &W) -> Result<(), ServeFault>
        requires ours { 0 < length self.old.initiating.seats.items }
        requires theirs { 0 < length self.old.matching.seats.items }
        ensures sessions { self.new.sessions ≡ self.old.sessions }
        ensures ours { AreSamePlaces self.old.initiating.seats.items self.new.initiating.seats.items }
        ensures theirs { AreSamePlaces self.old.matching.seats.items self.new.matching.seats.items }
        ensures saves { OnOk result (SavesAndSends (offices_of self.old.initiating self.old.matching) (offices_of self.new.initiating self.new.matching)) }
        ensures cut { IfErr result (λ fault. IsCut (Err fault)) }

        // Each office's turns ended with one that saved nothing; or the fault is of one that ended them.
        ensures ends { OnOk result (EndsAtLast (B.takes I) self.new.initiating.book (Ok tt) self.new.initiating.seats.items) }
        ensures peer_ends { OnOk result (EndsAtLast (C.takes M) self.new.matching.book (Ok tt) self.new.matching.seats.items) }
        ensures fault { IfErr result (EndsTurnsOf
            (λ why. EndsAtLast (B.takes I) self.new.initiating.book (Err why) self.new.initiating.seats.items)
            (λ why. EndsAtLast (C.takes M) self.new.matching.book (Err why) self.new.matching.seats.items)) }

        // Where one ended by a fault that is told, and where memory ran out none did.
        ensures well { OnOk result (BothGoWell (B.takes I) (C.takes M) self.old.initiating.book self.old.matching.book self.new.initiating.book self.new.matching.book) }
        ensures tells { IfErr result (TellsTurns (B.takes I) (C.takes M) self.old.initiating.book self.old.matching.book self.new.initiating.book self.new.matching.book) }

        // The turns of the initiating office end, and end well, before those of the matching office begin.
        ensures first { OnErr result ((self.new.matching ≡ self.old.matching) ⊎ MarksLast self.old.initiating.seats.items self.new.initiating.seats.items) }
    {
        if let Err(fault) = self.initiating.save_all(rt) {
            return Err(ServeFault::Turn(fault));
        }
        if let Err(fault) = self.matching.save_all(rt) {
            return Err(ServeFault::Turn(fault));
        }
        match self.send() {
            Ok(()) => Ok(()),
            Err(_) => Err(ServeFault::OutOfMemory),
        }
    }

    pub(crate) fn close(self) -> Result<Closed, AllocError>
        ensures { IfOk result (λ closed. IsClosed L.parts (self.sessions + 1) self.initiating.seats.items K.parts (self.sessions + 1) self.matching.seats.items (string_bytes closed.text) closed.end) }
    {
        let Both {
            alloc,
            sessions: _,
            initiating,
            matching,
        } = self;
        let (office, seats) = initiating.into_parts();
        let (peer, peer_seats) = matching.into_parts();
        close_both(alloc, office, seats, peer, peer_seats)
    }
}

impl<
    L: Ledger + Send + Sync,
    K: Ledger + Send + Sync,
    B: Turns + Drop + Send,
    C: Turns + Drop + Send,
> Both<L, K, B, C> {
    fn submit<T: Threads + Wait + Sync>(
        &mut self,
        rt: &T,
        bodies: Vec<Body>,
        peer_bodies: Vec<Body>,
    ) -> Result<(Vec<Word>, Vec<Word>), ServeFault>
        requires ours { length self.old.initiating.seats.items ≡ self.old.sessions + 1 }
        requires theirs { length self.old.matching.seats.items ≡ self.old.sessions + 1 }
        ensures sessions { self.new.sessions ≡ self.old.sessions }
        ensures ours { OnOk result (AreSamePlaces self.old.initiating.seats.items self.new.initiating.seats.items) }
        ensures theirs { OnOk result (AreSamePlaces self.old.matching.seats.items self.new.matching.seats.items) }
        ensures sent { self.new.initiating.sent ≡ self.old.initiating.sent }
        ensures peer_sent { self.new.matching.sent ≡ self.old.matching.sent }
        ensures way { self.new.initiating.way ≡ self.old.initiating.way }
        ensures peer_way { self.new.matching.way ≡ self.old.matching.way }
        ensures submits { IfOk result (λ words. SubmitsBatch I self.old.sessions bodies.items self.old.initiating.seats.items words.0.items self.new.initiating.seats.items) }
        ensures peer_submits { IfOk result (λ words. SubmitsBatch M self.old.sessions peer_bodies.items self.old.matching.seats.items words.1.items self.new.matching.seats.items) }
        ensures cut { IfErr result (λ fault. IsCut (Err fault)) }
        ensures well { OnOk result (BothGoWell (B.takes I) (C.takes M) self.old.initiating.book self.old.matching.book self.new.initiating.book self.new.matching.book) }
        ensures tells { IfErr result (TellsTurns (B.takes I) (C.takes M) self.old.initiating.book self.old.matching.book self.new.initiating.book self.new.matching.book) }
    {
        let (alloc, sessions) = (self.alloc, self.sessions);
        let initiating = &mut self.initiating;
        let matching = &mut self.matching;
        submit_from(
            rt,
            alloc,
            sessions,
            &initiating.office,
            &mut initiating.book,
            &mut initiating.seats,
            bodies,
            &matching.office,
            &mut matching.book,
            &mut matching.seats,
            peer_bodies,
        )
    }

    pub(crate) fn batch<T: Threads + Wait + Sync>(
        &mut self,
        rt: &T,
        lines: &[Line],
    ) -> Result<String, ServeFault>
        requires ours { length self.old.initiating.seats.items ≡ self.old.sessions + 1 }
        requires theirs { length self.old.matching.seats.items ≡ self.old.sessions + 1 }
        ensures sessions { self.new.sessions ≡ self.old.sessions }
        ensures ours { OnOk result (AreSamePlaces self.old.initiating.seats.items self.new.initiating.seats.items) }
        ensures theirs { OnOk result (AreSamePlaces self.old.matching.seats.items self.new.matching.seats.items) }
        ensures made { IfOk result (λ text. MakesBatch self.old.sessions lines.now
            (offices_of self.old.initiating self.old.matching) (string_bytes text) (offices_of self.new.initiating self.new.matching)) }
        ensures cut { IfErr result (λ fault. IsCut (Err fault)) }
        ensures well { OnOk result (BothGoWell (B.takes I) (C.takes M) self.old.initiating.book self.old.matching.book self.new.initiating.book self.new.matching.book) }
        ensures tells { IfErr result (TellsTurns (B.takes I) (C.takes M) self.old.initiating.book self.old.matching.book self.new.initiating.book self.new.matching.book) }
    {
        let (bodies, peer_bodies) = bodies_of_both(self.alloc, lines)?;
        let (words, peer_words) = self.submit(rt, bodies, peer_bodies)?;
        match batch_text(self.alloc, lines, words, peer_words) {
            Ok(text) => Ok(text),
            Err(_) => Err(ServeFault::OutOfMemory),
        }
    }
}
