//! What a call comes to.

ghost use Rattle.std.specs.Prelude.{◌≡◌, IfErr, IfOk, IsTrue, Ok};
ghost use Rattle.gi_messages.specs.Decoding.{decoded};
ghost use Rattle.gi_desk.specs.History.{is_meeting, number_of, state_of};
ghost use Rattle.gi_desk.specs.Deciding.{IsReceivable, decision, number_in};
ghost use Rattle.gi_desk.specs.Judging.{by_decision as by_decision_of, closed as closed_of, delivered as delivered_of, nominated as nominated_of, repeated as repeated_of, resent as resent_of, submitted as submitted_of, verdict_on};
ghost use Rattle.gi_desk.specs.Machine.{can_be_read, comes_to as comes_to_of, learns_with_memory, may_want_to_prepare, outcome as outcome_of, would_record as would_record_of};
ghost use Rattle.gi_facts.specs.declared.fact.Fact.TheVariants.{Met, Nominated};

use crate::call::Call;
use crate::decision::Decision;
use crate::desk::Desk;
use crate::judging::{
    can_meet, contracted, have_priorities, is_short, marked, noticed, records, unless_full,
};
use crate::outcome::Outcome;
use crate::refusal::Refusal;
use crate::role::Role;
use gi_cycles::{Collecting, CycleState};
use gi_facts::Fact;
use gi_messages::{LAST_VERSION, Message, MessageFault, Nomint, decode};
use gi_nominations::{Setting, Verdict};
use gi_pairs::{CycleId, Table};
use gi_processing::Rule;
use std::alloc::AllocError;

impl<R: Role> Desk<R> {
    fn verdict(&self, document: &Nomint) -> Verdict
        ensures { result ≡ verdict_on self.now.point self.now.facts document.now }
    {
        let setting = Setting {
            frame: self.calendar.frame(document.day).unwrap(),
            known: self.contracts().knows(document.portfolio, document.day),
            last_closed: self.last_closed(document.day),
        };
        self.book().judge(&setting, document)
    }

    fn nominated(&self, document: Nomint) -> Outcome
        ensures { result ≡ nominated_of self.now.point self.now.facts document }
    {
        match self.verdict(&document) {
            Verdict::Recordable => Outcome::Records(Fact::Nominated(document)),
            Verdict::Repeat => Outcome::RepeatsNomination {
                n: self.number_of_taking(&document),
            },
            Verdict::Refused(fault) => Outcome::Refuses(Refusal::Nomination(fault)),
        }
    }

    fn submitted(&self, bytes: &[u8]) -> Result<Outcome, AllocError>
        ensures value { IfOk result (λ outcome. outcome ≡ submitted_of self.now.point self.now.facts (decoded bytes.now)) }
        ensures short { IfErr result (λ _. IsTrue (can_be_read bytes.now)) }
    {
        match decode(self.alloc, bytes) {
            Ok(Message::Nomint(document)) => Ok(self.nominated(document)),
            Ok(other) => {
                // (handed to drop, by one call: going out of scope here would be checked field by field on each way out)
                drop(other);
                Ok(Outcome::Refuses(Refusal::WrongKind))
            }
            Err(MessageFault::OutOfMemory) => Err(AllocError),
            Err(fault) => Ok(Outcome::Refuses(Refusal::Message(fault))),
        }
    }

    fn closed(&self, id: &CycleId, rule: Rule) -> Outcome
        ensures { result ≡ closed_of self.now.facts id.now rule }
    {
        let frame = self.calendar.frame(id.day).unwrap();
        if id.cycle >= frame.cycle_count() {
            return Outcome::Refuses(Refusal::NoSuchCycle);
        }
        if self.is_closed(id) {
            return Outcome::Refuses(Refusal::AlreadyClosed);
        }
        if let Some(last) = self.last_closed(id.day) {
            if id.cycle < last {
                return Outcome::Refuses(Refusal::OutOfOrder { last });
            }
        }
        Outcome::Records(Fact::Closed { id: *id, rule })
    }

    /// A cycle met again: only the first part lets the response out.
    fn repeated(&self, id: &CycleId, part: u8) -> Outcome
        ensures { result ≡ repeated_of part (number_of (is_meeting id.now) self.now.facts) }
    {
        let n = self.number_of_meeting(id);
        if part == 1 {
            Outcome::RepeatsMeeting { n }
        } else {
            Outcome::RepeatsPart { n }
        }
    }

    fn by_decision(&self, id: CycleId, part: u8, decision: Decision) -> Outcome
        ensures { result ≡ by_decision_of self.now.facts id part decision }
    {
        match decision {
            Decision::Meet(peer) => Outcome::Records(Fact::Met { id, peer }),
            Decision::Keep(part) => Outcome::Keeps { id, part },
            Decision::Again => self.repeated(&id, part),
            Decision::Refused(refusal) => Outcome::Refuses(refusal),
        }
    }

    fn decided(&self, id: &CycleId, received: R::Received) -> Result<Outcome, AllocError>
        requires { IsReceivable (R.as_message received) }
        ensures { IfOk result (λ outcome. outcome ≡ by_decision_of self.now.facts id.now (number_in (R.as_message received)) (decision R.SIDE (state_of R.SIDE self.now.facts id.now) self.now.kept (R.as_message received))) }
    {
        let collecting = CycleState::Collecting(Collecting::new(*id));
        let state = self.find(id).unwrap_or(&collecting);
        let part = R::part(&received);
        let decision = R::decide(self.alloc, state, &self.parts, received);
        drop(collecting);
        if is_short(&decision) {
            drop(decision);
            return Err(AllocError);
        }
        Ok(self.by_decision(*id, part, decision))
    }

    /// What the peer's order or response comes to.
    fn addressed(&self, received: R::Received) -> Result<Outcome, AllocError>
        requires { IsReceivable (R.as_message received) }
        ensures { IfOk result (λ outcome. outcome ≡ delivered_of R.SIDE self.now.point self.now.facts self.now.kept (Ok (R.as_message received))) }
    {
        let (point, id) = R::address(&received);
        if point != self.point {
            // (handed to drop, by one call: going out of scope here would be checked field by field on each way out)
            drop(received);
            return Ok(Outcome::Refuses(Refusal::WrongPoint));
        }
        self.decided(&id, received)
    }

    /// What a message that could be read comes to, where the peer sent it.
    fn received(&self, message: Message) -> Result<Outcome, AllocError>
        requires { IsReceivable message }
        ensures { IfOk result (λ outcome. outcome ≡ delivered_of R.SIDE self.now.point self.now.facts self.now.kept (Ok message)) }
    {
        match R::received(message) {
            Some(received) => self.addressed(received),
            None => Ok(Outcome::Refuses(Refusal::WrongKind)),
        }
    }

    fn delivered(&self, bytes: &[u8]) -> Result<Outcome, AllocError>
        ensures value { IfOk result (λ outcome. outcome ≡ delivered_of R.SIDE self.now.point self.now.facts self.now.kept (decoded bytes.now)) }
        ensures short { IfErr result (λ _. IsTrue (can_be_read bytes.now)) }
    {
        match decode(self.alloc, bytes) {
            Ok(message) => self.received(message),
            Err(MessageFault::OutOfMemory) => Err(AllocError),
            Err(fault) => Ok(Outcome::Refuses(Refusal::Message(fault))),
        }
    }

    fn resending(&self, id: &CycleId) -> Outcome
        ensures { result ≡ resent_of self.now.facts self.now.saved id.now }
    {
        if self.number_of_closing(id) > self.saved {
            return Outcome::Refuses(Refusal::NotClosed);
        }
        Outcome::Resends(*id)
    }

    fn comes_to(&self, call: &Call) -> Result<Outcome, AllocError>
        ensures value { IfOk result (λ outcome. outcome ≡ comes_to_of R.SIDE self.now call.now) }
        ensures short { IfErr result (λ _. IsTrue (learns_with_memory call.now)) }
    {
        match call {
            Call::Contract(contract) => Ok(contracted(self.contracts(), contract)),
            Call::Notice(notice) => Ok(noticed(&self.calendar, notice)),
            Call::Submit(body) => self.submitted(body.as_slice()),
            Call::Close { id, rule } => Ok(self.closed(id, *rule)),
            Call::Deliver(body) => self.delivered(body.as_slice()),
            Call::Resend(id) => Ok(self.resending(id)),
            Call::MarkSaved { n, fact } => Ok(marked(&self.facts, self.saved, *n, fact)),
            Call::Halt => Ok(Outcome::Stops),
        }
    }

    pub(super) fn outcome(&self, call: &Call) -> Result<Outcome, AllocError>
        ensures value { IfOk result (λ outcome. outcome ≡ outcome_of R.SIDE self.now call.now) }
        ensures short { IfErr result (λ _. IsTrue (may_want_to_prepare R.SIDE self.now call.now)) }
    {
        if self.halted {
            return Ok(Outcome::Refuses(Refusal::Halted));
        }
        Ok(unless_full(&self.facts, self.comes_to(call)?))
    }

    pub(super) fn would_record(&self, fact: &Fact) -> bool
        ensures { result ≡ would_record_of R.SIDE self.now.point self.now.facts fact.now }
    {
        match fact {
            Fact::Contracted(contract) => records(contracted(self.contracts(), contract)),
            Fact::Noticed(notice) => records(noticed(&self.calendar, notice)),
            Fact::Nominated(document) => self.would_take(document),
            Fact::Closed { id, rule } => records(self.closed(id, *rule)),
            Fact::Met { id, peer } => self.would_meet(id, peer),
        }
    }

    fn would_take(&self, document: &Nomint) -> bool
        ensures { result ≡ would_record_of R.SIDE self.now.point self.now.facts (Nominated document.now) }
    {
        self.verdict(document) == Verdict::Recordable
            && 1 <= document.version
            && document.version <= LAST_VERSION
            && have_priorities(document.lines.as_slice())
    }

    fn would_meet(&self, id: &CycleId, peer: &Table) -> bool
        ensures { result ≡ would_record_of R.SIDE self.now.point self.now.facts (Met id.now peer.now) }
    {
        match self.find(id) {
            Some(state) => can_meet(state, peer),
            None => false,
        }
    }
}
