//! What is let out.

ghost use Rattle.std.specs.Prelude.{◌≡◌, ◌≤◌, ◌++◌, IfErr, IfOk, IsTrue, filter, is_some, length, true};
ghost use Rattle.gi_cycles.specs.declared.cycle_state.CycleState.TheVariants as states;
ghost use Rattle.gi_desk.specs.History.{is_closed, is_closing, is_meeting, number_of, peer_of, state_of};
ghost use Rattle.gi_desk.specs.Caches.{CanFollow};
ghost use Rattle.gi_desk.specs.LetOut.{IsFact, let_out as let_out_of, sent};
ghost use Rattle.gi_desk.specs.Machine.{is_for_peer, out_of, saved_out as saved_out_of, some_leave};
ghost use Rattle.gi_desk.specs.Messages.{on_met, told_packets as told_packets_of};

use crate::desk::Desk;
use crate::fact_packets::{on_closing, on_meeting, on_taking};
use crate::outcome::Outcome;
use crate::packet::Packet;
use crate::role::Role;
use crate::telling::told_packets;
use gi_cycles::{CycleState, Matched};
use gi_facts::Fact;
use gi_pairs::CycleId;
use std::alloc::AllocError;

impl<R: Role> Desk<R> {
    fn numbered(&self, n: u32) -> &Fact
        requires from { 1 ≤ n }
        requires to { n ≤ length self.now.facts }
        ensures { IsFact self.now.facts n result.now }
    {
        &self.facts[n as usize - 1]
    }

    fn closed_state(&self, id: &CycleId) -> &CycleState
        requires { is_closed id.now self.now.facts ≡ true }
        ensures { result.now ≡ state_of R.SIDE self.now.facts id.now }
    {
        self.find(id).unwrap()
    }

    fn matched(&self, id: &CycleId) -> &Matched
        requires closed { is_closed id.now self.now.facts ≡ true }
        requires met { is_some (peer_of id.now self.now.facts) ≡ true }
        ensures { states.Matched result.now ≡ state_of R.SIDE self.now.facts id.now }
    {
        let CycleState::Matched(cycle) = self.closed_state(id) else {
            unreachable!()
        };
        cycle
    }

    fn let_out_on_meeting(&self, cycle: &Matched) -> Result<Vec<Packet>, AllocError>
        ensures value { IfOk result (λ packets. packets.items ≡ sent (on_met R.SIDE self.now.point cycle.now) ++ told_packets_of R.SIDE self.now.point cycle.now) }
        ensures short { IfErr result (λ _. IsTrue (some_leave (sent (on_met R.SIDE self.now.point cycle.now) ++ told_packets_of R.SIDE self.now.point cycle.now))) }
    {
        let mut packets = on_meeting::<R>(self.alloc, self.point, cycle)?;
        let mut told = told_packets(self.alloc, R::SIDE, self.point, cycle)?;
        packets.append(&mut told)?;
        Ok(packets)
    }

    pub(super) fn for_peer(&self, n: u32) -> Result<Vec<Packet>, AllocError>
        requires from { 1 ≤ n }
        requires to { n ≤ length self.now.facts }
        ensures value { IfOk result (λ packets. packets.items ≡ filter is_for_peer (let_out_of R.SIDE self.now.point self.now.facts n)) }
        ensures short { IfErr result (λ _. IsTrue (some_leave (filter is_for_peer (let_out_of R.SIDE self.now.point self.now.facts n)))) }
    {
        match self.numbered(n) {
            Fact::Closed { id, .. } => on_closing::<R>(
                self.alloc,
                self.point,
                self.closed_state(id),
            ),
            Fact::Met { id, .. } => on_meeting::<R>(self.alloc, self.point, self.matched(id)),
            _ => Ok(Vec::new(self.alloc)),
        }
    }

    pub(super) fn let_out(&self, n: u32) -> Result<Vec<Packet>, AllocError>
        requires from { 1 ≤ n }
        requires to { n ≤ length self.now.facts }
        ensures value { IfOk result (λ packets. packets.items ≡ let_out_of R.SIDE self.now.point self.now.facts n) }
        ensures short { IfErr result (λ _. IsTrue (some_leave (let_out_of R.SIDE self.now.point self.now.facts n))) }
    {
        match self.numbered(n) {
            Fact::Nominated(document) => on_taking(self.alloc, document),
            Fact::Closed { id, .. } => on_closing::<R>(
                self.alloc,
                self.point,
                self.closed_state(id),
            ),
            Fact::Met { id, .. } => self.let_out_on_meeting(self.matched(id)),
            _ => Ok(Vec::new(self.alloc)),
        }
    }

    /// What fact number `n`, from 1, let out once it was saved; nothing where it is not saved. Want of
    /// memory comes only where there is such a packet.
    pub fn saved_out(&self, n: u32) -> Result<Vec<Packet>, AllocError>
        requires { 1 ≤ n }
        ensures value { IfOk result (λ packets. packets.items ≡ saved_out_of R.SIDE self.now n) }
        ensures short { IfErr result (λ _. IsTrue (some_leave (saved_out_of R.SIDE self.now n))) }
    {
        if n > self.saved {
            return Ok(Vec::new(self.alloc));
        }
        self.let_out(n)
    }

    fn saved_for_peer(&self, n: u32) -> Result<Vec<Packet>, AllocError>
        requires { 1 ≤ n }
        ensures value { IfOk result (λ packets. packets.items ≡ filter is_for_peer (saved_out_of R.SIDE self.now n)) }
        ensures short { IfErr result (λ _. IsTrue (some_leave (filter is_for_peer (saved_out_of R.SIDE self.now n)))) }
    {
        if self.saved < n {
            return Ok(Vec::new(self.alloc));
        }
        self.for_peer(n)
    }

    fn resent(&self, id: &CycleId) -> Result<Vec<Packet>, AllocError>
        ensures value { IfOk result (λ packets. packets.items ≡ saved_out_of R.SIDE self.now (number_of (is_closing id.now) self.now.facts) ++ saved_out_of R.SIDE self.now (number_of (is_meeting id.now) self.now.facts)) }
        ensures short { IfErr result (λ _. IsTrue (some_leave (saved_out_of R.SIDE self.now (number_of (is_closing id.now) self.now.facts) ++ saved_out_of R.SIDE self.now (number_of (is_meeting id.now) self.now.facts)))) }
    {
        let mut packets = self.saved_out(self.number_of_closing(id))?;
        let mut later = self.saved_out(self.number_of_meeting(id))?;
        packets.append(&mut later)?;
        Ok(packets)
    }

    pub(super) fn out(&self, outcome: &Outcome) -> Result<Vec<Packet>, AllocError>
        requires { CanFollow R.SIDE self.now outcome.now }
        ensures value { IfOk result (λ packets. packets.items ≡ out_of R.SIDE self.now outcome.now) }
        ensures short { IfErr result (λ _. IsTrue (some_leave (out_of R.SIDE self.now outcome.now))) }
    {
        match outcome {
            Outcome::RepeatsNomination { n } => self.saved_out(*n),
            Outcome::RepeatsMeeting { n } => self.saved_for_peer(*n),
            Outcome::Saves { n } => self.let_out(*n),
            Outcome::Resends(id) => self.resent(id),
            Outcome::Records(_)
            | Outcome::RepeatsPart { .. }
            | Outcome::Keeps { .. }
            | Outcome::Stops
            | Outcome::Refuses(_) => Ok(Vec::new(self.alloc)),
        }
    }
}
