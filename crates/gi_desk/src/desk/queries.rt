//! What a desk is asked without a step.

ghost use Rattle.std.specs.Prelude.{◌≡◌, ◌<◌, IfErr, IfOk, IfSome, IsTrue, is_some, nat_lt};
ghost use Rattle.std.specs.Option.{option_copied, option_map};
ghost use Rattle.gi_messages.specs.Limits.{most_parts};
ghost use Rattle.gi_facts.specs.Grammar.{IsWritable};
ghost use Rattle.gi_desk.specs.History.{is_meeting, number_of, state_of};
ghost use Rattle.gi_desk.specs.Machine.{some_leave};
ghost use Rattle.gi_desk.specs.Queries.{acknowledged as is_acknowledged, closing as closing_of, confirmed as confirmed_of, fact_at, frozen as frozen_of, kept as kept_parts, matched_in as matched_in_state, meeting as meeting_of, met_saved as met_saved_of, outgoing as outgoing_of, own_in as own_in_state, peer_in as peer_in_state, stage_of, told as told_in, unsaved as next_unsaved};

use crate::desk::Desk;
use crate::packet::Packets;
use crate::role::Role;
use crate::stage_name::StageName;
use crate::stages::stage;
use crate::telling::told_if;
use gi_cycles::{CycleState, Matched};
use gi_facts::Fact;
use gi_messages::Nomres;
use gi_pairs::{Code, CycleId, Table};
use std::alloc::AllocError;

fn matched_in(state: &CycleState) -> Option<&Matched>
    ensures { option_copied result ≡ matched_in_state state.now }
{
    match state {
        CycleState::Matched(cycle) => Some(cycle),
        _ => None,
    }
}

fn own_in(state: &CycleState) -> Option<&Table>
    ensures { option_copied result ≡ own_in_state state.now }
{
    match state {
        CycleState::Collecting(_) => None,
        CycleState::Frozen(cycle) => Some(cycle.own()),
        CycleState::Matched(cycle) => Some(cycle.own()),
    }
}

fn peer_in(state: &CycleState) -> Option<&Table>
    ensures { option_copied result ≡ peer_in_state state.now }
{
    match state {
        CycleState::Matched(cycle) => Some(cycle.peer()),
        _ => None,
    }
}

impl<R: Role> Desk<R> {
    /// Fact number `n`, from 1. It can be written.
    pub fn fact(&self, n: u32) -> Option<&Fact>
        ensures value { option_copied result ≡ fact_at self.now.facts n }
        ensures writable { IfSome result (λ fact. IsWritable fact.now) }
    {
        let before = n.checked_sub(1)?;
        let fact = self.facts.get(before as usize)?;
        Some(fact)
    }

    /// The next fact to save, with its number. It can be written.
    pub fn unsaved(&self) -> Option<(u32, &Fact)>
        ensures value { option_map (λ it. (it.0, it.1.now)) result ≡ next_unsaved self.now }
        ensures writable { IfSome result (λ it. IsWritable it.1.now) }
    {
        let fact = self.facts.get(self.saved as usize)?;
        Some((self.saved + 1, fact))
    }

    /// Whether fact number `n` is saved: a nomination so recorded is acknowledged.
    pub fn acknowledged(&self, n: u32) -> bool
        ensures { result ≡ is_acknowledged self.now n }
    {
        1 <= n && n <= self.saved
    }

    /// How far the cycle is, by all facts.
    pub fn state(&self, id: CycleId) -> StageName
        ensures { result ≡ stage_of (state_of R.SIDE self.now.facts id) }
    {
        match self.find(&id) {
            Some(state) => stage(state),
            None => StageName::Collecting,
        }
    }

    /// The number of the fact that closed the cycle, saved or not.
    pub fn closing(&self, id: CycleId) -> Option<u32>
        ensures { result ≡ closing_of self.now.facts id }
    {
        if !self.is_closed(&id) {
            return None;
        }
        Some(self.number_of_closing(&id))
    }

    /// How many parts of the peer's order or response are kept of the cycle: at most 65.
    pub fn kept(&self, id: CycleId) -> u8
        ensures value { result ≡ kept_parts self.now id }
        ensures few { result < most_parts }
    {
        self.parts.count(&id)
    }

    /// The frozen table of the cycle, whether its closing is saved or not.
    pub fn frozen(&self, id: CycleId) -> Option<&Table>
        ensures { option_copied result ≡ frozen_of R.SIDE self.now.facts id }
    {
        own_in(self.find(&id)?)
    }

    /// The number of the fact by which the cycle met the peer's table, saved or not, and that table.
    pub fn meeting(&self, id: CycleId) -> Option<(u32, &Table)>
        ensures { option_map (λ it. (it.0, it.1.now)) result ≡ meeting_of self.now.facts id }
    {
        // Of legal facts a cycle that met is closed.
        self.reveal_invariant();
        let peer = peer_in(self.find(&id)?)?;
        Some((self.number_of_meeting(&id), peer))
    }

    /// What is confirmed of the cycle: the lesser of its frozen table and the peer's, once a saved
    /// fact met the latter.
    pub fn confirmed(&self, id: CycleId) -> Option<&Table>
        ensures { option_copied result ≡ confirmed_of R.SIDE self.now id }
    {
        Some(self.met_saved(&id)?.confirmed())
    }

    /// The cycle, where a saved fact met the peer's table: the number of its meeting tells that, as
    /// a state counts facts that are not saved.
    fn met_saved(&self, id: &CycleId) -> Option<&Matched>
        ensures { option_copied result ≡ met_saved_of R.SIDE self.now id.now }
    {
        // Of legal facts a cycle that met is matched.
        self.reveal_invariant();
        if self.lacks_saved_meeting(id) {
            return None;
        }
        matched_in(self.find(id)?)
    }

    fn lacks_saved_meeting(&self, id: &CycleId) -> bool
        ensures { result ≡ nat_lt self.now.saved (number_of (is_meeting id.now) self.now.facts) }
    {
        self.number_of_meeting(id) > self.saved
    }

    /// What the portfolio is told of the cycle: its confirmed rows, once a saved fact met the
    /// peer's table and where it stands in one of them. Want of memory comes only where it is told.
    #[tactic(auto, unfolding(crate::specs::Queries::told))]
    pub fn told(&self, portfolio: Code, id: CycleId) -> Result<Option<Nomres>, AllocError>
        ensures value { IfOk result (λ nomres. nomres ≡ told_in R.SIDE self.now portfolio id) }
        ensures short { IfErr result (λ _. IsTrue (is_some (told_in R.SIDE self.now portfolio id))) }
    {
        match self.met_saved(&id) {
            Some(cycle) => told_if(self.alloc, R::SIDE, self.point, cycle, portfolio),
            None => Ok(None),
        }
    }

    /// What the saved facts from number `first` on let out, in order. 0 reads as 1. Want of memory
    /// comes only where there is such a packet.
    pub fn outgoing(&self, first: u32) -> Result<Packets, AllocError>
        ensures value { IfOk result (λ packets. packets ≡ outgoing_of R.SIDE self.now first) }
        ensures short { IfErr result (λ _. IsTrue (some_leave (outgoing_of R.SIDE self.now first))) }
    {
        let mut packets = Vec::new(self.alloc);
        for n in first.max(1)..self.saved + 1 {
            let mut later = self.let_out(n)?;
            packets.append(&mut later)?;
        }
        Ok(Packets::from(packets))
    }
}
