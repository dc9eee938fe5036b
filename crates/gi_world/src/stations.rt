//! Both stations: what a step makes of them.

ghost use Rattle.std.specs.Prelude.{◌≡◌, ◌<◌, ◌≤◌, IfOk, IsTrue, OnErr, OnOk, false, length};
ghost use Rattle.std.specs.Option.{option_copied};
ghost use Rattle.gi_desk.specs.Machine.{may_want, reply as reply_of};
ghost use Rattle.gi_desk.specs.declared.call.Call.TheVariants as calls;
ghost use Rattle.gi_world.specs.Agreement.{FitsWorld};
ghost use Rattle.gi_world.specs.World.{IsNumberOf, IsStep, after_call, after_restart, delivery as delivery_of, new_world, other, station_of, with_station};
ghost use Rattle.gi_world.specs.declared.step.Step.TheVariants as steps;

use crate::passing::place_of;
use crate::station::Station;
use crate::step::Step;
use crate::world_fault::WorldFault;
use crate::world_reply::WorldReply;
use gi_day::Calendar;
use gi_desk::{Call, Desk, Packet, Reply};
use gi_initiator::Initiating;
use gi_matcher::Matching;
use gi_pairs::{Code, Side};
use std::alloc::{AllocError, Global};
use std::marker::Model;

/// Both operators' stations.
#[derive(Drop)]
pub(crate) struct Stations {
    initiating: Station<Initiating>,
    matching: Station<Matching>,
}

impl Model for Stations {
    ghost use Rattle.gi_world.specs.World.{WorldState};

    ghost Value = { WorldState };

    ghost view = { λ s. record { initiating = s.initiating; matching = s.matching } };
}

impl Stations {
    pub(crate) fn open(
        alloc: Global,
        initiating: Calendar,
        matching: Calendar,
        point: Code,
    ) -> Stations
        ensures { result ≡ new_world point }
    {
        Stations {
            initiating: Station::open(alloc, initiating, point),
            matching: Station::open(alloc, matching, point),
        }
    }

    pub(crate) fn initiating(&self) -> &Desk<Initiating>
        ensures { result.now ≡ self.now.initiating.desk }
    {
        self.initiating.desk()
    }

    pub(crate) fn matching(&self) -> &Desk<Matching>
        ensures { result.now ≡ self.now.matching.desk }
    {
        self.matching.desk()
    }

    pub(crate) fn reveal_invariant(&self)
        ensures { FitsWorld self.now }
    {
        self.initiating.desk().reveal_invariant();
        self.matching.desk().reveal_invariant();
    }

    pub(crate) fn sent(&self, side: Side) -> &[Packet]
        ensures { result.now ≡ (station_of side self.now).sent }
    {
        match side {
            Side::I => self.initiating.sent(),
            Side::M => self.matching.sent(),
        }
    }

    pub(crate) fn told(&self, side: Side) -> &[Packet]
        ensures { result.now ≡ (station_of side self.now).told }
    {
        match side {
            Side::I => self.initiating.told(),
            Side::M => self.matching.told(),
        }
    }

    fn take(&mut self, side: Side, call: &Call) -> Result<Reply, AllocError>
        ensures reply { IfOk result (λ reply. reply ≡ reply_of side (station_of side self.old).desk call.now) }
        ensures next { OnOk result (self.new ≡ with_station side (after_call side (station_of side self.old) call.now) self.old) }
        ensures unchanged { OnErr result (self.new ≡ self.old) }
        ensures short { OnErr result (IsTrue (may_want side (station_of side self.old).desk call.now)) }
    {
        match side {
            Side::I => self.initiating.take(call),
            Side::M => self.matching.take(call),
        }
    }

    fn start_again(&mut self, side: Side, keep: u32) -> Result<(), AllocError>
        requires { keep ≤ length (station_of side self.now).desk.facts }
        ensures next { OnOk result (self.new ≡ with_station side (after_restart (station_of side self.old) keep) self.old) }
        ensures unchanged { OnErr result (self.new ≡ self.old) }
        ensures short { OnErr result (0 < keep) }
    {
        match side {
            Side::I => self.initiating.restart(keep),
            Side::M => self.matching.restart(keep),
        }
    }

    fn counts(&self, side: Side) -> (u32, u32)
        ensures saved { result.0 ≡ (station_of side self.now).desk.saved }
        ensures len { result.1 ≡ length (station_of side self.now).desk.facts }
    {
        match side {
            Side::I => (self.initiating.desk().saved(), self.initiating.desk().len()),
            Side::M => (self.matching.desk().saved(), self.matching.desk().len()),
        }
    }

    fn halted(&self, side: Side) -> bool
        ensures { result ≡ (station_of side self.now).desk.halted }
    {
        match side {
            Side::I => self.initiating.desk().halted(),
            Side::M => self.matching.desk().halted(),
        }
    }

    fn sent_to(&self, side: Side) -> &[Packet]
        ensures { result.now ≡ (station_of (other side) self.now).sent }
    {
        self.sent(side.other())
    }

    fn delivery(&self, side: Side, packet: u64) -> Option<&Packet>
        ensures { option_copied result ≡ delivery_of self.now side packet }
    {
        let before = packet.checked_sub(1)?;
        self.sent_to(side).get(before as usize)
    }

    pub(crate) fn number_of(&self, side: Side, bytes: &[u8]) -> Option<u64>
        ensures { IsNumberOf self.now side bytes.now result }
    {
        let place = place_of(self.sent_to(side), bytes)?;
        Some(place as u64 + 1)
    }

    #[tactic(auto, unfolding(crate::specs::World::outcome, crate::specs::World::after, crate::specs::World::may_want))]
    fn call(&mut self, side: Side, call: &Call) -> Result<WorldReply, WorldFault>
        ensures { IsStep self.old (steps.Local side call.now) result self.new }
    {
        if let Call::Deliver(_) = call {
            return Err(WorldFault::NotLocal);
        }
        Ok(WorldReply::Desk(self.take(side, call)?))
    }

    /// A halted desk answers every call alike, so for it nothing is copied.
    fn asked(&self, side: Side, packet: &Packet) -> Result<Call, AllocError>
        ensures reply { IfOk result (λ call. reply_of side (station_of side self.now).desk call ≡ reply_of side (station_of side self.now).desk (calls.Deliver packet.now.body)) }
        ensures next { IfOk result (λ call. after_call side (station_of side self.now) call ≡ after_call side (station_of side self.now) (calls.Deliver packet.now.body)) }
        ensures short { OnErr result ((station_of side self.now).desk.halted ≡ false) }
    {
        if self.halted(side) {
            return Ok(Call::Halt);
        }
        Ok(Call::Deliver(packet.body.copy()?))
    }

    #[tactic(auto, unfolding(crate::specs::World::outcome, crate::specs::World::after, crate::specs::World::may_want))]
    fn deliver(&mut self, side: Side, packet: u64) -> Result<WorldReply, WorldFault>
        ensures { IsStep self.old (steps.Deliver side packet) result self.new }
    {
        let Some(packet) = self.delivery(side, packet) else {
            return Err(WorldFault::NoSuchPacket);
        };
        let call = self.asked(side, packet)?;
        let reply = self.take(side, &call);
        // (handed to drop, by one call: going out of scope here would be checked field by field on each way out)
        drop(call);
        Ok(WorldReply::Desk(reply?))
    }

    #[tactic(auto, unfolding(crate::specs::World::outcome, crate::specs::World::after, crate::specs::World::may_want))]
    fn restart(&mut self, side: Side, keep: u32) -> Result<WorldReply, WorldFault>
        ensures { IsStep self.old (steps.Restart side keep) result self.new }
    {
        let (saved, len) = self.counts(side);
        if keep < saved {
            return Err(WorldFault::KeepsTooFew { saved });
        }
        if len < keep {
            return Err(WorldFault::KeepsTooMany { len });
        }
        self.start_again(side, keep)?;
        Ok(WorldReply::Restarted { saved: keep })
    }

    pub(crate) fn step(&mut self, step: &Step) -> Result<WorldReply, WorldFault>
        ensures { IsStep self.old step.now result self.new }
    {
        match step {
            Step::Local { side, call } => self.call(*side, call),
            Step::Deliver { side, packet } => self.deliver(*side, *packet),
            Step::Restart { side, keep } => self.restart(*side, *keep),
        }
    }
}
