ghost use Rattle.std.specs.Prelude.{◌≡◌, All, Ok, OnErr};
ghost use Rattle.gi_world.specs.Agreement.{Agrees, Carries};
ghost use Rattle.gi_world.specs.Confirming.{ConfirmsAtBoth, ConfirmsTheLower};
ghost use Rattle.gi_world.specs.Headline.{OneConfirmedQuantity};
ghost use Rattle.gi_world.specs.Histories.{held};
ghost use Rattle.gi_world.specs.Keeping.{KeepsConfirmed, OnlyAppends};
ghost use Rattle.gi_world.specs.Telling.{TellsTheLower};
ghost use Rattle.gi_world.specs.World.{IsNumberOf, IsStep, new_world, station_of};

use crate::start_fault::StartFault;
use crate::stations::Stations;
use crate::step::Step;
use crate::world_fault::WorldFault;
use crate::world_reply::WorldReply;
use gi_day::Calendar;
use gi_desk::{Desk, Packet};
use gi_initiator::Initiating;
use gi_lesser::lessens_both_ways;
use gi_matcher::Matching;
use gi_pairs::{Code, Side};
use std::alloc::Global;
use std::marker::Model;

/// Both operators' desks, and what each let out. What is delivered was let out by the other side,
/// and a restart keeps at least what is saved.
#[derive(Drop)]
pub struct World {
    stations: Stations,
}

impl Model for World {
    ghost use Rattle.gi_world.specs.Agreement.{IsSound};
    ghost use Rattle.gi_world.specs.World.{WorldState};

    ghost Value = { WorldState };

    ghost view = { λ w. w.stations };

    ghost invariant = { λ w. IsSound w.stations };
}

impl World {
    /// Both desks without facts, at the interconnection point. It is never refused.
    pub fn new(alloc: Global, point: Code) -> Result<World, StartFault>
        ensures { result ≡ Ok (new_world point) }
    {
        let initiating = Calendar::new()?;
        let matching = initiating.copy()?;
        Ok(World {
            stations: Stations::open(alloc, initiating, matching, point),
        })
    }

    /// The initiating operator's desk.
    pub fn initiating(&self) -> &Desk<Initiating>
        ensures { result.now ≡ self.now.initiating.desk }
    {
        self.stations.initiating()
    }

    /// The matching operator's desk.
    pub fn matching(&self) -> &Desk<Matching>
        ensures { result.now ≡ self.now.matching.desk }
    {
        self.stations.matching()
    }

    /// The packets that a side let out to the other operator, in order: orders, each with a part of
    /// the frozen table of a cycle whose closing the initiating side has saved, or all of it; and
    /// responses, each with as much of the frozen and the confirmed table of a cycle whose meeting the
    /// matching side has saved.
    pub fn sent(&self, side: Side) -> &[Packet]
        ensures value { result.now ≡ (station_of side self.now).sent }
        ensures carries { All (Carries side self.now) result.now }
    {
        self.stations.reveal_invariant();
        self.stations.sent(side)
    }

    /// The confirmations that a side let out to its portfolios, in order: each with the portfolio's
    /// rows of a table that the side has confirmed, which is the lower of both frozen ones.
    pub fn told(&self, side: Side) -> &[Packet]
        ensures value { result.now ≡ (station_of side self.now).told }
        ensures lower { All (TellsTheLower (held self.now) side) result.now }
    {
        self.stations.reveal_invariant();
        self.stations.told(side)
    }

    /// The least number, from 1, of a packet of these bytes that the other side let out to this one:
    /// a `Deliver` step of that number delivers them. None where it let out no such packet.
    pub fn number_of(&self, side: Side, bytes: &[u8]) -> Option<u64>
        ensures { IsNumberOf self.now side bytes.now result }
    {
        self.stations.number_of(side, bytes)
    }

    /// Makes a step: the desk's reply, or with how many facts it started again. `NotLocal`,
    /// `NoSuchPacket`, `KeepsTooFew` and `KeepsTooMany` come whatever memory there is, and
    /// `OutOfMemory` where memory runs out, also where the desk answers it: for a local call only
    /// where the desk may, so never for a `Halt`, at a halted desk, for a refused closing, or for a
    /// mark that lets nothing out; for a delivery wherever there is the packet, whose bytes are
    /// copied first, and the desk is not halted; for a restart only where it keeps a fact. A refused
    /// step leaves the world as it was.
    ///
    /// After each step every quantity that either side has confirmed or told is the lower of the two
    /// that both froze when they closed its cycle. What is confirmed stays so, and packets sent and
    /// told only come to the end.
    pub fn step(&mut self, step: &Step) -> Result<WorldReply, WorldFault>
        ensures meaning { IsStep self.old step.now result self.new }
        ensures refused { OnErr result (self.new ≡ self.old) }
        ensures appends { OnlyAppends self.old self.new }
        ensures confirms { KeepsConfirmed self.old self.new }
        ensures agrees { Agrees step.now result }
        ensures lower { ConfirmsTheLower self.new }
        ensures both { ConfirmsAtBoth self.new }
        ensures one_quantity { OneConfirmedQuantity (held self.new) }
    {
        lessens_both_ways();
        self.stations.reveal_invariant();
        let outcome = self.stations.step(step);
        self.stations.reveal_invariant();
        outcome
    }

    pub(crate) fn reveal_invariant(&self)
        ensures lower { ConfirmsTheLower self.now }
        ensures both { ConfirmsAtBoth self.now }
        ensures one_quantity { OneConfirmedQuantity (held self.now) }
    {
        self.stations.reveal_invariant();
    }
}
