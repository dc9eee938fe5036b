//! One operator: its desk, and what it let out.

ghost use Rattle.std.specs.Prelude.{◌≡◌, ◌<◌, ◌≤◌, [], IfOk, IsTrue, None, OnErr, OnOk, false, length, take};
ghost use Rattle.gi_desk.specs.Machine.{bad_fact, may_want, reply as reply_of};
ghost use Rattle.gi_desk.specs.Writable.{FitsDesk};
ghost use Rattle.gi_world.specs.Agreement.{IsLegal};
ghost use Rattle.gi_world.specs.World.{after_call, after_restart, new_station};

use crate::passing::kept;
use gi_day::Calendar;
use gi_desk::{Call, Desk, Fact, Packet, ReplayFault, Reply, Role, fronts_are_legal};
use gi_pairs::Code;
use std::alloc::{AllocError, Global};
use std::marker::Model;
use std::mem;

/// One operator's desk, the packets that it let out to its peer, and those that told its
/// portfolios, in order.
#[derive(Drop)]
pub(crate) struct Station<R: Role> {
    alloc: Global,
    desk: Desk<R>,
    sent: Vec<Packet>,
    told: Vec<Packet>,
}

impl<R: Role> Model for Station<R> {
    ghost use Rattle.gi_world.specs.World.{StationState};

    ghost Value = { StationState };

    ghost view = { λ s. record { desk = s.desk; sent = s.sent.items; told = s.told.items } };
}

/// Does nothing: what it promises of a desk is always so, and is known once it is called; `saved`
/// tells that no more facts are saved than there are.
fn reveal_invariant<R: Role>(desk: &Desk<R>)
    ensures legal { IsLegal R.SIDE desk.now }
    ensures fits { FitsDesk R.SIDE desk.now.point desk.now.facts }
{
    desk.reveal_invariant();
    let _ = desk.saved();
}

impl<R: Role> Station<R> {
    pub(crate) fn open(alloc: Global, calendar: Calendar, point: Code) -> Station<R>
        ensures { result ≡ new_station point }
    {
        Station {
            alloc,
            desk: Desk::replay(alloc, calendar, point, Vec::new(alloc)).unwrap(),
            sent: Vec::new(alloc),
            told: Vec::new(alloc),
        }
    }

    pub(crate) fn desk(&self) -> &Desk<R>
        ensures { result.now ≡ self.now.desk }
    {
        &self.desk
    }

    pub(crate) fn sent(&self) -> &[Packet]
        ensures { result.now ≡ self.now.sent }
    {
        &self.sent
    }

    pub(crate) fn told(&self) -> &[Packet]
        ensures { result.now ≡ self.now.told }
    {
        &self.told
    }

    /// The copies are made, and their places grown, before anything changes.
    #[tactic(auto, unfolding(crate::specs::World::after_call))]
    pub(crate) fn take(&mut self, call: &Call) -> Result<Reply, AllocError>
        ensures reply { IfOk result (λ reply. reply ≡ reply_of R.SIDE self.old.desk call.now) }
        ensures next { OnOk result (self.new ≡ after_call R.SIDE self.old call.now) }
        ensures unchanged { OnErr result (self.new ≡ self.old) }
        ensures short { OnErr result (IsTrue (may_want R.SIDE self.old.desk call.now)) }
    {
        reveal_invariant(&self.desk);
        let prepared = self.desk.prepare(call)?;
        let out = prepared.reply().out.as_slice();
        let Ok((mut sent, mut told)) = kept(self.alloc, out) else {
            // (handed to drop, by one call: going out of scope here would be checked field by field on each way out)
            drop(prepared);
            return Err(AllocError);
        };
        let Ok(()) = self.sent.reserve(sent.len()) else {
            drop((prepared, sent, told));
            return Err(AllocError);
        };
        let Ok(()) = self.told.reserve(told.len()) else {
            drop((prepared, sent, told));
            return Err(AllocError);
        };
        let Ok(reply) = self.desk.make(prepared) else {
            drop((sent, told));
            return Err(AllocError);
        };
        self.sent.append(&mut sent).unwrap();
        self.told.append(&mut told).unwrap();
        drop((sent, told));
        Ok(reply)
    }

    fn front(&self, keep: u32) -> Result<Vec<Fact>, AllocError>
        requires { keep ≤ length self.now.desk.facts }
        ensures value { IfOk result (λ facts. facts.items ≡ take keep self.now.desk.facts) }
        ensures short { OnErr result (0 < keep) }
    {
        let mut facts = Vec::with_capacity(self.alloc, keep as usize)?;
        for before in 0..keep {
            facts.push(self.desk.fact(before + 1).unwrap().copy()?)?;
        }
        Ok(facts)
    }

    fn replay(&self, facts: Vec<Fact>) -> Result<Desk<R>, AllocError>
        requires { bad_fact R.SIDE self.now.desk.point facts.items ≡ None }
        ensures value { IfOk result (λ desk. desk ≡ record { point = self.now.desk.point; facts = facts.items; saved = length facts.items; halted = false; kept = [] }) }
        ensures short { OnErr result (0 < length facts.items) }
    {
        let calendar = self.desk.calendar().copy().unwrap();
        match Desk::replay(self.alloc, calendar, self.desk.point(), facts) {
            Ok(desk) => Ok(desk),
            Err(ReplayFault::OutOfMemory) => Err(AllocError),
            Err(ReplayFault::BadFact(_)) => unreachable!(),
        }
    }

    #[tactic(auto, unfolding(crate::specs::World::after_restart))]
    pub(crate) fn restart(&mut self, keep: u32) -> Result<(), AllocError>
        requires { keep ≤ length self.now.desk.facts }
        ensures next { OnOk result (self.new ≡ after_restart self.old keep) }
        ensures unchanged { OnErr result (self.new ≡ self.old) }
        ensures short { OnErr result (0 < keep) }
    {
        fronts_are_legal();
        self.desk.reveal_invariant();
        let facts = self.front(keep)?;
        let desk = self.replay(facts)?;
        drop(mem::replace(&mut self.desk, desk));
        Ok(())
    }
}
