//! Sessions that are served at the same time: a worker for each, in a thread of its own.

ghost use Rattle.std.specs.Prelude.{◌≡◌, ◌≤◌, ◌<◌, ◌+◌, ◌^◌, [], All, IfErr, IfOk, length, map, vec_capacity};
ghost use Rattle.gi_desk.specs.declared.call.Call.TheVariants as calls;
ghost use Rattle.gi_office.specs.Entering.{IsAnswered};
ghost use Rattle.gi_office.specs.Serving.{AreServed, IsServed, Submits};
ghost use Rattle.gi_office.specs.Working.{AreRooms, IsReady, served_of, session_of};

use crate::gate::Gate;
use crate::office::Office;
use crate::office_fault::OfficeFault;
use crate::receipt::Receipt;
use crate::seat::Seat;
use crate::session::{Served, Session};
use crate::work::{Work, begun, ended, growths};
use gi_desk::{Body, Call, Role};
use std::sync::Wait;
use std::sync::ledger::Ledger;
use std::thread::Threads;
use std::{mem, thread};

impl<R: Role, L: Ledger> Office<R, L> {
    /// Tells the gate once the call is answered.
    fn submit_told<W: Wait, G: Gate>(
        &self,
        rt: &W,
        gate: &G,
        number: usize,
        call: usize,
        seat: &mut Seat<L>,
        body: Body,
    ) -> Result<Receipt, OfficeFault>
        ensures { IsAnswered R.SIDE seat.old (calls.Submit body) result seat.new }
    {
        let answer = self.ask_from(rt, seat, Call::Submit(body));
        gate.answered(rt, number, call);
        answer
    }

    /// `Err(None)` where the gate ends the session.
    fn submit_next<W: Wait, G: Gate>(
        &self,
        rt: &W,
        gate: &G,
        number: usize,
        call: usize,
        seat: &mut Seat<L>,
        body: Body,
    ) -> Result<Receipt, Option<OfficeFault>>
        ensures { Submits R.SIDE (G.may_go gate.now number call) (G.may_end gate.now number call) seat.old body result seat.new }
    {
        if !gate.hold(rt, number, call) {
            // (handed to drop, by one call: going out of scope here would be checked field by field on each way out)
            drop(body);
            return Err(None);
        }
        match self.submit_told(rt, gate, number, call, seat, body) {
            Ok(receipt) => Ok(receipt),
            Err(fault) => Err(Some(fault)),
        }
    }

    fn submit_all<W: Wait, G: Gate>(
        &self,
        rt: &W,
        gate: &G,
        number: usize,
        seat: &mut Seat<L>,
        bodies: Vec<Body>,
        receipts: &mut Vec<Receipt>,
    ) -> Option<OfficeFault>
        requires none { receipts.old.items ≡ [] }
        requires room { length bodies.items ≤ vec_capacity receipts.old }
        ensures { IsServed R.SIDE (G.may_go gate.now number) (G.may_end gate.now number) (record { seat = seat.old; bodies = bodies.items }) (record { seat = seat.new; receipts = receipts.new.items; fault = result }) }
    {
        for body in bodies {
            match self.submit_next(rt, gate, number, receipts.len() + 1, seat, body) {
                Ok(receipt) => receipts.push_reserved(receipt),
                Err(end) => return end,
            }
        }
        None
    }

    fn run<W: Wait, G: Gate>(&self, rt: &W, gate: &G, number: usize, work: &mut Work<L>)
        requires { IsReady work.old }
        ensures { IsServed R.SIDE (G.may_go gate.now number) (G.may_end gate.now number) (session_of work.old) (served_of work.new) }
    {
        let none = Vec::new(*work.bodies.allocator());
        let bodies = mem::replace(&mut work.bodies, none);
        work.fault = self.submit_all(rt, gate, number, &mut work.seat, bodies, &mut work.receipts);
    }
}

impl<R: Role<Received: Send> + Send, L: Ledger + Send> Office<R, L> {
    fn run_all<T: Threads + Wait + Sync, G: Gate + Sync>(
        &self,
        rt: &T,
        gate: &G,
        works: &mut [Work<L>],
    )
        requires { All IsReady works.old }
        ensures { AreServed R.SIDE (G.may_go gate.now) (G.may_end gate.now) 1 (map session_of works.old) (map served_of works.new) }
    {
        let threads = works.len().max(1);
        thread::for_each_mut(
            rt,
            works,
            threads,
            &|i: usize, work: &mut Work<L>|
                requires { (i + 1 < 2 ^ 64) × IsReady work.old }
                ensures { IsServed R.SIDE (G.may_go gate.entry.now (i + 1)) (G.may_end gate.entry.now (i + 1)) (session_of work.old) (served_of work.new) }
            { self.run(rt, gate, i + 1, work) },
        );
    }

    fn serve_all<T: Threads + Wait + Sync, G: Gate + Sync>(
        &self,
        rt: &T,
        gate: &G,
        sessions: Vec<Session<L>>,
        rooms: Vec<Vec<Receipt>>,
        works: Vec<Work<L>>,
        served: Vec<Served<L>>,
    ) -> Vec<Served<L>>
        requires rooms { AreRooms sessions.items rooms.items }
        requires works { (works.items ≡ []) × (length sessions.items ≤ vec_capacity works) }
        requires served { (served.items ≡ []) × (length sessions.items ≤ vec_capacity served) }
        ensures { AreServed R.SIDE (G.may_go gate.now) (G.may_end gate.now) 1 sessions.items result.items }
    {
        let mut works = begun(sessions, rooms, works);
        self.run_all(rt, gate, &mut works);
        ended(works, served)
    }

    /// Serves sessions, numbered from 1 in this order, and gives what came of each, in the same order.
    /// Each has a worker, which submits its bodies one after the other; it asks the gate before each
    /// call, and tells it after. A session ends at its first fault, and where the gate says so. Each
    /// worker has a thread of its own; where none can be started, sessions run one after the other.
    /// What it takes of memory it takes before the first call: `OutOfMemory`, and the sessions are
    /// handed back as they were.
    pub fn serve<T: Threads + Wait + Sync, G: Gate + Sync>(
        &self,
        rt: &T,
        gate: &G,
        sessions: Vec<Session<L>>,
    ) -> Result<Vec<Served<L>>, (Vec<Session<L>>, OfficeFault)>
        ensures served { IfOk result (λ served. AreServed R.SIDE (G.may_go gate.now) (G.may_end gate.now) 1 sessions.items served.items) }
        ensures back { IfErr result (λ back. back.0.items ≡ sessions.items) }
        ensures fault { IfErr result (λ back. back.1 ≡ OfficeFault.OutOfMemory) }
    {
        let Ok((rooms, works, served)) = growths(&sessions) else {
            return Err((sessions, OfficeFault::OutOfMemory));
        };
        Ok(self.serve_all(rt, gate, sessions, rooms, works, served))
    }
}
