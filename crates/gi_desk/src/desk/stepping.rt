//! One step: what the call comes to, what that lets out, and then the change.

ghost use Rattle.std.specs.Prelude.{◌≡◌, IfErr, IfOk, IsTrue, OnErr, OnOk};
ghost use Rattle.gi_desk.specs.Caches.{CanFollow};
ghost use Rattle.gi_desk.specs.declared.call.Call.{Call};
ghost use Rattle.gi_desk.specs.Machine.{IsForeseen, IsPrepared, IsStep, after, answer_of, grows, may_want, may_want_to_prepare, next_of, out_of_memory, prepared as prepared_of, reply as reply_of};

use crate::call::Call;
use crate::desk::Desk;
use crate::outcome::Outcome;
use crate::packet::Packets;
use crate::prepared::Prepared;
use crate::refusal::Refusal;
use crate::reply::{Answer, Reply};
use crate::role::Role;
use std::alloc::{AllocError, Global};

fn short_of_memory(alloc: Global) -> Reply
    ensures { result ≡ out_of_memory }
{
    Reply {
        answer: Answer::Refused(Refusal::OutOfMemory),
        out: Packets::from(Vec::new(alloc)),
    }
}

impl<R: Role> Desk<R> {
    fn answer(&self, outcome: &Outcome) -> Answer
        requires { CanFollow R.SIDE self.now outcome.now }
        ensures { result ≡ answer_of self.now outcome.now }
    {
        match outcome {
            Outcome::Records(_) => Answer::Recorded {
                n: self.next_number(),
            },
            Outcome::RepeatsNomination { n } => Answer::Repeat { n: *n },
            Outcome::RepeatsMeeting { n } | Outcome::RepeatsPart { n } => Answer::Repeat { n: *n },
            Outcome::Keeps { id, part } => Answer::Kept {
                have: self.parts.count_with(id, part),
                parts: part.parts,
            },
            Outcome::Saves { n } => Answer::Saved { n: *n },
            Outcome::Resends(_) => Answer::Resent,
            Outcome::Stops => Answer::Stopped,
            Outcome::Refuses(refusal) => Answer::Refused(*refusal),
        }
    }

    fn apply(&mut self, outcome: Outcome) -> Result<(), AllocError>
        requires { CanFollow R.SIDE self.now outcome }
        ensures next { OnOk result (self.new ≡ next_of self.old outcome) }
        ensures unchanged { OnErr result (self.new ≡ self.old) }
        ensures short { IfErr result (λ _. IsTrue (grows outcome)) }
    {
        match outcome {
            Outcome::Records(fact) => return self.record(fact),
            Outcome::Keeps { id, part } => return self.parts.keep(id, part),
            Outcome::Saves { n } => self.saved = n,
            Outcome::Stops => self.halted = true,
            _ => {}
        }
        Ok(())
    }

    /// What the call comes to and the reply to it, with nothing changed. Want of memory comes only
    /// where the desk is not halted, and for a message that can be read or where packets leave.
    pub fn prepare(&self, call: &Call) -> Result<Prepared, AllocError>
        ensures value { IfOk result (λ prepared. prepared ≡ prepared_of R.SIDE self.now call.now) }
        ensures short { IfErr result (λ _. IsTrue (may_want_to_prepare R.SIDE self.now call.now)) }
    {
        let outcome = self.outcome(call)?;
        let Ok(out) = self.out(&outcome) else {
            // (handed to drop, by one call: going out of scope here would be checked field by field on each way out)
            drop(outcome);
            return Err(AllocError);
        };
        let reply = Reply {
            answer: self.answer(&outcome),
            out: Packets::from(out),
        };
        Ok(Prepared { outcome, reply })
    }

    /// Makes the step that was prepared for a call to this desk as it is now. Where memory runs out,
    /// as it can only where a fact is recorded or a part is kept, nothing is changed.
    pub fn make(&mut self, prepared: Prepared) -> Result<Reply, AllocError>
        requires { IsPrepared R.SIDE self.now prepared }
        ensures reply { IfOk result (λ reply. reply ≡ prepared.reply) }
        ensures next { OnOk result ((call : Call) → prepared ≡ prepared_of R.SIDE self.old call → self.new ≡ after R.SIDE self.old call) }
        ensures unchanged { OnErr result (self.new ≡ self.old) }
        ensures short { IfErr result (λ _. IsTrue (grows prepared.outcome)) }
    {
        let Prepared { outcome, reply } = prepared;
        self.apply(outcome)?;
        Ok(reply)
    }

    fn try_step(&mut self, call: &Call) -> Result<Reply, AllocError>
        ensures reply { IfOk result (λ reply. reply ≡ reply_of R.SIDE self.old call.now) }
        ensures next { OnOk result (self.new ≡ after R.SIDE self.old call.now) }
        ensures unchanged { OnErr result (self.new ≡ self.old) }
        ensures short { IfErr result (λ _. IsTrue (may_want R.SIDE self.old call.now)) }
    {
        let prepared = self.prepare(call)?;
        self.make(prepared)
    }

    /// What `step` would reply, with nothing changed.
    pub fn foresee(&self, call: &Call) -> Reply
        ensures { IsForeseen R.SIDE self.now call.now result }
    {
        match self.prepare(call) {
            Ok(Prepared { outcome: _, reply }) => reply,
            Err(_) => short_of_memory(self.alloc),
        }
    }

    /// Takes a call: answers it, makes its change and gives what it lets out. A refused call
    /// changes nothing. The refusals, in their order, are `Halted`, the call's own, `Full` and
    /// `OutOfMemory`; the last comes only for a message that can be read, where a fact is recorded,
    /// and where packets leave. No packet leaves of a fact that is not saved.
    pub fn step(&mut self, call: &Call) -> Reply
        ensures { IsStep R.SIDE self.old call.now result self.new }
    {
        match self.try_step(call) {
            Ok(reply) => reply,
            Err(_) => short_of_memory(self.alloc),
        }
    }
}
