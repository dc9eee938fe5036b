//! A desk from its saved facts.

ghost use Rattle.std.specs.Prelude.{◌≡◌, ◌+◌, ◌++◌, ◌∷◌, [], Err, IfOk, OnOk, ℕ, false, length, true};
ghost use Rattle.gi_desk.specs.Machine.{IsReplayed, kept_after, may_follow};
ghost use Rattle.gi_desk.specs.declared.replay_fault.ReplayFault.TheVariants.{BadFact, OutOfMemory};

use crate::desk::Desk;
use crate::judging::MOST_FACTS;
use crate::kept::Kept;
use crate::replay_fault::ReplayFault;
use crate::role::Role;
use gi_day::Calendar;
use gi_facts::Fact;
use gi_nominations::Book;
use gi_pairs::Code;
use gi_parts::KeptParts;
use gi_processing::Contracts;
use std::alloc::Global;
use std::collections::BTreeMap;
use std::marker::PhantomData;

impl<R: Role> Desk<R> {
    fn empty(alloc: Global, calendar: Calendar, point: Code) -> Desk<R>
        ensures { result ≡ record { point = point; facts = []; saved = 0; halted = false; kept = [] } }
    {
        point.reveal_invariant();
        Desk {
            alloc,
            calendar,
            point,
            facts: Vec::new(alloc),
            kept: Kept {
                book: Book::new(alloc, point),
                contracts: Contracts::new(alloc),
                takings: BTreeMap::new(alloc),
                stages: BTreeMap::new(alloc),
            },
            parts: KeptParts::new(alloc),
            saved: 0,
            halted: false,
            role: PhantomData,
        }
    }

    fn record_again(&mut self, fact: Fact) -> Result<(), ReplayFault>
        ensures may { IfOk result (λ _. may_follow R.SIDE self.old.point self.old.facts fact ≡ true) }
        ensures next { OnOk result (self.new ≡ record self.old { facts = self.old.facts ++ fact ∷ []; kept = kept_after fact self.old.kept }) }
        ensures refused { (n : ℕ) → result ≡ Err (BadFact n) → (n ≡ length self.old.facts + 1) × (may_follow R.SIDE self.old.point self.old.facts fact ≡ false) }
        ensures short { result ≡ Err OutOfMemory → may_follow R.SIDE self.old.point self.old.facts fact ≡ true }
    {
        if self.facts.len() >= MOST_FACTS || !self.would_record(&fact) {
            // (handed to drop, by one call: going out of scope here would be checked field by field on each way out)
            drop(fact);
            return Err(ReplayFault::BadFact(self.next_number()));
        }
        Ok(self.record(fact)?)
    }

    /// The desk of these facts, all of which are saved; it is not halted and keeps no part. `BadFact`
    /// for the first fact that no call would record after those before it, whatever parts are kept,
    /// and for the 1,000,001st; then `OutOfMemory`, which never comes where the first fact is bad or
    /// there is none.
    pub fn replay(
        alloc: Global,
        calendar: Calendar,
        point: Code,
        facts: Vec<Fact>,
    ) -> Result<Desk<R>, ReplayFault>
        ensures { IsReplayed R.SIDE point facts.items result }
    {
        let mut desk = Desk::empty(alloc, calendar, point);
        for fact in facts {
            match desk.record_again(fact) {
                Ok(()) => {}
                Err(fault) => {
                    drop(desk);
                    return Err(fault);
                }
            }
        }
        desk.saved = desk.facts.len() as u32;
        Ok(desk)
    }
}
