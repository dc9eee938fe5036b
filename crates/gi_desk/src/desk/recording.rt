//! How a fact is recorded: room for it is taken, what is kept beside the facts is changed or reads
//! as it did, and then the fact is put behind the others.

ghost use Rattle.std.specs.Prelude.{◌≡◌, ◌<◌, ◌≤◌, ◌++◌, ◌∷◌, [], IfOk, OnErr, OnOk, length, true};
ghost use Rattle.gi_day.specs.Cycles.{IsCycle};
ghost use Rattle.gi_pairs.specs.Limits.{most_processed_rows};
ghost use Rattle.gi_pairs.specs.Table.{IsTable};
ghost use Rattle.gi_processing.specs.Processing.{HasFewOfEach, processed as processed_of};
ghost use Rattle.gi_parts.specs.Parts.{without};
ghost use Rattle.gi_desk.specs.History.{capacity_of, documents_of};
ghost use Rattle.gi_desk.specs.Machine.{kept_after, most_facts, would_record};
ghost use Rattle.gi_facts.specs.Writable.{FitsFact};
ghost use Rattle.gi_facts.specs.declared.fact.Fact.TheVariants.{Closed, Contracted, Met, Nominated, Noticed};

use crate::capacity::{record_contract, record_notice};
use crate::desk::Desk;
use crate::ranges::reveal_fact;
use crate::role::Role;
use crate::stages::{close, meet};
use gi_facts::Fact;
use gi_messages::Nomint;
use gi_nominations::PortfolioDay;
use gi_pairs::{CycleId, Table};
use gi_processing::{Contract, Notice, Rule, processed};
use std::alloc::AllocError;

impl<R: Role> Desk<R> {
    fn processed(&self, id: &CycleId, rule: Rule) -> Result<Table, AllocError>
        requires { IsCycle id.now.day id.now.cycle }
        ensures value { IfOk result (λ table. table ≡ processed_of (capacity_of self.now.facts) (documents_of self.now.facts) R.SIDE id.now.day id.now.cycle rule) }
        ensures few { IfOk result (λ table. length table.rows ≤ most_processed_rows) }
        ensures few_of_each { IfOk result (HasFewOfEach R.SIDE) }
        ensures table { IfOk result IsTable }
    {
        let frame = self.calendar.frame(id.day).unwrap();
        processed(
            self.alloc,
            self.book(),
            self.contracts(),
            R::SIDE,
            &frame,
            id.cycle,
            rule,
        )
    }

    fn freeze(&mut self, id: &CycleId, rule: Rule) -> Result<(), AllocError>
        requires recorded { would_record R.SIDE self.now.point self.now.facts (Closed id.now rule) ≡ true }
        requires room { length self.now.facts < most_facts }
        requires fits { FitsFact (Closed id.now rule) }
        ensures next { OnOk result (self.new ≡ record self.old { facts = self.old.facts ++ Closed id.now rule ∷ [] }) }
        ensures unchanged { OnErr result (self.new ≡ self.old) }
    {
        let own = self.processed(id, rule)?;
        let number = self.next_number();
        let Ok(()) = self.facts.reserve(1) else {
            // (handed to drop, by one call: going out of scope here would be checked field by field on each way out)
            drop(own);
            return Err(AllocError);
        };
        close(&mut self.kept.stages, id, own, number)?;
        self.facts.push_reserved(Fact::Closed { id: *id, rule });
        Ok(())
    }

    fn meet(&mut self, id: &CycleId, peer: Table) -> Result<(), AllocError>
        requires recorded { would_record R.SIDE self.now.point self.now.facts (Met id.now peer) ≡ true }
        requires room { length self.now.facts < most_facts }
        requires fits { FitsFact (Met id.now peer) }
        ensures next { OnOk result (self.new ≡ record self.old { facts = self.old.facts ++ Met id.now peer ∷ []; kept = without id.now self.old.kept }) }
        ensures unchanged { OnErr result (self.new ≡ self.old) }
    {
        // The fact and the cycle hold the peer's table in the same memory.
        let peer = peer.share()?;
        let Ok(copy) = peer.copy() else {
            drop(peer);
            return Err(AllocError);
        };
        let number = self.next_number();
        let Ok(()) = self.facts.reserve(1) else {
            drop((peer, copy));
            return Err(AllocError);
        };
        let Ok(()) = meet(self.alloc, &mut self.kept.stages, id, peer, number) else {
            drop(copy);
            return Err(AllocError);
        };
        self.facts.push_reserved(Fact::Met {
            id: *id,
            peer: copy,
        });
        self.parts.forget(id);
        Ok(())
    }

    fn contract(&mut self, contract: &Contract) -> Result<(), AllocError>
        requires recorded { would_record R.SIDE self.now.point self.now.facts (Contracted contract.now) ≡ true }
        requires room { length self.now.facts < most_facts }
        requires fits { FitsFact (Contracted contract.now) }
        ensures next { OnOk result (self.new ≡ record self.old { facts = self.old.facts ++ Contracted contract.now ∷ [] }) }
        ensures unchanged { OnErr result (self.new ≡ self.old) }
    {
        self.facts.reserve(1)?;
        record_contract(&mut self.kept.contracts, *contract)?;
        self.facts.push_reserved(Fact::Contracted(*contract));
        Ok(())
    }

    fn notice(&mut self, notice: &Notice) -> Result<(), AllocError>
        requires recorded { would_record R.SIDE self.now.point self.now.facts (Noticed notice.now) ≡ true }
        requires room { length self.now.facts < most_facts }
        requires fits { FitsFact (Noticed notice.now) }
        ensures next { OnOk result (self.new ≡ record self.old { facts = self.old.facts ++ Noticed notice.now ∷ [] }) }
        ensures unchanged { OnErr result (self.new ≡ self.old) }
    {
        self.facts.reserve(1)?;
        record_notice(&mut self.kept.contracts, &self.calendar, *notice)?;
        self.facts.push_reserved(Fact::Noticed(*notice));
        Ok(())
    }

    fn take(&mut self, document: Nomint) -> Result<(), AllocError>
        requires recorded { would_record R.SIDE self.now.point self.now.facts (Nominated document) ≡ true }
        requires room { length self.now.facts < most_facts }
        requires fits { FitsFact (Nominated document) }
        ensures next { OnOk result (self.new ≡ record self.old { facts = self.old.facts ++ Nominated document ∷ [] }) }
        ensures unchanged { OnErr result (self.new ≡ self.old) }
    {
        let Ok(taken) = document.copy() else {
            drop(document);
            return Err(AllocError);
        };
        let number = self.next_number();
        let Ok(()) = self.facts.reserve(1) else {
            drop((document, taken));
            return Err(AllocError);
        };
        let key = PortfolioDay::of(&document);
        let Ok(_) = self.kept.takings.insert(key, number) else {
            drop((document, taken));
            return Err(AllocError);
        };
        let Ok(()) = self.kept.book.take(taken) else {
            // The book has room in the place of another nomination: so none is in force, and no number stood here.
            self.kept.takings.remove(&key);
            drop(document);
            return Err(AllocError);
        };
        self.facts.push_reserved(Fact::Nominated(document));
        Ok(())
    }

    fn put(&mut self, fact: Fact) -> Result<(), AllocError>
        requires recorded { would_record R.SIDE self.now.point self.now.facts fact ≡ true }
        requires room { length self.now.facts < most_facts }
        requires fits { FitsFact fact }
        ensures next { OnOk result (self.new ≡ record self.old { facts = self.old.facts ++ fact ∷ []; kept = kept_after fact self.old.kept }) }
        ensures unchanged { OnErr result (self.new ≡ self.old) }
    {
        match fact {
            Fact::Closed { id, rule } => self.freeze(&id, rule),
            Fact::Met { id, peer } => self.meet(&id, peer),
            Fact::Contracted(contract) => self.contract(&contract),
            Fact::Noticed(notice) => self.notice(&notice),
            Fact::Nominated(document) => self.take(document),
        }
    }

    pub(super) fn record(&mut self, fact: Fact) -> Result<(), AllocError>
        requires recorded { would_record R.SIDE self.now.point self.now.facts fact ≡ true }
        requires room { length self.now.facts < most_facts }
        ensures next { OnOk result (self.new ≡ record self.old { facts = self.old.facts ++ fact ∷ []; kept = kept_after fact self.old.kept }) }
        ensures unchanged { OnErr result (self.new ≡ self.old) }
    {
        // All that is recorded can be written, and so the fact that comes next.
        self.reveal_invariant();
        reveal_fact(&fact);
        self.put(fact)
    }
}
