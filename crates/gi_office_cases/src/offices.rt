//! The offices of a file of cases: `I` and `later` are of the initiating side, `M` is of the matching
//! side. Several threads call `I` alone.

ghost use Rattle.std.specs.Prelude.{◌≡◌};

pub(crate) mod calls;
mod documents;
mod gates;
mod opened;
mod opening;
mod saving;
mod seats;
pub(crate) mod texts;

use crate::offices::opened::{Opened, keep_settled};
use gi_calls::{Answer, Fault, Words, add_answer, add_case};
use gi_initiator::Initiating;
use gi_matcher::Matching;
use gi_office::{Settled, join_lives, reconcile};
use std::alloc::Global;
use std::marker::Brand;
use std::mem::ManuallyDrop;
use std::rt::Clock;
use std::sync::Wait;
use std::sync::ledger::{Blank, Ledger};
use std::thread::Threads;

/// The calls of the subject `offices`.
struct Offices<'a, A: Ledger, B: Ledger, C: Ledger, W: Wait> {
    handle: &'a W,
    former: Opened<Initiating, A>,
    later: Opened<Initiating, B>,
    matching: Opened<Matching, C>,
}

/// Joins the lives of `I` and of `later`, once both are settled; they are those of `I` then.
fn joined(
    former: &mut Option<Settled<Initiating>>,
    later: &mut Option<Settled<Initiating>>,
    text: &mut Answer,
) -> bool {
    let later = later.take();
    let Some(life) = former.take() else {
        // (handed to `drop`, by one call: going out of scope here would be checked field by field
        // on each way out)
        drop(later);
        return false;
    };
    let Some(later) = later else {
        drop(life);
        return false;
    };
    match join_lives(life, later) {
        Ok(joined) => {
            keep_settled(former, Some(joined));
            text.add("ok");
        }
        Err(fault) => text.show(fault),
    }
    true
}

/// Sets `I` and `M` against each other, once both are settled.
fn reconciled(
    initiating: &Option<Settled<Initiating>>,
    matching: &Option<Settled<Matching>>,
    text: &mut Answer,
) -> bool {
    let (Some(initiating), Some(matching)) = (initiating, matching) else {
        return false;
    };
    match reconcile(initiating, matching) {
        Ok(()) => text.add("ok"),
        Err(fault) => text.show(fault),
    }
    true
}

impl<'a, A, B, C, W> Offices<'a, A, B, C, W>
where
    A: Ledger + Send + Sync,
    B: Ledger,
    C: Ledger,
    W: Threads + Wait + Clock + Sync,
{
    /// Makes the call of the line and adds its answer. `false` where it is none.
    fn answer(&mut self, alloc: Global, call: &str, text: &mut Answer) -> Result<bool, Fault> {
        let handle = self.handle;
        let mut words = Words::of(call);
        let word = words.next();
        let line = words.rest();
        match word {
            "I" => self.former.answer_by_threads(handle, alloc, line, text),
            "later" => self.later.answer(handle, alloc, line, text),
            "M" => self.matching.answer(handle, alloc, line, text),
            "join_lives" => Ok(joined(&mut self.former.settled, &mut self.later.settled, text)),
            "reconcile" => Ok(reconciled(&self.former.settled, &self.matching.settled, text)),
            _ => Ok(false),
        }
    }

    /// Adds the cases with their answers.
    fn answer_all(
        &mut self,
        alloc: Global,
        cases: &str,
        answer: &mut Answer,
        text: &mut Answer,
    ) -> Result<(), Fault> {
        for line in cases.lines() {
            if add_case(line, text) {
                answer.clear();
                let is_made = self.answer(alloc, line, answer)?;
                add_answer(is_made, answer, text);
            }
        }
        Ok(())
    }
}

/// The text, where all was answered.
fn ended(answered: Result<(), Fault>, text: Answer) -> Result<String, Fault> {
    match answered {
        Ok(()) => text.into_text(),
        Err(fault) => {
            drop(text);
            Err(fault)
        }
    }
}

/// The cases with their answers, of offices of these ledgers.
fn answers_of<A: Ledger + Send + Sync, B: Ledger, C: Ledger, W: Threads + Wait + Clock + Sync>(
    handle: &W,
    alloc: Global,
    former: Blank,
    later: Blank,
    matching: Blank,
    cases: &String,
) -> Result<String, Fault>
    requires former { (former.name ≡ A.name) × (former.parts ≡ A.parts) × (former.parts ≡ 16) }
    requires later { (later.name ≡ B.name) × (later.parts ≡ B.parts) × (later.parts ≡ 16) }
    requires matching { (matching.name ≡ C.name) × (matching.parts ≡ C.parts) × (matching.parts ≡ 16) }
{
    let subject = Offices {
        handle,
        former: Opened::<Initiating, A>::of(alloc, former),
        later: Opened::<Initiating, B>::of(alloc, later),
        matching: Opened::<Matching, C>::of(alloc, matching),
    };
    // (kept until the program ends, as `answered` keeps its subject)
    let mut kept = unsafe { ManuallyDrop::new_unchecked(subject) };
    let offices = &mut *kept;
    let mut answer = Answer::new(alloc);
    let mut text = Answer::new(alloc);
    let answered = offices.answer_all(alloc, cases.as_str(), &mut answer, &mut text);
    drop(answer);
    ended(answered, text)
}

/// The cases with their answers.
pub fn office_answers<W: Threads + Wait + Clock + Sync>(
    handle: &W,
    alloc: Global,
    cases: &str,
) -> Result<String, Fault> {
    // (the ledgers are picked at a call without a `&str`)
    let cases = cases.to_string(alloc)?;
    answers_of::<Brand, Brand, Brand, W>(
        handle,
        alloc,
        Blank::new(16),
        Blank::new(16),
        Blank::new(16),
        &cases,
    )
}
