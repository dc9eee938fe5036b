//! The parts of the two operators in the exchange of a cycle: what each decides of the other's
//! message, and what it sends.

mod comparing;
mod deciding;
mod sending;
mod tables;

use comparing::compared;
use deciding::decided;
use gi_calls::{Answer, Fault, Subject, Words, table_of};
use gi_cycles::{Collecting, CycleState, Frozen};
use gi_desk::Role;
use gi_initiator::Initiating;
use gi_matcher::Matching;
use gi_pairs::{MOST_PROCESSED_ROWS, Table};
use sending::sent;
use std::alloc::Global;
use std::mem::ManuallyDrop;

// What goes out of scope here is handed to `drop`, by one call, since it would be checked field by
// field on each way out.

/// The calls of the subject `roles`.
pub struct Roles {
    /// How far the cycle is that the calls are about.
    state: Option<CycleState>,
}

/// Which side a role is.
fn side(words: Words<'_>, text: &mut Answer) -> bool {
    let side = match words.rest() {
        "Initiating" => Initiating::SIDE,
        "Matching" => Matching::SIDE,
        _ => return false,
    };
    text.show(side);
    true
}

impl Roles {
    pub fn new() -> Roles {
        Roles { state: None }
    }

    /// Keeps a cycle in the place of the one before, which stays until the program ends, as `answered`
    /// keeps its subject.
    fn keep(&mut self, state: CycleState) {
        let _former = unsafe { ManuallyDrop::new_unchecked(self.state.replace(state)) };
    }

    /// The cycle collects nominations.
    fn collect(&mut self, mut words: Words<'_>, text: &mut Answer) -> bool {
        let Some(id) = words.cycle() else {
            return false;
        };
        self.keep(CycleState::Collecting(Collecting::new(id)));
        text.add("ok");
        true
    }

    /// Closes the cycle with a table.
    fn close(&mut self, alloc: Global, line: &str, text: &mut Answer) -> Result<bool, Fault> {
        let Some(own) = table_of(alloc, line)? else {
            return Ok(false);
        };
        let Some(CycleState::Collecting(cycle)) = &self.state else {
            drop(own);
            return Ok(false);
        };
        if own.rows().len() > MOST_PROCESSED_ROWS {
            drop(own);
            return Ok(false);
        }
        let cycle = Collecting::new(cycle.id());
        self.keep(CycleState::Frozen(cycle.close(own)));
        text.add("ok");
        Ok(true)
    }

    /// Makes the closed cycle meet a table.
    fn meet(&mut self, alloc: Global, line: &str, text: &mut Answer) -> Result<bool, Fault> {
        let Some(peer) = table_of(alloc, line)? else {
            return Ok(false);
        };
        match self.state.take() {
            Some(CycleState::Frozen(cycle)) => Ok(self.meet_with(alloc, cycle, peer, text)),
            other => {
                drop((other, peer));
                Ok(false)
            }
        }
    }

    /// Makes the cycle meet the table, where it has as many rows as a processed one may.
    fn meet_with(&mut self, alloc: Global, cycle: Frozen, peer: Table, text: &mut Answer) -> bool {
        if peer.rows().len() > MOST_PROCESSED_ROWS {
            drop((cycle, peer));
            return false;
        }
        match cycle.meet(alloc, peer) {
            Ok(cycle) => {
                self.keep(CycleState::Matched(cycle));
                text.add("ok");
            }
            Err((cycle, fault)) => {
                self.keep(CycleState::Frozen(cycle));
                text.show(fault);
            }
        }
        true
    }

    /// How two tables compare, or what is decided or sent in the state.
    fn told(&self, alloc: Global, call: &str, text: &mut Answer) -> Result<bool, Fault> {
        if compared(alloc, call, text)? {
            return Ok(true);
        }
        let Some(state) = &self.state else {
            return Ok(false);
        };
        if decided(alloc, state, call, text)? {
            return Ok(true);
        }
        sent(alloc, state, call, text)
    }
}

impl Subject for Roles {
    fn answer(&mut self, rt: &HostRuntime, call: &str, text: &mut Answer) -> Result<bool, Fault> {
        let alloc = rt.alloc();
        let mut words = Words::of(call);
        match words.next() {
            "side" => Ok(side(words, text)),
            "collecting" => Ok(self.collect(words, text)),
            "close" => self.close(alloc, words.rest(), text),
            "meet" => self.meet(alloc, words.rest(), text),
            _ => self.told(alloc, call, text),
        }
    }
}
