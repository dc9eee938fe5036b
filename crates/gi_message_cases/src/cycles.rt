//! The lesser of two tables, and the states of a cycle.

use gi_calls::{Answer, Fault, Subject, Words, add_table, table_of};
use gi_cycles::{Collecting, CycleState, Frozen, Matched, MeetFault};
use gi_lesser::lesser;
use gi_pairs::{CycleId, Key, MOST_PROCESSED_ROWS, Table};
use std::alloc::Global;

/// The calls of the subject `cycles`: the cycle of the last `new`.
#[derive(Drop)]
pub struct Cycles {
    state: Option<CycleState>,
}

/// Adds the lesser of two tables, which are for the same hours and have as many rows as processed
/// tables may have.
fn add_lesser(alloc: Global, own: &Table, peer: &Table, text: &mut Answer) -> Result<bool, Fault> {
    if own.first() != peer.first() || own.last() != peer.last() {
        return Ok(false);
    }
    if own.rows().len() > MOST_PROCESSED_ROWS || peer.rows().len() > MOST_PROCESSED_ROWS {
        return Ok(false);
    }
    add_table(&lesser(alloc, own, peer)?, text);
    Ok(true)
}

/// Adds the lesser of a table and that of the words.
fn lesser_with(alloc: Global, own: &Table, peer: &str, text: &mut Answer) -> Result<bool, Fault> {
    match table_of(alloc, peer)? {
        Some(peer) => add_lesser(alloc, own, &peer, text),
        None => Ok(false),
    }
}

/// `lesser TABLE with TABLE`.
fn lesser_of(alloc: Global, tables: &str, text: &mut Answer) -> Result<bool, Fault> {
    let Some((own, peer)) = tables.split_once(" with ") else {
        return Ok(false);
    };
    match table_of(alloc, own)? {
        Some(own) => lesser_with(alloc, &own, peer, text),
        None => Ok(false),
    }
}

/// `names`: the refusals.
fn names(text: &mut Answer) -> bool {
    let (shape, memory) = (MeetFault::ShapeDiffers, MeetFault::OutOfMemory);
    text.show(shape);
    text.word(memory);
    true
}

/// The closed cycle, where it collects and the table has as many rows as a processed one may; else
/// the state comes back.
fn closed(state: CycleState, processed: Table) -> Result<Frozen, CycleState> {
    if processed.rows().len() > MOST_PROCESSED_ROWS {
        // (handed to `drop`, by one call: going out of scope here would be checked field by field
        // on each way out)
        drop(processed);
        return Err(state);
    }
    match state {
        CycleState::Collecting(collecting) => Ok(collecting.close(processed)),
        state => {
            drop(processed);
            Err(state)
        }
    }
}

/// Adds what a meeting answers. The state is what it leaves.
fn met(answer: Result<Matched, (Frozen, MeetFault)>, text: &mut Answer) -> CycleState {
    match answer {
        Ok(matched) => {
            text.add("ok");
            CycleState::Matched(matched)
        }
        Err((frozen, fault)) => {
            text.show(fault);
            CycleState::Frozen(frozen)
        }
    }
}

/// The cycle of a state.
fn cycle_of(state: &CycleState) -> CycleId {
    match state {
        CycleState::Collecting(collecting) => collecting.id(),
        CycleState::Frozen(frozen) => frozen.id(),
        CycleState::Matched(matched) => matched.id(),
    }
}

/// `id`: the name of the state, and its cycle.
fn id(state: &CycleState, text: &mut Answer) -> bool {
    let name = match state {
        CycleState::Collecting(_) => "Collecting",
        CycleState::Frozen(_) => "Frozen",
        CycleState::Matched(_) => "Matched",
    };
    let CycleId { day, cycle } = cycle_of(state);
    text.add(name);
    text.word(day);
    text.word(cycle);
    true
}

/// `own`, `peer` or `confirmed`: that table of the state, where it has one.
fn table<'a>(state: &'a CycleState, name: &str) -> Option<&'a Table> {
    match (state, name) {
        (CycleState::Frozen(frozen), "own") => Some(frozen.own()),
        (CycleState::Matched(matched), "own") => Some(matched.own()),
        (CycleState::Matched(matched), "peer") => Some(matched.peer()),
        (CycleState::Matched(matched), "confirmed") => Some(matched.confirmed()),
        _ => None,
    }
}

/// Adds what a table of the state reads, where the state has it.
fn add_reading(state: &CycleState, name: &str, key: &Key, hour: u8, text: &mut Answer) {
    let Some(table) = table(state, name) else {
        return;
    };
    let reading = table.at(key.pair, key.direction, hour);
    text.add(name);
    text.word(reading);
    text.end_line();
}

/// `at INITIATING MATCHING DIRECTION HOUR`: what each table of the state reads, each in a line.
fn at(state: &CycleState, mut words: Words<'_>, text: &mut Answer) -> bool {
    let (Some(key), Some(hour)) = (words.key(), words.byte()) else {
        return false;
    };
    add_reading(state, "own", &key, hour, text);
    add_reading(state, "peer", &key, hour, text);
    add_reading(state, "confirmed", &key, hour, text);
    true
}

impl Cycles {
    pub fn new() -> Cycles {
        Cycles { state: None }
    }

    /// Keeps a state in the place of the one before, which is let go here alone.
    fn keep(&mut self, state: Option<CycleState>) {
        self.state = state;
    }

    /// `new DAY CYCLE`: the cycle, which collects.
    fn make(&mut self, mut words: Words<'_>, text: &mut Answer) -> bool {
        let Some(id) = words.cycle() else {
            return false;
        };
        self.keep(Some(CycleState::Collecting(Collecting::new(id))));
        text.add("ok");
        true
    }

    /// `close TABLE`: freezes the table of a cycle that collects.
    fn close(&mut self, alloc: Global, given: &str, text: &mut Answer) -> Result<bool, Fault> {
        match table_of(alloc, given)? {
            Some(processed) => Ok(self.close_with(processed, text)),
            None => Ok(false),
        }
    }

    /// Closes the cycle, where it collects and the table has as many rows as a processed one may.
    fn close_with(&mut self, processed: Table, text: &mut Answer) -> bool {
        let Some(state) = self.state.take() else {
            drop(processed);
            return false;
        };
        match closed(state, processed) {
            Ok(frozen) => {
                self.keep(Some(CycleState::Frozen(frozen)));
                text.add("ok");
                true
            }
            Err(state) => {
                self.keep(Some(state));
                false
            }
        }
    }

    /// `meet TABLE`: where it is refused, the frozen cycle that comes back is kept.
    fn meet(&mut self, alloc: Global, given: &str, text: &mut Answer) -> Result<bool, Fault> {
        match table_of(alloc, given)? {
            Some(peer) => Ok(self.meet_with(alloc, peer, text)),
            None => Ok(false),
        }
    }

    /// Makes the cycle meet the table, where it is frozen and the table has as many rows as a
    /// processed one may.
    fn meet_with(&mut self, alloc: Global, peer: Table, text: &mut Answer) -> bool {
        if peer.rows().len() > MOST_PROCESSED_ROWS {
            drop(peer);
            return false;
        }
        match self.state.take() {
            Some(CycleState::Frozen(frozen)) => {
                self.keep(Some(met(frozen.meet(alloc, peer), text)));
                true
            }
            other => {
                drop(peer);
                self.keep(other);
                false
            }
        }
    }

    /// The calls of a state.
    fn on_state(&self, mut words: Words<'_>, text: &mut Answer) -> bool {
        let Some(state) = &self.state else {
            return false;
        };
        match words.next() {
            "id" => id(state, text),
            "at" => at(state, words, text),
            name => match table(state, name) {
                Some(table) => {
                    add_table(table, text);
                    true
                }
                None => false,
            },
        }
    }
}

impl Subject for Cycles {
    fn answer(&mut self, rt: &HostRuntime, call: &str, text: &mut Answer) -> Result<bool, Fault> {
        let alloc = rt.alloc();
        let mut words = Words::of(call);
        match words.next() {
            "lesser" => lesser_of(alloc, words.rest(), text),
            "names" => Ok(names(text)),
            "new" => Ok(self.make(words, text)),
            "close" => self.close(alloc, words.rest(), text),
            "meet" => self.meet(alloc, words.rest(), text),
            _ => Ok(self.on_state(Words::of(call), text)),
        }
    }
}
