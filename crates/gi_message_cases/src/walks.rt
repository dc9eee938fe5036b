//! The lesser of two tables by each of its walks, and by reading each hour at both of them.

mod grid;
mod plain;

use crate::walks::grid::{Grid, count_of};
use crate::walks::plain::plain_rows;
use gi_calls::{Answer, Fault, Words, add_answer, add_case};
use gi_lesser::{lesser, lesser_parallel};
use gi_pairs::{MOST_PROCESSED_ROWS, Table};
use std::alloc::Global;
use std::thread::Threads;

// What goes out of scope here is handed to `drop`, by one call, since it would be checked field by
// field on each way out.

/// The calls of the subject `walks`: the lesser of the last `lesser`, where all three ways agreed.
#[derive(Drop)]
struct Walks {
    lesser: Option<Table>,
}

/// Whether a table is the lesser that reading each hour at both tables gives.
fn is_plain(alloc: Global, own: &Table, peer: &Table, walked: &Table) -> Result<bool, Fault> {
    let rows = plain_rows(alloc, own, peer)?;
    match Table::build(own.first(), own.last(), rows) {
        Ok(plain) => Ok(plain == *walked),
        Err(_) => Ok(false),
    }
}

/// The lesser, where both walks give the same.
fn walked(
    threads: &(impl Threads + Sync),
    alloc: Global,
    own: &Table,
    peer: &Table,
) -> Result<Option<Table>, Fault> {
    if own.first() != peer.first() || own.last() != peer.last() {
        return Ok(None);
    }
    if own.rows().len() > MOST_PROCESSED_ROWS || peer.rows().len() > MOST_PROCESSED_ROWS {
        return Ok(None);
    }
    let walked = lesser(alloc, own, peer)?;
    let Ok(parallel) = lesser_parallel(threads, alloc, own, peer) else {
        drop(walked);
        return Err(Fault::OutOfMemory);
    };
    let is_same = parallel == walked;
    drop(parallel);
    if is_same {
        return Ok(Some(walked));
    }
    drop(walked);
    Ok(None)
}

/// What was walked, where reading each hour gives the same. Adds how many rows it has, or `differ`.
fn plainly(
    alloc: Global,
    own: &Table,
    peer: &Table,
    walked: Table,
    text: &mut Answer,
) -> Result<Option<Table>, Fault> {
    match is_plain(alloc, own, peer, &walked) {
        Ok(true) => {
            text.word(walked.rows().len());
            Ok(Some(walked))
        }
        Ok(false) => {
            drop(walked);
            text.word("differ");
            Ok(None)
        }
        Err(fault) => {
            drop(walked);
            Err(fault)
        }
    }
}

/// The lesser, where all three ways give the same. Adds how many rows it has, or `differ`.
fn agreed(
    threads: &(impl Threads + Sync),
    alloc: Global,
    own: &Table,
    peer: &Table,
    text: &mut Answer,
) -> Result<Option<Table>, Fault> {
    match walked(threads, alloc, own, peer)? {
        Some(walked) => plainly(alloc, own, peer, walked, text),
        None => {
            text.word("differ");
            Ok(None)
        }
    }
}

/// The same, and then that of the second table with the first.
fn both_agreed(
    threads: &(impl Threads + Sync),
    alloc: Global,
    own: &Table,
    peer: &Table,
    text: &mut Answer,
) -> Result<Option<Table>, Fault> {
    let first = agreed(threads, alloc, own, peer, text)?;
    match agreed(threads, alloc, peer, own, text) {
        Ok(second) => {
            drop(second);
            Ok(first)
        }
        Err(fault) => {
            drop(first);
            Err(fault)
        }
    }
}

/// The hours of the words, and two tables for them.
fn tables_of(alloc: Global, given: &str) -> Result<Option<(Table, Table)>, Fault> {
    let mut parts = given.split(" | ");
    let mut hours = Words::of(parts.next().unwrap_or(""));
    let (Some(first), Some(last)) = (hours.byte(), hours.byte()) else {
        return Ok(None);
    };
    let (Some(own), Some(peer)) = (parts.next(), parts.next()) else {
        return Ok(None);
    };
    let (Some(own), Some(peer)) = (Grid::of(own), Grid::of(peer)) else {
        return Ok(None);
    };
    let own = own.table(alloc, first, last)?;
    match peer.table(alloc, first, last) {
        Ok(peer) => Ok(own.zip(peer)),
        Err(fault) => {
            drop(own);
            Err(fault)
        }
    }
}

impl Walks {
    /// Keeps a lesser in the place of the one before, which is let go here alone.
    fn keep(&mut self, lesser: Option<Table>) {
        self.lesser = lesser;
    }

    /// `lesser FIRST LAST | GRID | GRID`: how many rows the lesser of both tables has, and that of the
    /// second one with the first.
    fn lesser(
        &mut self,
        threads: &(impl Threads + Sync),
        alloc: Global,
        given: &str,
        text: &mut Answer,
    ) -> Result<bool, Fault> {
        let Some((own, peer)) = tables_of(alloc, given)? else {
            return Ok(false);
        };
        let agreed = both_agreed(threads, alloc, &own, &peer, text);
        drop((own, peer));
        self.keep(agreed?);
        Ok(true)
    }

    /// `rows QUANTITY ..`: how many rows of the lesser have this quantity in each hour.
    fn count_rows(&self, mut words: Words<'_>, text: &mut Answer) -> bool {
        let Some(lesser) = &self.lesser else {
            return false;
        };
        for word in words.rest().split(' ') {
            let Some(quantity) = Words::of(word).quantity() else {
                return false;
            };
            text.word(count_of(lesser, quantity));
        }
        true
    }

    /// Makes the call of the line and adds its answer. `false` where it is none.
    fn answer(
        &mut self,
        threads: &(impl Threads + Sync),
        alloc: Global,
        call: &str,
        text: &mut Answer,
    ) -> Result<bool, Fault> {
        let mut words = Words::of(call);
        match words.next() {
            "lesser" => self.lesser(threads, alloc, words.rest(), text),
            "rows" => Ok(self.count_rows(words, text)),
            _ => Ok(false),
        }
    }

    /// Adds the cases with their answers.
    fn answer_all(
        &mut self,
        threads: &(impl Threads + Sync),
        alloc: Global,
        cases: &str,
        answer: &mut Answer,
        text: &mut Answer,
    ) -> Result<(), Fault> {
        for line in cases.lines() {
            if add_case(line, text) {
                answer.clear();
                let is_made = self.answer(threads, alloc, line, answer)?;
                add_answer(is_made, answer, text);
            }
        }
        Ok(())
    }
}

/// The cases with their answers.
pub fn walk_answers(
    threads: &(impl Threads + Sync),
    alloc: Global,
    cases: &str,
) -> Result<String, Fault> {
    let mut walks = Walks { lesser: None };
    let mut answer = Answer::new(alloc);
    let mut text = Answer::new(alloc);
    let answered = walks.answer_all(threads, alloc, cases, &mut answer, &mut text);
    drop((walks, answer));
    match answered {
        Ok(()) => text.into_text(),
        Err(fault) => {
            drop(text);
            Err(fault)
        }
    }
}
