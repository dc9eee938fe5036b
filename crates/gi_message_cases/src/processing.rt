//! What is available to a portfolio, and what of its nomination is processed.

mod drawn;
mod one_by_one;
mod recorded;
mod records;
mod reducing;
mod unit_by_unit;

use crate::hours_text::add_table;
use gi_calls::{Answer, Fault, Subject, Words};
use gi_day::NoSuchCycle;
use gi_pairs::Table;
use gi_processing::{ContractFault, MOST_PERMILLE, MOST_PORTFOLIOS, NoticeFault};
use one_by_one::reduce_triples;
use recorded::answer_recorded;
use records::{Records, fault};
use reducing::{reduce, reduce_by};
use std::alloc::Global;
use unit_by_unit::reduce_drawn;

/// The calls of the subject `processing`.
///
/// Of one side, which `new POINT` begins: `set` and `refuses` with a contract, `notice` and a notice,
/// `knows PORTFOLIO DAY`, `available PORTFOLIO DAY DIRECTION HOUR`; `judge NOMINT`, and `take NOMINT`,
/// which takes what is recordable; `processed SIDE DAY CYCLE RULE`, by rule 2 where none is named,
/// `row_count` with the same words, and then `at INITIATING MATCHING DIRECTION HOUR` in that table.
///
/// Of nothing before them: `fault` and a notice, `reduce AVAILABLE QUANTITY ..`, `reduce_mixed`
/// and `reduce_triples`, `reduce_by RULE AVAILABLE QUANTITY/PRIORITY ..` and `reduce_drawn`,
/// `most_portfolios`, `most_permille` and `faults`.
#[derive(Drop)]
pub struct Processing {
    records: Option<Records>,
    table: Option<Table>,
}

/// Adds why a notice is refused, if it is.
fn add_fault(mut words: Words<'_>, text: &mut Answer) -> bool {
    let Some(notice) = words.notice() else {
        return false;
    };
    match fault(&notice) {
        Some(fault) => text.show(fault),
        None => text.add("none"),
    }
    true
}

/// Adds a table, all of it or how many rows it has, or the refusal in its place.
fn add_processed(table: &Result<Table, NoSuchCycle>, whole: bool, text: &mut Answer) {
    match table {
        Ok(table) if whole => add_table(table, text),
        Ok(table) => text.show(table.rows().len()),
        Err(fault) => text.show(fault),
    }
}

/// The answer of a call that stands alone.
fn answer_alone(
    alloc: Global,
    name: &str,
    words: Words<'_>,
    text: &mut Answer,
) -> Result<bool, Fault> {
    match name {
        "reduce" => reduce(alloc, words, false, text),
        "reduce_mixed" => reduce(alloc, words, true, text),
        "reduce_triples" => reduce_triples(alloc, words, text),
        "reduce_by" => reduce_by(alloc, words, text),
        "reduce_drawn" => reduce_drawn(alloc, words, text),
        _ => Ok(answer_plain(name, words, text)),
    }
}

/// The answer of a call that takes no memory of its own.
fn answer_plain(name: &str, words: Words<'_>, text: &mut Answer) -> bool {
    match name {
        "fault" => return add_fault(words, text),
        "most_portfolios" => text.show(MOST_PORTFOLIOS),
        "most_permille" => text.show(MOST_PERMILLE),
        "faults" => add_faults(text),
        _ => return false,
    }
    true
}

/// Adds the faults of `set` and of `notice`.
fn add_faults(text: &mut Answer) {
    for fault in [ContractFault::TooManyPortfolios, ContractFault::OutOfMemory] {
        text.show(fault);
        text.end_line();
    }
    for fault in [
        NoticeFault::NoticeRange,
        NoticeFault::PermilleRange,
        NoticeFault::OutOfMemory,
    ] {
        text.show(fault);
        text.end_line();
    }
}

impl Processing {
    pub fn new() -> Processing {
        Processing {
            records: None,
            table: None,
        }
    }

    /// Keeps a table, or none, in the place of the one before, which is let go here alone.
    fn keep(&mut self, table: Option<Table>) {
        self.table = table;
    }

    /// Begins a side.
    fn begin(&mut self, alloc: Global, mut words: Words<'_>, text: &mut Answer) -> bool {
        let Some(point) = words.code() else {
            return false;
        };
        self.records = Some(Records::new(alloc, point));
        self.keep(None);
        text.add("ok");
        true
    }

    /// Makes the processed table of a cycle by a rule, and adds all of it or how many rows it has.
    fn process(
        &mut self,
        alloc: Global,
        mut words: Words<'_>,
        whole: bool,
        text: &mut Answer,
    ) -> Result<bool, Fault> {
        let Some(records) = &self.records else {
            return Ok(false);
        };
        let (Some(side), Some((id, rule))) = (words.side(), words.closing()) else {
            return Ok(false);
        };
        let table = records.processed(alloc, side, id.day, id.cycle, rule)?;
        add_processed(&table, whole, text);
        self.keep(table.ok());
        Ok(true)
    }

    /// The answer of a call to what is recorded, or of one that stands alone.
    fn answer_other(
        &mut self,
        alloc: Global,
        name: &str,
        words: Words<'_>,
        text: &mut Answer,
    ) -> Result<bool, Fault> {
        if let Some(records) = &mut self.records {
            if answer_recorded(alloc, records, name, words, text)? {
                return Ok(true);
            }
        }
        answer_alone(alloc, name, words, text)
    }

    /// Adds what the table reads.
    fn at(&self, mut words: Words<'_>, text: &mut Answer) -> bool {
        let (Some(table), Some(key), Some(hour)) = (&self.table, words.key(), words.byte()) else {
            return false;
        };
        text.show(table.at(key.pair, key.direction, hour));
        true
    }
}

impl Subject for Processing {
    fn answer(&mut self, rt: &HostRuntime, call: &str, text: &mut Answer) -> Result<bool, Fault> {
        let alloc = rt.alloc();
        let mut words = Words::of(call);
        let name = words.next();
        match name {
            "new" => Ok(self.begin(alloc, words, text)),
            "processed" => self.process(alloc, words, true, text),
            "row_count" => self.process(alloc, words, false, text),
            "at" => Ok(self.at(words, text)),
            _ => self.answer_other(alloc, name, words, text),
        }
    }
}
