//! Books over a disk that fails at one of its writes and goes on.

ghost use Rattle.std.specs.Prelude.{IfOk, IsTrue};
ghost use Rattle.std.specs.List.{AllByRecursion};
ghost use Rattle.gi_facts.specs.Grammar.{IsWritable};

use crate::books::book_over;
use crate::ends::{Ends, Met, Told};
use crate::failing::FailsOnce;
use crate::lent::Lent;
use gi_calls::{Answer, Words};
use gi_facts::{Fact, FactFault, decode_fact};
use gi_store::{BookStore, StoreFault};
use sqlite::Alter;
use sqlite_disk::{Disk, Files, Memory};
use std::alloc::{AllocError, Global};

/// How many writes of a disk are tried at most.
const MOST_WRITES: u64 = 10_000;

/// How often the facts are saved.
const SAVES: u8 = 3;

/// Which disk fails, and how facts are saved over it.
#[derive(Clone, Copy)]
struct Failing {
    is_log: bool,
    /// One by one, and not all by one insert.
    is_next: bool,
}

/// The facts that the words are.
fn facts_of(alloc: Global, text: &str) -> Result<Vec<Fact>, FactFault>
    ensures { IfOk result (λ facts. AllByRecursion IsWritable facts.items) }
{
    let mut facts = Vec::new(alloc);
    for word in text.split(' ') {
        let fact = decode_fact(alloc, word.as_bytes())?;
        facts.push(fact).map_err(AllocError::from)?;
    }
    Ok(facts)
}

/// Saves the first of the facts, or all by one insert, as the row that comes next.
fn save<S: Alter>(book: &mut BookStore<S>, facts: &[Fact], is_next: bool) -> Result<(), StoreFault>
    requires { AllByRecursion IsWritable facts.now }
{
    let n = book.count().unwrap_or(0).wrapping_add(1);
    match facts {
        [fact, ..] if is_next => book.save_next(n, fact),
        _ => book.save_batch(n, facts),
    }
}

/// Loads the book, and adds how many facts it gave, where it then knows as many, or why it gave none.
fn add_loaded<S: Alter>(book: &mut BookStore<S>, text: &mut Answer) -> bool {
    match book.load() {
        Ok(facts) => {
            let is_known = book.count() == u32::try_from(facts.len()).ok();
            text.word(if is_known { "loaded" } else { "other facts" });
            text.word(facts.len());
            drop(facts);
            true
        }
        Err(fault) => {
            text.word(fault);
            false
        }
    }
}

/// Saves the facts several times. At a refusal they are saved once more, and after a load again: adds
/// what each answers. `false` where that load is refused, as where the failed write shut the connection.
fn add_saves<S: Alter>(
    book: &mut BookStore<S>,
    facts: &[Fact],
    is_next: bool,
    told: &mut Told,
) -> bool
    requires { AllByRecursion IsWritable facts.now }
{
    for _ in 0..SAVES {
        if let Err(fault) = save(book, facts, is_next) {
            told.met = Met::Saving;
            told.stop.word(fault);
            told.stop.done(&save(book, facts, is_next));
            if !add_loaded(book, &mut told.stop) {
                return false;
            }
            told.stop.done(&save(book, facts, is_next));
        }
    }
    add_loaded(book, &mut told.end)
}

/// Opens, loads and writes the book over these disks. `false` where it has to be opened again.
fn write_over<S: Alter + Drop>(
    book: Option<BookStore<S>>,
    facts: &[Fact],
    is_next: bool,
    told: &mut Told,
) -> bool
    requires { AllByRecursion IsWritable facts.now }
{
    let Some(mut book) = book else {
        return false;
    };
    let is_done = book.load().is_ok() && add_saves(&mut book, facts, is_next, told);
    drop(book);
    is_done
}

/// One run, in which a disk fails after so many writes.
fn run(alloc: Global, failing: Failing, facts: &[Fact], before: u64) -> Told
    requires { AllByRecursion IsWritable facts.now }
{
    let (of_log, of_database) = if failing.is_log {
        (before, u64::MAX)
    } else {
        (u64::MAX, before)
    };
    let mut log = FailsOnce::new(Memory::new(alloc), of_log);
    let mut db = FailsOnce::new(Memory::new(alloc), of_database);
    let mut told = Told::new(alloc);
    for _ in 0..2u8 {
        let files = Files {
            log: Lent::of(&mut log),
            db: Lent::of(&mut db),
        };
        if write_over(book_over(alloc, files), facts, failing.is_next, &mut told) {
            break;
        }
        match told.met {
            Met::Saving => told.stop.add(", opened again"),
            _ => told.met = Met::Opening,
        }
    }
    told
}

/// The disk, and how facts are saved.
fn failing_of(words: &mut Words<'_>) -> Option<Failing> {
    Some(Failing {
        is_log: match words.next() {
            "log" => true,
            "database" => false,
            _ => return None,
        },
        is_next: match words.next() {
            "save_next" => true,
            "save_batch" => false,
            _ => return None,
        },
    })
}

/// Writes a book over a disk that fails at one write later each time, until a run ends with none. The
/// words are the disk, how facts are saved, and the facts.
pub fn fail_each_write(alloc: Global, mut words: Words<'_>, text: &mut Answer) -> bool {
    let Some(failing) = failing_of(&mut words) else {
        return false;
    };
    let Ok(facts) = facts_of(alloc, words.rest()) else {
        return false;
    };
    let mut ends = Ends::new(alloc);
    for before in 0..MOST_WRITES {
        ends.keep(run(alloc, failing, &facts, before));
        if ends.is_over() {
            break;
        }
    }
    ends.add(text);
    drop((facts, ends));
    true
}
