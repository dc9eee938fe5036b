//! The book, and what turns that save come to.

ghost use Rattle.std.specs.List.{AllByRecursion};
ghost use Rattle.gi_facts.specs.Grammar.{IsWritable};

use super::texts::add_receipt;
use crate::books::batches::facts_of;
use gi_calls::{Answer, Words};
use gi_facts::Fact;
use gi_office::{SaveFault, Turn};
use gi_pairs::{Code, Side};
use gi_store::{BookStore, Owner, StoreFault};
use sqlite::{Connection, MemStore};
use std::alloc::Global;

/// A new book in memory, which is not loaded.
pub fn new_book(alloc: Global) -> Option<BookStore<MemStore>> {
    let point = Code::read("BORDER-1").ok()?;
    let connection = Connection::open_in_memory(alloc).ok()?;
    let owner = Owner {
        side: Side::I,
        point,
    };
    BookStore::open(alloc, connection, owner).ok()
}

/// Adds `ok` and a number, or why a call was refused.
fn add_number(answer: Result<usize, StoreFault>, text: &mut Answer) {
    match answer {
        Ok(number) => {
            text.add("ok");
            text.word(number);
        }
        Err(fault) => text.show(fault),
    }
}

/// Loads the book, and gives the number of its facts.
fn load(book: &mut BookStore<MemStore>) -> Result<usize, StoreFault> {
    Ok(book.load()?.len())
}

/// Saves facts as one row, the first one under this number: how many there are in the book.
fn save_batch(book: &mut BookStore<MemStore>, n: u32, facts: &[Fact]) -> Result<usize, StoreFault>
    requires { AllByRecursion IsWritable facts.now }
{
    book.save_batch(n, facts)?;
    Ok(book.count().unwrap_or(0) as usize)
}

/// Saves the facts of a text as one row.
fn save_text(
    alloc: Global,
    book: &mut BookStore<MemStore>,
    n: u32,
    facts: &str,
    text: &mut Answer,
) -> bool {
    match facts_of(alloc, facts) {
        Ok(facts) => {
            add_number(save_batch(book, n, &facts), text);
            true
        }
        Err(_) => false,
    }
}

/// Makes a call on the book.
pub fn book_call(
    alloc: Global,
    book: &mut BookStore<MemStore>,
    line: &str,
    text: &mut Answer,
) -> bool {
    let mut words = Words::of(line);
    match words.next() {
        "load" => {
            add_number(load(book), text);
            true
        }
        "save_batch" => match words.number() {
            Some(n) => save_text(alloc, book, n, words.rest(), text),
            None => false,
        },
        _ => false,
    }
}

/// Adds what a turn came to.
pub fn add_turn(turn: &Result<Turn, SaveFault>, text: &mut Answer) {
    match turn {
        Ok(Turn::Nothing) => text.add("Nothing"),
        Ok(Turn::Saved(receipt)) => add_receipt(receipt, text),
        Err(fault) => text.show(fault),
    }
}
