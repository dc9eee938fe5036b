use crate::books::batches::{fact_of, facts_of};
use crate::books::desks;
use crate::books::rows::add_found;
use gi_calls::{Answer, Fault, Words};
use gi_desk::Desk;
use gi_facts::{Fact, encode_fact};
use gi_initiator::Initiating;
use gi_pairs::{Code, Side};
use gi_store::{BookStore, Owner, StoreFault, prepare};
use sqlite::{Alter, Connection};
use std::alloc::Global;
use std::mem::ManuallyDrop;

/// A database, the book that it is opened as, and the desk that was replayed from the book.
pub struct Opened<S: Alter> {
    pub(crate) connection: Option<Connection<S>>,
    pub(crate) book: Option<BookStore<S>>,
    pub(crate) desk: Option<Desk<Initiating>>,
}

/// What a call is made on.
enum Part {
    Closing,
    Opening,
    Replay,
    Connection,
    Book,
    Saving,
    Desk,
}

/// What the call is made on.
fn part_of(call: &str) -> Part {
    if call.is_empty() {
        return Part::Closing;
    }
    let mut words = Words::of(call);
    match words.next() {
        "open" => Part::Opening,
        "replay" => Part::Replay,
        "sql" | "query" | "prepare" => Part::Connection,
        "load" | "save_next" | "save_batch" | "count" => Part::Book,
        "save" => Part::Saving,
        _ => Part::Desk,
    }
}

/// The point at which a desk is replayed.
fn point_of(call: &str) -> Option<Code> {
    let mut words = Words::of(call);
    words.next();
    words.code()
}

/// Whose the book is: what the words after the first one say, or else side I's at BORDER-1.
fn owner_of(call: &str) -> Option<Owner> {
    let mut words = Words::of(call);
    words.next();
    let side = words.side().unwrap_or(Side::I);
    let point = match words.code() {
        Some(point) => point,
        None => Code::read("BORDER-1").ok()?,
    };
    Some(Owner { side, point })
}

/// Adds how many facts there are, and a line of each.
fn add_facts(alloc: Global, facts: &[Fact], text: &mut Answer) -> Result<(), Fault> {
    let count = facts.len();
    text.add("facts ");
    text.show(count);
    text.end_line();
    for fact in facts {
        let bytes = encode_fact(alloc, fact)?;
        text.add(str::from_utf8(bytes.as_slice()).unwrap_or("no text"));
        text.end_line();
    }
    Ok(())
}

/// Adds the facts of a book that is loaded, or why it is not.
fn add_loaded(
    alloc: Global,
    loaded: &Result<Vec<Fact>, StoreFault>,
    text: &mut Answer,
) -> Result<(), Fault> {
    match loaded {
        Ok(facts) => add_facts(alloc, facts.as_slice(), text),
        Err(fault) => {
            text.show(fault);
            Ok(())
        }
    }
}

/// Makes a statement and adds how many rows it changed, or the first row that a query shows; or makes
/// the tables of a book, or looks whether they are there.
fn on_connection<S: Alter>(
    alloc: Global,
    connection: &mut Connection<S>,
    call: &str,
    text: &mut Answer,
) -> bool {
    let mut words = Words::of(call);
    match words.next() {
        "sql" => text.value(&connection.execute(words.rest(), &[])),
        "query" => {
            let found = connection.query_row(words.rest(), &[]);
            add_found(&found, text);
            // (handed to `drop`, by one call: going out of scope here would be checked field by
            // field on each way out)
            drop(found);
        }
        _ => {
            let Some(owner) = owner_of(call) else {
                return false;
            };
            text.done(&prepare(alloc, connection, owner));
        }
    }
    true
}

/// Saves a fact under a number.
fn save_next<S: Alter>(
    alloc: Global,
    book: &mut BookStore<S>,
    n: u32,
    fact: &str,
    text: &mut Answer,
) {
    match fact_of(alloc, fact) {
        Ok(fact) => {
            text.done(&book.save_next(n, &fact));
            drop(fact);
        }
        Err(fault) => text.show(fault),
    }
}

/// Saves facts by one insert, the first under this number.
fn save_batch<S: Alter>(
    alloc: Global,
    book: &mut BookStore<S>,
    n: u32,
    facts: &str,
    text: &mut Answer,
) {
    match facts_of(alloc, facts) {
        Ok(facts) => {
            text.done(&book.save_batch(n, facts.as_slice()));
            drop(facts);
        }
        Err(fault) => text.show(fault),
    }
}

/// Adds how many facts are known.
fn add_count(count: Option<u32>, text: &mut Answer) {
    match count {
        Some(count) => text.show(count),
        None => text.add("none"),
    }
}

/// Makes a call on the book.
fn on_book<S: Alter>(
    alloc: Global,
    book: &mut BookStore<S>,
    call: &str,
    text: &mut Answer,
) -> Result<bool, Fault> {
    let mut words = Words::of(call);
    let word = words.next();
    if word == "count" {
        add_count(book.count(), text);
        return Ok(true);
    }
    if word == "load" {
        let loaded = book.load();
        let added = add_loaded(alloc, &loaded, text);
        drop(loaded);
        added?;
        return Ok(true);
    }
    let Some(n) = words.number() else {
        return Ok(false);
    };
    match word {
        "save_next" => save_next(alloc, book, n, words.rest(), text),
        _ => save_batch(alloc, book, n, words.rest(), text),
    }
    Ok(true)
}

/// Saves the desk's next fact in the book, and marks it at the desk.
fn save_fact<S: Alter>(
    desk: &mut Desk<Initiating>,
    book: &mut BookStore<S>,
    text: &mut Answer,
) -> Result<bool, Fault> {
    let Some((n, fact)) = desk.unsaved() else {
        text.add("nothing");
        return Ok(true);
    };
    if let Err(fault) = book.save_next(n, fact) {
        text.show(fault);
        return Ok(true);
    }
    let fact = fact.copy()?;
    desks::mark(desk, n, fact, text);
    Ok(true)
}

impl<S: Alter + Drop> Opened<S> {
    /// Lets go of the database.
    fn close(&mut self) {
        drop(self.connection.take());
        drop(self.book.take());
    }

    /// Opens the database as a book, once.
    fn open(&mut self, alloc: Global, call: &str, text: &mut Answer) -> bool {
        let (Some(owner), Some(connection)) = (owner_of(call), self.connection.take()) else {
            return false;
        };
        match BookStore::open(alloc, connection, owner) {
            Ok(book) => {
                // (there was none: the connection is taken once)
                let _none = unsafe { ManuallyDrop::new_unchecked(self.book.replace(book)) };
                text.add("ok");
            }
            Err((connection, fault)) => {
                drop(connection);
                text.show(fault);
            }
        }
        true
    }

    /// Loads the book and replays the desk of its facts.
    fn replay(&mut self, alloc: Global, call: &str, text: &mut Answer) -> bool {
        let (Some(book), Some(point)) = (&mut self.book, point_of(call)) else {
            return false;
        };
        match book.load() {
            Ok(facts) => desks::replay(alloc, point, facts, &mut self.desk, text),
            Err(fault) => text.show(fault),
        }
        true
    }

    /// Makes a call, and adds its answer. `false` where it is none. The empty call, which no case makes,
    /// lets go of the database.
    pub(crate) fn answer(
        &mut self,
        alloc: Global,
        call: &str,
        text: &mut Answer,
    ) -> Result<bool, Fault> {
        match part_of(call) {
            Part::Closing => {
                self.close();
                Ok(true)
            }
            Part::Opening => Ok(self.open(alloc, call, text)),
            Part::Replay => Ok(self.replay(alloc, call, text)),
            Part::Connection => match &mut self.connection {
                Some(connection) => Ok(on_connection(alloc, connection, call, text)),
                None => Ok(false),
            },
            Part::Book => match &mut self.book {
                Some(book) => on_book(alloc, book, call, text),
                None => Ok(false),
            },
            Part::Saving => match (&mut self.desk, &mut self.book) {
                (Some(desk), Some(book)) => save_fact(desk, book, text),
                _ => Ok(false),
            },
            Part::Desk => match &mut self.desk {
                Some(desk) => desks::call(alloc, desk, call, text),
                None => Ok(false),
            },
        }
    }
}
