//! One office: its seats, the receipts that they were given, the book that its facts are saved in,
//! and what is left of it.

ghost use Rattle.std.specs.Prelude.{◌≡◌};

mod beside;
mod sessions;

use super::calls::call_of;
use super::opening::{Unopened, opened};
use super::saving::{add_turn, book_call, new_book};
use super::seats::{asked, count_notes, lose, put_back, taken};
use super::texts::{add_answered, add_receipts, add_settled, add_told};
use crate::books::batches::fact_of;
use gi_calls::{Answer, Fault, Words};
use gi_desk::{Fact, Role};
use gi_office::{Office, OfficeFault, Receipt, Seat, Settled};
use gi_store::BookStore;
use sqlite::MemStore;
use std::alloc::Global;
use std::mem::ManuallyDrop;
use std::sync::Wait;
use std::sync::ledger::{Blank, Ledger};

// What goes out of scope here is handed to `drop`, by one call, since it would be checked field by
// field on each way out; what an office leaves behind is kept until the program ends.

/// An office as far as it is.
pub struct Opened<R: Role, L: Ledger> {
    unopened: Option<Unopened<L>>,
    /// What its desk is opened with.
    facts: Vec<Fact>,
    office: Option<Office<R, L>>,
    seats: Vec<Seat<L>>,
    /// All that its calls were given, in their order.
    receipts: Vec<Receipt>,
    book: Option<BookStore<MemStore>>,
    pub settled: Option<Settled<R>>,
}

/// The receipt of this place.
fn receipt_at(receipts: &[Receipt], place: u64) -> Option<&Receipt> {
    receipts.iter().find(|it| it.place == place)
}

/// Keeps the receipt that a call was given.
fn keep_receipt(
    receipts: &mut Vec<Receipt>,
    answer: Result<Receipt, OfficeFault>,
) -> Result<(), Fault> {
    if let Ok(receipt) = answer {
        receipts.push(receipt)?;
    }
    Ok(())
}

/// Adds a fact to what a desk is opened with.
fn add_fact(
    alloc: Global,
    facts: &mut Vec<Fact>,
    fact: &str,
    text: &mut Answer,
) -> Result<bool, Fault> {
    let Ok(fact) = fact_of(alloc, fact) else {
        return Ok(false);
    };
    facts.push(fact)?;
    text.add("ok");
    Ok(true)
}

/// Opens a book in memory, or makes a call on it.
fn call_book(
    alloc: Global,
    place: &mut Option<BookStore<MemStore>>,
    line: &str,
    text: &mut Answer,
) -> bool {
    if line == "book" {
        let former = std::mem::replace(place, new_book(alloc));
        let _former = unsafe { ManuallyDrop::new_unchecked(former) };
        text.add("ok");
        return true;
    }
    match place {
        Some(book) => book_call(alloc, book, line, text),
        None => false,
    }
}

/// How many entries there are, once an office is settled.
fn count_entries<R: Role>(settled: &Option<Settled<R>>, text: &mut Answer) -> bool {
    let Some(settled) = settled else {
        return false;
    };
    text.show(settled.len());
    true
}

/// Keeps what is left of an office in the place of what was left before.
pub fn keep_settled<R: Role>(place: &mut Option<Settled<R>>, settled: Option<Settled<R>>) {
    let former = std::mem::replace(place, settled);
    let _former = unsafe { ManuallyDrop::new_unchecked(former) };
}

/// Opens an office, once: the words are its point and how many seats it has.
fn open<R: Role, L: Ledger>(
    alloc: Global,
    unopened: &mut Option<Unopened<L>>,
    facts: &mut Vec<Fact>,
    place: &mut Option<Office<R, L>>,
    places: &mut Vec<Seat<L>>,
    mut words: Words<'_>,
    text: &mut Answer,
) -> bool {
    let (Some(point), Some(count)) = (words.code(), words.number()) else {
        return false;
    };
    let Some(unopened) = unopened.take() else {
        return false;
    };
    let facts = std::mem::replace(facts, Vec::new(alloc));
    if let Some((office, seats)) = opened(alloc, unopened, point, facts, count as usize, text) {
        let _none = unsafe { ManuallyDrop::new_unchecked(place.replace(office)) };
        let none = std::mem::replace(places, seats);
        let _none = unsafe { ManuallyDrop::new_unchecked(none) };
        text.add("ok");
    }
    true
}

/// Settles an office with the seats that are here.
fn settle<R: Role, L: Ledger>(
    alloc: Global,
    office: &mut Option<Office<R, L>>,
    seats: &mut Vec<Seat<L>>,
    place: &mut Option<Settled<R>>,
    text: &mut Answer,
) -> bool {
    let Some(office) = office.take() else {
        return false;
    };
    let seats = std::mem::replace(seats, Vec::new(alloc));
    let settled = office.settle(seats);
    add_settled(&settled, text);
    keep_settled(place, settled.ok());
    true
}

/// What is told of a number: of a seat, of an entry or of a fact.
fn told<R: Role, L: Ledger>(
    receipts: &[Receipt],
    seats: &mut Vec<Seat<L>>,
    settled: &Option<Settled<R>>,
    line: &str,
    text: &mut Answer,
) -> bool {
    let mut words = Words::of(line);
    let word = words.next();
    let Some(number) = words.byte() else {
        return false;
    };
    match word {
        "receipts" => {
            add_receipts(receipts, number, text);
            true
        }
        "notes" => count_notes(seats, number, text),
        "lose" => lose(seats, number, text),
        _ => match settled {
            Some(settled) => {
                add_told(settled, word, number, text);
                true
            }
            None => false,
        },
    }
}

/// Makes a call from a seat.
fn call<R: Role, L: Ledger, W: Wait>(
    handle: &W,
    alloc: Global,
    office: &Office<R, L>,
    seats: &mut Vec<Seat<L>>,
    receipts: &mut Vec<Receipt>,
    line: &str,
    text: &mut Answer,
) -> Result<bool, Fault> {
    let Some((number, call)) = call_of(alloc, line)? else {
        return Ok(false);
    };
    let Some(seat) = taken(seats, number) else {
        drop(call);
        return Ok(false);
    };
    let (seat, answer) = asked(handle, office, seat, call);
    add_answered(&answer, text);
    let kept = keep_receipt(receipts, answer);
    put_back(seats, seat)?;
    kept?;
    Ok(true)
}

/// Makes a call so often from its seat; the answer is that of the last time.
fn repeat<R: Role, L: Ledger, W: Wait>(
    handle: &W,
    alloc: Global,
    office: &Office<R, L>,
    seats: &mut Vec<Seat<L>>,
    receipts: &mut Vec<Receipt>,
    mut words: Words<'_>,
    text: &mut Answer,
) -> Result<bool, Fault> {
    let count = words.byte().unwrap_or(0);
    let line = words.rest();
    for _ in 0..count {
        text.clear();
        if !call(handle, alloc, office, seats, receipts, line, text)? {
            return Ok(false);
        }
    }
    Ok(count > 0)
}

/// Makes a turn that saves from a seat.
fn save<R: Role, L: Ledger, W: Wait>(
    handle: &W,
    office: &Office<R, L>,
    seats: &mut Vec<Seat<L>>,
    book: &mut BookStore<MemStore>,
    number: u8,
    text: &mut Answer,
) -> Result<bool, Fault> {
    let Some(seat) = taken(seats, number) else {
        return Ok(false);
    };
    let (seat, turn) = office.save_turn(handle, seat, book);
    add_turn(&turn, text);
    drop(turn);
    put_back(seats, seat)?;
    Ok(true)
}

/// Waits for the fact of the receipt of this place.
fn wait<R: Role, L: Ledger, W: Wait>(
    handle: &W,
    office: &Office<R, L>,
    receipts: &[Receipt],
    place: u64,
    text: &mut Answer,
) -> bool {
    let Some(receipt) = receipt_at(receipts, place) else {
        return false;
    };
    let waited = office.wait_saved(handle, receipt);
    text.debug(&waited);
    true
}

/// What the first word of a line asks of an office that is open.
#[derive(Clone, Copy)]
enum OfOffice {
    Repeat,
    Wait,
    Save,
    Call,
}

fn of_office(word: &str) -> OfOffice {
    match word {
        "times" => OfOffice::Repeat,
        "wait_saved" => OfOffice::Wait,
        "save_turn" => OfOffice::Save,
        _ => OfOffice::Call,
    }
}

/// Makes a call on an office that is open.
fn on_office<R: Role, L: Ledger, W: Wait>(
    handle: &W,
    alloc: Global,
    office: &Office<R, L>,
    seats: &mut Vec<Seat<L>>,
    receipts: &mut Vec<Receipt>,
    book: &mut Option<BookStore<MemStore>>,
    line: &str,
    text: &mut Answer,
) -> Result<bool, Fault> {
    let mut words = Words::of(line);
    match of_office(words.next()) {
        OfOffice::Repeat => repeat(handle, alloc, office, seats, receipts, words, text),
        OfOffice::Wait => match words.byte() {
            Some(place) => Ok(wait(handle, office, receipts, u64::from(place), text)),
            None => Ok(false),
        },
        OfOffice::Save => match (book, words.byte()) {
            (Some(book), Some(number)) => save(handle, office, seats, book, number, text),
            _ => Ok(false),
        },
        OfOffice::Call => call(handle, alloc, office, seats, receipts, line, text),
    }
}

/// What the first word of a line asks. (A name of its own: texts compared among the calls are dear to
/// prove.)
#[derive(Clone, Copy)]
enum Asked {
    Fact,
    Open,
    Settle,
    Entries,
    Book,
    Told,
    OfOffice,
}

fn asked_by(word: &str) -> Asked {
    match word {
        "fact" => Asked::Fact,
        "open" => Asked::Open,
        "settle" => Asked::Settle,
        "entries" => Asked::Entries,
        "book" | "load" | "save_batch" => Asked::Book,
        "receipts" | "notes" | "lose" | "entry" | "acknowledged" => Asked::Told,
        _ => Asked::OfOffice,
    }
}

impl<R: Role, L: Ledger> Opened<R, L> {
    pub fn of(alloc: Global, blank: Blank) -> Opened<R, L>
        requires name { blank.name ≡ L.name }
        requires whole { blank.parts ≡ L.parts }
        requires parts { blank.parts ≡ 16 }
    {
        Opened {
            unopened: Some(Unopened::of(blank)),
            facts: Vec::new(alloc),
            office: None,
            seats: Vec::new(alloc),
            receipts: Vec::new(alloc),
            book: None,
            settled: None,
        }
    }

    /// Makes the call of a line and adds its answer. `false` where it is none.
    pub fn answer<W: Wait>(
        &mut self,
        handle: &W,
        alloc: Global,
        line: &str,
        text: &mut Answer,
    ) -> Result<bool, Fault> {
        let mut words = Words::of(line);
        match asked_by(words.next()) {
            Asked::Fact => add_fact(alloc, &mut self.facts, words.rest(), text),
            Asked::Open => Ok(open(
                alloc,
                &mut self.unopened,
                &mut self.facts,
                &mut self.office,
                &mut self.seats,
                words,
                text,
            )),
            Asked::Settle => Ok(settle(
                alloc,
                &mut self.office,
                &mut self.seats,
                &mut self.settled,
                text,
            )),
            Asked::Entries => Ok(count_entries(&self.settled, text)),
            Asked::Book => Ok(call_book(alloc, &mut self.book, line, text)),
            Asked::Told => { Ok(told(&self.receipts, &mut self.seats, &self.settled, line, text)) }
            Asked::OfOffice => match &self.office {
                Some(office) => on_office(
                    handle,
                    alloc,
                    office,
                    &mut self.seats,
                    &mut self.receipts,
                    &mut self.book,
                    line,
                    text,
                ),
                None => Ok(false),
            },
        }
    }
}
