//! Two threads that call one office, each from its seat.

use super::sessions::serve;
use super::{Opened, receipt_at};
use crate::offices::documents::documents;
use crate::offices::saving::add_turn;
use crate::offices::seats::{put_back, taken};
use crate::offices::texts::{add_answered, is_recorded};
use gi_calls::{Answer, Fault, Words};
use gi_desk::Body;
use gi_initiator::Initiating;
use gi_office::{Office, OfficeFault, Receipt, Seat, Waited};
use gi_processing::Contract;
use gi_store::BookStore;
use sqlite::MemStore;
use std::alloc::Global;
use std::rt::Clock;
use std::sync::Wait;
use std::sync::ledger::Ledger;
use std::thread;
use std::thread::Threads;
use std::time::Duration;

/// What one thread calls: a contract, and then so many documents of its portfolio.
#[derive(Drop)]
struct Calls {
    contract: Contract,
    bodies: Vec<Body>,
}

/// The calls of two threads.
fn calls_of(
    alloc: Global,
    first: Contract,
    second: Contract,
    count: u32,
) -> Result<(Calls, Calls), Fault> {
    let bodies = documents(alloc, first.portfolio, count)?;
    let one = Calls {
        contract: first,
        bodies,
    };
    match documents(alloc, second.portfolio, count) {
        Ok(bodies) => {
            let two = Calls {
                contract: second,
                bodies,
            };
            Ok((one, two))
        }
        Err(fault) => {
            // (handed to `drop`, by one call: going out of scope here would be checked field by
            // field on each way out)
            drop(one);
            Err(fault)
        }
    }
}

/// How many facts a call recorded: one, or none.
fn recorded(answer: Result<Receipt, OfficeFault>) -> u32 {
    let is_one = matches!(&answer, Ok(receipt) if is_recorded(receipt));
    drop(answer);
    u32::from(is_one)
}

/// Makes the calls from the seat: how many of them recorded a fact.
fn made_all<L: Ledger, W: Wait>(
    handle: &W,
    office: &Office<Initiating, L>,
    seat: Seat<L>,
    calls: Calls,
) -> (Seat<L>, u32) {
    let (mut seat, answer) = office.contract(handle, seat, calls.contract);
    let mut count = recorded(answer);
    for body in calls.bodies {
        let (back, answer) = office.submit(handle, seat, body);
        seat = back;
        count = count.wrapping_add(recorded(answer));
    }
    (seat, count)
}

/// Makes the calls of two threads, each from its seat, at the same time.
fn both_made<L: Ledger + Send + Sync, T: Threads + Wait + Sync>(
    handle: &T,
    office: &Office<Initiating, L>,
    one: Seat<L>,
    first: Calls,
    two: Seat<L>,
    second: Calls,
) -> ((Seat<L>, u32), (Seat<L>, u32)) {
    thread::join(
        handle,
        move || made_all(handle, office, one, first),
        move || made_all(handle, office, two, second),
    )
}

/// How many documents each of two threads submits, and their contracts.
fn both_of(mut words: Words<'_>) -> Option<(u32, Contract, Contract)> {
    let count = words.number()?;
    let (one, two) = words.rest().split_once(" | ")?;
    Some((
        count,
        Words::of(one).contract()?,
        Words::of(two).contract()?,
    ))
}

/// The receipt that is waited for, whether the desk is halted, and the seat from which it is called.
fn wait_of(mut words: Words<'_>) -> Option<(u64, bool, u8)> {
    let place = words.number()?;
    let is_halt = match words.next() {
        "halt" => true,
        "save_turn" => false,
        _ => return None,
    };
    Some((u64::from(place), is_halt, words.byte()?))
}

/// Takes the seats 1 and 2.
fn both_taken<L: Ledger>(seats: &mut Vec<Seat<L>>) -> Option<(Seat<L>, Seat<L>)> {
    let one = taken(seats, 1)?;
    match taken(seats, 2) {
        Some(two) => Some((one, two)),
        None => {
            drop(one);
            None
        }
    }
}

/// Halts the desk, or makes a turn that saves, a while after: the seat, and what the call answers.
fn ended<L: Ledger, T: Wait + Clock>(
    handle: &T,
    alloc: Global,
    office: &Office<Initiating, L>,
    seat: Seat<L>,
    book: &mut BookStore<MemStore>,
    is_halt: bool,
) -> (Seat<L>, Answer) {
    thread::sleep(handle, Duration::from_millis(50));
    let mut text = Answer::new(alloc);
    if is_halt {
        let (seat, answer) = office.halt(handle, seat);
        add_answered(&answer, &mut text);
        return (seat, text);
    }
    let (seat, turn) = office.save_turn(handle, seat, book);
    add_turn(&turn, &mut text);
    (seat, text)
}

/// Waits for the fact of the receipt in one thread, until the other one halts the desk or saves the fact.
fn waited_beside<L: Ledger + Send + Sync, T: Threads + Wait + Clock + Sync>(
    handle: &T,
    alloc: Global,
    office: &Office<Initiating, L>,
    receipt: &Receipt,
    seat: Seat<L>,
    book: &mut BookStore<MemStore>,
    is_halt: bool,
) -> (Waited, (Seat<L>, Answer)) {
    thread::join(
        handle,
        || office.wait_saved(handle, receipt),
        move || ended(handle, alloc, office, seat, book, is_halt),
    )
}

/// Keeps two seats. Adds how many facts each recorded.
fn keep_both<L: Ledger>(
    seats: &mut Vec<Seat<L>>,
    (one, first): (Seat<L>, u32),
    (two, second): (Seat<L>, u32),
    text: &mut Answer,
) -> Result<bool, Fault> {
    text.word(first);
    text.word(second);
    let kept = put_back(seats, one);
    put_back(seats, two)?;
    kept?;
    Ok(true)
}

/// Makes calls from the seats 1 and 2 at the same time.
fn make_both<L: Ledger + Send + Sync, T: Threads + Wait + Sync>(
    handle: &T,
    office: &Office<Initiating, L>,
    seats: &mut Vec<Seat<L>>,
    first: Calls,
    second: Calls,
    text: &mut Answer,
) -> Result<bool, Fault> {
    let Some((one, two)) = both_taken(seats) else {
        drop((first, second));
        return Ok(false);
    };
    let (one, two) = both_made(handle, office, one, first, two, second);
    keep_both(seats, one, two, text)
}

/// Keeps a seat. Adds what a call from it answered.
fn keep_ended<L: Ledger>(
    seats: &mut Vec<Seat<L>>,
    seat: Seat<L>,
    said: Answer,
    text: &mut Answer,
) -> Result<bool, Fault> {
    text.append(&said);
    drop(said);
    put_back(seats, seat)?;
    Ok(true)
}

/// Waits for the fact of the receipt until the call is made from the seat. The answer is what became of
/// the fact, and in the next line that of the call.
fn wait_until<L: Ledger + Send + Sync, T: Threads + Wait + Clock + Sync>(
    handle: &T,
    alloc: Global,
    office: &Office<Initiating, L>,
    receipt: &Receipt,
    seats: &mut Vec<Seat<L>>,
    book: &mut BookStore<MemStore>,
    (number, is_halt): (u8, bool),
    text: &mut Answer,
) -> Result<bool, Fault> {
    let Some(seat) = taken(seats, number) else {
        return Ok(false);
    };
    let (waited, (seat, said)) = waited_beside(handle, alloc, office, receipt, seat, book, is_halt);
    text.debug(&waited);
    text.end_line();
    keep_ended(seats, seat, said, text)
}

/// `both_submit COUNT CONTRACT | CONTRACT`: two threads, from the seats 1 and 2, each record a
/// contract and submit so many documents of its portfolio. How many facts each recorded.
fn both_submit<L: Ledger + Send + Sync, T: Threads + Wait + Sync>(
    handle: &T,
    alloc: Global,
    office: &Office<Initiating, L>,
    seats: &mut Vec<Seat<L>>,
    words: Words<'_>,
    text: &mut Answer,
) -> Result<bool, Fault> {
    match both_of(words) {
        Some((count, one, two)) => {
            let (first, second) = calls_of(alloc, one, two, count)?;
            make_both(handle, office, seats, first, second, text)
        }
        None => Ok(false),
    }
}

/// `wait_beside PLACE WORD SEAT`: one thread waits for the fact of the receipt of this place until the
/// other one halts the desk, or makes a turn that saves, a while after.
fn wait_beside<L: Ledger + Send + Sync, T: Threads + Wait + Clock + Sync>(
    handle: &T,
    alloc: Global,
    office: &Office<Initiating, L>,
    receipts: &[Receipt],
    seats: &mut Vec<Seat<L>>,
    book: &mut BookStore<MemStore>,
    words: Words<'_>,
    text: &mut Answer,
) -> Result<bool, Fault> {
    let Some((place, is_halt, number)) = wait_of(words) else {
        return Ok(false);
    };
    let Some(receipt) = receipt_at(receipts, place) else {
        return Ok(false);
    };
    wait_until(
        handle,
        alloc,
        office,
        receipt,
        seats,
        book,
        (number, is_halt),
        text,
    )
}

/// What the first word of a line asks of several threads.
#[derive(Clone, Copy)]
enum ByThreads {
    BothSubmit,
    WaitBeside,
    Serve,
    None,
}

fn by_threads(word: &str) -> ByThreads {
    match word {
        "both_submit" => ByThreads::BothSubmit,
        "wait_beside" => ByThreads::WaitBeside,
        "serve" => ByThreads::Serve,
        _ => ByThreads::None,
    }
}

impl<L: Ledger + Send + Sync> Opened<Initiating, L> {
    /// Makes a call, of several threads too, and adds its answer. `false` where the line is none.
    pub fn answer_by_threads<T: Threads + Wait + Clock + Sync>(
        &mut self,
        handle: &T,
        alloc: Global,
        line: &str,
        text: &mut Answer,
    ) -> Result<bool, Fault> {
        let mut words = Words::of(line);
        let word = by_threads(words.next());
        let Some(office) = &self.office else {
            return self.answer(handle, alloc, line, text);
        };
        match word {
            ByThreads::BothSubmit => both_submit(
                handle,
                alloc,
                office,
                &mut self.seats,
                words,
                text,
            ),
            ByThreads::WaitBeside => match &mut self.book {
                Some(book) => wait_beside(
                    handle,
                    alloc,
                    office,
                    &self.receipts,
                    &mut self.seats,
                    book,
                    words,
                    text,
                ),
                None => Ok(false),
            },
            ByThreads::Serve => serve(
                handle,
                alloc,
                office,
                &mut self.seats,
                &mut self.receipts,
                words,
                text,
            ),
            ByThreads::None => self.answer(handle, alloc, line, text),
        }
    }
}
