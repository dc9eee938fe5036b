//! The nominations of a gas day that were in force as a cycle was closed. They are sought once for all
//! pairs: of each portfolio the number of the fact is kept.

ghost use Rattle.std.specs.Prelude.{◌≡◌, ◌≤◌, ℕ, All, IfOk, List, OnOk, length};
ghost use Rattle.std.specs.Option.{option_copied};
ghost use Rattle.gi_page.specs.DayBook.{IsBook, IsBookIf, IsBookOf, IsHourBook, cycles_in, nomination_in, number_in, number_put, numbered, portfolio_taken as portfolio_taken_of};
ghost use Rattle.gi_schedule.specs.Nominated.{nominated_line};

use crate::hour_book::HourBook;
use crate::hour_cycles::HourCycles;
use gi_day::GasDay;
use gi_desk::{Desk, Fact, Role};
use gi_messages::{NominationLine, Nomint};
use gi_pairs::{Code, CycleId, Key};
use gi_schedule::{count_before, line_in};
use std::alloc::{AllocError, Global};
use std::collections::BTreeMap;

// ---- by the first facts

fn portfolio_taken(fact: Option<&Fact>, day: GasDay) -> Option<Code>
    ensures { result ≡ portfolio_taken_of day (option_copied fact.entry) }
{
    match fact {
        Some(Fact::Nominated(document)) if document.day == day => Some(document.portfolio),
        _ => None,
    }
}

fn put(
    book: &mut BTreeMap<Code, u32>,
    portfolio: Option<Code>,
    number: u32,
) -> Result<(), AllocError>
    ensures { OnOk result ((other : List ℕ) → number_in book.new.entries other ≡ number_put other (number_in book.old.entries other) portfolio number) }
{
    let Some(portfolio) = portfolio else {
        return Ok(());
    };
    book.insert(portfolio, number)?;
    Ok(())
}

fn day_book<R: Role>(
    alloc: Global,
    desk: &Desk<R>,
    day: GasDay,
    end: u32,
) -> Result<BTreeMap<Code, u32>, AllocError>
    requires { end ≤ length desk.now.facts }
    ensures { IfOk result (λ book. IsBook desk.now.facts day end book.entries) }
{
    let mut book = BTreeMap::new(alloc);
    for before in 0..end {
        let portfolio = portfolio_taken(desk.fact(before + 1), day);
        put(&mut book, portfolio, before + 1)?;
    }
    Ok(book)
}

// ---- of the cycles that are shown

fn cycle_book<R: Role>(
    alloc: Global,
    desk: &Desk<R>,
    id: &CycleId,
) -> Result<BTreeMap<Code, u32>, AllocError>
    ensures { IfOk result (λ book. IsBookOf desk.now.facts id.now book.entries) }
{
    day_book(alloc, desk, id.day, count_before(desk, *id))
}

fn book_if<R: Role>(
    alloc: Global,
    desk: &Desk<R>,
    day: GasDay,
    shown: Option<u8>,
) -> Result<BTreeMap<Code, u32>, AllocError>
    ensures { IfOk result (λ book. IsBookIf desk.now.facts day shown book.entries) }
{
    match shown {
        Some(cycle) => cycle_book(alloc, desk, &CycleId { day, cycle }),
        None => Ok(BTreeMap::new(alloc)),
    }
}

/// The hours of the day, each with the nominations in force as the cycle was closed that is shown for it.
pub(crate) fn hour_books<R: Role>(
    alloc: Global,
    desk: &Desk<R>,
    day: GasDay,
    cycles: &[HourCycles],
) -> Result<Vec<HourBook>, AllocError>
    ensures cycles { IfOk result (λ books. cycles_in books.items ≡ cycles.now) }
    ensures books { IfOk result (λ books. All (IsHourBook desk.now.facts day) books.items) }
    ensures count { IfOk result (λ books. length books.items ≡ length cycles.now) }
{
    let mut books = Vec::new(alloc);
    for at in cycles {
        let book = book_if(alloc, desk, day, at.shown)?;
        books.push(HourBook { at: *at, book })?;
    }
    Ok(books)
}

// ---- lines

fn nomination(fact: Option<&Fact>) -> Option<&Nomint>
    ensures { option_copied result ≡ nomination_in (option_copied fact.entry) }
{
    match fact {
        Some(Fact::Nominated(document)) => Some(document),
        _ => None,
    }
}

fn document<'a, R: Role>(
    desk: &'a Desk<R>,
    book: &BTreeMap<Code, u32>,
    portfolio: Code,
) -> Option<&'a Nomint>
    ensures { option_copied result ≡ numbered desk.now.facts (number_in book.now.entries portfolio) }
{
    match book.get(&portfolio) {
        Some(number) => nomination(desk.fact(*number)),
        None => None,
    }
}

/// The line that the side's portfolio of the pair had nominated as the cycle was closed.
pub(crate) fn line_of<'a, R: Role>(
    desk: &'a Desk<R>,
    book: &BTreeMap<Code, u32>,
    id: &CycleId,
    key: &Key,
) -> Option<&'a NominationLine>
    requires { IsBookOf desk.now.facts id.now book.now.entries }
    ensures { option_copied result ≡ nominated_line R.SIDE desk.now.facts id.now key.now }
{
    let own = key.pair.at(R::SIDE);
    let other = key.pair.at(R::SIDE.other());
    line_in(document(desk, book, own), other, key.direction)
}
