//! What is shown of an hour, of a pair in a direction, and of all pairs together.

ghost use Rattle.std.specs.Prelude.{◌≡◌, ◌≤◌, All, IfOk, length};
ghost use Rattle.std.specs.Option.{option_copied};
ghost use Rattle.gi_desk.specs.Queries.{confirmed as confirmed_of};
ghost use Rattle.gi_pairs.specs.Quantity.{IsQuantity};
ghost use Rattle.gi_schedule.specs.InForce.{quantity_in};
ghost use Rattle.gi_schedule.specs.Lines.{counted as counted_of};
ghost use Rattle.gi_page.specs.DayBook.{IsBookIf, IsHourBook, cycles_in};
ghost use Rattle.gi_page.specs.Flows.{amounts_of, flow_hour as flow_hour_of, flow_hours as flow_hours_of, hour_of, hours_of, met, nominated_if, read_if, sum_of, sums_of};
ghost use Rattle.gi_page.specs.Keys.{frozen_tables, most_page_keys};

use crate::day_book::line_of;
use crate::hour_book::HourBook;
use crate::hour_cycles::HourCycles;
use gi_day::GasDay;
use gi_day_tables::FlowHour;
use gi_desk::{Desk, Role};
use gi_pairs::{Code, CycleId, Direction, Key, Table};
use gi_picture::{Amounts, Hour};
use gi_schedule::nominated_quantity;
use std::alloc::{AllocError, Global};
use std::collections::BTreeMap;

// ---- a pair in a direction

/// What a table has for a pair, a direction and an hour, in kWh/h; 0 where there is no table.
fn quantity(table: Option<&Table>, key: &Key, hour: u8) -> u64
    ensures value { result ≡ quantity_in key.now hour (option_copied table.entry) }
    ensures in_range { IsQuantity result }
{
    match table {
        Some(table) => table.at(key.pair, key.direction, hour),
        None => 0,
    }
}

fn met_table<R: Role>(desk: &Desk<R>, id: CycleId) -> Option<&Table>
    ensures { option_copied result ≡ met desk.now id }
{
    match desk.meeting(id) {
        Some((_, table)) => Some(table),
        None => None,
    }
}

fn nominated_at<R: Role>(
    desk: &Desk<R>,
    day: GasDay,
    key: &Key,
    number: u8,
    shown: Option<u8>,
    book: &BTreeMap<Code, u32>,
) -> u64
    requires { IsBookIf desk.now.facts day shown book.now.entries }
    ensures value { result ≡ nominated_if R.SIDE desk.now day key.now number shown }
    ensures in_range { IsQuantity result }
{
    match shown {
        Some(cycle) => {
            nominated_quantity(line_of(desk, book, &CycleId { day, cycle }, key), number)
        }
        None => 0,
    }
}

fn nominated<R: Role>(desk: &Desk<R>, day: GasDay, key: &Key, hour: &HourBook) -> u64
    requires { IsHourBook desk.now.facts day hour.now }
    ensures value { result ≡ nominated_if R.SIDE desk.now day key.now hour.now.at.number hour.now.at.shown }
    ensures in_range { IsQuantity result }
{
    nominated_at(desk, day, key, hour.at.number, hour.at.shown, &hour.book)
}

fn processed<R: Role>(desk: &Desk<R>, day: GasDay, key: &Key, at: HourCycles) -> u64
    ensures value { result ≡ read_if (frozen_tables R.SIDE desk.now) day key.now at.number at.shown }
    ensures in_range { IsQuantity result }
{
    match at.shown {
        Some(cycle) => quantity(desk.frozen(CycleId { day, cycle }), key, at.number),
        None => 0,
    }
}

fn peers<R: Role>(desk: &Desk<R>, day: GasDay, key: &Key, at: HourCycles) -> u64
    ensures value { result ≡ read_if (met desk.now) day key.now at.number at.cycle }
    ensures in_range { IsQuantity result }
{
    match at.cycle {
        Some(cycle) => quantity(met_table(desk, CycleId { day, cycle }), key, at.number),
        None => 0,
    }
}

fn in_force<R: Role>(desk: &Desk<R>, day: GasDay, key: &Key, at: HourCycles) -> u64
    ensures value { result ≡ read_if (confirmed_of R.SIDE desk.now) day key.now at.number at.cycle }
    ensures in_range { IsQuantity result }
{
    match at.cycle {
        Some(cycle) => quantity(desk.confirmed(CycleId { day, cycle }), key, at.number),
        None => 0,
    }
}

fn flow_hour<R: Role>(desk: &Desk<R>, day: GasDay, key: &Key, hour: &HourBook) -> FlowHour
    requires { IsHourBook desk.now.facts day hour.now }
    ensures { result ≡ flow_hour_of R.SIDE desk.now day key.now hour.now.at }
{
    let at = hour.at;
    FlowHour {
        number: at.number,
        shown: at.shown,
        cycle: at.cycle,
        amounts: Amounts {
            nominated: nominated(desk, day, key, hour),
            processed: processed(desk, day, key, at),
            peers: peers(desk, day, key, at),
            in_force: in_force(desk, day, key, at),
        },
    }
}

/// The hours of a pair in a direction.
pub(crate) fn flow_hours<R: Role>(
    alloc: Global,
    desk: &Desk<R>,
    day: GasDay,
    books: &[HourBook],
    key: &Key,
) -> Result<Vec<FlowHour>, AllocError>
    requires { All (IsHourBook desk.now.facts day) books.now }
    ensures value { IfOk result (λ flows. flows.items ≡ flow_hours_of R.SIDE desk.now day (cycles_in books.now) key.now) }
    ensures count { IfOk result (λ flows. length flows.items ≡ length books.now) }
{
    let mut flows = Vec::new(alloc);
    for hour in books {
        flows.push(flow_hour(desk, day, key, hour))?;
    }
    Ok(flows)
}

// ---- all pairs together

fn counted(direction: Direction, key: &Key, quantity: u64) -> u64
    ensures value { result ≡ counted_of direction key.now.direction quantity }
    ensures within { result ≤ quantity }
{
    match (direction, key.direction) {
        (Direction::IM, Direction::IM) => quantity,
        (Direction::MI, Direction::MI) => quantity,
        _ => 0,
    }
}

#[tactic(auto, unfolding(crate::specs::Flows::sum_of))]
fn nominated_sum<R: Role>(
    desk: &Desk<R>,
    day: GasDay,
    direction: Direction,
    hour: &HourBook,
    keys: &[Key],
) -> u64
    requires few { length keys.now ≤ most_page_keys }
    requires book { IsHourBook desk.now.facts day hour.now }
    ensures { result ≡ sum_of (λ amounts. amounts.nominated) R.SIDE desk.now day direction hour.now.at keys.now }
{
    let mut total = 0;
    for key in keys {
        total += counted(direction, key, nominated(desk, day, key, hour));
    }
    total
}

#[tactic(auto, unfolding(crate::specs::Flows::sum_of))]
fn processed_sum<R: Role>(
    desk: &Desk<R>,
    day: GasDay,
    direction: Direction,
    at: HourCycles,
    keys: &[Key],
) -> u64
    requires { length keys.now ≤ most_page_keys }
    ensures { result ≡ sum_of (λ amounts. amounts.processed) R.SIDE desk.now day direction at keys.now }
{
    let mut total = 0;
    for key in keys {
        total += counted(direction, key, processed(desk, day, key, at));
    }
    total
}

#[tactic(auto, unfolding(crate::specs::Flows::sum_of))]
fn peers_sum<R: Role>(
    desk: &Desk<R>,
    day: GasDay,
    direction: Direction,
    at: HourCycles,
    keys: &[Key],
) -> u64
    requires { length keys.now ≤ most_page_keys }
    ensures { result ≡ sum_of (λ amounts. amounts.peers) R.SIDE desk.now day direction at keys.now }
{
    let mut total = 0;
    for key in keys {
        total += counted(direction, key, peers(desk, day, key, at));
    }
    total
}

#[tactic(auto, unfolding(crate::specs::Flows::sum_of))]
fn in_force_sum<R: Role>(
    desk: &Desk<R>,
    day: GasDay,
    direction: Direction,
    at: HourCycles,
    keys: &[Key],
) -> u64
    requires { length keys.now ≤ most_page_keys }
    ensures { result ≡ sum_of (λ amounts. amounts.in_force) R.SIDE desk.now day direction at keys.now }
{
    let mut total = 0;
    for key in keys {
        total += counted(direction, key, in_force(desk, day, key, at));
    }
    total
}

fn sums<R: Role>(
    desk: &Desk<R>,
    day: GasDay,
    direction: Direction,
    hour: &HourBook,
    keys: &[Key],
) -> Amounts
    requires few { length keys.now ≤ most_page_keys }
    requires book { IsHourBook desk.now.facts day hour.now }
    ensures { result ≡ sums_of R.SIDE desk.now day direction hour.now.at keys.now }
{
    let at = hour.at;
    Amounts {
        nominated: nominated_sum(desk, day, direction, hour, keys),
        processed: processed_sum(desk, day, direction, at, keys),
        peers: peers_sum(desk, day, direction, at, keys),
        in_force: in_force_sum(desk, day, direction, at, keys),
    }
}

fn hour_at<R: Role>(desk: &Desk<R>, day: GasDay, keys: &[Key], hour: &HourBook) -> Hour
    requires few { length keys.now ≤ most_page_keys }
    requires book { IsHourBook desk.now.facts day hour.now }
    ensures { result ≡ hour_of R.SIDE desk.now day keys.now hour.now.at }
{
    let at = hour.at;
    Hour {
        number: at.number,
        shown: at.shown,
        cycle: at.cycle,
        im: sums(desk, day, Direction::IM, hour, keys),
        mi: sums(desk, day, Direction::MI, hour, keys),
    }
}

/// The hours of the day: the sums of all those pairs in each direction.
pub(crate) fn hours<R: Role>(
    alloc: Global,
    desk: &Desk<R>,
    day: GasDay,
    keys: &[Key],
    books: &[HourBook],
) -> Result<Vec<Hour>, AllocError>
    requires few { length keys.now ≤ most_page_keys }
    requires books { All (IsHourBook desk.now.facts day) books.now }
    ensures value { IfOk result (λ hours. hours.items ≡ hours_of R.SIDE desk.now day keys.now (cycles_in books.now)) }
    ensures count { IfOk result (λ hours. length hours.items ≡ length books.now) }
{
    let mut hours = Vec::new(alloc);
    for hour in books {
        hours.push(hour_at(desk, day, keys, hour))?;
    }
    Ok(hours)
}
