//! What was nominated as a cycle was closed.

ghost use Rattle.std.specs.Prelude.{◌≡◌, ◌≤◌, ◌-◌, find, length, take};
ghost use Rattle.std.specs.Option.{option_copied};
ghost use Rattle.gi_desk.specs.History.{documents_of, facts_before, is_closing};
ghost use Rattle.gi_pairs.specs.Quantity.{IsQuantity};
ghost use Rattle.gi_nominations.specs.Book.{in_force, is_of as is_of_day};
ghost use Rattle.gi_processing.specs.Processing.{lines_of};
ghost use Rattle.gi_processing.specs.Reduction.{quantity_at as quantity_of_line};
ghost use Rattle.gi_schedule.specs.Nominated.{is_line as is_line_of, nominated_line as line_of, quantity_if, taken as taken_of};

use gi_day::GasDay;
use gi_desk::{Desk, Fact, Role};
use gi_messages::{NominationLine, Nomint};
use gi_pairs::{Code, CycleId, Direction, Key};

fn is_of(document: &Nomint, portfolio: Code, day: GasDay) -> bool
    ensures { result ≡ is_of_day portfolio day document.now }
{
    document.portfolio == portfolio && document.day == day
}

fn taken<'a>(
    found: Option<&'a Nomint>,
    fact: Option<&'a Fact>,
    portfolio: Code,
    day: GasDay,
) -> Option<&'a Nomint>
    ensures { option_copied result ≡ taken_of portfolio day (option_copied found.entry) (option_copied fact.entry) }
{
    match fact {
        Some(Fact::Nominated(document)) if is_of(document, portfolio, day) => Some(document),
        _ => found,
    }
}

fn standing<R: Role>(desk: &Desk<R>, portfolio: Code, day: GasDay, end: u32) -> Option<&Nomint>
    requires { end ≤ length desk.now.facts }
    ensures { option_copied result ≡ in_force portfolio day (documents_of (take end desk.now.facts)) }
{
    let mut found = None;
    for before in 0..end {
        found = taken(found, desk.fact(before + 1), portfolio, day);
    }
    found
}

fn is_line(line: &NominationLine, code: Code, direction: Direction) -> bool
    ensures { result ≡ is_line_of code direction line.now }
{
    line.counterparty == code && line.direction == direction
}

fn line_for(lines: &[NominationLine], code: Code, direction: Direction) -> Option<&NominationLine>
    ensures { option_copied result ≡ find (is_line_of code direction) lines.now }
{
    lines.iter().find(|line| is_line(line, code, direction))
}

/// A nomination's line for a counterparty and a direction.
pub fn line_in(
    document: Option<&Nomint>,
    code: Code,
    direction: Direction,
) -> Option<&NominationLine>
    ensures { option_copied result ≡ find (is_line_of code direction) (lines_of (option_copied document.entry)) }
{
    match document {
        Some(document) => line_for(document.lines.as_slice(), code, direction),
        None => None,
    }
}

/// How many facts stand before the cycle's closing, of which all are taken where it is not closed.
pub fn count_before<R: Role>(desk: &Desk<R>, id: CycleId) -> u32
    ensures value { take result desk.now.facts ≡ facts_before (is_closing id) desk.now.facts }
    ensures within { result ≤ length desk.now.facts }
{
    match desk.closing(id) {
        Some(number) => number - 1,
        None => desk.len(),
    }
}

/// The line that the side's portfolio of the pair had nominated as the cycle was closed.
pub(crate) fn nominated_line<'a, R: Role>(
    desk: &'a Desk<R>,
    id: CycleId,
    key: &Key,
) -> Option<&'a NominationLine>
    ensures { option_copied result ≡ line_of R.SIDE desk.now.facts id key.now }
{
    let own = key.pair.at(R::SIDE);
    let other = key.pair.at(R::SIDE.other());
    let document = standing(desk, own, id.day, count_before(desk, id));
    line_in(document, other, key.direction)
}

fn quantity_at(line: &NominationLine, hour: u8) -> u64
    ensures value { result ≡ quantity_of_line (hour - 1) line.now }
    ensures in_range { IsQuantity result }
{
    match line
        .hours
        .as_slice()
        .get(usize::from(hour.saturating_sub(1)))
    {
        Some(quantity) => quantity.value(),
        None => 0,
    }
}

/// What a line nominates for an hour, numbered from 1, in kWh/h; 0 where there is none.
pub fn quantity(line: Option<&NominationLine>, hour: u8) -> u64
    ensures value { result ≡ quantity_if hour (option_copied line.entry) }
    ensures in_range { IsQuantity result }
{
    match line {
        Some(line) => quantity_at(line, hour),
        None => 0,
    }
}
