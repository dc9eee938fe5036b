ghost use Rattle.std.specs.Prelude.{◌≡◌, ◌<◌, ◌≤◌, ◌++◌, None, Ok, IfOk, OnOk, All, filter, length, map};
ghost use Rattle.std.specs.List.Sorted.{IsPermutation};
ghost use Rattle.gi_day.specs.Cycles.{hour_count, IsCycle};
ghost use Rattle.gi_nominations.specs.Lines.{lines_fault, most_lines};
ghost use Rattle.gi_pairs.specs.Table.{IsTable, built};
ghost use Rattle.gi_pairs.specs.Limits.{most_processed_rows};
ghost use Rattle.gi_processing.specs.Processing.{AreSound, CanProcess, HasFewOfEach, IsProcessed, IsSpan, columns, group_row, portfolio_rows, processed as processed_table, processed_row, processed_rows, row_at, ruled_row, span_table};
ghost use Rattle.gi_processing.specs.Reduction.{AreOrdered, has_priority, in_direction, referred};
ghost use Rattle.gi_processing.specs.declared.rule.Rule.TheVariants.{Two};

use crate::contracts::Contracts;
use crate::reduction::{lines_before, lines_of, next_priority, ordered_lines, parts_in, total_of};
use crate::rule::Rule;
use crate::span::Span;
use gi_day::DayFrame;
use gi_messages::NominationLine;
use gi_nominations::Book;
use gi_pairs::{Code, Direction, Hours, Pair, Quantity, Row, Side, Table};
use std::alloc::{AllocError, Global};

fn columns_of(
    alloc: Global,
    contracts: &Contracts,
    span: &Span,
    portfolio: Code,
    direction: Direction,
    before: &[&NominationLine],
    lines: &[&NominationLine],
) -> Result<Vec<Vec<Quantity>>, AllocError>
    requires span { IsSpan span.now }
    requires few_before { length before.now ≤ most_lines }
    requires few { length lines.now ≤ most_lines }
    requires whole_before { All (λ line. length line.hours ≡ hour_count span.now.day) (referred before.now) }
    requires whole { All (λ line. length line.hours ≡ hour_count span.now.day) (referred lines.now) }
    requires ordered { AreOrdered (referred lines.now) }
    ensures { IfOk result (λ of_hours. map (λ column. column.items) of_hours.items ≡ columns contracts.now span.now portfolio direction (referred before.now) (referred lines.now)) }
{
    let mut of_hours = Vec::with_capacity(alloc, usize::from(span.last - span.first) + 1)?;
    for hour in span.first..span.last + 1 {
        let index = usize::from(hour - 1);
        let available = contracts.available(portfolio, span.day, direction, hour);
        let left = available.saturating_sub(total_of(before, index));
        of_hours.push(parts_in(alloc, lines, index, left)?)?;
    }
    Ok(of_hours)
}

fn row_of(
    alloc: Global,
    span: &Span,
    portfolio: Code,
    line: &NominationLine,
    of_hours: &[Vec<Quantity>],
    place: usize,
) -> Result<Row, AllocError>
    requires { All (λ column. place < length column.items) of_hours.now }
    ensures { IfOk result (λ row. row ≡ row_at span.now portfolio line.now (map (λ column. column.items) of_hours.now) place) }
{
    let mut quantities = Vec::with_capacity(alloc, of_hours.len())?;
    for column in of_hours {
        quantities.push(column[place])?;
    }
    Ok(Row {
        pair: Pair::of(span.side, portfolio, line.counterparty),
        direction: line.direction,
        hours: Hours::from(quantities),
    })
}

/// The rows of lines that share what those before them leave.
fn add_group(
    rows: &mut Vec<Row>,
    contracts: &Contracts,
    span: &Span,
    portfolio: Code,
    direction: Direction,
    before: &[&NominationLine],
    lines: &[&NominationLine],
) -> Result<(), AllocError>
    requires span { IsSpan span.now }
    requires few_before { length before.now ≤ most_lines }
    requires few { length lines.now ≤ most_lines }
    requires whole_before { All (λ line. length line.hours ≡ hour_count span.now.day) (referred before.now) }
    requires whole { All (λ line. length line.hours ≡ hour_count span.now.day) (referred lines.now) }
    requires ordered { AreOrdered (referred lines.now) }
    ensures { OnOk result (rows.new.items ≡ rows.old.items ++ map (group_row contracts.now span.now portfolio direction (referred before.now) (referred lines.now)) (referred lines.now)) }
{
    let alloc = *rows.allocator();
    let of_hours = columns_of(alloc, contracts, span, portfolio, direction, before, lines)?;
    for place in 0..lines.len() {
        rows.push(row_of(alloc, span, portfolio, lines[place], &of_hours, place)?)?;
    }
    Ok(())
}

/// The rows of the lines of a priority, which share what those of lower numbers leave.
fn add_priority(
    rows: &mut Vec<Row>,
    contracts: &Contracts,
    span: &Span,
    portfolio: Code,
    direction: Direction,
    lines: &[&NominationLine],
    priority: u8,
) -> Result<(), AllocError>
    requires span { IsSpan span.now }
    requires few { length lines.now ≤ most_lines }
    requires whole { All (λ line. length line.hours ≡ hour_count span.now.day) (referred lines.now) }
    requires ordered { AreOrdered (referred lines.now) }
    ensures { OnOk result (rows.new.items ≡ rows.old.items ++ map (ruled_row Two contracts.now span.now portfolio direction (referred lines.now)) (filter (has_priority priority) (referred lines.now))) }
{
    let alloc = *rows.allocator();
    let before = lines_before(alloc, lines, priority)?;
    let own = lines_of(alloc, lines, priority)?;
    add_group(rows, contracts, span, portfolio, direction, &before, &own)
}

/// Lower numbers first.
fn add_by_priority(
    rows: &mut Vec<Row>,
    contracts: &Contracts,
    span: &Span,
    portfolio: Code,
    direction: Direction,
    lines: &[&NominationLine],
) -> Result<(), AllocError>
    requires span { IsSpan span.now }
    requires few { length lines.now ≤ most_lines }
    requires whole { All (λ line. length line.hours ≡ hour_count span.now.day) (referred lines.now) }
    requires ordered { AreOrdered (referred lines.now) }
    ensures { OnOk result (IsPermutation (rows.old.items ++ map (ruled_row Two contracts.now span.now portfolio direction (referred lines.now)) (referred lines.now)) rows.new.items) }
{
    let mut next = next_priority(lines, 0);
    while next < 256 {
        add_priority(
            rows, contracts, span, portfolio, direction, lines, next as u8,
        )?;
        next = next_priority(lines, next + 1);
    }
    Ok(())
}

fn add_ordered(
    rows: &mut Vec<Row>,
    contracts: &Contracts,
    span: &Span,
    portfolio: Code,
    direction: Direction,
    lines: &[&NominationLine],
) -> Result<(), AllocError>
    requires span { IsSpan span.now }
    requires few { length lines.now ≤ most_lines }
    requires whole { All (λ line. length line.hours ≡ hour_count span.now.day) (referred lines.now) }
    requires ordered { AreOrdered (referred lines.now) }
    ensures { OnOk result (IsPermutation (rows.old.items ++ map (ruled_row span.now.rule contracts.now span.now portfolio direction (referred lines.now)) (referred lines.now)) rows.new.items) }
{
    match span.rule {
        Rule::One => add_group(rows, contracts, span, portfolio, direction, &[], lines),
        Rule::Two => add_by_priority(rows, contracts, span, portfolio, direction, lines),
    }
}

fn add_direction(
    rows: &mut Vec<Row>,
    contracts: &Contracts,
    span: &Span,
    portfolio: Code,
    lines: &[NominationLine],
    direction: Direction,
) -> Result<(), AllocError>
    requires span { IsSpan span.now }
    requires sound { lines_fault (hour_count span.now.day) lines.now ≡ None }
    ensures { OnOk result (IsPermutation (rows.old.items ++ map (processed_row contracts.now span.now portfolio lines.now) (in_direction direction lines.now)) rows.new.items) }
{
    let alloc = *rows.allocator();
    let ordered = ordered_lines(alloc, lines, direction)?;
    add_ordered(rows, contracts, span, portfolio, direction, &ordered)
}

fn add_rows(
    rows: &mut Vec<Row>,
    contracts: &Contracts,
    span: &Span,
    portfolio: Code,
    lines: &[NominationLine],
) -> Result<(), AllocError>
    requires span { IsSpan span.now }
    requires sound { lines_fault (hour_count span.now.day) lines.now ≡ None }
    ensures { OnOk result (IsPermutation (rows.old.items ++ map (processed_row contracts.now span.now portfolio lines.now) lines.now) rows.new.items) }
{
    add_direction(rows, contracts, span, portfolio, lines, Direction::IM)?;
    add_direction(rows, contracts, span, portfolio, lines, Direction::MI)
}

#[tactic(auto, unfolding(crate::specs::Processing::portfolio_rows, crate::specs::Processing::lines_in_force))]
fn add_portfolio(
    rows: &mut Vec<Row>,
    contracts: &Contracts,
    span: &Span,
    book: &Book,
    portfolio: Code,
) -> Result<(), AllocError>
    requires span { IsSpan span.now }
    requires sound { AreSound contracts.now book.now.documents span.now.day }
    ensures { OnOk result (IsPermutation (rows.old.items ++ portfolio_rows contracts.now span.now book.now.documents portfolio) rows.new.items) }
{
    match book.in_force(portfolio, span.day) {
        Some(document) => add_rows(rows, contracts, span, portfolio, document.lines.as_slice()),
        None => Ok(()),
    }
}

fn rows_in_force(
    alloc: Global,
    contracts: &Contracts,
    span: &Span,
    book: &Book,
) -> Result<Vec<Row>, AllocError>
    requires span { IsSpan span.now }
    requires sound { AreSound contracts.now book.now.documents span.now.day }
    ensures rows { IfOk result (λ rows. IsPermutation (processed_rows contracts.now span.now book.now.documents) rows.items) }
    ensures few { IfOk result (λ rows. length rows.items ≤ most_processed_rows) }
    ensures known { IfOk result (λ _. CanProcess contracts.now book.now.documents span.now) }
    ensures makes { IfOk result (λ rows. built span.now.first span.now.last rows.items ≡ Ok (span_table contracts.now span.now book.now.documents)) }
{
    let mut rows = Vec::new(alloc);
    for portfolio in contracts.portfolios() {
        add_portfolio(&mut rows, contracts, span, book, *portfolio)?;
    }
    Ok(rows)
}

fn table_of(
    alloc: Global,
    contracts: &Contracts,
    span: &Span,
    book: &Book,
) -> Result<Table, AllocError>
    requires span { IsSpan span.now }
    requires sound { AreSound contracts.now book.now.documents span.now.day }
    ensures value { IfOk result (λ table. table ≡ span_table contracts.now span.now book.now.documents) }
    ensures table { IfOk result IsTable }
    ensures few { IfOk result (λ table. length table.rows ≤ most_processed_rows) }
    ensures known { IfOk result (λ _. CanProcess contracts.now book.now.documents span.now) }
{
    let rows = rows_in_force(alloc, contracts, span, book)?;
    Ok(Table::build(span.first, span.last, rows).unwrap())
}

/// The processed table of a cycle at a side: a row for each line in force, zeros too, on the hours
/// that the cycle covers. In each direction and hour a portfolio's lines are reduced to what is
/// available to it, in order of counterparty: by rule 1 all together, by rule 2 lower
/// priority numbers first, each to what those before it leave. The gas day, which is the frame's, has the cycle, and
/// each nomination in force on it is of a portfolio with a contract and has lines without fault.
pub fn processed(
    alloc: Global,
    book: &Book,
    contracts: &Contracts,
    side: Side,
    frame: &DayFrame,
    cycle: u8,
    rule: Rule,
) -> Result<Table, AllocError>
    requires cycle { IsCycle frame.now cycle }
    requires sound { AreSound contracts.now book.now.documents frame.now }
    ensures value { IfOk result (λ table. table ≡ processed_table contracts.now book.now.documents side frame.now cycle rule) }
    ensures law { IfOk result (IsProcessed contracts.now book.now.documents side frame.now cycle rule) }
    ensures few { IfOk result (λ table. length table.rows ≤ most_processed_rows) }
    ensures few_of_each { IfOk result (HasFewOfEach side) }
{
    let frame = *frame;
    let span = Span {
        side,
        day: frame.day(),
        first: frame.first_hour(cycle).unwrap(),
        last: frame.hours(),
        rule,
    };
    table_of(alloc, contracts, &span, book)
}
