ghost use Rattle.std.specs.Prelude.{◌≡◌, ℕ, ◌*◌, ◌/◌, ◌<◌, ◌≤◌, false, filter, length, All, IfNone, IfOk, IfSome};
ghost use Rattle.std.specs.List.Sorted.{IsPermutation};
ghost use Rattle.gi_pairs.specs.Quantity.{most_quantity};
ghost use Rattle.gi_nominations.specs.Lines.{has_twins, most_lines};
ghost use Rattle.gi_processing.specs.Reduction.{AreOrdered, HasNoneBetween, has_priority, in_direction, is_served_before, parts, quantity_at, quotient, referred, total};

use gi_messages::NominationLine;
use gi_pairs::{Direction, Quantity};
use std::alloc::{AllocError, Global};

fn lines_in(
    alloc: Global,
    lines: &[NominationLine],
    direction: Direction,
) -> Result<Vec<&NominationLine>, AllocError>
    ensures { IfOk result (λ kept. referred kept.items ≡ in_direction direction lines.now) }
{
    let mut kept = Vec::with_capacity(alloc, lines.len())?;
    for line in lines {
        if line.direction == direction {
            kept.push(line)?;
        }
    }
    Ok(kept)
}

pub(crate) fn ordered_lines(
    alloc: Global,
    lines: &[NominationLine],
    direction: Direction,
) -> Result<Vec<&NominationLine>, AllocError>
    requires { has_twins lines.now ≡ false }
    ensures lines { IfOk result (λ ordered. IsPermutation (in_direction direction lines.now) (referred ordered.items)) }
    ensures ordered { IfOk result (λ ordered. AreOrdered (referred ordered.items)) }
{
    let mut ordered = lines_in(alloc, lines, direction)?;
    ordered.sort_unstable_by_key(|line| line.counterparty);
    Ok(ordered)
}

/// The lines of lower numbers, which are served before those of the priority.
pub(crate) fn lines_before<'a>(
    alloc: Global,
    lines: &[&'a NominationLine],
    priority: u8,
) -> Result<Vec<&'a NominationLine>, AllocError>
    ensures { IfOk result (λ kept. referred kept.items ≡ filter (is_served_before priority) (referred lines.now)) }
{
    let mut kept = Vec::with_capacity(alloc, lines.len())?;
    for line in lines {
        if line.priority < priority {
            kept.push(*line)?;
        }
    }
    Ok(kept)
}

/// The lines of the priority.
pub(crate) fn lines_of<'a>(
    alloc: Global,
    lines: &[&'a NominationLine],
    priority: u8,
) -> Result<Vec<&'a NominationLine>, AllocError>
    ensures { IfOk result (λ kept. referred kept.items ≡ filter (has_priority priority) (referred lines.now)) }
{
    let mut kept = Vec::with_capacity(alloc, lines.len())?;
    for line in lines {
        if line.priority == priority {
            kept.push(*line)?;
        }
    }
    Ok(kept)
}

/// A number from the given one on, 256 at most. No line has a priority from the given one to before it.
pub(crate) fn next_priority(lines: &[&NominationLine], from: u16) -> u16
    requires { from ≤ 256 }
    ensures low { from ≤ result }
    ensures high { result ≤ 256 }
    ensures next { HasNoneBetween from result (referred lines.now) }
    ensures bytes { All (λ line. line.priority < 256) (referred lines.now) }
{
    let mut next = 256;
    for line in lines {
        let own = line.priority;
        let priority = u16::from(own);
        if from <= priority && priority < next {
            next = priority;
        }
    }
    next
}

fn quantity_of(line: &NominationLine, index: usize) -> Quantity
    requires { index < length line.now.hours }
    ensures { result ≡ quantity_at index line.now }
{
    line.hours.as_slice()[index]
}

pub(crate) fn total_of(lines: &[&NominationLine], index: usize) -> u64
    requires few { length lines.now ≤ most_lines }
    requires covered { All (λ line. index < length line.hours) (referred lines.now) }
    ensures value { result ≡ total index (referred lines.now) }
    ensures bound { result ≤ length lines.now * most_quantity }
{
    let mut sum = 0;
    for line in lines {
        sum += quantity_of(line, index).value();
    }
    sum
}

/// A sum scaled by what is available of the total, and rounded down.
pub fn scaled(available: u64, sum: u64, total: u64) -> u64
    requires some { 0 < total }
    requires within { sum ≤ total }
    ensures { result ≡ available * sum / total }
{
    (u128::from(available) * u128::from(sum) / u128::from(total)) as u64
}

fn quotient_of(available: u64, sum: u64, total: u64) -> u64
    requires { sum ≤ total }
    ensures { result ≡ quotient available sum total }
{
    if total <= available {
        return sum;
    }
    scaled(available, sum, total)
}

/// One pass, which carries along what the lines before got.
pub(crate) fn parts_in(
    alloc: Global,
    lines: &[&NominationLine],
    index: usize,
    available: u64,
) -> Result<Vec<Quantity>, AllocError>
    requires few { length lines.now ≤ most_lines }
    requires covered { All (λ line. index < length line.hours) (referred lines.now) }
    requires ordered { AreOrdered (referred lines.now) }
    ensures { IfOk result (λ quantities. quantities.items ≡ parts available index (referred lines.now)) }
{
    let total = total_of(lines, index);
    let mut quantities = Vec::with_capacity(alloc, lines.len())?;
    let (mut sum, mut carried) = (0, 0);
    for line in lines {
        sum += quantity_of(line, index).value();
        let quotient = quotient_of(available, sum, total);
        quantities.push(Quantity::new(quotient - carried).unwrap())?;
        carried = quotient;
    }
    Ok(quantities)
}
