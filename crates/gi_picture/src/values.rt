//! The values of the hours of a day, and their sums.

ghost use Rattle.std.specs.Prelude.{◌≡◌, ◌≤◌, IfOk, length, map, string_bytes};
ghost use Rattle.gi_picture.specs.Numbers.{grouped as grouped_of};
ghost use Rattle.gi_picture.specs.Quantities.{in_force_of, nominated_of};
ghost use Rattle.gi_picture.specs.Values.{total as total_of, value_or_none};

use crate::hour::Hour;
use crate::numbers::grouped;
use gi_pairs::Direction;
use std::alloc::{AllocError, Global};

/// Of each hour what is nominated, in kWh/h.
fn nominated_values(
    alloc: Global,
    direction: Direction,
    hours: &[Hour],
) -> Result<Vec<Option<u64>>, AllocError>
    ensures { IfOk result (λ values. values.items ≡ map (nominated_of direction) hours.now) }
{
    hours
        .iter()
        .map(|hour| hour.nominated(direction))
        .collect(alloc)
}

/// Of each hour what is in force, in kWh/h.
fn force_values(
    alloc: Global,
    direction: Direction,
    hours: &[Hour],
) -> Result<Vec<Option<u64>>, AllocError>
    ensures { IfOk result (λ values. values.items ≡ map (in_force_of direction) hours.now) }
{
    hours
        .iter()
        .map(|hour| hour.in_force(direction))
        .collect(alloc)
}

/// A value, and 0 where there is none.
pub(crate) fn value_of(value: Option<u64>) -> u64
    ensures { result ≡ value_or_none value }
{
    match value {
        Some(value) => value,
        None => 0,
    }
}

/// The sum of those values that are there.
#[tactic(auto, unfolding(crate::specs::Values::total))]
pub fn total(values: &[Option<u64>]) -> u128
    requires { length values.now ≤ 25 }
    ensures value { result ≡ total_of values.now }
    ensures within { result ≤ 461_168_601_842_738_790_375 }
{
    let mut total = 0;
    for value in values {
        total += u128::from(value_of(*value));
    }
    total
}

/// The sum of the day of what is nominated, in kWh, as text.
pub(crate) fn nominated_sum(
    alloc: Global,
    direction: Direction,
    hours: &[Hour],
) -> Result<String, AllocError>
    requires { length hours.now ≤ 25 }
    ensures { IfOk result (λ text. string_bytes text ≡ grouped_of (total_of (map (nominated_of direction) hours.now))) }
{
    let values = nominated_values(alloc, direction, hours)?;
    grouped(alloc, total(&values))
}

/// The sum of the day of what is in force, in kWh.
pub(crate) fn force_total(
    alloc: Global,
    direction: Direction,
    hours: &[Hour],
) -> Result<u128, AllocError>
    requires { length hours.now ≤ 25 }
    ensures { IfOk result (λ sum. sum ≡ total_of (map (in_force_of direction) hours.now)) }
{
    let values = force_values(alloc, direction, hours)?;
    Ok(total(&values))
}

/// The sum of the day of what is in force, in kWh, as text.
pub(crate) fn force_sum(
    alloc: Global,
    direction: Direction,
    hours: &[Hour],
) -> Result<String, AllocError>
    requires { length hours.now ≤ 25 }
    ensures { IfOk result (λ text. string_bytes text ≡ grouped_of (total_of (map (in_force_of direction) hours.now))) }
{
    let sum = force_total(alloc, direction, hours)?;
    grouped(alloc, sum)
}
