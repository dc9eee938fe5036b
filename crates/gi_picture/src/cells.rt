//! The values of an hour as they stand in cells.

ghost use Rattle.std.specs.Prelude.{◌≡◌, IfOk, string_bytes};
ghost use Rattle.gi_picture.specs.Numbers.{cell as cell_of};
ghost use Rattle.gi_picture.specs.Quantities.{in_force_of, nominated_of, peers_of, processed_of};

use crate::hour::Hour;
use crate::numbers::cell;
use gi_pairs::Direction;
use std::alloc::{AllocError, Global};

/// What is nominated, in kWh/h.
pub(crate) fn nominated_cell(
    alloc: Global,
    direction: Direction,
    hour: Hour,
) -> Result<String, AllocError>
    ensures { IfOk result (λ text. string_bytes text ≡ cell_of (nominated_of direction hour)) }
{
    cell(alloc, hour.nominated(direction))
}

/// What this side processed, in kWh/h.
pub(crate) fn processed_cell(
    alloc: Global,
    direction: Direction,
    hour: Hour,
) -> Result<String, AllocError>
    ensures { IfOk result (λ text. string_bytes text ≡ cell_of (processed_of direction hour)) }
{
    cell(alloc, hour.processed(direction))
}

/// What the peer processed, in kWh/h.
pub(crate) fn peers_cell(
    alloc: Global,
    direction: Direction,
    hour: Hour,
) -> Result<String, AllocError>
    ensures { IfOk result (λ text. string_bytes text ≡ cell_of (peers_of direction hour)) }
{
    cell(alloc, hour.peers(direction))
}

/// What is in force, in kWh/h.
pub(crate) fn force_cell(
    alloc: Global,
    direction: Direction,
    hour: Hour,
) -> Result<String, AllocError>
    ensures { IfOk result (λ text. string_bytes text ≡ cell_of (in_force_of direction hour)) }
{
    cell(alloc, hour.in_force(direction))
}
