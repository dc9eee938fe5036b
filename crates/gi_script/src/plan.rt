ghost use Rattle.std.specs.Prelude.{◌≡◌, ◌∷◌, codes};
ghost use Rattle.gi_script.specs.Grammar.{SaysMoves};
ghost use Rattle.gi_script.specs.Reading.{Reads};

use crate::fault::LineFault;
use crate::verb::move_named;
use crate::words::Words;
use gi_carrier::{MOST_MOVES, Plan};
use std::alloc::Global;

/// What follows `plan SIDE`. Moves are read up to the most that a plan has.
pub fn plan(alloc: Global, mut words: Words<'_>) -> Result<Plan, LineFault>
    ensures { Reads (SaysMoves words.entry) result }
{
    let mut moves = Vec::new(alloc);
    while let Some(word) = words.next() {
        let Some(next) = move_named(word) else {
            return Err(LineFault::Unreadable);
        };
        if moves.len() == MOST_MOVES {
            return Err(LineFault::Unreadable);
        }
        if moves.push(next).is_err() {
            return Err(LineFault::OutOfMemory);
        }
    }
    match Plan::build(moves) {
        Ok(plan) => Ok(plan),
        Err(_) => Err(LineFault::Unreadable),
    }
}
