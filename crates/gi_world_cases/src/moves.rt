use crate::runs::{Runs, Shown};
use gi_calls::{Answer, Words};
use gi_carrier::{Move, Plan};
use std::alloc::{AllocError, Global};

/// The move of that name.
fn move_named(name: &str) -> Option<Move> {
    match name {
        "pass" => Some(Move::Pass),
        "drop" => Some(Move::Drop),
        "repeat" => Some(Move::Repeat),
        "hold" => Some(Move::Hold),
        _ => None,
    }
}

/// The move of a word, and how often it stands there: `drop`, or `999*pass`.
fn repeated(word: &str) -> Option<(usize, Move)> {
    match word.split_once('*') {
        Some((count, name)) => Some((count.parse::<usize>().ok()?, move_named(name)?)),
        None => Some((1, move_named(word)?)),
    }
}

/// The moves that the words name.
pub fn moves(alloc: Global, words: Words<'_>) -> Result<Option<Vec<Move>>, AllocError> {
    let mut moves = Vec::new(alloc);
    if words.is_empty() {
        return Ok(Some(moves));
    }
    for word in words.rest().split(' ') {
        let Some((count, next)) = repeated(word) else {
            return Ok(None);
        };
        for _ in 0..count {
            moves.push(next)?;
        }
    }
    Ok(Some(moves))
}

impl Shown for Move {
    fn add_to(&self, text: &mut Answer) {
        text.debug(self);
    }
}

/// Adds the moves of a plan, as it lends them.
pub fn add_moves(plan: &Plan, text: &mut Answer) {
    let mut runs = Runs::new();
    for next in plan.as_slice() {
        runs.add(*next, text);
    }
    runs.close(text);
}
