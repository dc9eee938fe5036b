//! Facts as text.

use gi_desk::{Fact, decode_fact};
use std::alloc::{AllocError, Global};

/// The fact that the text is.
pub(crate) fn fact_of(alloc: Global, text: &str) -> Option<Fact> {
    decode_fact(alloc, text.as_bytes()).ok()
}

/// A number, and how many times: `3` is once, `3*5` five times.
fn number_and_times(word: &str) -> Option<(u32, u32)> {
    match word.split_once('*') {
        Some((number, times)) => Some((number.parse::<u32>().ok()?, times.parse::<u32>().ok()?)),
        None => Some((word.parse::<u32>().ok()?, 1)),
    }
}

/// The given fact of that number, from 1.
fn numbered(given: &[Fact], number: u32) -> Option<&Fact> {
    given.get(number.checked_sub(1)? as usize)
}

/// Adds copies of a fact.
fn add(facts: &mut Vec<Fact>, fact: &Fact, times: u32) -> Result<(), AllocError> {
    for _ in 0..times {
        facts.push(fact.copy()?)?;
    }
    Ok(())
}

/// Adds the given facts that the words number. `false` where a word numbers none.
fn add_chosen(facts: &mut Vec<Fact>, given: &[Fact], words: &str) -> Result<bool, AllocError> {
    for word in words.split_whitespace() {
        let Some((number, times)) = number_and_times(word) else {
            return Ok(false);
        };
        let Some(fact) = numbered(given, number) else {
            return Ok(false);
        };
        add(facts, fact, times)?;
    }
    Ok(true)
}

/// The given facts that the words number.
pub(crate) fn chosen(
    alloc: Global,
    given: &[Fact],
    words: &str,
) -> Result<Option<Vec<Fact>>, AllocError> {
    let mut facts = Vec::new(alloc);
    match add_chosen(&mut facts, given, words) {
        Ok(true) => Ok(Some(facts)),
        refused => {
            // (handed to `drop`, by one call: going out of scope here would be checked field by
            // field on each way out)
            drop(facts);
            refused.map(|_| None)
        }
    }
}
