//! How many facts one row takes.

ghost use Rattle.std.specs.Prelude.{◌≡◌, IfOk, IsTrue, length};
ghost use Rattle.gi_facts.specs.Writing.{fact_text};
ghost use Rattle.gi_store.specs.Batches.{IsLongestFront, is_batch};

use gi_facts::{Fact, encode_fact};
use std::alloc::{AllocError, Global};

/// The longest body that the facts of one row have where they are several, in bytes.
pub const MOST_BYTES: usize = 1_048_576;

fn length_of(alloc: Global, fact: &Fact) -> Result<usize, AllocError>
    ensures { IfOk result (λ count. count ≡ length (fact_text fact.now)) }
{
    let text = encode_fact(alloc, fact)?;
    Ok(text.len())
}

/// How many of the facts, from the first on, fit one row: as many as have a body of at most
/// 1,048,576 bytes together, or else one. It fails only for want of memory.
pub fn fitting(alloc: Global, facts: &[Fact]) -> Result<usize, AllocError>
    requires { IsTrue (is_batch facts.now) }
    ensures { IfOk result (IsLongestFront facts.now) }
{
    let mut left = MOST_BYTES - 1;
    for (before, fact) in facts.iter().enumerate() {
        let length = length_of(alloc, fact)?;
        if left <= length {
            return Ok(before.max(1));
        }
        left -= length + 1;
    }
    Ok(facts.len())
}
