//! Facts as they are written in cases, with a space between two.
//!
//! `(63* FACT)` stands for 63 times ` FACT`.

ghost use Rattle.std.specs.Prelude.{IfOk};
ghost use Rattle.std.specs.List.{AllByRecursion};
ghost use Rattle.gi_facts.specs.Grammar.{IsWritable};

use gi_calls::{Answer, Fault};
use gi_facts::{Fact, FactFault, MOST_FACTS, decode_fact};
use gi_store::fitting;
use std::alloc::{AllocError, Global};

/// How often the text has what, and what stands behind it. `None` where it has no copies.
fn copies(text: &str) -> Option<(u16, &str, &str)> {
    let (copies, after) = text.split_once(')')?;
    let (count, what) = copies.split_once('*')?;
    Some((count.parse::<u16>().ok()?, what, after))
}

/// The text with all of its copies.
fn with_copies(alloc: Global, text: &str) -> Result<String, AllocError> {
    let mut full = String::new(alloc);
    for piece in text.split('(') {
        let (count, what, after) = copies(piece).unwrap_or((0, "", piece));
        for _ in 0..count {
            full.push_str(what)?;
        }
        full.push_str(after)?;
    }
    Ok(full)
}

/// The fact that a text is.
pub(crate) fn fact_of(alloc: Global, text: &str) -> Result<Fact, FactFault>
    ensures { IfOk result IsWritable }
{
    decode_fact(alloc, text.as_bytes())
}

/// The facts that the words of a text are.
pub(crate) fn facts_of(alloc: Global, text: &str) -> Result<Vec<Fact>, FactFault>
    ensures { IfOk result (λ facts. AllByRecursion IsWritable facts.items) }
{
    let text = with_copies(alloc, text)?;
    let mut facts = Vec::new(alloc);
    for word in text.split_ascii_whitespace() {
        let fact = fact_of(alloc, word)?;
        facts.push(fact).map_err(AllocError::from)?;
    }
    Ok(facts)
}

/// How many of the facts, from the first on, fit one row. `false` where there are none, or more than
/// 64.
pub(crate) fn add_fitting(alloc: Global, facts: &str, text: &mut Answer) -> Result<bool, Fault> {
    let Ok(facts) = facts_of(alloc, facts) else {
        return Ok(false);
    };
    if facts.is_empty() || MOST_FACTS < facts.len() {
        return Ok(false);
    }
    text.show(fitting(alloc, facts.as_slice())?);
    Ok(true)
}
