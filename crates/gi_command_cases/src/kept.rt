//! The books of both operators, in memory.

ghost use Rattle.std.specs.Prelude.{◌≡◌, IfOk};

use gi_facts::Fact;
use gi_store::{BookCopy, BookSource, StoreFault};
use std::alloc::{AllocError, Global};

fn facts_copy(alloc: Global, facts: &[Fact]) -> Result<Vec<Fact>, AllocError>
    ensures { IfOk result (λ copies. copies.items ≡ facts.now) }
{
    let mut copies = Vec::with_capacity(alloc, facts.len())?;
    for fact in facts {
        let Ok(copy) = fact.copy() else {
            // (handed to drop, by one call: going out of scope here would be checked field by field on each way out)
            drop(copies);
            return Err(AllocError);
        };
        copies.push_reserved(copy);
    }
    Ok(copies)
}

/// Two books, under the names `I` and `M`.
#[derive(Drop)]
pub(crate) struct KeptBooks {
    pub(crate) alloc: Global,
    pub(crate) initiating: Vec<Fact>,
    pub(crate) matching: Vec<Fact>,
}

impl BookSource for KeptBooks {
    ghost use Rattle.gi_command_cases.specs.Kept.{gives_kept};

    ghost gives = { λ books name read. gives_kept books.initiating.items books.matching.items name read };

    fn read(&self, name: &str) -> Result<BookCopy, StoreFault> {
        let facts = match name {
            "I" => &self.initiating,
            "M" => &self.matching,
            _ => return Err(StoreFault::Store),
        };
        Ok(BookCopy {
            owner: None,
            facts: facts_copy(self.alloc, facts.as_slice())?,
            log: 0,
        })
    }
}
