//! Facts, read from bytes and written as them, copied and compared.

mod shown;

use crate::json_bytes::{add_written, json_bytes};
use gi_calls::{Answer, Fault, Subject, Words};
use gi_facts::{Fact, FactFault, decode_fact, encode_fact};
use shown::add_fact;
use std::alloc::Global;

/// The calls of the subject `facts`, on the fact that was read or copied last.
#[derive(Drop)]
pub struct Facts {
    fact: Option<Fact>,
}

/// The fact that the rest of a line is.
fn fact_of(alloc: Global, words: Words) -> Option<Fact> {
    decode_fact(alloc, words.rest().as_bytes()).ok()
}

impl Facts {
    pub fn new() -> Facts {
        Facts { fact: None }
    }

    /// Keeps a fact that was read, and answers what is written for it; or that memory is wanted for that, and keeps
    /// the one before.
    fn keep(
        &mut self,
        alloc: Global,
        form: &str,
        read: &[u8],
        fact: Fact,
        text: &mut Answer,
    ) -> Result<bool, Fault> {
        match encode_fact(alloc, &fact) {
            Ok(written) => {
                add_written(form, read, &written, text);
                self.fact = Some(fact);
            }
            Err(_) => {
                drop(fact);
                text.add("OutOfMemory");
            }
        }
        Ok(true)
    }

    /// Reads a fact and keeps it. The answer is what is written for it, or the fault.
    fn decode(
        &mut self,
        alloc: Global,
        form: &str,
        words: Words,
        text: &mut Answer,
    ) -> Result<bool, Fault> {
        let Some(bytes) = json_bytes(alloc, form, words)? else {
            return Ok(false);
        };
        match decode_fact(alloc, &bytes) {
            Ok(fact) => self.keep(alloc, form, &bytes, fact, text),
            Err(fault) => {
                text.show(fault);
                Ok(true)
            }
        }
    }

    /// The kind and the fields of the fact.
    fn fields(&self, text: &mut Answer) -> bool {
        let Some(fact) = &self.fact else {
            return false;
        };
        add_fact(fact, text);
        true
    }

    /// Copies the fact.
    fn copy(&mut self, alloc: Global, text: &mut Answer) -> Result<bool, Fault> {
        let Some(fact) = &self.fact else {
            return Ok(false);
        };
        let copy = fact.copy()?;
        self.keep(alloc, "", &[], copy, text)
    }

    /// Copies the nomination of the fact; `none` where it has none.
    fn copy_nomint(&mut self, alloc: Global, text: &mut Answer) -> Result<bool, Fault> {
        let Some(Fact::Nominated(nomination)) = &self.fact else {
            text.add("none");
            return Ok(true);
        };
        let copy = nomination.copy()?;
        self.keep(alloc, "", &[], Fact::Nominated(copy), text)
    }

    /// Whether the fact is another; `none` where one of them is no fact.
    fn is(&self, alloc: Global, words: Words, text: &mut Answer) -> bool {
        match (&self.fact, &fact_of(alloc, words)) {
            (Some(fact), Some(other)) => text.show(fact.is(other)),
            _ => text.add("none"),
        }
        true
    }

    /// Whether the fact's table is that of another; `none` where one of them has none.
    fn eq_table(&self, alloc: Global, words: Words, text: &mut Answer) -> bool {
        match (&self.fact, &fact_of(alloc, words)) {
            (Some(Fact::Met { peer, .. }), Some(Fact::Met { peer: other, .. })) => {
                text.show(peer == other);
            }
            _ => text.add("none"),
        }
        true
    }
}

/// The fault of that name.
fn fault(name: &str, text: &mut Answer) -> bool {
    let fault = match name {
        "NotAFact" => FactFault::NotAFact,
        "OutOfMemory" => FactFault::OutOfMemory,
        _ => return false,
    };
    text.show(fault);
    true
}

impl Subject for Facts {
    fn answer(&mut self, rt: &HostRuntime, call: &str, text: &mut Answer) -> Result<bool, Fault> {
        let alloc = rt.alloc();
        let mut words = Words::of(call);
        let name = words.next();
        if let Some(form) = name.strip_prefix("decode_fact") {
            return self.decode(alloc, form, words, text);
        }
        match name {
            "fields" => Ok(self.fields(text)),
            "copy" => self.copy(alloc, text),
            "copy_nomint" => self.copy_nomint(alloc, text),
            "is" => Ok(self.is(alloc, words, text)),
            "eq_table" => Ok(self.eq_table(alloc, words, text)),
            "fault" => Ok(fault(words.rest(), text)),
            _ => Ok(false),
        }
    }
}
