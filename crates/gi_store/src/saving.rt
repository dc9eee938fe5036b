//! A batch of facts is saved.

ghost use Rattle.std.specs.Prelude.{◌≡◌, ◌+◌, Some, Err, IfOk, IfErr, OnOk, OnErr, IsTrue};
ghost use Rattle.sqlite.specs.Held.{state};
ghost use Rattle.gi_facts.specs.Batch.{batch_text};
ghost use Rattle.gi_store.specs.Batches.{is_batch};
ghost use Rattle.gi_store.specs.Book.{AnswersBatch, IsCounted};
ghost use Rattle.gi_store.specs.Clean.{IsClean};
ghost use Rattle.gi_store.specs.FaultText.{IsFailure};
ghost use Rattle.gi_store.specs.Keeping.{IsIdle, Keeps, MayPutRow, PutsRow};
ghost use Rattle.gi_store.specs.Tables.{HasTables};

use crate::statements::add_fact;
use crate::store_fault::StoreFault;
use gi_facts::{Fact, MOST_FACTS, encode_batch};
use sqlite::{Alter, Connection};
use std::alloc::Global;

/// How many facts are known, where these come next under this number; else the first refusal.
pub fn known_before(loaded: Option<u32>, n: u32, facts: &[Fact]) -> Result<u32, StoreFault>
    requires { IsCounted loaded }
    ensures next { IfOk result (λ known. (loaded ≡ Some known) × (n ≡ known + 1)) }
    ensures batch { OnOk result (IsTrue (is_batch facts.now)) }
    ensures refused { IfErr result (λ fault. (¬ IsFailure fault) × AnswersBatch n facts.now loaded (Err fault)) }
{
    if facts.is_empty() || MOST_FACTS < facts.len() {
        return Err(StoreFault::BatchSize);
    }
    let Some(known) = loaded else {
        return Err(StoreFault::NotLoaded);
    };
    let expected = known + 1;
    if n != expected {
        return Err(StoreFault::NotNext { expected });
    }
    Ok(known)
}

/// Adds the facts by one INSERT, as one row with this number.
pub fn add_facts<S: Alter>(
    alloc: Global,
    connection: &mut Connection<S>,
    n: u32,
    facts: &[Fact],
) -> Result<(), StoreFault>
    requires tables { IsClean S.Store connection.old → HasTables (state S.Store connection.old).now.schema }
    requires idle { IsClean S.Store connection.old → IsIdle (state S.Store connection.old) }
    ensures early { IsClean S.Store connection.new → IsClean S.Store connection.old }
    ensures idle { IsClean S.Store connection.new → IsIdle (state S.Store connection.new) }
    ensures written { IsClean S.Store connection.new → OnOk result (IsTrue (state S.Store connection.old).is_open × IsTrue (state S.Store connection.new).is_open × ((state S.Store connection.new).now.schema ≡ (state S.Store connection.old).now.schema) × PutsRow (state S.Store connection.old).now.schema n (batch_text facts.now) (state S.Store connection.old).now.trees (state S.Store connection.new).now.trees) }
    ensures kept { IsClean S.Store connection.new → OnErr result (Keeps (state S.Store connection.old) (state S.Store connection.new)) }
    ensures crash { IsClean S.Store connection.new → MayPutRow n (batch_text facts.now) (state S.Store connection.old) (state S.Store connection.new) }
    ensures failed { IfErr result IsFailure }
{
    let body = encode_batch(alloc, facts)?;
    add_fact(connection, n, body.as_slice())?;
    Ok(())
}
