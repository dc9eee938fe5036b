//! A batch of facts is saved, and the head that is kept with the book is told after it.

ghost use Rattle.std.specs.Prelude.{◌≡◌, ◌<◌, ◌^◌, None, IfErr, OnErr, OnOk, length};
ghost use Rattle.sqlite.specs.Held.{state};
ghost use Rattle.gi_facts.specs.Batch.{batch_text};
ghost use Rattle.gi_store.specs.Book.{IsPut, KeepsOrPuts};
ghost use Rattle.gi_store.specs.Clean.{IsClean};
ghost use Rattle.gi_store.specs.FaultText.{IsFailure};
ghost use Rattle.gi_store.specs.Heads.{told_after};
ghost use Rattle.gi_store.specs.Keeping.{IsIdle, MayPutRow};
ghost use Rattle.gi_store.specs.Tables.{HasTables};

use crate::head_file::{HeadFile, next_head, put_head};
use crate::saving::add_facts;
use crate::store_fault::StoreFault;
use gi_facts::Fact;
use sqlite::{Alter, Connection};
use std::alloc::Global;

/// Adds the facts by one INSERT, as one row with this number, and then writes the head gone on by
/// them, where one is kept: so the head never tells a fact that is not there. After a failure none
/// is kept.
#[tactic(auto, using(crate::proofs::Heads::kept_if_next, crate::proofs::Heads::keeps_or_puts))]
pub fn add_and_tell<S: Alter>(
    alloc: Global,
    connection: &mut Connection<S>,
    head: &mut Option<HeadFile>,
    n: u32,
    facts: &[Fact],
) -> Result<(), StoreFault>
    requires few { length facts.now < 2 ^ 32 }
    requires tables { IsClean S.Store connection.old → HasTables (state S.Store connection.old).now.schema }
    requires idle { IsClean S.Store connection.old → IsIdle (state S.Store connection.old) }
    ensures early { IsClean S.Store connection.new → IsClean S.Store connection.old }
    ensures idle { IsClean S.Store connection.new → IsIdle (state S.Store connection.new) }
    ensures written { IsClean S.Store connection.new → OnOk result (IsPut n (batch_text facts.now) (state S.Store connection.old) (state S.Store connection.new)) }
    ensures kept { IsClean S.Store connection.new → OnErr result (KeepsOrPuts head.old n (batch_text facts.now) (state S.Store connection.old) (state S.Store connection.new)) }
    ensures crash { IsClean S.Store connection.new → MayPutRow n (batch_text facts.now) (state S.Store connection.old) (state S.Store connection.new) }
    ensures failed { IfErr result IsFailure }
    ensures head { OnOk result (head.new ≡ told_after head.old facts.now) }
    ensures no_head { OnErr result (head.new ≡ None) }
{
    let kept = head.take();
    let next = next_head(alloc, &kept, facts)?;
    add_facts(alloc, connection, n, facts)?;
    *head = put_head(kept, next)?;
    Ok(())
}
