//! A book's facts are read.

ghost use Rattle.std.specs.Prelude.{◌≡◌, Err, IfOk, IfErr};
ghost use Rattle.gi_store.specs.Clean.{IsClean};
ghost use Rattle.sqlite.specs.Held.{state};
ghost use Rattle.gi_store.specs.Book.{IsLoadCaused, IsLoadFault, IsRead};
ghost use Rattle.gi_store.specs.Failing.{Endures};
ghost use Rattle.gi_store.specs.FaultText.{IsLoadRefusal};
ghost use Rattle.gi_store.specs.Keeping.{AddsNoOutcome, IsIdle, Keeps};
ghost use Rattle.gi_store.specs.Tables.{HasTables};
ghost use Rattle.gi_store.specs.declared.store_fault.StoreFault.TheVariants.{Version};

use crate::reading::read_facts;
use crate::statements::fact_rows;
use crate::store_fault::StoreFault;
use crate::version::read_version;
use gi_facts::Fact;
use sqlite::{Alter, Connection};
use std::alloc::Global;

#[tactic(auto, using(crate::proofs::Causes::endures_then, crate::proofs::Causes::load_at_once, crate::proofs::Causes::load_later, crate::proofs::Causes::read_failed))]
pub fn read_book<S: Alter>(
    alloc: Global,
    connection: &mut Connection<S>,
) -> Result<Vec<Fact>, StoreFault>
    requires { IsClean S.Store connection.old → IsIdle (state S.Store connection.old) }
    ensures early { IsClean S.Store connection.new → IsClean S.Store connection.old }
    ensures facts { IsClean S.Store connection.new → IfOk result (λ facts. IsRead (state S.Store connection.new) facts.items) }
    ensures refused { IsClean S.Store connection.new → IfErr result (IsLoadFault (state S.Store connection.old)) }
    ensures named { IfErr result IsLoadRefusal }
    ensures other { ¬ (HasTables (state S.Store connection.old).now.schema) → result ≡ Err Version }
    ensures idle { IsClean S.Store connection.new → IsIdle (state S.Store connection.new) }
    ensures kept { IsClean S.Store connection.new → Keeps (state S.Store connection.old) (state S.Store connection.new) }
    ensures crash { IsClean S.Store connection.new → AddsNoOutcome (state S.Store connection.old) (state S.Store connection.new) }
    ensures endures { IsClean S.Store connection.new → Endures (state S.Store connection.old) (state S.Store connection.new) }
    ensures failed { IsClean S.Store connection.new → IfErr result (IsLoadCaused (state S.Store connection.old) (state S.Store connection.new)) }
{
    read_version(connection)?;
    let rows = fact_rows(connection)?;
    read_facts(alloc, rows.as_slice())
}
