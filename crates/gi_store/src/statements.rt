//! The statements of a book, one function each.

ghost use Rattle.std.specs.Prelude.{◌≡◌, false, IsTrue, IfErr, IfOk, OnOk, OnErr, IsPermutation};
ghost use Rattle.gi_store.specs.Clean.{IsClean};
ghost use Rattle.sqlite.specs.Held.{state};
ghost use Rattle.gi_store.specs.Failing.{Endures, IsCaused, IsCausedAtAll};
ghost use Rattle.gi_store.specs.FaultText.{fault_of};
ghost use Rattle.gi_store.specs.Keeping.{IsIdle, Keeps, AddsNoOutcome, PutsRow, MayPutRow};
ghost use Rattle.gi_store.specs.Order.{ArePutInOrder};
ghost use Rattle.gi_store.specs.Rows.{facts_in, names_in, versions_in};
ghost use Rattle.gi_store.specs.Tables.{HasOwnerTable, HasTables};

use sqlite::types::{ToSql, ValueRef};
use sqlite::{Alter, Connection, Error, Row};

pub fn book_rows<S: Alter>(connection: &mut Connection<S>) -> Result<Vec<Row>, Error>
    requires tables { IsClean S.Store connection.old → HasTables (state S.Store connection.old).now.schema }
    requires idle { IsClean S.Store connection.old → IsIdle (state S.Store connection.old) }
    ensures early { IsClean S.Store connection.new → IsClean S.Store connection.old }
    ensures mode { (state S.Store connection.old).in_transaction ≡ false → (state S.Store connection.new).in_transaction ≡ false }
    ensures rows { IsClean S.Store connection.new → IfOk result (λ rows. IsPermutation (versions_in (state S.Store connection.new).now) rows.items) }
    ensures opened { IsClean S.Store connection.new → OnOk result (IsTrue (state S.Store connection.new).is_open) }
    ensures idle { IsClean S.Store connection.new → IsIdle (state S.Store connection.new) }
    ensures kept { IsClean S.Store connection.new → Keeps (state S.Store connection.old) (state S.Store connection.new) }
    ensures crash { IsClean S.Store connection.new → AddsNoOutcome (state S.Store connection.old) (state S.Store connection.new) }
    ensures endures { IsClean S.Store connection.new → Endures (state S.Store connection.old) (state S.Store connection.new) }
    ensures failed { IsClean S.Store connection.new → IfErr result (λ e. IsCaused (state S.Store connection.old) (state S.Store connection.new) (fault_of e)) }
{
    connection.query_all("SELECT * FROM book", &[])
}

pub fn owner_rows<S: Alter>(connection: &mut Connection<S>) -> Result<Vec<Row>, Error>
    requires table { HasOwnerTable (state S.Store connection.old).now.schema }
    requires idle { IsClean S.Store connection.old → IsIdle (state S.Store connection.old) }
    ensures early { IsClean S.Store connection.new → IsClean S.Store connection.old }
    ensures mode { (state S.Store connection.old).in_transaction ≡ false → (state S.Store connection.new).in_transaction ≡ false }
    ensures rows { IsClean S.Store connection.new → IfOk result (λ rows. IsPermutation (names_in (state S.Store connection.new).now) rows.items) }
    ensures opened { IsClean S.Store connection.new → OnOk result (IsTrue (state S.Store connection.new).is_open) }
    ensures idle { IsClean S.Store connection.new → IsIdle (state S.Store connection.new) }
    ensures kept { IsClean S.Store connection.new → Keeps (state S.Store connection.old) (state S.Store connection.new) }
    ensures crash { IsClean S.Store connection.new → AddsNoOutcome (state S.Store connection.old) (state S.Store connection.new) }
    ensures endures { IsClean S.Store connection.new → Endures (state S.Store connection.old) (state S.Store connection.new) }
    ensures failed { IsClean S.Store connection.new → IfErr result (λ e. IsCausedAtAll (state S.Store connection.old) (state S.Store connection.new) (fault_of e)) }
{
    connection.query_all("SELECT * FROM owner", &[])
}

pub fn fact_rows<S: Alter>(connection: &mut Connection<S>) -> Result<Vec<Row>, Error>
    requires tables { IsClean S.Store connection.old → HasTables (state S.Store connection.old).now.schema }
    requires idle { IsClean S.Store connection.old → IsIdle (state S.Store connection.old) }
    ensures early { IsClean S.Store connection.new → IsClean S.Store connection.old }
    ensures rows { IsClean S.Store connection.new → IfOk result (λ rows. ArePutInOrder (facts_in (state S.Store connection.new).now) rows.items) }
    ensures opened { IsClean S.Store connection.new → OnOk result (IsTrue (state S.Store connection.new).is_open) }
    ensures idle { IsClean S.Store connection.new → IsIdle (state S.Store connection.new) }
    ensures kept { IsClean S.Store connection.new → Keeps (state S.Store connection.old) (state S.Store connection.new) }
    ensures crash { IsClean S.Store connection.new → AddsNoOutcome (state S.Store connection.old) (state S.Store connection.new) }
    ensures endures { IsClean S.Store connection.new → Endures (state S.Store connection.old) (state S.Store connection.new) }
    ensures failed { IsClean S.Store connection.new → IfErr result (λ e. IsCaused (state S.Store connection.old) (state S.Store connection.new) (fault_of e)) }
{
    connection.query_all("SELECT * FROM facts ORDER BY 1", &[])
}

pub fn add_fact<S: Alter>(
    connection: &mut Connection<S>,
    n: u32,
    body: &[u8],
) -> Result<usize, Error>
    requires tables { IsClean S.Store connection.old → HasTables (state S.Store connection.old).now.schema }
    requires idle { IsClean S.Store connection.old → IsIdle (state S.Store connection.old) }
    ensures early { IsClean S.Store connection.new → IsClean S.Store connection.old }
    ensures idle { IsClean S.Store connection.new → IsIdle (state S.Store connection.new) }
    ensures written { IsClean S.Store connection.new → OnOk result (IsTrue (state S.Store connection.old).is_open × IsTrue (state S.Store connection.new).is_open × ((state S.Store connection.new).now.schema ≡ (state S.Store connection.old).now.schema) × PutsRow (state S.Store connection.old).now.schema n body.now (state S.Store connection.old).now.trees (state S.Store connection.new).now.trees) }
    ensures kept { IsClean S.Store connection.new → OnErr result (Keeps (state S.Store connection.old) (state S.Store connection.new)) }
    ensures crash { IsClean S.Store connection.new → MayPutRow n body.now (state S.Store connection.old) (state S.Store connection.new) }
{
    let number = n.to_sql();
    let text = ValueRef::Text(body);
    connection.execute(
        "INSERT INTO facts (n, body) VALUES (?1, ?2)",
        &[number, text],
    )
}
