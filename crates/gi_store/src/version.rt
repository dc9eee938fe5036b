//! The version of a book.

ghost use Rattle.std.specs.Prelude.{◌≡◌, [], ◌∷◌, false, IsTrue, None, Err, IfErr, IfOk, IfSome};
ghost use Rattle.gi_store.specs.Clean.{IsClean};
ghost use Rattle.sqlite.specs.Held.{state};
ghost use Rattle.gi_store.specs.Keeping.{IsIdle, IsVersion, Keeps, AddsNoOutcome};
ghost use Rattle.gi_store.specs.Failing.{Endures, IsCaused};
ghost use Rattle.gi_store.specs.FaultText.{IsRefusal};
ghost use Rattle.gi_store.specs.Opening.{IsVersionFault};
ghost use Rattle.gi_store.specs.Rows.{version_row};
ghost use Rattle.gi_store.specs.Version.{version_number};
ghost use Rattle.gi_store.specs.Tables.{HasTables};
ghost use Rattle.gi_store.specs.declared.store_fault.StoreFault.TheVariants.{Version};

use crate::statements::book_rows;
use crate::store_fault::StoreFault;
use crate::tables::is_book;
use sqlite::types::ValueRef;
use sqlite::{Alter, Connection, Row};

/// The versions of the books that are read. What wrote one of the first knew no rule of a closing but 1.
#[derive(Clone, Copy)]
pub enum BookVersion {
    One,
    Two,
}

fn version_in_row(row: &Row) -> Option<BookVersion>
    ensures version { IfSome result (λ version. row.now ≡ version_row (version_number version)) }
    ensures none { result ≡ None → (version : _) → ¬ (row.now ≡ version_row (version_number version)) }
{
    if row.column_count() != 2 || !matches!(row.get_ref(0), Ok(ValueRef::Int(1))) {
        return None;
    }
    match row.get_ref(1) {
        Ok(ValueRef::Int(1)) => Some(BookVersion::One),
        Ok(ValueRef::Int(2)) => Some(BookVersion::Two),
        _ => None,
    }
}

/// Which version the rows are of takes no memory to tell.
fn version_in(rows: &[Row]) -> Result<BookVersion, StoreFault>
    ensures version { IfOk result (λ version. rows.now ≡ version_row (version_number version) ∷ []) }
    ensures refused { IfErr result (λ fault. (fault ≡ Version) × ((version : _) → ¬ (rows.now ≡ version_row (version_number version) ∷ []))) }
{
    let [row] = rows else {
        return Err(StoreFault::Version);
    };
    match version_in_row(row) {
        Some(version) => Ok(version),
        None => Err(StoreFault::Version),
    }
}

/// The version of the book that the database has.
#[tactic(auto, using(crate::proofs::Causes::endures_still))]
pub fn read_version<S: Alter>(connection: &mut Connection<S>) -> Result<BookVersion, StoreFault>
    requires { IsClean S.Store connection.old → IsIdle (state S.Store connection.old) }
    ensures early { IsClean S.Store connection.new → IsClean S.Store connection.old }
    ensures mode { (state S.Store connection.old).in_transaction ≡ false → (state S.Store connection.new).in_transaction ≡ false }
    ensures version { IsClean S.Store connection.new → IfOk result (λ version. IsTrue (state S.Store connection.new).is_open × IsVersion (version_number version) (state S.Store connection.new).now) }
    ensures refused { IsClean S.Store connection.new → IfErr result (IsVersionFault (state S.Store connection.old)) }
    ensures named { IfErr result IsRefusal }
    ensures other { ¬ (HasTables (state S.Store connection.old).now.schema) → result ≡ Err Version }
    ensures idle { IsClean S.Store connection.new → IsIdle (state S.Store connection.new) }
    ensures kept { IsClean S.Store connection.new → Keeps (state S.Store connection.old) (state S.Store connection.new) }
    ensures crash { IsClean S.Store connection.new → AddsNoOutcome (state S.Store connection.old) (state S.Store connection.new) }
    ensures endures { IsClean S.Store connection.new → Endures (state S.Store connection.old) (state S.Store connection.new) }
    ensures failed { IsClean S.Store connection.new → IfErr result (IsCaused (state S.Store connection.old) (state S.Store connection.new)) }
{
    if !is_book(connection.schema()) {
        return Err(StoreFault::Version);
    }
    let rows = book_rows(connection)?;
    version_in(rows.as_slice())
}
