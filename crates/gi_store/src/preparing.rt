//! A database is made ready to hold an owner's book.

ghost use Rattle.std.specs.Prelude.{◌≡◌, ◌≢◌, ◌⊎◌, false, Err, IfErr, IsErrAnd, OnErr, OnOk, IsTrue};
ghost use Rattle.gi_pairs.specs.Code.{IsCode};
ghost use Rattle.gi_store.specs.Clean.{IsClean};
ghost use Rattle.sqlite.specs.Held.{state};
ghost use Rattle.gi_store.specs.Keeping.{IsBookOf, IsReady, IsVersion, Keeps, KeepsOrMakes, LeavesOrMakes};
ghost use Rattle.gi_store.specs.Failing.{IsCausedAtAll};
ghost use Rattle.gi_store.specs.FaultText.{IsFailure, IsPreparingRefusal};
ghost use Rattle.gi_store.specs.Opening.{IsOpenFault};
ghost use Rattle.gi_store.specs.Rows.{IsOwned};
ghost use Rattle.gi_store.specs.Tables.{HasTables, IsFree, TakesOwner};
ghost use Rattle.gi_store.specs.declared.store_fault.StoreFault.TheVariants.{OtherBook, Store, Version};

use crate::making::make_tables;
use crate::owner::Owner;
use crate::owning::own;
use crate::store_fault::StoreFault;
use crate::tables::is_free;
use crate::version::read_version;
use sqlite::{Alter, Connection};
use std::alloc::Global;

/// Makes the three tables of this owner's book, with the rows of its version and of the owner, all in
/// one transaction, where none of the three is there; other tables stay as they are. Takes a book of
/// version 2 that is the owner's as it is, with its tables in any order and beside others; one of
/// version 1 becomes one of version 2, by one UPDATE of the row of its version. Of an older book, which
/// says no owner, the table and the row of the owner are added too, in the same transaction.
/// `Version` where there is one of the first two tables without the other, one of other columns,
/// another version or none, a table of the owner of other columns or with anything but one owner, or
/// something else of these names; then `OtherBook` where it is another owner's. `Store` also where a
/// transaction is under way, or where a version is to be written and a foreign key is to its table. No
/// row that was there is changed but that of the version.
pub fn prepare<S: Alter>(
    alloc: Global,
    connection: &mut Connection<S>,
    owner: Owner,
) -> Result<(), StoreFault>
    ensures early { IsClean S.Store connection.new → IsClean S.Store connection.old }

    // On `Ok` the database is this owner's book of version 2.
    ensures ready { IsClean S.Store connection.new → OnOk result (IsReady owner (state S.Store connection.new)) }

    // `Version` means that there was no such book, and that none could be made; `OtherBook` that there
    // was the one of that owner, and it is another.
    ensures refused { IsClean S.Store connection.new → IfErr result (IsOpenFault owner (state S.Store connection.old)) }
    ensures named { IfErr result IsPreparingRefusal }

    // Another owner's book is told so, or else that it cannot be read.
    ensures owned { IsClean S.Store connection.new → (state S.Store connection.old).in_transaction ≡ false → (theirs : _) → IsCode theirs.point → IsBookOf theirs (state S.Store connection.old).now → theirs ≢ owner
        → IsErrAnd result (λ fault. (fault ≡ OtherBook theirs) ⊎ IsFailure fault) }

    // Where a transaction is under way nothing is looked at; else other tables of the first two names
    // are `Version`, whatever the disk does.
    ensures busy { IsTrue (state S.Store connection.old).in_transaction → result ≡ Err Store }
    ensures other { (state S.Store connection.old).in_transaction ≡ false → ¬ (IsFree (state S.Store connection.old).now.schema) → ¬ (HasTables (state S.Store connection.old).now.schema) → result ≡ Err Version }

    // Where nothing can be made, and there is no book of version 1 that is the owner's, so that none is raised, `Store` is told where
    // the rows of the version or of the owner could not be read.
    ensures failed { IsClean S.Store connection.new → (state S.Store connection.old).in_transaction ≡ false → ¬ (IsFree (state S.Store connection.old).now.schema) → ¬ (TakesOwner (state S.Store connection.old).now.schema) → ¬ (IsVersion 1 (state S.Store connection.old).now × IsOwned owner (state S.Store connection.old).now)
        → IfErr result (IsCausedAtAll (state S.Store connection.old) (state S.Store connection.new)) }

    // A refusal leaves what can be read as it was.
    ensures unmade { IsClean S.Store connection.new → OnErr result (Keeps (state S.Store connection.old) (state S.Store connection.new)) }

    // Its own transaction is over whatever comes of it, and one that was under way before still is.
    ensures mode { (state S.Store connection.new).in_transaction ≡ (state S.Store connection.old).in_transaction }

    // What was there stays, with a new book beside it, with the owner of an older one, with a higher
    // version, or with none of these.
    ensures kept { IsClean S.Store connection.new → IsTrue (state S.Store connection.new).is_open → KeepsOrMakes owner (state S.Store connection.old) (state S.Store connection.new) }

    // A crash at any moment leaves what it could leave before, what was there with a new book, an older
    // book with its owner, or the book of version 1 as one of version 2.
    ensures crash { IsClean S.Store connection.new → LeavesOrMakes owner (state S.Store connection.old) (state S.Store connection.new) }
{
    if !connection.is_autocommit() {
        return Err(StoreFault::Store);
    }
    if is_free(connection.schema()) {
        let name = owner.text(alloc)?;
        make_tables(connection, name.as_str())?;
        return Ok(());
    }
    let version = read_version(connection)?;
    own(alloc, connection, owner, version)
}
