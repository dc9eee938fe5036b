//! Books read from copies of their files: the files stay as they are, whoever has them open.

ghost use Rattle.std.specs.Prelude.{◌≡◌, ◌⊎◌, Err, IfErr, IfNone, IfOk, IfSome, IsTrue};
ghost use Rattle.sqlite_disk.specs.Memory.{memory_bytes, memory_is_usable};
ghost use Rattle.sqlite.specs.State.{HasCleanDisk};
ghost use Rattle.sqlite.specs.Files.{Finds, file_state};
ghost use Rattle.sqlite.specs.Held.{state};
ghost use Rattle.gi_store.specs.Book.{IsRead};
ghost use Rattle.gi_store.specs.Clean.{IsClean};
ghost use Rattle.gi_store.specs.Copies.{HoldsNone, IsCopyFault, IsCopyIn, IsCopyRefused};
ghost use Rattle.gi_store.specs.FaultText.{IsFailure, IsLoadRefusal};
ghost use Rattle.gi_store.specs.Heads.{Tells, none_by};
ghost use Rattle.gi_store.specs.Keeping.{IsIdle, Keeps};
ghost use Rattle.gi_store.specs.Opening.{IsNameFault};
ghost use Rattle.gi_store.specs.Rows.{SaysOwner};
ghost use Rattle.gi_store.specs.Tables.{HasTables, IsFree};
ghost use Rattle.gi_store.specs.declared.store_fault.StoreFault.TheVariants.{Version};

use crate::checking::checked;
use crate::file_bytes::io_fault;
use crate::head::Head;
use crate::loading::read_book;
use crate::owner::Owner;
use crate::owning::read_owner;
use crate::source::BookCopy;
use crate::store_fault::StoreFault;
use crate::tables::{is_free, lacks_owner};
use sqlite::{Alter, Connection, Error, ErrorCode, FileStore};
use sqlite_disk::{Disk, Files, Memory};
use sqlite_pager::Options;
use std::alloc::Global;

fn disk_of(alloc: Global, bytes: &[u8]) -> Result<Memory, StoreFault>
    ensures bytes { IfOk result (λ disk. memory_bytes disk ≡ bytes.now) }
    ensures usable { IfOk result (λ disk. IsTrue (memory_is_usable disk)) }
    ensures named { IfErr result IsFailure }
{
    let mut disk = Memory::new(alloc);
    disk.write_at(0, bytes).map_err(io_fault)?;
    Ok(disk)
}

/// What memory fails of as a disk is want of memory: `open_files` tells a failed disk where a call on it
/// failed, and one in memory fails for nothing else.
fn fault_of_copy(error: Error) -> StoreFault
    ensures { IsFailure result }
{
    match error {
        Error::SqliteFailure(ErrorCode::SystemIoFailure) => StoreFault::OutOfMemory,
        _ => StoreFault::from(error),
    }
}

/// The database that the bytes of its file and of the log beside it hold, opened in memory.
pub fn copied(
    alloc: Global,
    db: &[u8],
    log: &[u8],
) -> Result<Connection<FileStore<Memory>>, StoreFault>
    ensures idle { IfOk result (λ c. HasCleanDisk (file_state c) → IsIdle (file_state c)) }
    ensures found { IfOk result (λ c. (files : _) × (memory_bytes files.db ≡ db.now) × (memory_bytes files.log ≡ log.now) × (HasCleanDisk (file_state c) → Finds files c)) }
    ensures named { IfErr result IsFailure }
{
    let files = Files {
        log: disk_of(alloc, log)?,
        db: disk_of(alloc, db)?,
    };
    match Connection::open_files(alloc, files, Options::new(1)) {
        Ok(connection) => Ok(connection),
        Err(failed) => {
            let (error, left) = failed;
            drop(left);
            Err(fault_of_copy(error))
        }
    }
}

/// Whose the database is, or `None` where it has no table, index or view of that name.
fn said_owner<S: Alter>(connection: &mut Connection<S>) -> Result<Option<Owner>, StoreFault>
    requires opened { IsClean S.Store connection.old → IsTrue (state S.Store connection.old).is_open }
    requires idle { IsClean S.Store connection.old → IsIdle (state S.Store connection.old) }
    ensures early { IsClean S.Store connection.new → IsClean S.Store connection.old }
    ensures owner { IsClean S.Store connection.new → IfOk result (λ owner. IsTrue (state S.Store connection.new).is_open × SaysOwner owner (state S.Store connection.new).now) }
    ensures refused { IsClean S.Store connection.new → IfErr result (IsNameFault (state S.Store connection.old)) }
    ensures named { IfErr result IsLoadRefusal }
    ensures idle { IsClean S.Store connection.new → IsIdle (state S.Store connection.new) }
    ensures kept { IsClean S.Store connection.new → Keeps (state S.Store connection.old) (state S.Store connection.new) }
{
    if lacks_owner(connection.schema()) {
        return Ok(None);
    }
    let owner = read_owner(connection)?;
    Ok(Some(owner))
}

/// There is no book where a head tells none of its facts.
fn no_book(head: Option<Head>) -> Result<Option<BookCopy>, StoreFault>
    ensures { result ≡ none_by head }
{
    match head {
        Some(head) if 0 < head.facts => Err(StoreFault::Lost(head.facts)),
        _ => Ok(None),
    }
}

/// What the database has of a book: its facts, then whose it is. The facts have to be those that the head tells.
/// `None` of one in which a book could be made.
fn read_copy<S: Alter>(
    alloc: Global,
    head: Option<Head>,
    connection: &mut Connection<S>,
) -> Result<Option<BookCopy>, StoreFault>
    requires { IsClean S.Store connection.old → IsIdle (state S.Store connection.old) }
    ensures early { IsClean S.Store connection.new → IsClean S.Store connection.old }
    ensures free { IsFree (state S.Store connection.old).now.schema → result ≡ none_by head }
    ensures none { IfOk result (λ found. IfNone found (IsFree (state S.Store connection.old).now.schema)) }
    ensures other { ¬ (IsFree (state S.Store connection.old).now.schema) → ¬ (HasTables (state S.Store connection.old).now.schema) → result ≡ Err Version }
    ensures copy { IsClean S.Store connection.new → IfOk result (λ found. IfSome found (λ copy. IsRead (state S.Store connection.new) copy.facts.items × SaysOwner copy.owner (state S.Store connection.new).now)) }
    ensures whole { IfOk result (λ found. IfSome found (λ copy. IfSome head (λ head. Tells head copy.facts.items))) }
    ensures refused { IsClean S.Store connection.new → ¬ (IsFree (state S.Store connection.old).now.schema) → IfErr result (IsCopyFault head (state S.Store connection.old)) }
    ensures named { IfErr result IsLoadRefusal }
    ensures kept { IsClean S.Store connection.new → Keeps (state S.Store connection.old) (state S.Store connection.new) }
{
    if is_free(connection.schema()) {
        return no_book(head);
    }
    let facts = read_book(alloc, connection)?;
    let owner = said_owner(connection)?;
    checked(alloc, head, &facts)?;
    Ok(Some(BookCopy {
        owner,
        facts,
        log: 0,
    }))
}

/// Whose the book is that the bytes of its file and of the log beside it hold, and its facts, or why
/// there is none: as `BookStore::load` has it, then `Version` where a table of the owner has another
/// form than a book's, or anything but one owner, then `Lost` where the head beside it tells facts that
/// it has not. `None` of a database in which a book could be made, where the head tells no facts: no table is made.
pub fn book_of_copy(
    alloc: Global,
    head: Option<Head>,
    db: &[u8],
    log: &[u8],
) -> Result<Option<BookCopy>, StoreFault>
    ensures copy { IfOk result (λ found. IfSome found (λ copy. IsCopyIn db.now log.now (record { owner = copy.owner; facts = copy.facts.items; log = copy.log }))) }
    ensures whole { IfOk result (λ found. IfSome found (λ copy. IfSome head (λ head. Tells head copy.facts.items))) }

    // There is none only where one could be made, and the head tells no facts.
    ensures none { IfOk result (λ found. IfNone found (HoldsNone head db.now log.now)) }

    // Which fault it is: the database failed or is none, memory is wanted, or what the bytes hold is no book for this reason.
    ensures refused { IfErr result (λ why. IsFailure why ⊎ IsCopyRefused head db.now log.now why) }
    ensures named { IfErr result IsLoadRefusal }
{
    let mut connection = copied(alloc, db, log)?;
    let copy = read_copy(alloc, head, &mut connection);
    drop(connection);
    copy
}
