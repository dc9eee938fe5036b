//! A book's files are closed: its file alone is then the whole database.

ghost use Rattle.std.specs.Prelude.{IfErr, IfOk, OnOk};
ghost use Rattle.sqlite_wal.specs.Reads.{AreClean};
ghost use Rattle.sqlite.specs.Closing.{IsCopied};
ghost use Rattle.gi_store.specs.FaultText.{IsFailure};

use crate::head_file::{beside, real_name, sync_file};
use crate::store_fault::StoreFault;
use sqlite::{Connection, Error, ErrorCode, FileStore};
use sqlite_disk::{Disk, Files};

/// The files of a connection are closed, and what is in the log is copied into the file.
fn close<D: Disk + Drop>(connection: Connection<FileStore<D>>) -> Result<Files<D>, StoreFault>
    ensures copied { IfOk result (λ files. AreClean D.Disk files.log files.db → IsCopied connection files) }
    ensures failed { IfErr result IsFailure }
{
    match connection.close_files() {
        Ok(files) => Ok(files),
        Err(failed) => {
            let (error, store) = failed;
            drop(store);
            Err(StoreFault::from(error))
        }
    }
}

/// Of any connection: a file's would be dear.
fn closed<D: Disk + Drop>(
    connection: Result<Connection<FileStore<D>>, Error>,
) -> Result<(), StoreFault>
    ensures copied { IfOk connection (λ c. OnOk result ((files : _) × (AreClean D.Disk files.log files.db → IsCopied c files))) }
    ensures failed { IfErr result IsFailure }
{
    match connection {
        Ok(connection) => {
            let files = close(connection)?;
            drop(files);
            Ok(())
        }
        Err(Error::SqliteFailure(ErrorCode::DatabaseBusy)) => Ok(()),
        Err(error) => Err(StoreFault::from(error)),
    }
}

/// Closes the file of a book that nobody has open any more, as after a killed run: what is in its log
/// is copied into it, and its head is synced. Where another process has the book open nothing is done,
/// since that one closes it. `Store` where the file is not there, is no database or fails, and
/// `OutOfMemory`.
pub fn close_book(rt: &HostRuntime, file: &str) -> Result<(), StoreFault>
    ensures { IfErr result IsFailure }
{
    let real = real_name(rt, file)?;
    let name = beside(rt.alloc(), real.as_str())?;
    closed(Connection::open_with_sums(rt, file))?;
    sync_file(rt, name.as_str())
}
