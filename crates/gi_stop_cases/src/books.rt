//! Books over two disks.

use gi_pairs::{Code, Side};
use gi_store::{BookStore, Owner};
use sqlite::{Alter, Connection, FileStore};
use sqlite_disk::{Crash, Disk, Files, Fuse, Memory};
use sqlite_pager::Options;
use std::alloc::Global;

/// Of any connection: what `BookStore::open` promises would be dear to check of one over disks.
fn book_of<S: Alter + Drop>(alloc: Global, connection: Connection<S>) -> Option<BookStore<S>> {
    // (whose it is does not matter here)
    let point = Code::read("BORDER-1").ok()?;
    let owner = Owner {
        side: Side::I,
        point,
    };
    match BookStore::open(alloc, connection, owner) {
        Ok(book) => Some(book),
        Err(refused) => {
            // (handed to `drop`, by one call: going out of scope here would be checked field by field)
            drop(refused);
            None
        }
    }
}

/// The book over these disks, which is not loaded. `None` where it cannot be opened.
pub fn book_over<D: Disk + Drop>(
    alloc: Global,
    files: Files<D>,
) -> Option<BookStore<FileStore<D>>> {
    if !files.may_be_used() {
        drop(files);
        return None;
    }
    match Connection::open_files(alloc, files, Options::new(1)) {
        Ok(connection) => book_of(alloc, connection),
        Err(failed) => {
            drop(failed);
            None
        }
    }
}

/// A disk in memory with these bytes.
fn memory_of(alloc: Global, bytes: &[u8]) -> Memory {
    let mut disk = Memory::new(alloc);
    if disk.write_at(0, bytes).is_ok() {
        let _ = disk.sync();
    }
    disk
}

/// What a stop leaves of a disk.
fn left_of(alloc: Global, disk: Fuse<Memory>, is_all: bool) -> Memory {
    let mut disk = disk;
    if !is_all {
        disk.crash();
    }
    memory_of(alloc, disk.inner().bytes())
}

/// What a stop leaves: all that was written, or what was synced.
pub fn left(alloc: Global, files: Files<Fuse<Memory>>, is_all: bool) -> Files<Memory> {
    Files {
        log: left_of(alloc, files.log, is_all),
        db: left_of(alloc, files.db, is_all),
    }
}
