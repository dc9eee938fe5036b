//! The bytes of a book's two files, as they stand together, read while others may write them.

ghost use Rattle.std.specs.Prelude.{◌≡◌, [], Err, IfErr, IfOk};
ghost use Rattle.gi_store.specs.Copies.{rows_length};
ghost use Rattle.gi_store.specs.FaultText.{IsFailure};
ghost use Rattle.gi_store.specs.declared.store_fault.StoreFault.TheVariants.{Store};

use crate::log_rows::{LEAST_LOG, length_with_rows};
use crate::store_fault::StoreFault;
use std::alloc::Global;
use std::fs;
use std::io::{self, Read};
use std::os::unix::fs::MetadataExt;

/// What a book's file and the log beside it hold.
#[derive(Drop)]
pub struct FileBytes {
    pub file: Vec<u8>,
    pub log: Vec<u8>,
}

/// How many bytes a log begins with that change where it is begun anew.
const HEAD: u64 = 32;

/// How often the two are read anew at most, where the log was begun anew meanwhile.
const MOST_TRIES: u32 = 64;

pub fn io_fault(error: io::Error) -> StoreFault
    ensures { IsFailure result }
{
    match error.kind() {
        io::ErrorKind::OutOfMemory => StoreFault::OutOfMemory,
        _ => StoreFault::Store,
    }
}

/// The plain file of a name, or `None` where nothing is there. A second name is `Store`: the log stands
/// beside one name alone. What is no plain file is not opened, since a pipe would wait for a writer.
pub(crate) fn plain_file(rt: &HostRuntime, name: &str) -> Result<Option<fs::File>, StoreFault>
    ensures { IfErr result IsFailure }
{
    match fs::symlink_metadata(rt, name) {
        Ok(found) if found.is_file() && found.nlink() == 1 => {}
        Ok(_) => return Err(StoreFault::Store),
        Err(error) if error.kind() == io::ErrorKind::NotFound => return Ok(None),
        Err(error) => return Err(io_fault(error)),
    }
    match fs::File::open(rt, name) {
        Ok(file) => Ok(Some(file)),
        Err(error) => Err(io_fault(error)),
    }
}

/// The first bytes of a file, so many at most: none where it is not there.
fn first_bytes(rt: &HostRuntime, name: &str, most: u64) -> Result<Vec<u8>, StoreFault>
    ensures { IfErr result IsFailure }
{
    let mut bytes = Vec::new(rt.alloc());
    let Some(file) = plain_file(rt, name)? else {
        return Ok(bytes);
    };
    match file.take(most).read_to_end(&mut bytes) {
        Ok(_) => Ok(bytes),
        Err(error) => Err(io_fault(error)),
    }
}

/// Whether a rollback journal has something to play back: it is there, and does not begin with a zero.
fn is_hot(rt: &HostRuntime, journal: &str) -> Result<bool, StoreFault>
    ensures { IfErr result IsFailure }
{
    let first = first_bytes(rt, journal, 1)?;
    Ok(!first.is_empty() && first[0] != 0)
}

/// `Store` where the file is empty and the log has rows: a book is begun in its file, so that nothing but the file
/// that was lost could make a book of them, and whoever opens the two begins the log anew.
fn whole(file: Vec<u8>, log: Vec<u8>) -> Result<FileBytes, StoreFault>
    ensures both { IfOk result (λ bytes. (bytes.file ≡ file) × (bytes.log ≡ log)) }
    ensures lost { file.items ≡ [] → ¬ (rows_length log.items ≡ 0) → result ≡ Err Store }
    ensures named { IfErr result IsFailure }
{
    if file.is_empty() && length_with_rows(&log) > 0 {
        drop((file, log));
        return Err(StoreFault::Store);
    }
    Ok(FileBytes { file, log })
}

/// The log beside the file of this name, which is not there.
pub(crate) fn log_beside(rt: &HostRuntime, file: &str) -> Result<Vec<u8>, StoreFault>
    ensures { IfErr result IsFailure }
{
    let name = format!(in rt.alloc(); "{file}-wal")?;
    first_bytes(rt, name.as_str(), LEAST_LOG)
}

/// Both files' bytes, and no change of either. A log that is not there has none. `Store` where the
/// file is not there, where one of the two is no plain file or has a second name, or cannot be read;
/// where a rollback journal stands beside them, which only SQLite can play back; and where the log was
/// begun anew each time that both were read; and where the file is empty and the log has rows.
pub fn file_bytes(rt: &HostRuntime, name: &str) -> Result<FileBytes, StoreFault>
    ensures { IfErr result IsFailure }
{
    let real = fs::canonicalize(rt, name).map_err(io_fault)?;
    let journal = format!(in rt.alloc(); "{}-journal", real.as_str())?;
    let log_name = format!(in rt.alloc(); "{}-wal", real.as_str())?;
    for _ in 0..MOST_TRIES {
        let head = first_bytes(rt, &log_name, HEAD)?;
        let file = first_bytes(rt, real.as_str(), u64::MAX)?;
        let log = first_bytes(rt, &log_name, u64::MAX)?;
        if is_hot(rt, &journal)? {
            return Err(StoreFault::Store);
        }
        if first_bytes(rt, &log_name, HEAD)? == head {
            return whole(file, log);
        }
    }
    Err(StoreFault::Store)
}
