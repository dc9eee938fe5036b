//! The file beside a book that has its head: `FILE-head`.

ghost use Rattle.std.specs.Prelude.{◌≡◌, ◌+◌, ◌++◌, ◌<◌, ◌^◌, IfErr, IfOk, IfSome, IsSome, Ok, OnErr, OnOk, codes, length, string_bytes};
ghost use Rattle.gi_store.specs.FaultText.{IsFailure, IsKeepingFault};
ghost use Rattle.gi_store.specs.Book.{IsToldOf};
ghost use Rattle.gi_store.specs.Heads.{IsHead, head_text, told_after, told_on};

use crate::file_bytes::{io_fault, plain_file};
use crate::head::{Head, LENGTH};
use crate::store_fault::StoreFault;
use gi_facts::Fact;
use std::alloc::{AllocError, Global};
use std::fs;
use std::io::{self, Read};
use std::marker::Model;
use std::os::unix::fs::{FileExt, MetadataExt, OpenOptionsExt};
use std::path::PathBuf;

/// The open file of a head. A contract sees the head that was written into it last: what the file
/// holds no clause can name.
#[derive(Drop)]
pub struct HeadFile {
    file: fs::File,
    told: Head,
}

impl Model for HeadFile {
    ghost use Rattle.gi_store.specs.declared.head.Head.{Head};

    ghost Value = { Head };

    ghost view = { λ kept. kept.told };
}

impl HeadFile {
    /// The head that the file tells.
    pub fn told(&self) -> Head
        ensures { result ≡ self.now }
    {
        self.told
    }

    /// Writes the head over the one before, with no sync. Where that fails the one before is written again,
    /// as far as the disk lets it, lest half of each stand there.
    pub fn put(&mut self, head: Head) -> Result<(), StoreFault>
        ensures told { OnOk result (self.new ≡ head) }
        ensures failed { IfErr result IsFailure }
    {
        match self.file.write_all_at(head.text().as_slice(), 0) {
            Ok(()) => {
                self.told = head;
                Ok(())
            }
            Err(error) => {
                let _ = self.file.write_all_at(self.told.text().as_slice(), 0);
                Err(io_fault(error))
            }
        }
    }

    /// Waits until the disk has the head.
    pub fn sync(&self) -> Result<(), StoreFault>
        ensures { IfErr result IsFailure }
    {
        match self.file.sync_data() {
            Ok(()) => Ok(()),
            Err(error) => Err(io_fault(error)),
        }
    }
}

/// The head that a kept one becomes by these facts. It fails only for want of memory.
pub(crate) fn next_head(
    alloc: Global,
    kept: &Option<HeadFile>,
    facts: &[Fact],
) -> Result<Option<Head>, AllocError>
    requires { length facts.now < 2 ^ 32 }
    ensures { IfOk result (λ next. next ≡ told_after kept.now facts.now) }
{
    let Some(file) = kept else {
        return Ok(None);
    };
    let head = file.told();
    if (head.facts as usize) + facts.len() < u32::MAX as usize {
        Ok(Some(head.then(alloc, facts)?))
    } else {
        Ok(None)
    }
}

/// The kept head is told, where it goes on.
pub(crate) fn put_head(
    kept: Option<HeadFile>,
    next: Option<Head>,
) -> Result<Option<HeadFile>, StoreFault>
    requires { IsSome next → IsSome kept }
    ensures told { IfOk result (λ now. now ≡ next) }
    ensures failed { IfErr result IsFailure }
    ensures kept { OnErr result (IsSome kept) }
{
    let (Some(mut file), Some(head)) = (kept, next) else {
        return Ok(None);
    };
    file.put(head)?;
    Ok(Some(file))
}

/// The head that is kept on with a book that was read again and has so many facts: as many as it tells.
pub(crate) fn kept_on(head: Option<HeadFile>, loaded: Option<u32>) -> Option<HeadFile>
    ensures value { result ≡ told_on head loaded }
    ensures told { IsToldOf loaded result }
{
    let Some(file) = head else {
        return None;
    };
    if loaded == Some(file.told().facts) {
        Some(file)
    } else {
        None
    }
}

/// The name of the head beside a book's file.
pub(crate) fn beside(alloc: Global, file: &str) -> Result<String, AllocError>
    ensures { IfOk result (λ name. string_bytes name ≡ file.now ++ codes "-head") }
{
    format!(in alloc; "{file}-head")
}

/// The name of a book's file, whichever links lead to it: its log and its head stand beside that.
pub(crate) fn real_name(rt: &HostRuntime, book: &str) -> Result<PathBuf, StoreFault>
    ensures { IfErr result IsFailure }
{
    fs::canonicalize(rt, book).map_err(io_fault)
}

/// The head that the bytes of its file are.
fn head_in(bytes: &[u8]) -> Result<Head, StoreFault>
    ensures text { IfOk result (λ head. bytes.now ≡ head_text head) }
    ensures whole { (head : _) → IsHead head → bytes.now ≡ head_text head → result ≡ Ok head }
    ensures named { IfErr result IsKeepingFault }
{
    match Head::read(bytes) {
        Some(head) => Ok(head),
        None => Err(StoreFault::Head),
    }
}

/// The head in the file of this name: none where it is missing, and `Head` where its bytes are none.
pub(crate) fn read_head(rt: &HostRuntime, name: &str) -> Result<Option<Head>, StoreFault>
    ensures { IfErr result IsKeepingFault }
{
    let Some(file) = plain_file(rt, name)? else {
        return Ok(None);
    };
    let mut bytes = Vec::new(rt.alloc());
    if let Err(error) = file.take(LENGTH as u64 + 1).read_to_end(&mut bytes) {
        return Err(io_fault(error));
    }
    Ok(Some(head_in(&bytes)?))
}

/// The head beside this book, read as `read_head` does.
pub(crate) fn head_beside(rt: &HostRuntime, book: &str) -> Result<Option<Head>, StoreFault>
    ensures { IfErr result IsKeepingFault }
{
    let real = real_name(rt, book)?;
    let name = beside(rt.alloc(), real.as_str())?;
    read_head(rt, name.as_str())
}

/// The file of this name, in which this head stands, open for others.
fn opened(rt: &HostRuntime, name: &str, told: Head) -> Result<HeadFile, StoreFault>
    ensures told { IfOk result (λ kept. kept ≡ told) }
    ensures failed { IfErr result IsFailure }
{
    match fs::OpenOptions::new().read(true).write(true).open(rt, name) {
        Ok(file) => Ok(HeadFile { file, told }),
        Err(error) => Err(io_fault(error)),
    }
}

/// The file of this name, in which the one before stands, open, with this head written over it.
pub(crate) fn written(
    rt: &HostRuntime,
    name: &str,
    before: Head,
    head: Head,
) -> Result<HeadFile, StoreFault>
    ensures told { IfOk result (λ kept. kept ≡ head) }
    ensures failed { IfErr result IsFailure }
{
    let mut kept = opened(rt, name, before)?;
    kept.put(head)?;
    Ok(kept)
}

/// Who may read and write a book may do so with its head.
fn mode_of(rt: &HostRuntime, book: &str) -> Result<u32, StoreFault>
    ensures { IfErr result IsFailure }
{
    match fs::metadata(rt, book) {
        Ok(found) => Ok(found.mode() & 0o777),
        Err(error) => Err(io_fault(error)),
    }
}

/// Takes away what a killed run may have left under this name.
fn removed(rt: &HostRuntime, name: &str) -> Result<(), StoreFault>
    ensures { IfErr result IsFailure }
{
    match fs::remove_file(rt, name) {
        Ok(()) => Ok(()),
        Err(error) if error.kind() == io::ErrorKind::NotFound => Ok(()),
        Err(error) => Err(io_fault(error)),
    }
}

/// A new file of this name, with this mode less the `umask`.
fn created(rt: &HostRuntime, name: &str, mode: u32) -> Result<fs::File, StoreFault>
    ensures { IfErr result IsFailure }
{
    removed(rt, name)?;
    let mut options = fs::OpenOptions::new();
    options.read(true).write(true).create_new(true).mode(mode);
    match options.open(rt, name) {
        Ok(file) => Ok(file),
        Err(error) => Err(io_fault(error)),
    }
}

/// Waits until the disk has the names in the folder of a file, whose name begins with a `/`.
fn sync_folder(rt: &HostRuntime, name: &str) -> Result<(), StoreFault>
    ensures { IfErr result IsFailure }
{
    let (folder, _) = name.rsplit_once('/').unwrap_or(("", name));
    let folder = if folder.is_empty() { "/" } else { folder };
    match fs::File::open(rt, folder) {
        Ok(folder) => folder.sync_all().map_err(io_fault),
        Err(error) => Err(io_fault(error)),
    }
}

/// A new file of this name with this head, beside the book's, for those who have that: it is written whole under
/// another name, so that a kill leaves no half of one.
pub(crate) fn made(
    rt: &HostRuntime,
    book: &str,
    name: &str,
    head: Head,
) -> Result<HeadFile, StoreFault>
    ensures told { IfOk result (λ kept. kept ≡ head) }
    ensures failed { IfErr result IsFailure }
{
    let fresh = format!(in rt.alloc(); "{name}.new")?;
    let file = created(rt, fresh.as_str(), mode_of(rt, book)?)?;
    let mut kept = HeadFile { file, told: head };
    kept.put(head)?;
    kept.sync()?;
    fs::rename(rt, fresh.as_str(), name).map_err(io_fault)?;
    sync_folder(rt, name)?;
    Ok(kept)
}

/// Waits until the disk has what the file of this name holds, where it is there.
pub(crate) fn sync_file(rt: &HostRuntime, name: &str) -> Result<(), StoreFault>
    ensures { IfErr result IsFailure }
{
    let Some(file) = plain_file(rt, name)? else {
        return Ok(());
    };
    match file.sync_data() {
        Ok(()) => Ok(()),
        Err(error) => Err(io_fault(error)),
    }
}
