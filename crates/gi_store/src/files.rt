//! Books in files, opened and kept with their heads.

ghost use Rattle.std.specs.Prelude.{◌≡◌, ◌<◌, ◌^◌, false, None, Ok, Err, IfErr, IfOk, IfSome, IsErrAnd, OnErr, OnOk, length};
ghost use Rattle.sqlite.specs.Files.{file_state};
ghost use Rattle.sqlite.specs.Held.{state};
ghost use Rattle.sqlite.specs.State.{HasCleanDisk};
ghost use Rattle.gi_store.specs.Book.{counted};
ghost use Rattle.gi_store.specs.Clean.{IsClean};
ghost use Rattle.gi_store.specs.Heads.{Tells, head_kept, head_of};
ghost use Rattle.gi_store.specs.Keeping.{IsReady};
ghost use Rattle.gi_store.specs.Tables.{HasTables, IsFree};
ghost use Rattle.gi_store.specs.declared.store_fault.StoreFault.TheVariants.{Version};
ghost use Rattle.gi_store.specs.FaultText.{IsFailure, IsKeepingFault, IsOpenRefusal, IsPreparingRefusal, opening_fault};

use crate::book_store::BookStore;
use crate::checking::head_after;
use crate::file_bytes::io_fault;
use crate::head::Head;
use crate::head_file::{HeadFile, beside, made, read_head, real_name, written};
use crate::owner::Owner;
use crate::store_fault::StoreFault;
use gi_facts::Fact;
use sqlite::{Alter, Connection, Error, ErrorCode, File, FileStore};
use std::alloc::Global;
use std::os::unix::fs::OpenOptionsExt;
use std::{fs, io};

/// What came of an opening, without the connection where it was refused.
fn let_go<S: Alter + Drop>(
    opened: Result<BookStore<S>, (Connection<S>, StoreFault)>,
) -> Result<BookStore<S>, StoreFault>
    ensures book { IfOk opened (λ book. result ≡ Ok book) }
    ensures fault { IfErr opened (λ back. result ≡ Err back.1) }
{
    match opened {
        Ok(book) => Ok(book),
        Err((connection, fault)) => {
            // (handed to drop, by one call: going out of scope here would be checked field by field)
            drop(connection);
            Err(fault)
        }
    }
}

/// Of any connection: what `BookStore::open` promises would be dear to check of a file's.
fn opened<S: Alter + Drop>(
    alloc: Global,
    connection: Result<Connection<S>, Error>,
    owner: Owner,
) -> Result<BookStore<S>, StoreFault>
    ensures not_loaded { IfOk result (λ book. book.loaded ≡ None) }
    ensures ready { IfOk result (λ book. IsClean S.Store book.connection → IsReady owner (state S.Store book.connection)) }
    ensures unopened { IfErr connection (λ error. result ≡ Err (opening_fault error)) }
    ensures opened { IfOk connection (λ _. IfErr result IsPreparingRefusal) }
    ensures other { IfOk connection (λ c. (state S.Store c).in_transaction ≡ false → ¬ (IsFree (state S.Store c).now.schema) → ¬ (HasTables (state S.Store c).now.schema) → IsErrAnd result (λ fault. fault ≡ Version)) }
{
    let connection = match connection {
        Ok(connection) => connection,
        Err(Error::SqliteFailure(ErrorCode::DatabaseBusy)) => return Err(StoreFault::Busy),
        Err(error) => return Err(StoreFault::from(error)),
    };
    let_go(BookStore::open(alloc, connection, owner))
}

/// Makes the file where it is not there, so that its owner alone may read and write it; its log is
/// made like it.
fn made_private(rt: &HostRuntime, file: &str) -> Result<(), StoreFault>
    ensures { IfErr result IsFailure }
{
    let mut options = fs::OpenOptions::new();
    options.write(true).create_new(true).mode(0o600);
    match options.open(rt, file) {
        Ok(made) => {
            drop(made);
            Ok(())
        }
        Err(error) if error.kind() == io::ErrorKind::AlreadyExists => Ok(()),
        Err(error) => Err(io_fault(error)),
    }
}

/// The owner's book in a file, which is not loaded. A file that is not there is made, each of whose
/// pages ends in its sum, and so are the tables of a book in a database without them; an older book is
/// given its owner, and one of version 1 becomes one of version 2. `Busy` where another process has it open, `Store` where the
/// file is no database or fails, and the faults of `BookStore::open`. Nothing is said of what the file
/// holds: no clause can name it.
pub fn book_of_file(
    rt: &HostRuntime,
    file: &str,
    owner: Owner,
) -> Result<BookStore<FileStore<File>>, StoreFault>
    ensures not_loaded { IfOk result (λ book. book.loaded ≡ None) }
    ensures ready { IfOk result (λ book. HasCleanDisk (file_state book.connection) → IsReady owner (file_state book.connection)) }
    ensures named { IfErr result IsOpenRefusal }
{
    made_private(rt, file)?;
    opened(rt.alloc(), Connection::open_with_sums(rt, file), owner)
}

/// The head beside a book is kept with it from now on, made where it is missing, and written up to
/// date. The book is loaded, with these facts. `Lost` where the head that stands there tells others,
/// or more of them, `Head` where it is none, `Store` where a file fails, and `OutOfMemory`: then the
/// book is as it was.
pub fn head_of_file(
    rt: &HostRuntime,
    book: &mut BookStore<FileStore<File>>,
    file: &str,
    facts: &[Fact],
) -> Result<(), StoreFault>
    requires { book.old.loaded ≡ counted (length facts.now) }
    ensures kept { OnOk result (book.new ≡ record book.old { head = head_kept book.old.loaded facts.now }) }
    ensures unchanged { OnErr result (book.new ≡ book.old) }
    ensures named { IfErr result IsKeepingFault }
{
    let real = real_name(rt, file)?;
    keep_in(rt, book, real.as_str(), facts)
}

/// Of any connection: a file's would be dear.
fn keep_in<S: Alter>(
    rt: &HostRuntime,
    book: &mut BookStore<S>,
    file: &str,
    facts: &[Fact],
) -> Result<(), StoreFault>
    requires { book.old.loaded ≡ counted (length facts.now) }
    ensures kept { OnOk result (book.new ≡ record book.old { head = head_kept book.old.loaded facts.now }) }
    ensures unchanged { OnErr result (book.new ≡ book.old) }
    ensures named { IfErr result IsKeepingFault }
{
    if book.count().is_none() {
        book.keep_none();
        return Ok(());
    }
    let name = beside(rt.alloc(), file)?;
    let stands = read_head(rt, name.as_str())?;
    let head = head_for(rt, file, name.as_str(), stands, facts)?;
    book.keep_head(head);
    Ok(())
}

/// The head of these facts, written into the file of this name, beside the book's, where this one stands: it
/// tells no others.
fn head_for(
    rt: &HostRuntime,
    book: &str,
    name: &str,
    stands: Option<Head>,
    facts: &[Fact],
) -> Result<HeadFile, StoreFault>
    requires { length facts.now < 2 ^ 32 }
    ensures whole { OnOk result (IfSome stands (λ head. Tells head facts.now)) }
    ensures kept { IfOk result (λ kept. kept ≡ head_of facts.now) }
    ensures named { IfErr result IsKeepingFault }
{
    let head = head_after(rt.alloc(), stands, facts)?;
    match stands {
        Some(before) => written(rt, name, before, head),
        None => made(rt, book, name, head),
    }
}
