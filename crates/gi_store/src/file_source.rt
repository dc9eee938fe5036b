//! Books in files, read from copies of them.

ghost use Rattle.std.specs.Prelude.{IfErr};
ghost use Rattle.gi_store.specs.FaultText.{IsKeepingFault, IsLoadRefusal};

use crate::copies::book_of_copy;
use crate::file_bytes::{file_bytes, log_beside};
use crate::head::Head;
use crate::head_file::{beside, head_beside, read_head};
use crate::log_rows::length_with_rows;
use crate::source::{BookCopy, BookSource};
use crate::store_fault::StoreFault;

/// How often a book is read at most, where it is not what its head tells.
const MOST_READS: u32 = 8;

/// A book, read from a copy of its files, and held against its head, which is read first: so it tells
/// no fact that is saved meanwhile.
fn read_once(rt: &HostRuntime, name: &str) -> Result<Option<BookCopy>, StoreFault>
    ensures { IfErr result IsLoadRefusal }
{
    let head = head_beside(rt, name)?;
    let bytes = file_bytes(rt, name)?;
    let Some(mut copy) = book_of_copy(rt.alloc(), head, &bytes.file, &bytes.log)? else {
        return Ok(None);
    };
    copy.log = length_with_rows(&bytes.log);
    Ok(Some(copy))
}

/// The same, read anew where the head tells facts that are not there, or was read half written: an
/// office may write both meanwhile.
fn read_whole(rt: &HostRuntime, name: &str) -> Result<Option<BookCopy>, StoreFault>
    ensures { IfErr result IsLoadRefusal }
{
    for _ in 1..MOST_READS {
        match read_once(rt, name) {
            Err(StoreFault::Lost(_) | StoreFault::Head) => {}
            read => return read,
        }
    }
    read_once(rt, name)
}

/// What the head tells that stands where a book would stand under this name, and is not there: none
/// where no head is left either. `Store` where a log with rows is left, of which nothing but the
/// missing file could make a book.
pub fn left_head(rt: &HostRuntime, file: &str) -> Result<Option<Head>, StoreFault>
    ensures { IfErr result IsKeepingFault }
{
    if length_with_rows(&log_beside(rt, file)?) > 0 {
        return Err(StoreFault::Store);
    }
    let name = beside(rt.alloc(), file)?;
    read_head(rt, name.as_str())
}

/// Books in files, each under the name of its file, read from copies of the file and its log in memory:
/// nothing is made or changed, whoever has the book open. Of a file that is not there, or that is no
/// database, `Store` is told; then come the faults of `BookStore::load`, and where the head beside the
/// book tells facts that it has not, `Lost`. What stands there and is no head is `Head`.
#[derive(Clone, Copy)]
pub struct FileSource<'a> {
    rt: &'a HostRuntime,
}

impl<'a> FileSource<'a> {
    /// The files that this process can open.
    pub fn new(rt: &'a HostRuntime) -> FileSource<'a> {
        FileSource { rt }
    }

    /// The book in a file, or `None` where the file is there and has no table of a book's, nor a head
    /// that tells facts: a book can be made in it.
    pub fn look(&self, name: &str) -> Result<Option<BookCopy>, StoreFault>
        ensures { IfErr result IsLoadRefusal }
    {
        read_whole(self.rt, name)
    }
}

impl BookSource for FileSource<'_> {
    // What a file holds no clause can say.
    ghost gives = { λ _ name read. IfErr read IsLoadRefusal };

    fn read(&self, name: &str) -> Result<BookCopy, StoreFault> {
        self.look(name)?.ok_or(StoreFault::Version)
    }
}
