//! The book of a desk: an operator's facts in a database, a row for each batch of 1 to 64.
//!
//! A [`BookStore`] is handed a connection, to memory or to a file, and the [`Owner`] of the book, and
//! makes the book's three tables where they are missing ([`prepare`]). Another owner's book it
//! refuses; an older one, which says no owner, is given this, and one of version 1 becomes one of
//! version 2. It is loaded before it is written,
//! and facts are saved as the row that comes next, which covers its number and those after it, one
//! for each fact:
//!
//! ```text
//! let mut book = BookStore::open(alloc, connection, owner).map_err(|back| back.1)?; // `back.0` is the connection
//! let facts = book.load()?;                  // all of them, or the first gap or damaged row
//! book.save_next(n, &fact)?;                 // row n, for good once this is `Ok`
//! book.save_batch(n + 1, &facts)?;           // up to 64 facts in one row, by one insert
//! ```
//!
//! The book in a file is opened by the file's name ([`book_of_file`]). Who only reads books takes them
//! from a [`BookSource`], by name, and of files that is [`FileSource`]; nothing is said of what a file
//! holds.
//!
//! A crash at any moment of a save leaves the rows as before or with that one. After a refused save
//! the row may be there or not, so the book has to be loaded again. What is said of a database
//! stands under one premise: nobody else wrote the file, and the disk returned what was written
//! (`IsClean`); in memory it always holds ([`memory_is_clean`]).
#![tactic(auto)]

mod batches;
mod book_store;
mod chain;
mod checking;
mod closing;
mod copies;
mod digest;
mod file_bytes;
mod file_source;
mod files;
mod head;
mod head_file;
mod laws;
mod loading;
mod log_rows;
mod making;
mod owner;
mod owning;
mod preparing;
mod reading;
mod saving;
mod source;
mod statements;
mod store_fault;
mod tables;
mod telling;
mod version;

pub use batches::{MOST_BYTES, fitting};
pub use book_store::BookStore;
pub use chain::{digest_goes_on, digest_of};
pub use closing::close_book;
pub use digest::Digest;
pub use file_source::{FileSource, left_head};
pub use files::{book_of_file, head_of_file};
pub use head::Head;
pub use head_file::HeadFile;
pub use laws::{memory_is_clean, memory_never_fails};
pub use owner::Owner;
pub use preparing::prepare;
pub use source::{BookCopy, BookSource};
pub use store_fault::StoreFault;
