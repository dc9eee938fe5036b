//! Where the books of two running offices stand.

ghost use Rattle.std.specs.Prelude.{◌≡◌, IfErr, IfOk, None, false, string_bytes, true};
ghost use Rattle.sqlite.specs.Files.{file_state};
ghost use Rattle.sqlite.specs.State.{HasCleanDisk};
ghost use Rattle.gi_audit.specs.Agreeing.{Agree};
ghost use Rattle.gi_store.specs.FaultText.{IsOpenRefusal};
ghost use Rattle.gi_store.specs.Keeping.{IsReady};
ghost use Rattle.gi_service.specs.Serving.{IsFilesFault};
ghost use Rattle.gi_service.specs.Standing.{book_name};

use crate::standing::{Found, facts_in, found, left, may_open, stands};
use crate::stations::one_past;
use gi_command_line::WaitSeconds;
use gi_commands::Fault;
use gi_desk::{Desk, Fact};
use gi_initiator::Initiating;
use gi_matcher::Matching;
use gi_pairs::{Code, Side};
use gi_store::{
    BookStore, FileSource, Owner, StoreFault, book_of_file, close_book, head_of_file, left_head,
    memory_is_clean,
};
use sqlite::{Alter, Connection, File, FileStore, MemStore};
use std::alloc::{AllocError, Global};
use std::io::{IsTerminal, Write};
use std::time::Duration;
use std::{fs, thread};

/// Where books stand.
pub(crate) trait Place {
    ghost use Rattle.std.specs.Prelude.{◌≡◌, List, IfErr, IfOk, OnOk, length};
    ghost use Rattle.gi_facts.specs.declared.fact.Fact.{Fact};
    ghost use Rattle.gi_pairs.specs.declared.side.Side.{Side};
    ghost use Rattle.gi_store.specs.Book.{BookState, counted};
    ghost use Rattle.gi_store.specs.declared.store_fault.StoreFault.{StoreFault};

    type Store: Alter + Drop + Send;

    /// What the book of a side may be as it is opened.
    ghost opens: { Self → Side → BookState Self.Store → Type 0 };

    /// What stands beside a book with these facts once it is kept.
    ghost keeps: { Self → Side → List Fact → BookState Self.Store → Type 0 };

    /// Why the book of a side may not be opened, or kept.
    ghost refuses: { Self → Side → StoreFault → Type 0 };

    /// Opens the book of a side, and makes it where it is not there. It is not loaded.
    fn book(&self, side: Side) -> Result<BookStore<Self::Store>, StoreFault>
        ensures opened { IfOk result (λ book. opens self.now side book) }
        ensures refused { IfErr result (λ fault. refuses self.now side fault) };

    /// Begins to keep what tells lost facts beside the book of a side, which is loaded and has these facts.
    fn keep(
        &self,
        side: Side,
        book: &mut BookStore<Self::Store>,
        facts: &[Fact],
    ) -> Result<(), StoreFault>
        requires loaded { book.old.loaded ≡ counted (length facts.now) }
        ensures connection { OnOk result (book.new.connection ≡ book.old.connection) }
        ensures loaded { OnOk result (book.new.loaded ≡ book.old.loaded) }
        ensures kept { OnOk result (keeps self.now side facts.now book.new) }
        ensures refused { IfErr result (λ fault. refuses self.now side fault) };
}

/// Books in memory, which are empty.
#[derive(Drop)]
pub(crate) struct InMemory {
    pub(crate) alloc: Global,
    pub(crate) point: Code,
}

impl Place for InMemory {
    ghost use Rattle.std.specs.Prelude.{◌≡◌, [], None, length};
    ghost use Rattle.sqlite.specs.Held.{state};
    ghost use Rattle.sqlite.specs.Steps.{over_memory};
    ghost use Rattle.gi_store.specs.Book.{counted};
    ghost use Rattle.gi_store.specs.FaultText.{IsPreparingRefusal};
    ghost use Rattle.gi_store.specs.Keeping.{IsReady};
    ghost use Rattle.gi_store.specs.Rows.{facts_in};

    type Store = MemStore;

    ghost opens = { λ place side book. (book.loaded ≡ None) × IsReady (record { side = side; point = place.point }) (state over_memory book.connection) × (facts_in (state over_memory book.connection).now ≡ []) };

    ghost keeps = { λ _ _ facts book. book.loaded ≡ counted (length facts) };

    ghost refuses = { λ _ side fault. IsPreparingRefusal fault };

    fn book(&self, side: Side) -> Result<BookStore<MemStore>, StoreFault> {
        let connection = Connection::open_in_memory(self.alloc)?;
        let point = self.point;
        memory_is_clean();
        match BookStore::open(self.alloc, connection, Owner { side, point }) {
            Ok(book) => Ok(book),
            Err((connection, fault)) => {
                drop(connection);
                Err(fault)
            }
        }
    }

    fn keep(
        &self,
        _side: Side,
        _book: &mut BookStore<MemStore>,
        _facts: &[Fact],
    ) -> Result<(), StoreFault> {
        Ok(())
    }
}

/// Books in the files `PREFIX-I.db` and `PREFIX-M.db`, of one point.
#[derive(Drop)]
pub(crate) struct InFiles<'a> {
    rt: &'a HostRuntime,
    initiating: String,
    matching: String,
    point: Code,
    /// How long to try where a book is in use.
    wait: WaitSeconds,
}

/// What both books make: a desk of each side, which have one past.
pub(crate) type Past = (Desk<Initiating>, Desk<Matching>);

/// How often a book in use is tried in a second.
const TRIES: u32 = 10;

fn name_of(rt: &HostRuntime, prefix: &str, side: Side) -> Result<String, AllocError>
    ensures { IfOk result (λ name. string_bytes name ≡ book_name side prefix.now) }
{
    match side {
        Side::I => format!(in rt.alloc(); "{prefix}-I.db"),
        Side::M => format!(in rt.alloc(); "{prefix}-M.db"),
    }
}

/// What is found under the name of a book: by a copy where a file is there, else by the head that is left.
pub(crate) fn looked_at(rt: &HostRuntime, name: &str, owner: Owner) -> Found {
    if fs::exists(rt, name).unwrap_or(true) {
        found(FileSource::new(rt).look(name), owner)
    } else {
        left(left_head(rt, name))
    }
}

/// The desks that both books make, and whether they are to be made, by what is found under their names, before anything
/// is opened.
fn may_open_both(
    rt: &HostRuntime,
    initiating: &str,
    matching: &str,
    point: Code,
    only_old: bool,
) -> Result<(Past, bool), Fault>
    ensures old { IfOk result (λ found. only_old ≡ true → found.1 ≡ false) }
    ensures agreed { IfOk result (λ found. Agree found.0.0 found.0.1) }
    ensures fault { IfErr result (IsFilesFault point) }
{
    let alloc = rt.alloc();
    let side = Side::I;
    let ours = looked_at(rt, initiating, Owner { side, point });
    let side = Side::M;
    let theirs = looked_at(rt, matching, Owner { side, point });
    let is_new = match may_open(only_old, stands(&ours), stands(&theirs)) {
        Ok(is_new) => is_new,
        Err(fault) => {
            drop((ours, theirs));
            return Err(fault);
        }
    };
    match one_past(alloc, point, facts_in(alloc, ours), facts_in(alloc, theirs)) {
        Ok(past) => Ok((past, is_new)),
        Err(fault) => Err(fault),
    }
}

/// Tells on a terminal that both books are made.
fn tell_new(rt: &HostRuntime, prefix: &str) {
    let mut errors = rt.stderr();
    if errors.is_terminal() {
        let _ = write!(errors, "new books: {prefix}-I.db and {prefix}-M.db\n");
    }
}

/// The desks that the books of a prefix make, as they are found in copies: of books that are to be made, desks with no
/// facts, and then that is told. The first fault is that of [`InFiles::at`].
pub(crate) fn past_of(
    rt: &HostRuntime,
    prefix: &str,
    point: Code,
    only_old: bool,
) -> Result<Past, Fault>
    ensures agreed { IfOk result (λ past. Agree past.0 past.1) }
    ensures fault { IfErr result (IsFilesFault point) }
{
    let initiating = name_of(rt, prefix, Side::I)?;
    let matching = name_of(rt, prefix, Side::M)?;
    match may_open_both(rt, &initiating, &matching, point, only_old) {
        Ok((past, is_new)) => {
            if is_new {
                tell_new(rt, prefix);
            }
            Ok(past)
        }
        Err(fault) => Err(fault),
    }
}

impl<'a> InFiles<'a> {
    /// The books of a prefix, none of which is opened yet; where one is in use it will be tried for so long.
    /// The first of `MissingBook`, where one of the two is not there and the other one may have facts, or where
    /// one is not there and only old ones are taken; of what is told of a copy of I's, and then of M's; and of what
    /// keeps the facts of the copies from making desks of one past.
    pub(crate) fn at(
        rt: &'a HostRuntime,
        prefix: &str,
        point: Code,
        wait: WaitSeconds,
        only_old: bool,
    ) -> Result<InFiles<'a>, Fault>
        ensures { IfErr result (IsFilesFault point) }
    {
        drop(past_of(rt, prefix, point, only_old)?);
        Ok(InFiles {
            rt,
            initiating: name_of(rt, prefix, Side::I)?,
            matching: name_of(rt, prefix, Side::M)?,
            point,
            wait,
        })
    }

    fn name(&self, side: Side) -> &str {
        match side {
            Side::I => self.initiating.as_str(),
            Side::M => self.matching.as_str(),
        }
    }

    /// Closes both books, which are not open any more: the first fault.
    pub(crate) fn close(&self) -> Result<(), StoreFault> {
        let first = close_book(self.rt, self.initiating.as_str());
        let second = close_book(self.rt, self.matching.as_str());
        first.and(second)
    }
}

/// Opens a book; where it is in use it is tried for so long.
fn book_in_time(
    rt: &HostRuntime,
    name: &str,
    side: Side,
    point: Code,
    wait: WaitSeconds,
) -> Result<BookStore<FileStore<File>>, StoreFault>
    ensures opened { IfOk result (λ book. (book.loaded ≡ None) × (HasCleanDisk (file_state book.connection) → IsReady (record { side = side; point = point }) (file_state book.connection))) }
    ensures named { IfErr result IsOpenRefusal }
{
    let tries = wait.seconds() * TRIES;
    for tried in 0..=tries {
        match book_of_file(rt, name, Owner { side, point }) {
            Err(StoreFault::Busy) if tried < tries => {
                thread::sleep(rt, Duration::from_millis(100));
            }
            Ok(book) => return Ok(book),
            Err(fault) => return Err(fault),
        }
    }
    Err(StoreFault::Busy)
}

impl Place for InFiles<'_> {
    ghost use Rattle.std.specs.Prelude.{◌≡◌, ◌⊎◌, None};
    ghost use Rattle.sqlite.specs.Files.{file_state};
    ghost use Rattle.sqlite.specs.State.{HasCleanDisk};
    ghost use Rattle.gi_store.specs.FaultText.{IsKeepingFault, IsOpenRefusal};
    ghost use Rattle.gi_store.specs.Heads.{head_kept};
    ghost use Rattle.gi_store.specs.Keeping.{IsReady};

    type Store = FileStore<File>;

    // Under which name it stands no clause can say, nor what a file held before.
    ghost opens = { λ place side book. (book.loaded ≡ None) × (HasCleanDisk (file_state book.connection) → IsReady (record { side = side; point = place.point }) (file_state book.connection)) };

    ghost keeps = { λ _ _ facts book. book.head ≡ head_kept book.loaded facts };

    ghost refuses = { λ _ side fault. IsOpenRefusal fault ⊎ IsKeepingFault fault };

    fn book(&self, side: Side) -> Result<BookStore<FileStore<File>>, StoreFault> {
        let point = self.point;
        book_in_time(self.rt, self.name(side), side, point, self.wait)
    }

    fn keep(
        &self,
        side: Side,
        book: &mut BookStore<FileStore<File>>,
        facts: &[Fact],
    ) -> Result<(), StoreFault> {
        head_of_file(self.rt, book, self.name(side), facts)
    }
}

/// The book of one side in a file by itself.
#[derive(Drop)]
pub(crate) struct InFile<'a> {
    pub(crate) rt: &'a HostRuntime,
    pub(crate) file: &'a str,
    pub(crate) point: Code,
    /// How long to try where the book is in use.
    pub(crate) wait: WaitSeconds,
}

impl Place for InFile<'_> {
    ghost use Rattle.std.specs.Prelude.{◌≡◌, ◌⊎◌, None};
    ghost use Rattle.sqlite.specs.Files.{file_state};
    ghost use Rattle.sqlite.specs.State.{HasCleanDisk};
    ghost use Rattle.gi_store.specs.FaultText.{IsKeepingFault, IsOpenRefusal};
    ghost use Rattle.gi_store.specs.Heads.{head_kept};
    ghost use Rattle.gi_store.specs.Keeping.{IsReady};

    type Store = FileStore<File>;

    ghost opens = { λ place side book. (book.loaded ≡ None) × (HasCleanDisk (file_state book.connection) → IsReady (record { side = side; point = place.point }) (file_state book.connection)) };

    ghost keeps = { λ _ _ facts book. book.head ≡ head_kept book.loaded facts };

    ghost refuses = { λ _ side fault. IsOpenRefusal fault ⊎ IsKeepingFault fault };

    fn book(&self, side: Side) -> Result<BookStore<FileStore<File>>, StoreFault> {
        let point = self.point;
        book_in_time(self.rt, self.file, side, point, self.wait)
    }

    fn keep(
        &self,
        _side: Side,
        book: &mut BookStore<FileStore<File>>,
        facts: &[Fact],
    ) -> Result<(), StoreFault> {
        head_of_file(self.rt, book, self.file, facts)
    }
}
