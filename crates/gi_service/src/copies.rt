//! Copies in memory of both books, over which a dry run is made.

ghost use Rattle.std.specs.Prelude.{◌≡◌, ◌⊎◌, [], IfErr, IfOk, OnOk, Some};
ghost use Rattle.sqlite.specs.Held.{state};
ghost use Rattle.sqlite.specs.Steps.{over_memory};
ghost use Rattle.gi_audit.specs.Agreeing.{Agree};
ghost use Rattle.gi_store.specs.Clean.{IsClean};
ghost use Rattle.gi_store.specs.FaultText.{IsFailure, IsLoadRefusal, IsPreparingRefusal};
ghost use Rattle.gi_service.specs.Copies.{IsCopy};
ghost use Rattle.gi_service.specs.Serving.{IsFilesFault};

use crate::places::{InMemory, Place, past_of};
use gi_commands::Fault;
use gi_desk::{Desk, Fact, Role};
use gi_initiator::Initiating;
use gi_matcher::Matching;
use gi_pairs::{Code, Side};
use gi_store::{BookStore, StoreFault, memory_is_clean};
use sqlite::{Alter, MemStore};
use std::alloc::Global;

/// Saves the facts of a desk in a book that has none, a row for each.
fn save_all<R: Role, S: Alter>(desk: &Desk<R>, book: &mut BookStore<S>) -> Result<(), StoreFault>
    requires { book.old.loaded ≡ Some 0 }
    ensures early { IsClean S.Store book.new.connection → IsClean S.Store book.old.connection }
    ensures copied { IsClean S.Store book.new.connection → IsCopy [] (state S.Store book.old.connection) → OnOk result (IsCopy desk.now.facts (state S.Store book.new.connection)) }
    ensures failed { IfErr result IsFailure }
{
    for before in 0..desk.len() {
        let fact = desk.fact(before + 1).unwrap();
        book.save_next(before + 1, fact)?;
    }
    Ok(())
}

/// A new book in memory, which is loaded and has no facts.
fn new_book(alloc: Global, side: Side, point: Code) -> Result<BookStore<MemStore>, StoreFault>
    ensures loaded { IfOk result (λ book. book.loaded ≡ Some 0) }
    ensures none { IfOk result (λ book. IsCopy [] (state over_memory book.connection)) }
    ensures refused { IfErr result (λ fault. IsPreparingRefusal fault ⊎ IsLoadRefusal fault) }
{
    let place = InMemory { alloc, point };
    let mut book = place.book(side)?;
    memory_is_clean();
    match book.load() {
        Ok(none) => {
            drop(none);
            Ok(book)
        }
        Err(fault) => {
            drop(book);
            Err(fault)
        }
    }
}

/// A book in memory with the facts of a desk.
fn copy_of<R: Role>(alloc: Global, desk: &Desk<R>) -> Result<BookStore<MemStore>, StoreFault>
    ensures copied { IfOk result (λ book. IsCopy desk.now.facts (state over_memory book.connection)) }
    ensures refused { IfErr result (λ fault. IsPreparingRefusal fault ⊎ IsLoadRefusal fault) }
{
    let mut book = new_book(alloc, R::SIDE, desk.point())?;
    memory_is_clean();
    match save_all(desk, &mut book) {
        Ok(()) => Ok(book),
        Err(fault) => {
            drop(book);
            Err(fault)
        }
    }
}

/// Copies in memory of the books in the files of a prefix: the facts that were read there, of both sides' desks.
#[derive(Drop)]
pub(crate) struct InCopies {
    alloc: Global,
    initiating: Desk<Initiating>,
    matching: Desk<Matching>,
}

impl InCopies {
    /// Copies of the books of a prefix, where they have one past, and else the fault that [`InFiles::at`] tells. The
    /// files are read, and neither they nor those beside them are made or changed: a book that is not there, where it
    /// would be made, is copied as one with no facts.
    ///
    /// [`InFiles::at`]: crate::places::InFiles::at
    pub(crate) fn of(
        rt: &HostRuntime,
        prefix: &str,
        point: Code,
        only_old: bool,
    ) -> Result<InCopies, Fault>
        ensures agreed { IfOk result (λ copies. Agree copies.initiating copies.matching) }
        ensures fault { IfErr result (IsFilesFault point) }
    {
        let (initiating, matching) = past_of(rt, prefix, point, only_old)?;
        Ok(InCopies {
            alloc: rt.alloc(),
            initiating,
            matching,
        })
    }
}

impl Place for InCopies {
    ghost use Rattle.std.specs.Prelude.{◌≡◌, ◌⊎◌, length};
    ghost use Rattle.sqlite.specs.Held.{state};
    ghost use Rattle.sqlite.specs.Steps.{over_memory};
    ghost use Rattle.gi_store.specs.Book.{counted};
    ghost use Rattle.gi_store.specs.FaultText.{IsLoadRefusal, IsPreparingRefusal};
    ghost use Rattle.gi_service.specs.Copies.{IsCopy, facts_of};

    type Store = MemStore;

    ghost opens = { λ place side book. IsCopy (facts_of side place.initiating.facts place.matching.facts) (state over_memory book.connection) };

    ghost keeps = { λ _ _ facts book. book.loaded ≡ counted (length facts) };

    ghost refuses = { λ _ side fault. IsPreparingRefusal fault ⊎ IsLoadRefusal fault };

    fn book(&self, side: Side) -> Result<BookStore<MemStore>, StoreFault> {
        match side {
            Side::I => copy_of(self.alloc, &self.initiating),
            Side::M => copy_of(self.alloc, &self.matching),
        }
    }

    fn keep(
        &self,
        _side: Side,
        _book: &mut BookStore<MemStore>,
        _facts: &[Fact],
    ) -> Result<(), StoreFault> {
        Ok(())
    }
}
