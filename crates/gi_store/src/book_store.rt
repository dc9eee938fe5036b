//! A book of facts, a row for each batch of them.

ghost use Rattle.std.specs.Prelude.{◌≡◌, ◌≢◌, ◌⊎◌, ◌+◌, ◌-◌, ◌++◌, ◌∷◌, [], length, false, None, Some, Err, IfOk, IfErr, IsErrAnd, MatchResult, OnOk, OnErr, IsTrue};
ghost use Rattle.std.specs.List.{AllByRecursion};
ghost use Rattle.gi_store.specs.Clean.{IsClean};
ghost use Rattle.sqlite.specs.Held.{state};
ghost use Rattle.gi_facts.specs.Grammar.{IsWritable};
ghost use Rattle.gi_pairs.specs.Code.{IsCode};
ghost use Rattle.gi_store.specs.Facts.{AreFacts};
ghost use Rattle.gi_store.specs.Rows.{IsOwned, facts_in};
ghost use Rattle.gi_store.specs.Failing.{Endures, IsCausedAtAll};
ghost use Rattle.gi_store.specs.FaultText.{IsFailure, IsLoadRefusal, IsPreparingRefusal};
ghost use Rattle.gi_store.specs.Opening.{IsOpenFault};
ghost use Rattle.gi_store.specs.Book.{AnswersBatch, AnswersSave, AreSaved, IsLoadCaused, IsLoadFault, IsRead, IsSaved, KeepsOrSaves, KeepsOrSavesAll, SavesAllOrLeaves, SavesAllOrNone, SavesOrLeaves, SavesOrNot, counted};
ghost use Rattle.gi_store.specs.Heads.{told_after, told_on};
ghost use Rattle.gi_store.specs.Keeping.{AddsNoOutcome, IsBookOf, IsReady, IsVersion, Keeps, KeepsOrMakes, LeavesOrMakes};
ghost use Rattle.gi_store.specs.Tables.{HasTables, IsFree, TakesOwner};
ghost use Rattle.gi_store.specs.declared.store_fault.StoreFault.TheVariants.{OtherBook, Store, Version};

use crate::head_file::{HeadFile, kept_on};
use crate::loading::read_book;
use crate::owner::Owner;
use crate::preparing::prepare;
use crate::saving::known_before;
use crate::store_fault::StoreFault;
use crate::telling::add_and_tell;
use gi_facts::Fact;
use sqlite::{Alter, Connection};
use std::alloc::Global;
use std::marker::Model;
use std::slice;

/// A book of facts in a database, in memory or in a file. It is loaded before it is written.
pub struct BookStore<S: Alter> {
    connection: Connection<S>,
    loaded: Option<u32>,
    head: Option<HeadFile>,
    alloc: Global,
}

impl<S: Alter + Drop> Drop for BookStore<S> {
    fn drop(self) {
        let BookStore {
            connection: _,
            loaded: _,
            head: _,
            alloc: _,
        } = self;
    }
}

impl<S: Alter> Model for BookStore<S> {
    ghost use Rattle.gi_store.specs.Clean.{IsClean};
    ghost use Rattle.sqlite.specs.Held.{state};
    ghost use Rattle.gi_store.specs.Book.{BookState, IsCounted, BookInvariant, IsToldOf, book_code};

    ghost Value = { BookState S };

    ghost coded = { book_code S.code };

    ghost view = { λ b. record { connection = b.connection; loaded = b.loaded; head = b.head } };

    ghost invariant = { λ b. IsCounted b.loaded × (IsClean S.Store b.connection → BookInvariant (state S.Store b.connection) b.loaded) × IsToldOf b.loaded b.head };
}

fn counted(facts: usize) -> Option<u32>
    ensures { result ≡ counted facts }
{
    if facts < u32::MAX as usize {
        Some(facts as u32)
    } else {
        None
    }
}

impl<S: Alter + Drop> BookStore<S> {
    /// Opens the owner's book that the database has, makes one where its tables are missing, writes the
    /// owner of an older one, or makes one of version 1 one of version 2: see `prepare`. It is not loaded. A refusal gives the connection
    /// back, and leaves what can be read as it was.
    pub fn open(
        alloc: Global,
        mut connection: Connection<S>,
        owner: Owner,
    ) -> Result<BookStore<S>, (Connection<S>, StoreFault)>
        ensures ready { IfOk result (λ book. IsClean S.Store book.connection → IsReady owner (state S.Store book.connection)) }
        ensures kept { IfOk result (λ book. IsClean S.Store book.connection → KeepsOrMakes owner (state S.Store connection) (state S.Store book.connection)) }
        ensures crash { IfOk result (λ book. IsClean S.Store book.connection → LeavesOrMakes owner (state S.Store connection) (state S.Store book.connection)) }
        ensures not_loaded { IfOk result (λ book. book.loaded ≡ None) }
        ensures no_head { IfOk result (λ book. book.head ≡ None) }
        ensures named { IfErr result (λ back. IsPreparingRefusal back.1) }

        // Where a transaction is under way nothing is looked at; else other tables of the first two
        // names are `Version`, whatever the disk does.
        ensures busy { IsTrue (state S.Store connection).in_transaction → IsErrAnd result (λ back. back.1 ≡ Store) }
        ensures other { (state S.Store connection).in_transaction ≡ false → ¬ (IsFree (state S.Store connection).now.schema) → ¬ (HasTables (state S.Store connection).now.schema) → IsErrAnd result (λ back. back.1 ≡ Version) }

        // `Version` means that no book was there or could be made, `OtherBook` that the book there is
        // that owner's, and that it is another.
        ensures refused { IfErr result (λ back. IsClean S.Store back.0 → IsOpenFault owner (state S.Store connection) back.1) }

        // Another owner's book is told so, or else that it cannot be read.
        ensures owned { (state S.Store connection).in_transaction ≡ false → (theirs : _) → IsCode theirs.point → IsBookOf theirs (state S.Store connection).now → theirs ≢ owner
            → MatchResult result (λ book. ¬ (IsClean S.Store book.connection)) (λ back. IsClean S.Store back.0 → (back.1 ≡ OtherBook theirs) ⊎ IsFailure back.1) }

        // Where nothing can be made, and there is no book of version 1 that is the owner's, so that none is raised, `Store` is told where the disk failed, the connection was shut,
        // queries have a limit on their steps, or another table has the tree of one of the book's.
        ensures failed { (state S.Store connection).in_transaction ≡ false → ¬ (IsFree (state S.Store connection).now.schema) → ¬ (TakesOwner (state S.Store connection).now.schema) → ¬ (IsVersion 1 (state S.Store connection).now × IsOwned owner (state S.Store connection).now)
            → IfErr result (λ back. IsClean S.Store back.0 → IsCausedAtAll (state S.Store connection) (state S.Store back.0) back.1) }

        // A refusal leaves what can be read as it was, and no crash then leaves anything but that, what
        // was there with a new book, an older book with its owner, or one of version 1 as one of version 2.
        ensures unmade { IfErr result (λ back. IsClean S.Store back.0 → Keeps (state S.Store connection) (state S.Store back.0)) }
        ensures unmade_crash { IfErr result (λ back. IsClean S.Store back.0 → LeavesOrMakes owner (state S.Store connection) (state S.Store back.0)) }

        // The connection comes back with a transaction under way exactly where one was before, whatever
        // the disk does.
        ensures mode { IfErr result (λ back. (state S.Store back.0).in_transaction ≡ (state S.Store connection).in_transaction) }
    {
        match prepare(alloc, &mut connection, owner) {
            Ok(()) => Ok(BookStore {
                connection,
                loaded: None,
                head: None,
                alloc,
            }),
            Err(fault) => Err((connection, fault)),
        }
    }
}

impl<S: Alter> BookStore<S> {
    /// How many facts there are, known since the last `load`. `None` where the book is not loaded.
    pub fn count(&self) -> Option<u32>
        ensures { result ≡ self.now.loaded }
    {
        self.loaded
    }

    /// The facts of the book, from the first on. `Version` where it is no book of version 1 or 2. Then
    /// the first by number of `Gap(n)`, where n comes next and the row has a higher number, and
    /// `Damaged(n)`, where row n is below the number that comes next, or is neither a fact nor an
    /// array of 2 to 64 facts. `Store` and `OutOfMemory` where the database fails or memory runs
    /// out. No row is changed, and after a refusal the book is not loaded.
    pub fn load(&mut self) -> Result<Vec<Fact>, StoreFault>
        ensures early { IsClean S.Store self.new.connection → IsClean S.Store self.old.connection }

        // On `Ok` the rows cover the numbers from 1 on with these facts, and there are no others.
        ensures facts { IsClean S.Store self.new.connection → IfOk result (λ facts. IsRead (state S.Store self.new.connection) facts.items) }

        // `Version`, `Gap` and `Damaged` have their cause, and are the first by number.
        ensures refused { IsClean S.Store self.new.connection → IfErr result (IsLoadFault (state S.Store self.old.connection)) }
        ensures named { IfErr result IsLoadRefusal }

        // A database without a book's tables is told whatever the disk does.
        ensures other { ¬ (HasTables (state S.Store self.old.connection).now.schema) → result ≡ Err Version }

        // `Store` is told where the disk failed, the connection was shut, queries have a limit on their
        // steps, another table has the tree of one of the book's, or a row has no whole number or no
        // body. The disk alone shuts a connection.
        ensures failed { IsClean S.Store self.new.connection → IfErr result (IsLoadCaused (state S.Store self.old.connection) (state S.Store self.new.connection)) }
        ensures endures { IsClean S.Store self.new.connection → Endures (state S.Store self.old.connection) (state S.Store self.new.connection) }

        // No row is changed, and a crash leaves nothing that it could not leave before.
        ensures kept { IsClean S.Store self.new.connection → Keeps (state S.Store self.old.connection) (state S.Store self.new.connection) }
        ensures crash { IsClean S.Store self.new.connection → AddsNoOutcome (state S.Store self.old.connection) (state S.Store self.new.connection) }
        ensures loaded { IfOk result (λ facts. self.new.loaded ≡ counted (length facts.items)) }
        ensures not_loaded { OnErr result (self.new.loaded ≡ None) }

        // A head that was kept is kept on where it tells as many facts as are read.
        ensures head { self.new.head ≡ told_on self.old.head self.new.loaded }
    {
        self.loaded = None;
        let kept = self.head.take();
        let facts = read_book(self.alloc, &mut self.connection)?;
        self.loaded = counted(facts.len());
        self.head = kept_on(kept, self.loaded);
        Ok(facts)
    }

    /// Saves a fact as the row with this number, which has to be the one that comes next, by one
    /// INSERT. In this order `NotLoaded`, where the book is not loaded, `NotNext`, where another
    /// number comes next, and `Store` and `OutOfMemory`, where the database fails or memory runs
    /// out: then the row may be there or not, and the book is not loaded.
    #[tactic(auto, using(crate::proofs::Kept::one_keeps))]
    pub fn save_next(&mut self, n: u32, fact: &Fact) -> Result<(), StoreFault>
        requires { IsWritable fact.now }
        ensures early { IsClean S.Store self.new.connection → IsClean S.Store self.old.connection }

        // Which refusal it is.
        ensures answer { AnswersSave n self.old.loaded result }
        ensures unchanged { IfErr result (λ fault. IsFailure fault ⊎ (self.new ≡ self.old)) }

        // A crash at any moment leaves what it could leave before, or the rows with this one.
        ensures crash { IsClean S.Store self.new.connection → SavesOrLeaves n fact.now (state S.Store self.old.connection) (state S.Store self.new.connection) }

        // Where the book is loaded, that is the rows as they were, or those with this one.
        ensures before { IsClean S.Store self.new.connection → SavesOrNot n fact.now self.old.loaded (state S.Store self.old.connection) (state S.Store self.new.connection) }

        // On `Ok` the row is there, and each crash leaves it.
        ensures saved { IsClean S.Store self.new.connection → OnOk result (IsSaved n fact.now (state S.Store self.old.connection) (state S.Store self.new.connection)) }

        // The facts of the book go on by this one.
        ensures facts { IsClean S.Store self.new.connection → OnOk result ((facts : _) → AreFacts (facts_in (state S.Store self.old.connection).now) facts → AreFacts (facts_in (state S.Store self.new.connection).now) (facts ++ fact.now ∷ [])) }

        // After a refusal the rows that can be read are as before, or a kept head could not be written,
        // and the row is there.
        ensures kept { IsClean S.Store self.new.connection → OnErr result (KeepsOrSaves self.old.head n fact.now (state S.Store self.old.connection) (state S.Store self.new.connection)) }
        ensures loaded { OnOk result (self.new.loaded ≡ counted n) }
        ensures not_loaded { IfErr result (λ fault. IsFailure fault → self.new.loaded ≡ None) }

        // A head that is kept goes on by this fact, and is written. A failure keeps none.
        ensures head { OnOk result (self.new.head ≡ told_after self.old.head (fact.now ∷ [])) }
        ensures no_head { IfErr result (λ fault. IsFailure fault → self.new.head ≡ None) }
    {
        self.save_batch(n, slice::from_ref(fact))
    }

    /// Saves from 1 to 64 facts by one INSERT: as the row with this number, which has to be the one
    /// that comes next, and which covers it and those after it. In this order `BatchSize`, where
    /// there are no facts or more than 64, `NotLoaded`, where the book is not loaded, `NotNext`, where
    /// another number comes next, and `Store` and `OutOfMemory`, where the database fails or memory
    /// runs out: then the row may be there or not, and the book is not loaded.
    pub fn save_batch(&mut self, n: u32, facts: &[Fact]) -> Result<(), StoreFault>
        requires { AllByRecursion IsWritable facts.now }
        ensures early { IsClean S.Store self.new.connection → IsClean S.Store self.old.connection }

        // Which refusal it is.
        ensures answer { AnswersBatch n facts.now self.old.loaded result }
        ensures unchanged { IfErr result (λ fault. IsFailure fault ⊎ (self.new ≡ self.old)) }

        // A crash at any moment leaves what it could leave before, or the rows with this one.
        ensures crash { IsClean S.Store self.new.connection → SavesAllOrLeaves n facts.now (state S.Store self.old.connection) (state S.Store self.new.connection) }

        // Where the book is loaded, that is the rows as they were, or those with this one.
        ensures before { IsClean S.Store self.new.connection → SavesAllOrNone n facts.now self.old.loaded (state S.Store self.old.connection) (state S.Store self.new.connection) }

        // On `Ok` the row is there, and each crash leaves it.
        ensures saved { IsClean S.Store self.new.connection → OnOk result (AreSaved n facts.now (state S.Store self.old.connection) (state S.Store self.new.connection)) }

        // The facts of the book go on by these, in their order.
        ensures facts { IsClean S.Store self.new.connection → OnOk result ((had : _) → AreFacts (facts_in (state S.Store self.old.connection).now) had → AreFacts (facts_in (state S.Store self.new.connection).now) (had ++ facts.now)) }

        // After a refusal the rows that can be read are as before, or a kept head could not be written,
        // and the row is there.
        ensures kept { IsClean S.Store self.new.connection → OnErr result (KeepsOrSavesAll self.old.head n facts.now (state S.Store self.old.connection) (state S.Store self.new.connection)) }
        ensures loaded { OnOk result (self.new.loaded ≡ counted (n + length facts.now - 1)) }
        ensures not_loaded { IfErr result (λ fault. IsFailure fault → self.new.loaded ≡ None) }

        // A head that is kept goes on by these facts, and is written. A failure keeps none.
        ensures head { OnOk result (self.new.head ≡ told_after self.old.head facts.now) }
        ensures no_head { IfErr result (λ fault. IsFailure fault → self.new.head ≡ None) }
    {
        let known = known_before(self.loaded, n, facts)?;
        self.loaded = None;
        add_and_tell(self.alloc, &mut self.connection, &mut self.head, n, facts)?;
        self.loaded = counted(known as usize + facts.len());
        Ok(())
    }

    /// Keeps no head with the book from now on.
    pub fn keep_none(&mut self)
        ensures { self.new ≡ record self.old { head = None } }
    {
        self.head = None;
    }

    /// Keeps this head with the book from now on: each save goes on with it, and writes it.
    pub fn keep_head(&mut self, head: HeadFile)
        requires { self.old.loaded ≡ Some head.facts }
        ensures { self.new ≡ record self.old { head = Some head } }
    {
        self.head = Some(head);
    }
}
