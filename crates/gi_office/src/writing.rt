//! What a turn does to the book, with no lock held: one call besides `count`.

ghost use Rattle.std.specs.Prelude.{◌≡◌, ◌⊎◌, ◌-◌, ◌≤◌, IfErr, IfOk, IfSome, None, OnOk, Some, false, length, take, true};
ghost use Rattle.sqlite.specs.Held.{state};
ghost use Rattle.gi_store.specs.Batches.{IsLongestFront};
ghost use Rattle.gi_store.specs.Book.{AnswersBatch, counted as counted_facts};
ghost use Rattle.gi_store.specs.Clean.{IsClean};
ghost use Rattle.gi_store.specs.Keeping.{AddsNoOutcome, Keeps};
ghost use Rattle.gi_office.specs.Saving.{AreNext, GoesOnBy, HasFrom, HasOthers, IsWriteFault, RefusesLoad, Stand, TellsNext, WritesAtMost, WritesNothing, is_ahead as is_ahead_of, next_after as next_after_facts};

use crate::comparing::are_same_facts;
use gi_desk::Fact;
use gi_facts::batch_round_trip;
use gi_store::{BookStore, StoreFault};
use sqlite::Alter;

fn is_ahead(count: Option<u32>, n: u32) -> bool
    ensures { result ≡ is_ahead_of n count }
{
    match count {
        Some(count) => n <= count,
        None => false,
    }
}

fn goes_on_by(all: &[Fact], n: u32, facts: &[Fact]) -> Option<usize>
    requires { 1 ≤ n }
    ensures count { IfSome result (GoesOnBy n facts.now all.now) }
    ensures others { result ≡ None → (count : _) → ¬ GoesOnBy n facts.now all.now count }
{
    let saved = n as usize - 1;
    if all.len() <= saved || facts.len() < all.len() - saved {
        return None;
    }
    let count = all.len() - saved;
    if are_same_facts(&all[saved..], &facts[..count]) {
        Some(count)
    } else {
        None
    }
}

fn next_after(read: usize) -> StoreFault
    ensures { result ≡ next_after_facts (counted_facts read) }
{
    if read < u32::MAX as usize {
        StoreFault::NotNext {
            expected: read as u32 + 1,
        }
    } else {
        StoreFault::NotLoaded
    }
}

/// Loads the book, since a count does not say which facts stand there.
fn find<S: Alter>(book: &mut BookStore<S>, n: u32, facts: &[Fact]) -> Result<usize, StoreFault>
    requires { 1 ≤ n }
    ensures early { IsClean S.Store book.new.connection → IsClean S.Store book.old.connection }
    ensures within { IfOk result (λ count. count ≤ length facts.now) }
    ensures some { IfOk result (λ count. 1 ≤ count) }
    ensures has { IsClean S.Store book.new.connection → IfOk result (λ count. HasFrom n (take count facts.now) (state S.Store book.new.connection)) }
    ensures refused { IsClean S.Store book.new.connection → IfErr result (λ fault. RefusesLoad (state S.Store book.old.connection) (state S.Store book.new.connection) fault ⊎ HasOthers n facts.now (state S.Store book.new.connection) fault) }
    ensures read { IfErr result (TellsNext book.new.loaded) }
    ensures kept { IsClean S.Store book.new.connection → Keeps (state S.Store book.old.connection) (state S.Store book.new.connection) }
    ensures crash { IsClean S.Store book.new.connection → AddsNoOutcome (state S.Store book.old.connection) (state S.Store book.new.connection) }
{
    let all = book.load()?;
    match goes_on_by(&all, n, facts) {
        Some(count) => Ok(count),
        None => Err(next_after(all.len())),
    }
}

fn save<S: Alter>(book: &mut BookStore<S>, n: u32, facts: &[Fact]) -> Result<(), StoreFault>
    requires { AreNext n facts.now }
    ensures early { IsClean S.Store book.new.connection → IsClean S.Store book.old.connection }
    ensures stand { IsClean S.Store book.new.connection → OnOk result (Stand n facts.now (state S.Store book.new.connection)) }
    ensures answer { AnswersBatch n facts.now book.old.loaded result }
    ensures next { OnOk result (book.old.loaded ≡ Some (n - 1)) }
    ensures writes { IsClean S.Store book.new.connection → WritesAtMost n facts.now (state S.Store book.old.connection) (state S.Store book.new.connection) }
{
    batch_round_trip();
    book.save_batch(n, facts)
}

/// A book that is ahead, as after a mark that was refused, is not written again: how many of the facts
/// stand there is told.
pub(crate) fn write<S: Alter>(
    book: &mut BookStore<S>,
    n: u32,
    facts: &[Fact],
    front: usize,
) -> Result<usize, StoreFault>
    requires next { AreNext n facts.now }
    requires longest { IsLongestFront facts.now front }
    ensures early { IsClean S.Store book.new.connection → IsClean S.Store book.old.connection }
    ensures some { IfOk result (λ count. 1 ≤ count) }
    ensures within { IfOk result (λ count. count ≤ length facts.now) }
    ensures stand { IsClean S.Store book.new.connection → IfOk result (λ count. Stand n (take count facts.now) (state S.Store book.new.connection)) }
    ensures ahead { is_ahead_of n book.old.loaded ≡ true → IsClean S.Store book.new.connection → IfOk result (λ count. HasFrom n (take count facts.now) (state S.Store book.new.connection)) }
    ensures behind { is_ahead_of n book.old.loaded ≡ false → IfOk result (λ count. (book.old.loaded ≡ Some (n - 1)) × (count ≡ front)) }
    ensures refused { IfErr result (IsWriteFault S.Store book.old book.new n facts.now front) }
    ensures writes { IsClean S.Store book.new.connection → WritesAtMost n (take front facts.now) (state S.Store book.old.connection) (state S.Store book.new.connection) }
    ensures unwritten { is_ahead_of n book.old.loaded ≡ true → IsClean S.Store book.new.connection → WritesNothing (state S.Store book.old.connection) (state S.Store book.new.connection) }
{
    if is_ahead(book.count(), n) {
        return find(book, n, facts);
    }
    match save(book, n, &facts[..front]) {
        Ok(()) => Ok(front),
        Err(fault) => Err(fault),
    }
}
