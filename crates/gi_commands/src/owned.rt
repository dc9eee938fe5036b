//! The facts of a book that is read by its name as that of a side and a point.

ghost use Rattle.std.specs.Prelude.{◌≡◌, Ok, Err, IfErr, IfOk};
ghost use Rattle.gi_commands.specs.Owned.{IsOf, IsOther, copy_state, facts_reading};
ghost use Rattle.gi_store.specs.declared.owner.Owner.{Owner};
ghost use Rattle.gi_store.specs.declared.store_fault.StoreFault.TheVariants.{OtherBook};

use gi_desk::Fact;
use gi_store::{BookCopy, BookSource, Owner, StoreFault};

/// The facts of a book, where it is this owner's, else `OtherBook`. One that does not say whose it is
/// counts as anybody's.
pub fn facts_of(copy: BookCopy, owner: Owner) -> Result<Vec<Fact>, StoreFault>
    ensures facts { IfOk result (λ facts. IsOf owner (copy_state copy) × (copy.facts.items ≡ facts.items)) }
    ensures other { IfErr result (λ fault. (other : Owner) × (fault ≡ OtherBook other) × IsOther owner other (copy_state copy)) }
{
    let BookCopy {
        owner: theirs,
        facts,
        ..
    } = copy;
    match theirs {
        Some(other) if other != owner => {
            drop(facts);
            Err(StoreFault::OtherBook(other))
        }
        _ => Ok(facts),
    }
}

/// `OtherBook` where the book says that it is another side's, or of another point; else why it cannot be read.
pub fn owned_facts<B: BookSource>(
    books: &B,
    name: &str,
    owner: Owner,
) -> Result<Vec<Fact>, StoreFault>
    ensures facts { IfOk result (λ facts. facts_reading (B.gives books.now name.now) owner (Ok facts.items)) }
    ensures fault { IfErr result (λ fault. facts_reading (B.gives books.now name.now) owner (Err fault)) }
{
    facts_of(books.read(name)?, owner)
}
