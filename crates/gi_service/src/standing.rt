//! What stands under the names of two books before they are opened, and what is refused for it.

ghost use Rattle.std.specs.Prelude.{◌≡◌, ◌↔◌, IfErr, IfOk, IfSome, IsTrue, None, Ok, Some, false, true};
ghost use Rattle.gi_service.specs.Standing.{IsFound, IsPrefixFault, facts_found, first_refusal, left_of, of_one, standing_of};
ghost use Rattle.gi_service.specs.declared.standing.Standing.TheVariants.{Missing};

use gi_commands::{Fault, facts_of};
use gi_desk::Fact;
use gi_pairs::Side;
use gi_store::{BookCopy, Head, Owner, StoreFault};
use std::alloc::Global;

/// What stands under the name of a book, where nothing is told of it.
#[derive(Clone, Copy, Debug, PartialEq, Eq)]
pub(crate) enum Standing {
    /// No book: no file, or one with no table of a book's, and no head that tells facts. A run that was killed before
    /// it had made both leaves it.
    Missing,
    /// A book with no facts.
    Empty,
    /// A book with facts.
    Facts,
}

/// The facts of the book under a name, or `None` where it is missing, or what is told of it.
pub(crate) type Found = Result<Option<Vec<Fact>>, StoreFault>;

/// What stands there, or what is told of it.
pub(crate) fn stands(found: &Found) -> Result<Standing, StoreFault>
    ensures { result ≡ standing_of found.now }
{
    match found {
        Ok(None) => Ok(Standing::Missing),
        Ok(Some(facts)) if facts.is_empty() => Ok(Standing::Empty),
        Ok(Some(_)) => Ok(Standing::Facts),
        Err(fault) => Err(*fault),
    }
}

/// Where a file is there, and was read so.
pub(crate) fn found(read: Result<Option<BookCopy>, StoreFault>, owner: Owner) -> Found
    ensures { IsFound owner read result }
{
    match read? {
        Some(copy) => Ok(Some(facts_of(copy, owner)?)),
        None => Ok(None),
    }
}

/// Where no file is there, and the head that a book of its name has beside it was read so.
pub(crate) fn left(head: Result<Option<Head>, StoreFault>) -> Found
    ensures { result ≡ left_of head }
{
    match head? {
        Some(head) if 0 < head.facts => Err(StoreFault::Lost(head.facts)),
        _ => Ok(None),
    }
}

/// The facts that were found, of which there are none where nothing was.
pub(crate) fn facts_in(alloc: Global, found: Found) -> Vec<Fact>
    ensures { result.items ≡ facts_found found }
{
    match found {
        Ok(Some(facts)) => facts,
        _ => Vec::new(alloc),
    }
}

/// One book is missing, that of this side, and this is the other one.
fn of_one(only_old: bool, side: Side, other: Result<Standing, StoreFault>) -> Option<Fault>
    ensures value { result ≡ of_one only_old side other }
    ensures named { IfSome result IsPrefixFault }
{
    match other {
        Err(StoreFault::OutOfMemory) => Some(Fault::OutOfMemory),
        Err(_) | Ok(Standing::Facts) => Some(Fault::MissingBook(side)),
        Ok(_) if only_old => Some(Fault::MissingBook(side)),
        Ok(_) => None,
    }
}

/// The first fault of two books: of the initiating side's, then of the matching side's.
#[tactic(auto, using(crate::proofs::Prefixes::of_store))]
fn first_refusal(
    only_old: bool,
    initiating: Result<Standing, StoreFault>,
    matching: Result<Standing, StoreFault>,
) -> Option<Fault>
    ensures value { result ≡ first_refusal only_old initiating matching }
    ensures named { IfSome result IsPrefixFault }
{
    match (initiating, matching) {
        (Ok(Standing::Missing), other) => of_one(only_old, Side::I, other),
        (other, Ok(Standing::Missing)) => of_one(only_old, Side::M, other),
        (Err(fault), _) => Some(Fault::from(fault)),
        (_, Err(fault)) => Some(Fault::from(fault)),
        _ => None,
    }
}

fn is_missing(found: &Result<Standing, StoreFault>) -> bool
    ensures { IsTrue result ↔ (found.now ≡ Ok Missing) }
{
    matches!(found, Ok(Standing::Missing))
}

/// Whether both books are to be made, where nothing is refused.
pub(crate) fn may_open(
    only_old: bool,
    initiating: Result<Standing, StoreFault>,
    matching: Result<Standing, StoreFault>,
) -> Result<bool, Fault>
    ensures opened { IfOk result (λ is_new. first_refusal only_old initiating matching ≡ None) }
    ensures old { IfOk result (λ is_new. only_old ≡ true → is_new ≡ false) }
    ensures new { IfOk result (λ is_new. IsTrue is_new ↔ ((initiating ≡ Ok Missing) × (matching ≡ Ok Missing))) }
    ensures refused { IfErr result (λ why. first_refusal only_old initiating matching ≡ Some why) }
    ensures named { IfErr result IsPrefixFault }
{
    let is_new = is_missing(&initiating) && is_missing(&matching);
    match first_refusal(only_old, initiating, matching) {
        Some(fault) => Err(fault),
        None => Ok(is_new),
    }
}
