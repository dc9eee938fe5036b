//! A book's facts are held against the head that stands beside it.

ghost use Rattle.std.specs.Prelude.{◌≡◌, ◌⊎◌, ◌<◌, ◌^◌, Err, IfErr, IfOk, IfSome, OnOk, length};
ghost use Rattle.gi_store.specs.Heads.{IsHeadFault, Tells, head_of};
ghost use Rattle.gi_store.specs.declared.store_fault.StoreFault.TheVariants.{Lost, OutOfMemory};

use crate::chain::digest_of;
use crate::head::Head;
use crate::store_fault::StoreFault;
use gi_facts::Fact;
use std::alloc::Global;

/// Whether a book with these facts has those that the head tells; one without a head is as good.
/// `Lost` with the head's number where there are fewer facts, or the first so many are others, and
/// `OutOfMemory`.
pub(crate) fn checked(alloc: Global, head: Option<Head>, facts: &[Fact]) -> Result<(), StoreFault>
    ensures whole { OnOk result (IfSome head (λ head. Tells head facts.now)) }
    ensures refused { IfErr result (IsHeadFault head facts.now) }

    // That there are fewer is told without memory.
    ensures fewer { IfSome head (λ head. length facts.now < head.facts → result ≡ Err (Lost head.facts)) }
{
    let Some(head) = head else {
        return Ok(());
    };
    let told = head.facts as usize;
    if facts.len() < told || digest_of(alloc, &facts[..told])? != head.digest {
        return Err(StoreFault::Lost(head.facts));
    }
    Ok(())
}

/// The head of these facts, gone on from the one that stands beside them, with the faults of `checked`.
pub(crate) fn head_after(
    alloc: Global,
    stands: Option<Head>,
    facts: &[Fact],
) -> Result<Head, StoreFault>
    requires { length facts.now < 2 ^ 32 }
    ensures whole { OnOk result (IfSome stands (λ head. Tells head facts.now)) }
    ensures head { IfOk result (λ head. head ≡ head_of facts.now) }
    ensures refused { IfErr result (λ fault. (fault ≡ OutOfMemory) ⊎ IsHeadFault stands facts.now fault) }
{
    checked(alloc, stands, facts)?;
    match stands {
        Some(before) => Ok(before.then(alloc, &facts[before.facts as usize..])?),
        None => Ok(Head::new().then(alloc, facts)?),
    }
}
