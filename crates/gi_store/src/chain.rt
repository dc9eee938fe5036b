//! The chain of digests over facts.

ghost use Rattle.std.specs.Prelude.{◌≡◌, ◌++◌, IfOk, drop, take};
ghost use Rattle.gi_store.specs.Digests.{chain_from, chain_of, first_link, next_link};

use crate::digest::Digest;
use gi_facts::{Fact, encode_fact};
use sha2::{Digest as _, Sha256};
use std::alloc::{AllocError, Global};

/// The chain of no facts.
pub(crate) fn first_link() -> Digest
    ensures { result ≡ first_link }
{
    Digest::new(Sha256::new().finalize())
}

/// The chain gone on by this fact.
fn next_link(alloc: Global, link: Digest, fact: &Fact) -> Result<Digest, AllocError>
    ensures { IfOk result (λ next. next ≡ next_link link fact.now) }
{
    let text = encode_fact(alloc, fact)?;
    let mut hasher = Sha256::new();
    hasher.update(link.as_bytes());
    hasher.update(text.as_slice());
    Ok(Digest::new(hasher.finalize()))
}

/// The chain gone on by these facts, in their order.
pub(crate) fn chain_from(alloc: Global, link: Digest, facts: &[Fact]) -> Result<Digest, AllocError>
    ensures { IfOk result (λ chain. chain ≡ chain_from link facts.now) }
{
    let mut chain = link;
    for fact in facts {
        chain = next_link(alloc, chain, fact)?;
    }
    Ok(chain)
}

/// The digest of the chain of these facts. It fails only for want of memory.
pub fn digest_of(alloc: Global, facts: &[Fact]) -> Result<Digest, AllocError>
    ensures { IfOk result (λ digest. digest ≡ chain_of facts.now) }
{
    chain_from(alloc, first_link(), facts)
}

/// A law: the chain of facts is that of any front of them, gone on by the rest. It does nothing.
pub fn digest_goes_on(front: &[Fact], rest: &[Fact])
    ensures { chain_of (front.now ++ rest.now) ≡ chain_from (chain_of front.now) rest.now }
{}
