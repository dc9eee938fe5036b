use crate::owner::Owner;
use crate::store_fault::StoreFault;
use gi_facts::Fact;

/// What is read of a book.
#[derive(Drop)]
pub struct BookCopy {
    /// Whose it is; `None` of an older one, which does not say.
    pub owner: Option<Owner>,
    /// From the first on.
    pub facts: Vec<Fact>,
    /// How many bytes a log beside its file has that may have rows.
    pub log: u64,
}

/// Where books are read from, each under a name.
pub trait BookSource {
    ghost use Rattle.std.specs.Prelude.{ℕ, List, Result, Ok, Err, IfErr, IfOk};
    ghost use Rattle.gi_store.specs.Copies.{BookCopyState};
    ghost use Rattle.gi_store.specs.FaultText.{IsLoadRefusal};
    ghost use Rattle.gi_store.specs.declared.store_fault.StoreFault.{StoreFault};

    /// What may come of reading the book under a name.
    ghost gives: { Self → List ℕ → Result BookCopyState StoreFault → Type 0 };

    /// The book under a name, whoever's it is, or why there is none.
    fn read(&self, name: &str) -> Result<BookCopy, StoreFault>
        ensures copy { IfOk result (λ copy. gives self.now name.now (Ok (record { owner = copy.owner; facts = copy.facts.items; log = copy.log }))) }
        ensures fault { IfErr result (λ fault. gives self.now name.now (Err fault)) }
        ensures named { IfErr result IsLoadRefusal };
}
