ghost use Rattle.std.specs.Prelude.{◌≡◌, ◌<◌, [], OnErr, OnOk};
ghost use Rattle.gi_messages.specs.Limits.{most_parts};
ghost use Rattle.gi_parts.specs.Gathering.{CanKeep, IsGathered};
ghost use Rattle.gi_parts.specs.Parts.{AreKept, IsSent, count_of, with_kept, without};

use crate::gathered::Gathered;
use crate::gathering::{count, gather, is_there};
use crate::part::Part;
use gi_pairs::CycleId;
use std::alloc::{AllocError, Global};
use std::marker::Model;

/// A part that is kept while others of its cycle are missing.
#[derive(Drop)]
pub struct KeptPart {
    pub id: CycleId,
    pub part: Part,
}

/// The parts that are kept, of any cycles, in the order in which they came. Of each cycle no number
/// comes twice and at least one part is missing: so it keeps at most 65, of at most 1,000 rows in
/// each array.
#[derive(Drop)]
pub struct KeptParts {
    parts: Vec<KeptPart>,
}

impl Model for KeptParts {
    ghost use Rattle.std.specs.Prelude.{List};
    ghost use Rattle.gi_parts.specs.Parts.{AreKept};
    ghost use Rattle.gi_parts.specs.declared.kept_parts.KeptPart.{KeptPart};

    ghost Value = { List KeptPart };

    ghost view = { λ k. k.parts.items };

    ghost invariant = { λ k. AreKept k.parts.items };
}

/// How many parts are kept of the cycle.
fn count_in(kept: &[KeptPart], id: &CycleId) -> u8
    requires { AreKept kept.now }
    ensures value { result ≡ count_of id.now kept.now }
    ensures few { result < most_parts }
{
    count(kept, id) as u8
}

/// How many are kept of the cycle once this one is.
fn count_with_in(kept: &[KeptPart], id: &CycleId, part: &Part) -> u8
    requires kept { AreKept kept.now }
    requires part { CanKeep id.now kept.now part.now }
    ensures value { result ≡ count_of id.now (with_kept id.now part.now kept.now) }
    ensures few { result < most_parts }
{
    let have = count_in(kept, id);
    if is_there(kept, id, part) {
        return have;
    }
    have + 1
}

/// Drops what is kept of the cycle.
fn forget_in(kept: &mut Vec<KeptPart>, id: &CycleId)
    ensures { kept.new.items ≡ without id.now kept.old.items }
{
    kept.retain(|one| one.id != *id);
}

impl KeptParts {
    /// Of no cycle any.
    pub fn new(alloc: Global) -> KeptParts
        ensures { result ≡ [] }
    {
        KeptParts {
            parts: Vec::new(alloc),
        }
    }

    /// What holds of all parts that are kept.
    pub fn reveal_invariant(&self)
        ensures { AreKept self.now }
    {
        let _ = self.parts.len();
    }

    /// How many parts are kept of the cycle, at most 65.
    pub fn count(&self, id: &CycleId) -> u8
        ensures value { result ≡ count_of id.now self.now }
        ensures few { result < most_parts }
    {
        count_in(&self.parts, id)
    }

    /// How many are kept of the cycle once this one is, at most 65.
    pub fn count_with(&self, id: &CycleId, part: &Part) -> u8
        requires { CanKeep id.now self.now part.now }
        ensures value { result ≡ count_of id.now (with_kept id.now part.now self.now) }
        ensures few { result < most_parts }
    {
        count_with_in(&self.parts, id, part)
    }

    /// What a part, one that can be read, comes to with those that are kept of its cycle: the tables
    /// that all parts make, or that it is to be kept, or why neither. In this order: a whole message
    /// is all that there is; a part that does not go with those that are kept is `PartDiffers`; it is
    /// to be kept where it is there already or another one is missing; the last one missing may be
    /// `PartsOverlap`, then `TooManyRows`. `OutOfMemory` comes only where it is one of several.
    pub fn gather(&self, alloc: Global, id: &CycleId, part: Part) -> Gathered
        requires { IsSent part }
        ensures { IsGathered id.now self.now part result }
    {
        gather(alloc, &self.parts, id, part)
    }

    /// Keeps a part that is to be kept; one that is there already changes nothing. Where there is no
    /// memory for it all stays as it was.
    pub fn keep(&mut self, id: CycleId, part: Part) -> Result<(), AllocError>
        requires { CanKeep id self.now part }
        ensures next { OnOk result (self.new ≡ with_kept id part self.old) }
        ensures unchanged { OnErr result (self.new ≡ self.old) }
    {
        if is_there(&self.parts, &id, &part) {
            drop(part);
            return Ok(());
        }
        let Ok(()) = self.parts.reserve(1) else {
            drop(part);
            return Err(AllocError);
        };
        self.parts.push_reserved(KeptPart { id, part });
        Ok(())
    }

    /// Drops what is kept of the cycle.
    pub fn forget(&mut self, id: &CycleId)
        ensures { self.new ≡ without id.now self.old }
    {
        forget_in(&mut self.parts, id);
    }
}
