ghost use Rattle.std.specs.Prelude.{◌≡◌, ◌≤◌, Err, IfErr, IfOk, length};
ghost use Rattle.gi_pairs.specs.Limits.{most_processed_rows};
ghost use Rattle.gi_pairs.specs.Table.{HasShapeOf};
ghost use Rattle.gi_cycles.specs.States.{IsMeetFault, matched_of};

use crate::matched::Matched;
use crate::meet_fault::MeetFault;
use gi_lesser::lesser;
use gi_pairs::{CycleId, Table};
use std::alloc::Global;
use std::marker::Model;

/// A closed cycle: the operator's processed table is frozen, and no call changes it.
#[derive(Drop)]
pub struct Frozen {
    id: CycleId,
    own: Table,
}

impl Model for Frozen {
    ghost use Rattle.std.specs.Prelude.{◌≤◌, length};
    ghost use Rattle.gi_pairs.specs.Limits.{most_processed_rows};
    ghost use Rattle.gi_cycles.specs.States.{FrozenCycle};

    ghost Value = { FrozenCycle };

    ghost view = { λ f. record { id = f.id; own = f.own } };

    ghost invariant = { λ f. length f.own.rows ≤ most_processed_rows };
}

impl Frozen {
    pub(crate) fn new(id: CycleId, own: Table) -> Frozen
        requires { length own.rows ≤ most_processed_rows }
        ensures id { result.id ≡ id }
        ensures own { result.own ≡ own }
    {
        Frozen { id, own }
    }

    /// Which cycle it is.
    pub fn id(&self) -> CycleId
        ensures { result ≡ self.now.id }
    {
        self.id
    }

    /// The operator's processed table, as it was frozen.
    pub fn own(&self) -> &Table
        ensures value { result.now ≡ self.now.own }
        ensures few { length self.now.own.rows ≤ most_processed_rows }
    {
        &self.own
    }

    /// Meets the table of the peer, which has at most 4,096 rows: the lesser of both is confirmed.
    /// `ShapeDiffers` where the two are for other hours, then `OutOfMemory`; after either the
    /// frozen cycle comes back as it was.
    pub fn meet(self, alloc: Global, peer: Table) -> Result<Matched, (Frozen, MeetFault)>
        requires { length peer.rows ≤ most_processed_rows }
        ensures met { IfOk result (λ matched. matched ≡ matched_of self peer) }
        ensures same_hours { IfOk result (λ _. HasShapeOf self.own peer) }
        ensures differs { ¬ HasShapeOf self.own peer → result ≡ Err (self, MeetFault.ShapeDiffers) }
        ensures wants { HasShapeOf self.own peer → IfErr result (λ refused. refused.1 ≡ MeetFault.OutOfMemory) }
        ensures fault { IfErr result (λ refused. IsMeetFault self peer refused.1) }
        ensures unchanged { IfErr result (λ refused. refused.0 ≡ self) }
    {
        if !self.own.covers_same_hours(&peer) {
            return Err((self, MeetFault::ShapeDiffers));
        }
        match lesser(alloc, &self.own, &peer) {
            Ok(confirmed) => Ok(Matched::new(self.id, self.own, peer, confirmed)),
            Err(_) => Err((self, MeetFault::OutOfMemory)),
        }
    }
}
