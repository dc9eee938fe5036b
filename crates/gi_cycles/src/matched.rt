ghost use Rattle.std.specs.Prelude.{◌≡◌, ◌≤◌, length};
ghost use Rattle.gi_lesser.specs.Lesser.{HasShapeOf, IsLesser, lesser_of};
ghost use Rattle.gi_pairs.specs.Limits.{most_processed_rows};
ghost use Rattle.gi_cycles.specs.States.{IsMatched};

use gi_pairs::{CycleId, Table};
use std::marker::Model;

/// A cycle whose own frozen table has met the peer's: the lesser of both is confirmed.
#[derive(Drop)]
pub struct Matched {
    id: CycleId,
    own: Table,
    peer: Table,
    confirmed: Table,
}

impl Model for Matched {
    ghost use Rattle.gi_cycles.specs.States.{IsMatched, MatchedCycle};

    ghost Value = { MatchedCycle };

    ghost view = { λ m. record { id = m.id; own = m.own; peer = m.peer; confirmed = m.confirmed } };

    ghost invariant = { λ m. IsMatched m.own m.peer m.confirmed };
}

impl Matched {
    pub(crate) fn new(id: CycleId, own: Table, peer: Table, confirmed: Table) -> Matched
        requires { IsMatched own peer confirmed }
        ensures { result ≡ record { id = id; own = own; peer = peer; confirmed = confirmed } }
    {
        Matched {
            id,
            own,
            peer,
            confirmed,
        }
    }

    /// Which cycle it is.
    pub fn id(&self) -> CycleId
        ensures { result ≡ self.now.id }
    {
        self.id
    }

    /// The operator's processed table, as it was frozen.
    pub fn own(&self) -> &Table
        ensures value { result.now ≡ self.now.own }
        ensures few { length self.now.own.rows ≤ most_processed_rows }
    {
        &self.own
    }

    /// The table of the peer, for the same hours.
    pub fn peer(&self) -> &Table
        ensures value { result.now ≡ self.now.peer }
        ensures few { length self.now.peer.rows ≤ most_processed_rows }
        ensures same_hours { HasShapeOf self.now.own self.now.peer }
    {
        &self.peer
    }

    /// The confirmed table.
    pub fn confirmed(&self) -> &Table
        ensures kept { result.now ≡ self.now.confirmed }
        ensures value { result.now ≡ lesser_of self.now.own self.now.peer }
        ensures law { IsLesser self.now.own self.now.peer result.now }
    {
        &self.confirmed
    }
}
