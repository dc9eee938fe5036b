ghost use Rattle.std.specs.Prelude.{◌≡◌};
ghost use Rattle.gi_office.specs.Keeping.{IsSeat};

use crate::note::Note;
use std::marker::Model;
use std::sync::ledger::{Ledger, Share};

/// How many calls a seat notes at most.
pub const MOST_NOTES: usize = 4_000_000;

/// A place at an office, from which one thread calls: its number, what it called, and its share in
/// the office's ledger, which counts its calls.
#[derive(Drop)]
pub struct Seat<L: Ledger> {
    pub(crate) number: u8,
    pub(crate) notes: Vec<Note>,
    pub(crate) share: Share<L>,
}

impl<L: Ledger> Model for Seat<L> {
    ghost use Rattle.gi_office.specs.Keeping.{IsSeat, SeatState};

    ghost Value = { SeatState };

    ghost view = { λ s. record { number = s.number; notes = s.notes.items; amount = s.share.amount; parts = s.share.parts } };

    ghost invariant = { λ s. IsSeat (record { number = s.number; notes = s.notes.items; amount = s.share.amount; parts = s.share.parts }) };
}

impl<L: Ledger> Seat<L> {
    /// Its number, from 1.
    pub fn number(&self) -> u8
        ensures { result ≡ self.now.number }
    {
        self.number
    }

    /// The calls that were made from it, in order.
    pub fn notes(&self) -> &[Note]
        ensures notes { result.now ≡ self.now.notes }
        ensures counted { IsSeat self.now }
    {
        &self.notes
    }
}
