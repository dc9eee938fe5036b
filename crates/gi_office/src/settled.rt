ghost use Rattle.std.specs.Prelude.{◌≡◌, ◌≤◌, None, length, take};
ghost use Rattle.std.specs.Option.{option_map};
ghost use Rattle.gi_desk.specs.Machine.{bad_fact};
ghost use Rattle.gi_desk.specs.Writable.{FitsDesk};
ghost use Rattle.gi_office.specs.Joining.{opening_of};
ghost use Rattle.gi_office.specs.Reconciling.{entries_of, entry_at};
ghost use Rattle.gi_office.specs.Settling.{AreLegal};

use crate::entry::Entry;
use crate::stretch::Stretch;
use gi_desk::{Desk, Role};
use std::marker::Model;

/// An office that is over, whose seats came back, with those before it that it joined: its desk, and
/// the trail of all calls.
#[derive(Drop)]
pub struct Settled<R: Role> {
    pub(crate) earlier: Vec<Stretch>,
    /// How many entries of the trail the earlier lives have in all.
    pub(crate) before: usize,
    /// How many facts the desk was opened with.
    pub(crate) opening: u32,
    pub(crate) trail: Vec<Entry>,
    pub(crate) desk: Desk<R>,
}

impl<R: Role> Model for Settled<R> {
    ghost use Rattle.gi_office.specs.Joining.{AreKept, lives_of};
    ghost use Rattle.gi_office.specs.Settling.{SettledState};

    ghost Value = { SettledState };

    ghost view = { λ s. record { lives = lives_of s.desk s.earlier.items s.opening s.trail.items; desk = s.desk } };

    ghost invariant = { λ s. AreKept R.SIDE s.desk s.earlier.items s.before s.opening s.trail.items };
}

impl<R: Role> Settled<R> {
    /// The desk as it was left.
    pub fn desk(&self) -> &Desk<R>
        ensures desk { result.now ≡ self.now.desk }
        ensures legal { AreLegal R.SIDE self.now.lives self.now.desk }
    {
        &self.desk
    }

    /// The desk by itself; its lives are given up.
    pub fn into_desk(self) -> Desk<R>
        ensures desk { result ≡ self.desk }
        ensures legal { AreLegal R.SIDE self.lives self.desk }
    {
        let Settled {
            earlier,
            before: _,
            opening: _,
            trail,
            desk,
        } = self;
        // (handed to drop, by one call: going out of scope here would be checked field by field)
        drop((earlier, trail));
        desk
    }

    /// How many entries its lives have, all together.
    pub fn len(&self) -> u64
        ensures { result ≡ length (entries_of self.now.lives) }
    {
        self.entries().len() as u64
    }

    /// The entry at this place, from 1 through all its lives, those of the first life first.
    pub fn entry(&self, place: u64) -> Option<&Entry>
        ensures { option_map (λ entry. entry.now) result ≡ entry_at (entries_of self.now.lives) place }
    {
        if place == 0 {
            return None;
        }
        self.entries().get(place as usize - 1)
    }

    pub(crate) fn entries(&self) -> &[Entry]
        ensures { result.now ≡ entries_of self.now.lives }
    {
        &self.trail
    }

    pub(crate) fn first_opening(&self) -> u32
        ensures within { result ≤ length self.now.desk.facts }
        ensures opening { opening_of self.now.lives ≡ take result self.now.desk.facts }
    {
        match self.earlier.first() {
            Some(stretch) => stretch.opening,
            None => self.opening,
        }
    }

    /// Does nothing: what it promises is always so, and is known once it is called.
    pub(crate) fn reveal_invariant(&self)
        ensures lives { AreLegal R.SIDE self.now.lives self.now.desk }
        ensures legal { bad_fact R.SIDE self.now.desk.point self.now.desk.facts ≡ None }
        ensures fits { FitsDesk R.SIDE self.now.desk.point self.now.desk.facts }
    {
        self.desk.reveal_invariant();
    }
}
