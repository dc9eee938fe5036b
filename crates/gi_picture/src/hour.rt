//! What is shown of an hour.

ghost use Rattle.std.specs.Prelude.{◌≡◌};
ghost use Rattle.gi_picture.specs.Quantities.{amounts_in, in_force_of, nominated_of, own_cut, peer_cut, peers_of, processed_of, value_if, whole_cut};

use gi_pairs::Direction;

/// What is shown of an hour in a direction, in kWh/h, of one pair or of all pairs together: what is
/// nominated, what this side processed, what the peer processed, and what is in force.
#[derive(Clone, Copy)]
pub struct Amounts {
    pub nominated: u64,
    pub processed: u64,
    pub peers: u64,
    pub in_force: u64,
}

/// An hour of a gas day: its number from 1; the cycle of which what is nominated and processed is
/// shown; the cycle in force; and the sums in each direction. Where a cycle is in force it is the one
/// shown; else the one shown is the last closed cycle that covers the hour, if there is any.
#[derive(Clone, Copy)]
pub struct Hour {
    pub number: u8,
    pub shown: Option<u8>,
    pub cycle: Option<u8>,
    pub im: Amounts,
    pub mi: Amounts,
}

impl Amounts {
    /// What this side's own capacity cuts, in kWh/h.
    pub fn own_cut(self) -> u64
        ensures { result ≡ own_cut self }
    {
        self.nominated.saturating_sub(self.processed)
    }

    /// What the peer leaves out of what this side processed, in kWh/h.
    pub fn peer_cut(self) -> u64
        ensures { result ≡ peer_cut self }
    {
        self.processed.saturating_sub(self.in_force)
    }

    /// What is nominated and not in force, in kWh/h.
    pub fn cut(self) -> u64
        ensures { result ≡ whole_cut self }
    {
        self.nominated.saturating_sub(self.in_force)
    }
}

/// An amount, where there is a cycle of which it is shown.
pub fn amount_if(cycle: Option<u8>, amount: u64) -> Option<u64>
    ensures { result ≡ value_if cycle amount }
{
    match cycle {
        Some(_) => Some(amount),
        None => None,
    }
}

impl Hour {
    /// The sums in a direction.
    pub fn in_direction(self, direction: Direction) -> Amounts
        ensures { result ≡ amounts_in direction self }
    {
        match direction {
            Direction::IM => self.im,
            Direction::MI => self.mi,
        }
    }

    /// What is nominated, where a cycle is shown, in kWh/h.
    pub fn nominated(self, direction: Direction) -> Option<u64>
        ensures { result ≡ nominated_of direction self }
    {
        amount_if(self.shown, self.in_direction(direction).nominated)
    }

    /// What this side processed, where a cycle is shown, in kWh/h.
    pub fn processed(self, direction: Direction) -> Option<u64>
        ensures { result ≡ processed_of direction self }
    {
        amount_if(self.shown, self.in_direction(direction).processed)
    }

    /// What the peer processed, where a cycle is in force, in kWh/h.
    pub fn peers(self, direction: Direction) -> Option<u64>
        ensures { result ≡ peers_of direction self }
    {
        amount_if(self.cycle, self.in_direction(direction).peers)
    }

    /// What is in force, where a cycle is, in kWh/h.
    pub fn in_force(self, direction: Direction) -> Option<u64>
        ensures { result ≡ in_force_of direction self }
    {
        amount_if(self.cycle, self.in_direction(direction).in_force)
    }

    /// The number of the cycle in force.
    pub fn cycle_number(self) -> Option<u64>
        ensures { result ≡ self.cycle }
    {
        match self.cycle {
            Some(cycle) => Some(u64::from(cycle)),
            None => None,
        }
    }
}
