ghost use Rattle.std.specs.Prelude.{◌≡◌, ◌≤◌, None, length};
ghost use Rattle.gi_parts.specs.Parts.{AreKept};
ghost use Rattle.gi_desk.specs.Machine.{bad_fact};
ghost use Rattle.gi_desk.specs.Writable.{FitsDesk};

mod call_outcome;
mod letting_out;
mod queries;
mod readings;
mod recording;
mod replaying;
mod stepping;

use crate::kept::Kept;
use crate::role::Role;
use gi_day::Calendar;
use gi_facts::Fact;
use gi_pairs::Code;
use gi_parts::KeptParts;
use std::alloc::Global;
use std::marker::{Model, PhantomData};

/// One operator's desk: its facts, and what they come to.
#[derive(Drop)]
pub struct Desk<R: Role> {
    alloc: Global,
    calendar: Calendar,
    point: Code,
    facts: Vec<Fact>,
    /// What they come to.
    kept: Kept,
    /// The parts of orders or responses that are kept while others are missing.
    parts: KeptParts,
    /// How many facts stand on the store.
    saved: u32,
    halted: bool,
    role: PhantomData<R>,
}

impl<R: Role> Model for Desk<R> {
    ghost use Rattle.gi_desk.specs.DeskRepr.{DeskInvariant};
    ghost use Rattle.gi_desk.specs.Machine.{DeskState};

    ghost Value = { DeskState };

    ghost view = { λ d. record { point = d.point; facts = d.facts.items; saved = d.saved; halted = d.halted; kept = d.parts } };

    ghost invariant = { λ d. DeskInvariant R.SIDE d.point d.facts.items d.kept d.saved };
}

impl<R: Role> Desk<R> {
    /// The calendar that it was given.
    pub fn calendar(&self) -> &Calendar {
        &self.calendar
    }

    /// The interconnection point.
    pub fn point(&self) -> Code
        ensures { result ≡ self.now.point }
    {
        self.point
    }

    /// How many facts it has.
    pub fn len(&self) -> u32
        ensures { result ≡ length self.now.facts }
    {
        self.facts.len() as u32
    }

    /// Each fact is one that the desk would record after those before it. The point, the facts and
    /// how far each closed cycle is can be written: their codes, gas days, numbers and tables are in
    /// their ranges. The parts that it keeps can be read, and of each cycle at least one is missing.
    pub fn reveal_invariant(&self)
        ensures legal { bad_fact R.SIDE self.now.point self.now.facts ≡ None }
        ensures fits { FitsDesk R.SIDE self.now.point self.now.facts }
        ensures parts { AreKept self.now.kept }
    {
        self.parts.reveal_invariant();
    }

    /// How many of them are saved.
    pub fn saved(&self) -> u32
        ensures value { result ≡ self.now.saved }
        ensures within { result ≤ length self.now.facts }
    {
        self.saved
    }

    /// Whether it is halted: then every call is refused.
    pub fn halted(&self) -> bool
        ensures { result ≡ self.now.halted }
    {
        self.halted
    }
}
