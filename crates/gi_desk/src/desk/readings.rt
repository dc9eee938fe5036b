//! What a desk's facts say, read from what it keeps beside them.

ghost use Rattle.std.specs.Prelude.{◌≡◌, ◌+◌, length};
ghost use Rattle.std.specs.Option.{option_copied};
ghost use Rattle.gi_processing.specs.Readings.{ReadsAs};
ghost use Rattle.gi_desk.specs.History.{capacity_of, documents_of, is_closed as is_closed_in, is_closing, is_meeting, is_taking, last_closed as last_closed_of, number_of};
ghost use Rattle.gi_nominations.specs.declared.verdict.Verdict.TheVariants.{Repeat};
ghost use Rattle.gi_desk.specs.Judging.{verdict_on};
ghost use Rattle.gi_desk.specs.Caches.{HasInForce, closed_state};

use crate::desk::Desk;
use crate::role::Role;
use gi_cycles::CycleState;
use gi_day::GasDay;
use gi_messages::Nomint;
use gi_nominations::{Book, PortfolioDay};
use gi_pairs::CycleId;
use gi_processing::Contracts;

impl<R: Role> Desk<R> {
    pub(super) fn contracts(&self) -> &Contracts
        ensures { ReadsAs result.now (capacity_of self.now.facts) }
    {
        &self.kept.contracts
    }

    pub(super) fn book(&self) -> &Book
        ensures at { result.now.point ≡ self.now.point }
        ensures nominations { HasInForce result.now.documents (documents_of self.now.facts) }
    {
        &self.kept.book
    }

    pub(super) fn find(&self, id: &CycleId) -> Option<&CycleState>
        ensures { option_copied result ≡ closed_state R.SIDE self.now.facts id.now }
    {
        match self.kept.stages.get(id) {
            Some(stage) => Some(&stage.state),
            None => None,
        }
    }

    pub(super) fn is_closed(&self, id: &CycleId) -> bool
        ensures { result ≡ is_closed_in id.now self.now.facts }
    {
        self.kept.stages.contains_key(id)
    }

    pub(super) fn last_closed(&self, day: GasDay) -> Option<u8>
        ensures { result ≡ last_closed_of day self.now.facts }
    {
        let first = CycleId { day, cycle: 0 };
        let last = CycleId {
            day,
            cycle: u8::MAX,
        };
        // The closings of a day only rise, so the last one has its greatest number.
        match self.kept.stages.range(first..=last).next_back() {
            Some((id, _)) => Some(id.cycle),
            None => None,
        }
    }

    pub(super) fn next_number(&self) -> u32
        ensures { result ≡ length self.now.facts + 1 }
    {
        // There are so few facts that one more has a number.
        self.reveal_invariant();
        self.len() + 1
    }

    pub(super) fn number_of_closing(&self, id: &CycleId) -> u32
        ensures { result ≡ number_of (is_closing id.now) self.now.facts }
    {
        let beyond = self.next_number();
        match self.kept.stages.get(id) {
            Some(stage) => stage.closing,
            None => beyond,
        }
    }

    pub(super) fn number_of_meeting(&self, id: &CycleId) -> u32
        ensures { result ≡ number_of (is_meeting id.now) self.now.facts }
    {
        let beyond = self.next_number();
        match self.kept.stages.get(id) {
            Some(stage) => stage.meeting.unwrap_or(beyond),
            None => beyond,
        }
    }

    pub(super) fn number_of_taking(&self, document: &Nomint) -> u32
        requires { verdict_on self.now.point self.now.facts document.now ≡ Repeat }
        ensures { result ≡ number_of (is_taking document.now) self.now.facts }
    {
        let Some(number) = self.kept.takings.get(&PortfolioDay::of(document)) else {
            unreachable!()
        };
        *number
    }
}
