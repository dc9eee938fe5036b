//! What calls come to, as far as that does not take the whole desk.

ghost use Rattle.std.specs.Prelude.{◌≡◌, ◌≤◌, ◌&&◌, ◌↔◌, IsTrue, List, Some, length, nat_le};
ghost use Rattle.std.specs.List.{list_all};
ghost use Rattle.gi_desk.specs.History.{capacity_of};
ghost use Rattle.gi_desk.specs.Judging.{contracted as contracted_of, if_same as if_same_fact, marked as marked_of, noticed as noticed_of};
ghost use Rattle.gi_processing.specs.Readings.{ReadsAs};
ghost use Rattle.gi_pairs.specs.Limits.{most_processed_rows};
ghost use Rattle.gi_facts.specs.declared.fact.Fact.{Fact};
ghost use Rattle.gi_desk.specs.declared.decision.Decision.TheVariants.{Refused};
ghost use Rattle.gi_desk.specs.declared.refusal.Refusal.TheVariants.{OutOfMemory};
ghost use Rattle.gi_desk.specs.Machine.{can_meet as can_meet_of, has_priority, is_record as is_record_of, most_facts, unless_full as unless_full_of};

use crate::decision::Decision;
use crate::outcome::Outcome;
use crate::refusal::Refusal;
use gi_cycles::CycleState;
use gi_day::Calendar;
use gi_facts::Fact;
use gi_messages::{LAST_PRIORITY, NominationLine};
use gi_pairs::{MOST_PROCESSED_ROWS, Table};
use gi_processing::{Contract, Contracts, Notice, NoticeFault};

/// How many facts a desk has at most.
pub const MOST_FACTS: usize = 1_000_000;

pub(crate) fn contracted(contracts: &Contracts, contract: &Contract) -> Outcome
    ensures { (facts : List Fact) → ReadsAs contracts.now (capacity_of facts) → result ≡ contracted_of facts contract.now }
{
    if contracts.refuses(contract) {
        return Outcome::Refuses(Refusal::TooManyPortfolios);
    }
    Outcome::Records(Fact::Contracted(*contract))
}

pub(crate) fn noticed(calendar: &Calendar, notice: &Notice) -> Outcome
    ensures { result ≡ noticed_of notice.now }
{
    let frame = calendar.frame(notice.day).unwrap();
    match notice.fault(&frame) {
        None => Outcome::Records(Fact::Noticed(*notice)),
        Some(NoticeFault::NoticeRange) => Outcome::Refuses(Refusal::NoticeRange),
        Some(NoticeFault::PermilleRange) => Outcome::Refuses(Refusal::PermilleRange),
        Some(NoticeFault::OutOfMemory) => Outcome::Refuses(Refusal::OutOfMemory),
    }
}

pub(crate) fn is_short(decision: &Decision) -> bool
    ensures { IsTrue result ↔ (decision.now ≡ Refused OutOfMemory) }
{
    matches!(decision, Decision::Refused(Refusal::OutOfMemory))
}

pub(crate) fn can_meet(state: &CycleState, peer: &Table) -> bool
    ensures { result ≡ (can_meet_of peer.now state.now && nat_le (length peer.now.rows) most_processed_rows) }
{
    match state {
        CycleState::Collecting(_) => false,
        CycleState::Frozen(cycle) => {
            cycle.own().covers_same_hours(peer) && peer.rows().len() <= MOST_PROCESSED_ROWS
        }
        CycleState::Matched(_) => false,
    }
}

fn if_same(n: u32, fact: &Fact, next: &Fact) -> Outcome
    ensures { result ≡ if_same_fact n fact.now (Some next.now) }
{
    if !next.is(fact) {
        return Outcome::Refuses(Refusal::OtherFact);
    }
    Outcome::Saves { n }
}

pub(crate) fn marked(facts: &[Fact], saved: u32, n: u32, fact: &Fact) -> Outcome
    requires { saved ≤ most_facts }
    ensures { result ≡ marked_of facts.now saved n fact.now }
{
    let expected = saved + 1;
    if n != expected {
        return Outcome::Refuses(Refusal::NotNext { expected });
    }
    let place = saved as usize;
    if facts.len() <= place {
        return Outcome::Refuses(Refusal::OtherFact);
    }
    if_same(n, fact, &facts[place])
}

pub(crate) fn is_record(outcome: &Outcome) -> bool
    ensures { result ≡ is_record_of outcome.now }
{
    matches!(outcome, Outcome::Records(_))
}

/// Whether a text can name the priorities of all lines: from 1 to 9.
pub(crate) fn have_priorities(lines: &[NominationLine]) -> bool
    ensures { result ≡ list_all has_priority lines.now }
{
    lines.iter().all(|line| 1 <= line.priority && line.priority <= LAST_PRIORITY)
}

/// Whether an outcome is a record; it is dropped.
pub(crate) fn records(outcome: Outcome) -> bool
    ensures { result ≡ is_record_of outcome }
{
    is_record(&outcome)
}

pub(crate) fn unless_full(facts: &[Fact], outcome: Outcome) -> Outcome
    ensures { result ≡ unless_full_of facts.now outcome }
{
    match outcome {
        Outcome::Records(_) if facts.len() >= MOST_FACTS => Outcome::Refuses(Refusal::Full),
        other => other,
    }
}
