//! What a list of facts says, each time from the list itself.

use gi_day::GasDay;
use gi_desk::Fact;
use gi_messages::Nomint;
use gi_pairs::{Code, CycleId, Direction, Table};

/// What is available to a portfolio: its last contract, by the last notice that covers the hour.
pub fn available(
    facts: &[Fact],
    portfolio: Code,
    day: GasDay,
    direction: Direction,
    hour: u8,
) -> u64 {
    let (firm, interruptible) = left(facts, day, direction, hour);
    for fact in facts.iter().rev() {
        if let Fact::Contracted(contract) = fact {
            if contract.portfolio == portfolio
                && contract.day == day
                && contract.direction == direction
            {
                let firm = contract.firm.value().wrapping_mul(firm) / 1000;
                let interruptible = contract.interruptible.value().wrapping_mul(interruptible)
                    / 1000;
                return firm.wrapping_add(interruptible);
            }
        }
    }
    0
}

/// The thousandths that the last notice for the hour leaves.
fn left(facts: &[Fact], day: GasDay, direction: Direction, hour: u8) -> (u64, u64) {
    for fact in facts.iter().rev() {
        if let Fact::Noticed(notice) = fact {
            if notice.day == day
                && notice.direction == direction
                && notice.first <= hour
                && hour <= notice.last
            {
                return (u64::from(notice.firm), u64::from(notice.interruptible));
            }
        }
    }
    (1000, 1000)
}

/// Whether the portfolio has a contract for the day.
pub fn is_known(facts: &[Fact], portfolio: Code, day: GasDay) -> bool {
    for fact in facts {
        if let Fact::Contracted(contract) = fact {
            if contract.portfolio == portfolio && contract.day == day {
                return true;
            }
        }
    }
    false
}

/// The nomination in force: the last one taken.
pub fn in_force(facts: &[Fact], portfolio: Code, day: GasDay) -> Option<&Nomint> {
    for fact in facts.iter().rev() {
        if let Fact::Nominated(document) = fact {
            if document.portfolio == portfolio && document.day == day {
                return Some(document);
            }
        }
    }
    None
}

/// The number of the fact that took a nomination of that portfolio, day and version, from 1.
pub fn number_of_taking(facts: &[Fact], document: &Nomint) -> Option<usize> {
    let mut n = 0usize;
    for fact in facts {
        n = n.wrapping_add(1);
        if let Fact::Nominated(other) = fact {
            if other.portfolio == document.portfolio
                && other.day == document.day
                && other.version == document.version
            {
                return Some(n);
            }
        }
    }
    None
}

/// The number of the fact that closed the cycle.
pub fn number_of_closing(facts: &[Fact], id: &CycleId) -> Option<usize> {
    let mut n = 0usize;
    for fact in facts {
        n = n.wrapping_add(1);
        if let Fact::Closed { id: other, .. } = fact {
            if other == id {
                return Some(n);
            }
        }
    }
    None
}

/// The number of the fact in which the cycle met a table, and the table.
pub fn meeting<'a>(facts: &'a [Fact], id: &CycleId) -> Option<(usize, &'a Table)> {
    let mut n = 0usize;
    for fact in facts {
        n = n.wrapping_add(1);
        if let Fact::Met { id: other, peer } = fact {
            if other == id {
                return Some((n, peer));
            }
        }
    }
    None
}

/// The cycle of the day that was closed last.
pub fn last_closed(facts: &[Fact], day: GasDay) -> Option<u8> {
    for fact in facts.iter().rev() {
        if let Fact::Closed { id, .. } = fact {
            if id.day == day {
                return Some(id.cycle);
            }
        }
    }
    None
}
