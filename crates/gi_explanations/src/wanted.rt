ghost use Rattle.std.specs.Prelude.{◌≡◌};
ghost use Rattle.gi_desk.specs.History.{is_closing, is_meeting};
ghost use Rattle.gi_explanations.specs.Numbers.{is_contract, is_nomination, is_notice};
ghost use Rattle.gi_explanations.specs.Wanted.{is_wanted};

use gi_day::GasDay;
use gi_desk::Fact;
use gi_pairs::{Code, CycleId, Direction};
use gi_processing::{Contract, Notice};

/// Which facts are looked for.
#[derive(Clone, Copy)]
pub(crate) enum Wanted {
    /// The nominations of a portfolio for a gas day.
    Nomination(Code, GasDay),
    /// The contracts of a portfolio for a gas day and direction.
    Contract(Code, GasDay, Direction),
    /// The notices for a gas day and direction that cover the hour.
    Notice(GasDay, Direction, u8),
    Closing(CycleId),
    Meeting(CycleId),
}

fn nominates(fact: &Fact, portfolio: Code, day: GasDay) -> bool
    ensures { result ≡ is_nomination portfolio day fact.now }
{
    match fact {
        Fact::Nominated(document) => document.portfolio == portfolio && document.day == day,
        _ => false,
    }
}

fn contracts(fact: &Fact, portfolio: Code, day: GasDay, direction: Direction) -> bool
    ensures { result ≡ is_contract portfolio day direction fact.now }
{
    match fact {
        Fact::Contracted(contract) => {
            contract.portfolio == portfolio
                && contract.day == day
                && contract.direction == direction
        }
        _ => false,
    }
}

fn cuts(fact: &Fact, day: GasDay, direction: Direction, hour: u8) -> bool
    ensures { result ≡ is_notice day direction hour fact.now }
{
    match fact {
        Fact::Noticed(notice) => {
            notice.day == day
                && notice.direction == direction
                && notice.first <= hour
                && hour <= notice.last
        }
        _ => false,
    }
}

fn closes(fact: &Fact, id: &CycleId) -> bool
    ensures { result ≡ is_closing id.now fact.now }
{
    match fact {
        Fact::Closed { id: other, .. } => other == id,
        _ => false,
    }
}

fn meets(fact: &Fact, id: &CycleId) -> bool
    ensures { result ≡ is_meeting id.now fact.now }
{
    match fact {
        Fact::Met { id: other, .. } => other == id,
        _ => false,
    }
}

impl Wanted {
    pub(crate) fn is(&self, fact: &Fact) -> bool
        ensures { result ≡ is_wanted self.now fact.now }
    {
        match self {
            Wanted::Nomination(portfolio, day) => nominates(fact, *portfolio, *day),
            Wanted::Contract(portfolio, day, direction) => {
                contracts(fact, *portfolio, *day, *direction)
            }
            Wanted::Notice(day, direction, hour) => cuts(fact, *day, *direction, *hour),
            Wanted::Closing(id) => closes(fact, id),
            Wanted::Meeting(id) => meets(fact, id),
        }
    }
}
