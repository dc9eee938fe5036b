//! The ranges of what facts are made of.

ghost use Rattle.std.specs.Prelude.{◌≡◌, All, List, true, ℕ};
ghost use Rattle.gi_pairs.specs.declared.side.Side.{Side};
ghost use Rattle.gi_facts.specs.Writable.{FitsContract, FitsFact};
ghost use Rattle.gi_facts.specs.declared.fact.Fact.{Fact};
ghost use Rattle.gi_desk.specs.Machine.{would_record};
ghost use Rattle.gi_desk.specs.Writable.{FitsDesk, FitsButPriority};

use gi_facts::Fact;
use gi_messages::NominationLine;
use gi_processing::Contract;

fn reveal_contract(contract: &Contract)
    ensures { FitsContract contract.now }
{
    contract.portfolio.reveal_invariant();
    contract.day.reveal_invariant();
    contract.firm.reveal_invariant();
    contract.interruptible.reveal_invariant();
}

/// Of all but their priorities.
fn reveal_lines(lines: &[NominationLine])
    ensures { All FitsButPriority lines.now }
{
    for line in lines {
        line.counterparty.reveal_invariant();
        line.hours.reveal_invariant();
    }
}

pub(crate) fn reveal_fact(fact: &Fact)
    requires { (side : Side) × (point : List ℕ) × (before : List Fact) × FitsDesk side point before × (would_record side point before fact.now ≡ true) }
    ensures { FitsFact fact.now }
{
    match fact {
        Fact::Contracted(contract) => reveal_contract(contract),
        Fact::Noticed(notice) => notice.day.reveal_invariant(),
        Fact::Nominated(document) => {
            document.point.reveal_invariant();
            document.portfolio.reveal_invariant();
            document.day.reveal_invariant();
            reveal_lines(document.lines.as_slice());
        }
        Fact::Closed { id, .. } => id.day.reveal_invariant(),
        Fact::Met { peer, .. } => peer.reveal_invariant(),
    }
}
