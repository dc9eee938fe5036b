//! The fields of a fact, in words.

use crate::messages::shown::{add_cycle, add_field, add_nomint};
use gi_calls::{Answer, add_table};
use gi_facts::Fact;
use gi_pairs::CycleId;
use gi_processing::{Contract, Notice, Rule};

/// Adds the fields of a contract.
fn add_contract(contract: &Contract, text: &mut Answer) {
    add_field("portfolio", &contract.portfolio, text);
    add_field("day", &contract.day, text);
    add_field("direction", &contract.direction, text);
    add_field("firm", &contract.firm.value(), text);
    add_field("interruptible", &contract.interruptible.value(), text);
    text.end_line();
}

/// Adds the fields of a notice.
fn add_notice(notice: &Notice, text: &mut Answer) {
    add_field("day", &notice.day, text);
    add_field("direction", &notice.direction, text);
    add_field("hours", &notice.first, text);
    text.word(notice.last);
    add_field("firm", &notice.firm, text);
    add_field("interruptible", &notice.interruptible, text);
    text.end_line();
}

/// Adds a cycle that was closed; the rule where it is rule 2.
fn add_closed(id: CycleId, rule: Rule, text: &mut Answer) {
    add_cycle(id.day, id.cycle, text);
    if rule == Rule::Two {
        add_field("rule", &rule.number(), text);
    }
    text.end_line();
}

/// Adds the kind and the fields of a fact.
pub(crate) fn add_fact(fact: &Fact, text: &mut Answer) {
    match fact {
        Fact::Contracted(contract) => {
            text.add("contract");
            add_contract(contract, text);
        }
        Fact::Noticed(notice) => {
            text.add("notice");
            add_notice(notice, text);
        }
        Fact::Nominated(nomination) => {
            text.add("nomination");
            add_nomint(nomination, text);
        }
        Fact::Closed { id, rule } => {
            text.add("closed");
            add_closed(*id, *rule, text);
        }
        Fact::Met { id, peer } => {
            text.add("met");
            add_cycle(id.day, id.cycle, text);
            add_table(peer, text);
        }
    }
}
