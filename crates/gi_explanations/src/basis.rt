//! What a quantity is made from.

ghost use Rattle.std.specs.Prelude.{◌≡◌, ◌≤◌, IfOk, IfSome, Some, length, string_bytes};
ghost use Rattle.std.specs.Option.{option_and_then, option_copied, option_map_or};
ghost use Rattle.gi_nominations.specs.Lines.{most_lines};
ghost use Rattle.gi_desk.specs.History.{contract_in, document_in, notice_in, rule_in};
ghost use Rattle.gi_desk.specs.Queries.{fact_at};
ghost use Rattle.gi_explanations.specs.Basis.{asked_rule, asked_line as asked_line_of, basis_lines as basis_lines_of, contract_line as contract_line_of, nominated_line, nominated_words as nominated_words_of, nomination_line as nomination_line_of, notice_line as notice_line_of, standing_contract, standing_nomination, standing_notice};
ghost use Rattle.gi_explanations.specs.Numbers.{numbers as numbers_of};
ghost use Rattle.gi_processing.specs.declared.rule.Rule.TheVariants.{One};

use crate::lines::{line_for, quantity};
use crate::numbers::Numbers;
use crate::question::Question;
use gi_desk::{Desk, Fact, Role};
use gi_messages::{NominationLine, Nomint};
use gi_pairs::Side;
use gi_processing::{Contract, Notice, Rule};
use std::alloc::{AllocError, Global};

fn document_at<R: Role>(desk: &Desk<R>, n: u32) -> Option<&Nomint>
    ensures { option_copied result ≡ option_and_then document_in (fact_at desk.now.facts n) }
{
    match desk.fact(n) {
        Some(Fact::Nominated(document)) => Some(document),
        _ => None,
    }
}

fn contract_at<R: Role>(desk: &Desk<R>, n: u32) -> Option<Contract>
    ensures { result ≡ option_and_then contract_in (fact_at desk.now.facts n) }
{
    match desk.fact(n) {
        Some(Fact::Contracted(contract)) => Some(*contract),
        _ => None,
    }
}

fn notice_at<R: Role>(desk: &Desk<R>, n: u32) -> Option<Notice>
    ensures { result ≡ option_and_then notice_in (fact_at desk.now.facts n) }
{
    match desk.fact(n) {
        Some(Fact::Noticed(notice)) => Some(*notice),
        _ => None,
    }
}

fn rule_at<R: Role>(desk: &Desk<R>, n: u32) -> Rule
    ensures { result ≡ option_map_or rule_in (fact_at desk.now.facts n) One }
{
    match desk.fact(n) {
        Some(Fact::Closed { rule, .. }) => *rule,
        _ => Rule::One,
    }
}

/// The rule: that of the closing, and rule 2 where the cycle is not closed.
pub(crate) fn rule<R: Role>(desk: &Desk<R>, question: &Question, numbers: &Numbers) -> Rule
    requires { numbers.now ≡ numbers_of R.SIDE desk.now.facts question.now }
    ensures { result ≡ asked_rule desk.now.facts question.now }
{
    match numbers.closing {
        Some(n) => rule_at(desk, n),
        None => Rule::Two,
    }
}

/// The nomination in force.
pub(crate) fn nomination<'a, R: Role>(
    desk: &'a Desk<R>,
    question: &Question,
    numbers: &Numbers,
) -> Option<&'a Nomint>
    requires { numbers.now ≡ numbers_of R.SIDE desk.now.facts question.now }
    ensures value { option_copied result ≡ standing_nomination R.SIDE desk.now.facts question.now }
    ensures few { IfSome result (λ document. length document.now.lines ≤ most_lines) }
{
    desk.reveal_invariant();
    document_at(desk, numbers.nomination)
}

/// The contract that stands.
pub(crate) fn contract<R: Role>(
    desk: &Desk<R>,
    question: &Question,
    numbers: &Numbers,
) -> Option<Contract>
    requires { numbers.now ≡ numbers_of R.SIDE desk.now.facts question.now }
    ensures { result ≡ standing_contract R.SIDE desk.now.facts question.now }
{
    contract_at(desk, numbers.contract)
}

/// The notice that stands.
pub(crate) fn notice<R: Role>(
    desk: &Desk<R>,
    question: &Question,
    numbers: &Numbers,
) -> Option<Notice>
    requires { numbers.now ≡ numbers_of R.SIDE desk.now.facts question.now }
    ensures { result ≡ standing_notice desk.now.facts question.now }
{
    notice_at(desk, numbers.notice)
}

/// The nomination's line for the counterparty and the direction.
pub(crate) fn line<'a>(
    side: Side,
    question: &Question,
    document: Option<&'a Nomint>,
) -> Option<&'a NominationLine>
    ensures { option_copied result ≡ nominated_line side question.now (option_copied document.entry) }
{
    let code = question.pair.at(side.other());
    match document {
        Some(document) => line_for(document.lines.as_slice(), code, question.direction),
        None => None,
    }
}

pub(crate) fn asked_line(
    alloc: Global,
    side: Side,
    question: &Question,
) -> Result<String, AllocError>
    ensures { IfOk result (λ text. string_bytes text ≡ asked_line_of side question.now) }
{
    let (initiating, matching) = (question.pair.initiating, question.pair.matching);
    let direction = question.direction;
    let (day, cycle, hour) = (question.id.day, question.id.cycle, question.hour);
    format!(in alloc; "explain {side} {initiating} {matching} {direction} {day} {cycle} {hour}\n")
}

fn quantity_words(
    alloc: Global,
    rule: Rule,
    hour: u8,
    line: &NominationLine,
) -> Result<String, AllocError>
    ensures { IfOk result (λ text. string_bytes text ≡ nominated_words_of rule hour (Some line.now)) }
{
    let quantity = quantity(line, hour);
    match rule {
        Rule::One => format!(in alloc; " quantity {quantity}"),
        Rule::Two => {
            let priority = line.priority;
            format!(in alloc; " quantity {quantity} priority {priority}")
        }
    }
}

fn nominated_words(
    alloc: Global,
    rule: Rule,
    hour: u8,
    line: Option<&NominationLine>,
) -> Result<String, AllocError>
    ensures { IfOk result (λ text. string_bytes text ≡ nominated_words_of rule hour (option_copied line.entry)) }
{
    match line {
        None => format!(in alloc; " no line"),
        Some(line) => quantity_words(alloc, rule, hour, line),
    }
}

fn nomination_line(
    alloc: Global,
    rule: Rule,
    number: u32,
    hour: u8,
    document: Option<&Nomint>,
    line: Option<&NominationLine>,
) -> Result<String, AllocError>
    ensures { IfOk result (λ text. string_bytes text ≡ nomination_line_of rule number hour (option_copied document.entry) (option_copied line.entry)) }
{
    match document {
        None => format!(in alloc; "nomination none\n"),
        Some(document) => {
            let version = document.version;
            let words = nominated_words(alloc, rule, hour, line)?;
            format!(in alloc; "nomination fact {number} version {version}{words}\n")
        }
    }
}

fn contract_line(
    alloc: Global,
    number: u32,
    contract: Option<Contract>,
) -> Result<String, AllocError>
    ensures { IfOk result (λ text. string_bytes text ≡ contract_line_of number contract) }
{
    match contract {
        None => format!(in alloc; "contract none\n"),
        Some(contract) => {
            let firm = contract.firm.value();
            let interruptible = contract.interruptible.value();
            format!(in alloc; "contract fact {number} firm {firm} interruptible {interruptible}\n")
        }
    }
}

fn notice_line(alloc: Global, number: u32, notice: Option<Notice>) -> Result<String, AllocError>
    ensures { IfOk result (λ text. string_bytes text ≡ notice_line_of number notice) }
{
    match notice {
        None => format!(in alloc; "notice none\n"),
        Some(notice) => {
            let (firm, interruptible) = (notice.firm, notice.interruptible);
            format!(in alloc; "notice fact {number} firm {firm} interruptible {interruptible}\n")
        }
    }
}

/// What the quantity is made from.
pub(crate) fn basis_lines<R: Role>(
    alloc: Global,
    desk: &Desk<R>,
    question: &Question,
    numbers: &Numbers,
) -> Result<String, AllocError>
    requires numbers { numbers.now ≡ numbers_of R.SIDE desk.now.facts question.now }
    ensures { IfOk result (λ text. string_bytes text ≡ basis_lines_of R.SIDE desk.now.facts question.now numbers.now) }
{
    let document = nomination(desk, question, numbers);
    let line = line(R::SIDE, question, document);
    let rule = rule(desk, question, numbers);
    let number = numbers.nomination;
    let nomination = nomination_line(alloc, rule, number, question.hour, document, line)?;
    let contract = contract_line(alloc, numbers.contract, contract(desk, question, numbers))?;
    let notice = notice_line(alloc, numbers.notice, notice(desk, question, numbers))?;
    format!(in alloc; "{nomination}{contract}{notice}")
}
