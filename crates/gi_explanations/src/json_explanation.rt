//! What a quantity comes from, as JSON lines.

ghost use Rattle.std.specs.Prelude.{◌≡◌, ◌++◌, IfOk};
ghost use Rattle.std.specs.Option.{option_copied};
ghost use Rattle.gi_exports.specs.Json.{line_of as line_with};
ghost use Rattle.gi_explanations.specs.Json.{available_data, basis_objects, confirmed_data, contract_data, explanation_objects, formula_data, frozen_data, lower_data, nomination_data, notice_data, object_lines, outcome_objects, peer_data, priority_data, priority_objects, processed_data, reduction_objects, shown_priority, shown_quantity, whom_told};
ghost use Rattle.gi_explanations.specs.Numbers.{numbers as numbers_of, own};
ghost use Rattle.gi_explanations.specs.Outcome.{line_in};
ghost use Rattle.gi_desk.specs.Queries.{told as told_of};

use crate::basis::{contract, line, nomination, notice, rule};
use crate::covering::is_covered;
use crate::json_lines::{
    with_asked, with_closing, with_held, with_lesser, with_met, with_nominated, with_offered,
    with_reduced, with_served, with_state, with_summed, with_told,
};
use crate::lines::quantity;
use crate::numbers::Numbers;
use crate::outcome::{line_of, met, read};
use crate::question::Question;
use crate::reduction::{Amounts, amounts_for, processed};
use gi_desk::{Desk, Role};
use gi_messages::{Line, NominationLine, Nomint};
use gi_pairs::Code;
use gi_processing::{Contract, Notice, Rule, Thousandths};
use std::alloc::{AllocError, Global};

fn quantity_of(hour: u8, line: Option<&NominationLine>) -> Option<u64>
    ensures { result ≡ shown_quantity hour (option_copied line.entry) }
{
    match line {
        Some(line) => Some(quantity(line, hour)),
        None => None,
    }
}

fn priority_of(rule: Rule, line: Option<&NominationLine>) -> Option<u64>
    ensures { result ≡ shown_priority rule (option_copied line.entry) }
{
    match (rule, line) {
        (Rule::Two, Some(line)) => Some(u64::from(line.priority)),
        _ => None,
    }
}

fn with_nomination(
    text: Vec<u8>,
    rule: Rule,
    number: u32,
    hour: u8,
    document: Option<&Nomint>,
    line: Option<&NominationLine>,
) -> Result<Vec<u8>, AllocError>
    ensures { IfOk result (λ bytes. bytes.items ≡ text.items ++ line_with (nomination_data rule number hour (option_copied document.entry) (option_copied line.entry))) }
{
    match document {
        None => with_nominated(text, None, None, None, None),
        Some(document) => {
            let fact = Some(u64::from(number));
            let version = Some(u64::from(document.version));
            let priority = priority_of(rule, line);
            with_nominated(text, fact, priority, quantity_of(hour, line), version)
        }
    }
}

fn with_contract(
    text: Vec<u8>,
    number: u32,
    contract: Option<Contract>,
) -> Result<Vec<u8>, AllocError>
    ensures { IfOk result (λ bytes. bytes.items ≡ text.items ++ line_with (contract_data number contract)) }
{
    match contract {
        None => with_held(text, "contract", None, None, None),
        Some(contract) => {
            let fact = Some(u64::from(number));
            let firm = Some(contract.firm.value());
            let interruptible = Some(contract.interruptible.value());
            with_held(text, "contract", fact, firm, interruptible)
        }
    }
}

fn with_notice(text: Vec<u8>, number: u32, notice: Option<Notice>) -> Result<Vec<u8>, AllocError>
    ensures { IfOk result (λ bytes. bytes.items ≡ text.items ++ line_with (notice_data number notice)) }
{
    match notice {
        None => with_held(text, "notice", None, None, None),
        Some(notice) => {
            let fact = Some(u64::from(number));
            let firm = Some(u64::from(notice.firm));
            let interruptible = Some(u64::from(notice.interruptible));
            with_held(text, "notice", fact, firm, interruptible)
        }
    }
}

/// What the quantity is made from.
fn with_basis<R: Role>(
    text: Vec<u8>,
    desk: &Desk<R>,
    question: &Question,
    numbers: &Numbers,
) -> Result<Vec<u8>, AllocError>
    requires numbers { numbers.now ≡ numbers_of R.SIDE desk.now.facts question.now }
    ensures { IfOk result (λ bytes. bytes.items ≡ text.items ++ object_lines (basis_objects R.SIDE desk.now.facts question.now numbers.now)) }
{
    let document = nomination(desk, question, numbers);
    let line = line(R::SIDE, question, document);
    let rule = rule(desk, question, numbers);
    let number = numbers.nomination;
    let nominated = with_nomination(text, rule, number, question.hour, document, line)?;
    let contract = contract(desk, question, numbers);
    let contracted = with_contract(nominated, numbers.contract, contract)?;
    let notice = notice(desk, question, numbers);
    with_notice(contracted, numbers.notice, notice)
}

fn with_available(
    text: Vec<u8>,
    contract: Option<Contract>,
    notice: Option<Notice>,
    available: u64,
) -> Result<Vec<u8>, AllocError>
    ensures { IfOk result (λ bytes. bytes.items ≡ text.items ++ line_with (available_data contract notice available)) }
{
    match contract {
        None => with_offered(text, None, None, None, None, available),
        Some(contract) => {
            let left = Thousandths::under(&notice);
            let of_firm = Some(u64::from(left.firm));
            let of_interruptible = Some(u64::from(left.interruptible));
            let firm = Some(contract.firm.value());
            let interruptible = Some(contract.interruptible.value());
            with_offered(
                text,
                firm,
                of_firm,
                interruptible,
                of_interruptible,
                available,
            )
        }
    }
}

fn with_priority_of(
    text: Vec<u8>,
    line: Option<&NominationLine>,
    amounts: Amounts,
) -> Result<Vec<u8>, AllocError>
    ensures { IfOk result (λ bytes. bytes.items ≡ text.items ++ line_with (priority_data (option_copied line.entry) amounts)) }
{
    match line {
        None => with_served(text, None, None, None),
        Some(line) => {
            let (before, left) = (Some(amounts.nominated_before), Some(amounts.left));
            with_served(text, before, left, Some(u64::from(line.priority)))
        }
    }
}

fn with_priority(
    text: Vec<u8>,
    rule: Rule,
    line: Option<&NominationLine>,
    amounts: Amounts,
) -> Result<Vec<u8>, AllocError>
    ensures { IfOk result (λ bytes. bytes.items ≡ text.items ++ object_lines (priority_objects rule (option_copied line.entry) amounts)) }
{
    match rule {
        Rule::One => Ok(text),
        Rule::Two => with_priority_of(text, line, amounts),
    }
}

fn with_formula(text: Vec<u8>, amounts: Amounts, quantity: u64) -> Result<Vec<u8>, AllocError>
    ensures { IfOk result (λ bytes. bytes.items ≡ text.items ++ line_with (formula_data amounts quantity)) }
{
    let (all, left) = (Some(amounts.all), Some(amounts.left));
    if amounts.all <= amounts.left {
        return with_reduced(text, all, None, left, quantity, "within", None);
    }
    let (before, up_to) = (Some(amounts.before), Some(amounts.up_to));
    with_reduced(text, all, before, left, quantity, "reduced", up_to)
}

fn with_processed(
    text: Vec<u8>,
    covered: bool,
    line: Option<&NominationLine>,
    amounts: Amounts,
    quantity: u64,
) -> Result<Vec<u8>, AllocError>
    ensures { IfOk result (λ bytes. bytes.items ≡ text.items ++ line_with (processed_data covered (option_copied line.entry) amounts quantity)) }
{
    if !covered {
        return with_reduced(text, None, None, None, quantity, "hour not covered", None);
    }
    match line {
        None => with_reduced(text, None, None, None, quantity, "no line", None),
        Some(_) => with_formula(text, amounts, quantity),
    }
}

/// How the processed quantity is made.
fn with_reduction<R: Role>(
    text: Vec<u8>,
    desk: &Desk<R>,
    question: &Question,
    numbers: &Numbers,
) -> Result<Vec<u8>, AllocError>
    requires numbers { numbers.now ≡ numbers_of R.SIDE desk.now.facts question.now }
    ensures { IfOk result (λ bytes. bytes.items ≡ text.items ++ object_lines (reduction_objects R.SIDE desk.now.facts question.now)) }
{
    let amounts = amounts_for(desk, question, numbers);
    let line = line(R::SIDE, question, nomination(desk, question, numbers));
    let contract = contract(desk, question, numbers);
    let notice = notice(desk, question, numbers);
    let available = with_available(text, contract, notice, amounts.available)?;
    let rule = rule(desk, question, numbers);
    let served = with_priority(available, rule, line, amounts)?;
    let (before, up_to, all) = (amounts.before, amounts.up_to, amounts.all);
    let summed = with_summed(served, before, up_to, all)?;
    let covered = is_covered(desk.calendar(), question);
    let quantity = processed(desk, question, numbers);
    with_processed(summed, covered, line, amounts, quantity)
}

fn with_frozen(text: Vec<u8>, rule: Rule, closing: Option<u32>) -> Result<Vec<u8>, AllocError>
    ensures { IfOk result (λ bytes. bytes.items ≡ text.items ++ line_with (frozen_data rule closing)) }
{
    match closing {
        None => with_closing(text, None, None),
        Some(number) => {
            let rule = Some(u64::from(rule.number()));
            with_closing(text, Some(u64::from(number)), rule)
        }
    }
}

fn with_peer(text: Vec<u8>, number: u32, peer: Option<u64>) -> Result<Vec<u8>, AllocError>
    ensures { IfOk result (λ bytes. bytes.items ≡ text.items ++ line_with (peer_data number peer)) }
{
    match peer {
        None => with_met(text, None, None),
        Some(quantity) => with_met(text, Some(u64::from(number)), Some(quantity)),
    }
}

fn with_lower(text: Vec<u8>, processed: u64, peer: Option<u64>) -> Result<Vec<u8>, AllocError>
    ensures { IfOk result (λ bytes. bytes.items ≡ text.items ++ line_with (lower_data processed peer)) }
{
    match peer {
        None => with_lesser(text, None, None, None),
        Some(peer) => {
            let lower = Some(processed.min(peer));
            with_lesser(text, Some(peer), Some(processed), lower)
        }
    }
}

fn with_confirmed(text: Vec<u8>, met: bool, confirmed: Option<u64>) -> Result<Vec<u8>, AllocError>
    ensures { IfOk result (λ bytes. bytes.items ≡ text.items ++ line_with (confirmed_data met confirmed)) }
{
    match confirmed {
        Some(quantity) => with_state(text, Some(quantity), "confirmed"),
        None if met => with_state(text, None, "not saved"),
        None => with_state(text, None, "not met"),
    }
}

fn portfolio_if_told(portfolio: Code, line: Option<&Line>) -> Option<Code>
    ensures { result ≡ whom_told portfolio (option_copied line.entry) }
{
    match line {
        None => None,
        Some(_) => Some(portfolio),
    }
}

fn told<R: Role>(desk: &Desk<R>, question: &Question) -> Result<Option<Code>, AllocError>
    ensures { IfOk result (λ portfolio. portfolio
        ≡ whom_told (own R.SIDE question.now) (line_in R.SIDE question.now (told_of R.SIDE desk.now (own R.SIDE question.now) question.now.id))) }
{
    let portfolio = question.pair.at(R::SIDE);
    let nomres = desk.told(portfolio, question.id)?;
    Ok(portfolio_if_told(portfolio, line_of(R::SIDE, question, &nomres)))
}

/// What became of the processed quantity.
fn with_outcome<R: Role>(
    text: Vec<u8>,
    desk: &Desk<R>,
    question: &Question,
    numbers: &Numbers,
) -> Result<Vec<u8>, AllocError>
    requires numbers { numbers.now ≡ numbers_of R.SIDE desk.now.facts question.now }
    ensures { IfOk result (λ bytes. bytes.items ≡ text.items ++ object_lines (outcome_objects R.SIDE desk.now question.now numbers.now)) }
{
    let peer = read(met(desk, question, numbers), question);
    let confirmed = read(desk.confirmed(question.id), question);
    let portfolio = told(desk, question)?;
    let frozen = with_frozen(text, rule(desk, question, numbers), numbers.closing)?;
    let met = with_peer(frozen, numbers.meeting.unwrap_or(0), peer)?;
    let lower = with_lower(met, processed(desk, question, numbers), peer)?;
    let stated = with_confirmed(lower, peer.is_some(), confirmed)?;
    with_told(stated, &portfolio)
}

/// What a quantity comes from as JSON lines: an object for each line of `explanation`, in its order,
/// with the same numbers. Each is compact, with its keys in byte order: `line` is the first word of
/// the text's line, and null stands for what is not there.
pub fn explanation_json<R: Role>(
    alloc: Global,
    desk: &Desk<R>,
    question: &Question,
) -> Result<Vec<u8>, AllocError>
    ensures { IfOk result (λ bytes. bytes.items ≡ object_lines (explanation_objects R.SIDE desk.now question.now)) }
{
    let numbers = Numbers::of(desk, question);
    let asked = with_asked(alloc, Vec::new(alloc), R::SIDE, question)?;
    let based = with_basis(asked, desk, question, &numbers)?;
    let reduced = with_reduction(based, desk, question, &numbers)?;
    with_outcome(reduced, desk, question, &numbers)
}
