//! How the processed quantity is made.

ghost use Rattle.std.specs.Prelude.{◌≡◌, ◌*◌, ◌/◌, ◌-◌, ◌<◌, ◌≤◌, ◌^◌, IfOk, length, string_bytes};
ghost use Rattle.std.specs.Option.{option_copied};
ghost use Rattle.gi_nominations.specs.Lines.{most_lines};
ghost use Rattle.gi_processing.specs.Capacity.{left_of};
ghost use Rattle.gi_processing.specs.Reduction.{in_direction};
ghost use Rattle.gi_processing.specs.declared.rule.Rule.TheVariants.{Two};
ghost use Rattle.gi_explanations.specs.Numbers.{counterparty, numbers as numbers_of};
ghost use Rattle.gi_explanations.specs.Sums.{sum_served_before};
ghost use Rattle.gi_explanations.specs.Reduction.{amounts as amounts_in, amounts_of as amounts_at, available_line as available_line_of, formula as formula_of, is_covered as is_covered_of, priority_line as priority_line_of, processed_line as processed_line_of, processed_quantity as processed_quantity_of, reason as reason_of, reduced as reduced_of, reduction_lines as reduction_lines_of, sums_line as sums_line_of};

use crate::basis::{contract, line, nomination, notice, rule};
use crate::covering::is_covered;
use crate::lines::{Group, Span, quantity, sum};
use crate::numbers::Numbers;
use crate::question::Question;
use gi_desk::{Desk, Role};
use gi_messages::NominationLine;
use gi_pairs::Side;
use gi_processing::{Contract, Notice, Rule, Thousandths, scaled};
use std::alloc::{AllocError, Global};

/// What is available, and the sums of what is nominated, in kWh/h.
#[derive(Clone, Copy)]
pub(crate) struct Amounts {
    pub available: u64,
    /// Nominated by the lines that are served before.
    pub nominated_before: u64,
    /// After those, of what is available.
    pub left: u64,
    /// Of the counterparties before the one that is asked about, among the lines that share that.
    pub before: u64,
    /// Of those and of that one.
    pub up_to: u64,
    pub all: u64,
}

fn available(contract: Option<Contract>, notice: Option<Notice>) -> u64
    ensures { result ≡ left_of contract notice }
{
    match contract {
        Some(contract) => contract.parts(Thousandths::under(&notice)),
        None => 0,
    }
}

/// What the lines that are served before the line nominate.
fn nominated_before(
    rule: Rule,
    line: Option<&NominationLine>,
    question: &Question,
    lines: &[NominationLine],
) -> u64
    requires few { length lines.now ≤ most_lines }
    ensures { result ≡ sum_served_before rule (option_copied line.entry) (question.now.hour - 1) (in_direction question.now.direction lines.now) }
{
    match (rule, line) {
        (Rule::Two, Some(line)) => {
            let before = Group::Before(line.priority);
            let (direction, hour) = (question.direction, question.hour);
            sum(lines, Span::All, before, line.counterparty, direction, hour)
        }
        _ => 0,
    }
}

fn amounts_of(
    side: Side,
    question: &Question,
    lines: &[NominationLine],
    rule: Rule,
    line: Option<&NominationLine>,
    available: u64,
) -> Amounts
    requires few { length lines.now ≤ most_lines }
    ensures value { result ≡ amounts_at rule (option_copied line.entry) available (counterparty side question.now) (question.now.hour - 1) (in_direction question.now.direction lines.now) }
    ensures before { result.before ≤ result.all }
    ensures up_to { result.up_to ≤ result.all }
{
    let code = question.pair.at(side.other());
    let (direction, hour) = (question.direction, question.hour);
    let group = Group::sharing(rule, line);
    let before = sum(lines, Span::Before, group, code, direction, hour);
    let up_to = sum(lines, Span::UpTo, group, code, direction, hour);
    let all = sum(lines, Span::All, group, code, direction, hour);
    let nominated_before = nominated_before(rule, line, question, lines);
    Amounts {
        available,
        nominated_before,
        left: available.saturating_sub(nominated_before),
        before,
        up_to,
        all,
    }
}

/// What is available, and the sums of the nomination in force.
pub(crate) fn amounts_for<R: Role>(
    desk: &Desk<R>,
    question: &Question,
    numbers: &Numbers,
) -> Amounts
    requires numbers { numbers.now ≡ numbers_of R.SIDE desk.now.facts question.now }
    ensures value { result ≡ amounts_in R.SIDE desk.now.facts question.now }
    ensures before { result.before ≤ result.all }
    ensures up_to { result.up_to ≤ result.all }
{
    let available = available(
        contract(desk, question, numbers),
        notice(desk, question, numbers),
    );
    match nomination(desk, question, numbers) {
        Some(document) => {
            let rule = rule(desk, question, numbers);
            let line = line(R::SIDE, question, Some(document));
            let lines = document.lines.as_slice();
            amounts_of(R::SIDE, question, lines, rule, line, available)
        }
        None => Amounts {
            available,
            nominated_before: 0,
            left: available,
            before: 0,
            up_to: 0,
            all: 0,
        },
    }
}

/// A quantity's part of what is left.
fn reduced(amounts: Amounts, nominated: u64) -> u64
    requires before { amounts.before ≤ amounts.all }
    requires up_to { amounts.up_to ≤ amounts.all }
    ensures { result ≡ reduced_of amounts nominated }
{
    if amounts.all <= amounts.left {
        return nominated;
    }
    let up_to = scaled(amounts.left, amounts.up_to, amounts.all);
    up_to.saturating_sub(scaled(amounts.left, amounts.before, amounts.all))
}

/// The processed quantity, in kWh/h.
pub(crate) fn processed<R: Role>(desk: &Desk<R>, question: &Question, numbers: &Numbers) -> u64
    requires numbers { numbers.now ≡ numbers_of R.SIDE desk.now.facts question.now }
    ensures { result ≡ processed_quantity_of R.SIDE desk.now.facts question.now }
{
    if !is_covered(desk.calendar(), question) {
        return 0;
    }
    match line(R::SIDE, question, nomination(desk, question, numbers)) {
        Some(line) => {
            let nominated = quantity(line, question.hour);
            reduced(amounts_for(desk, question, numbers), nominated)
        }
        None => 0,
    }
}

fn available_line(
    alloc: Global,
    contract: Option<Contract>,
    notice: Option<Notice>,
    available: u64,
) -> Result<String, AllocError>
    ensures { IfOk result (λ text. string_bytes text ≡ available_line_of contract notice available) }
{
    let Some(contract) = contract else {
        return format!(in alloc; "available no contract = 0\n");
    };
    let (firm, interruptible) = (contract.firm.value(), contract.interruptible.value());
    let left = Thousandths::under(&notice);
    let (of_firm, of_interruptible) = (left.firm, left.interruptible);
    format!(in alloc;
        "available {firm} * {of_firm} / 1000 + {interruptible} * {of_interruptible} / 1000 = {available}\n"
    )
}

fn of_priority(
    alloc: Global,
    line: Option<&NominationLine>,
    amounts: Amounts,
) -> Result<String, AllocError>
    ensures { IfOk result (λ text. string_bytes text ≡ priority_line_of Two (option_copied line.entry) amounts) }
{
    match line {
        None => format!(in alloc; "priority none\n"),
        Some(line) => {
            let (priority, left) = (line.priority, amounts.left);
            let before = amounts.nominated_before;
            format!(in alloc; "priority {priority} before {before} left {left}\n")
        }
    }
}

fn priority_line(
    alloc: Global,
    rule: Rule,
    line: Option<&NominationLine>,
    amounts: Amounts,
) -> Result<String, AllocError>
    ensures { IfOk result (λ text. string_bytes text ≡ priority_line_of rule (option_copied line.entry) amounts) }
{
    match rule {
        Rule::One => Ok(String::new(alloc)),
        Rule::Two => of_priority(alloc, line, amounts),
    }
}

fn sums_line(alloc: Global, amounts: Amounts) -> Result<String, AllocError>
    ensures { IfOk result (λ text. string_bytes text ≡ sums_line_of amounts) }
{
    let (before, up_to, all) = (amounts.before, amounts.up_to, amounts.all);
    format!(in alloc; "sums before {before} up to {up_to} all {all}\n")
}

fn formula(alloc: Global, amounts: Amounts) -> Result<String, AllocError>
    ensures { IfOk result (λ text. string_bytes text ≡ formula_of amounts) }
{
    let (left, all) = (amounts.left, amounts.all);
    if all <= left {
        return format!(in alloc; "all {all} within {left}");
    }
    let (before, up_to) = (amounts.before, amounts.up_to);
    format!(in alloc; "{left} * {up_to} / {all} - {left} * {before} / {all}")
}

fn reason(
    alloc: Global,
    covered: bool,
    line: Option<&NominationLine>,
    amounts: Amounts,
) -> Result<String, AllocError>
    ensures { IfOk result (λ text. string_bytes text ≡ reason_of covered (option_copied line.entry) amounts) }
{
    if !covered {
        return format!(in alloc; "hour not covered");
    }
    match line {
        None => format!(in alloc; "no line"),
        Some(_) => formula(alloc, amounts),
    }
}

fn processed_line(
    alloc: Global,
    covered: bool,
    line: Option<&NominationLine>,
    amounts: Amounts,
    quantity: u64,
) -> Result<String, AllocError>
    ensures { IfOk result (λ text. string_bytes text ≡ processed_line_of covered (option_copied line.entry) amounts quantity) }
{
    let reason = reason(alloc, covered, line, amounts)?;
    format!(in alloc; "processed {reason} = {quantity}\n")
}

/// How the processed quantity is made.
pub(crate) fn reduction_lines<R: Role>(
    alloc: Global,
    desk: &Desk<R>,
    question: &Question,
    numbers: &Numbers,
) -> Result<String, AllocError>
    requires numbers { numbers.now ≡ numbers_of R.SIDE desk.now.facts question.now }
    ensures { IfOk result (λ text. string_bytes text ≡ reduction_lines_of R.SIDE desk.now.facts question.now) }
{
    let amounts = amounts_for(desk, question, numbers);
    let covered = is_covered(desk.calendar(), question);
    let line = line(R::SIDE, question, nomination(desk, question, numbers));
    let quantity = processed(desk, question, numbers);
    let contract = contract(desk, question, numbers);
    let notice = notice(desk, question, numbers);
    let available = available_line(alloc, contract, notice, amounts.available)?;
    let rule = rule(desk, question, numbers);
    let priority = priority_line(alloc, rule, line, amounts)?;
    let sums = sums_line(alloc, amounts)?;
    let processed = processed_line(alloc, covered, line, amounts, quantity)?;
    format!(in alloc; "{available}{priority}{sums}{processed}")
}
