//! What became of the processed quantity.

ghost use Rattle.std.specs.Prelude.{◌≡◌, ◌≤◌, if◌then◌else◌, IfOk, None, Some, find, option_map, string_bytes};
ghost use Rattle.std.specs.Option.{option_and_then, option_copied};
ghost use Rattle.gi_desk.specs.History.{peer_in, peer_of};
ghost use Rattle.gi_desk.specs.Queries.{fact_at, told as told_of};
ghost use Rattle.gi_explanations.specs.Numbers.{numbers as numbers_of, own};
ghost use Rattle.gi_explanations.specs.Outcome.{confirmed_line as confirmed_line_of, frozen_line as frozen_line_of, is_told_line, line_in, lower_line as lower_line_of, outcome_lines as outcome_lines_of, peer_line as peer_line_of, read_at, told_line as told_line_of};

use crate::basis::rule;
use crate::numbers::Numbers;
use crate::question::Question;
use crate::reduction::processed;
use gi_desk::{Desk, Fact, Role};
use gi_messages::{Line, Nomres};
use gi_pairs::{Code, CycleId, Direction, Side, Table};
use gi_processing::Rule;
use std::alloc::{AllocError, Global};

fn peer_if(same: bool, peer: &Table) -> Option<&Table>
    ensures { option_copied result ≡ (if same then Some peer.now else None) }
{
    if same { Some(peer) } else { None }
}

fn peer_at<'a, R: Role>(desk: &'a Desk<R>, id: &CycleId, n: u32) -> Option<&'a Table>
    ensures { option_copied result ≡ option_and_then (peer_in id.now) (fact_at desk.now.facts n) }
{
    match desk.fact(n) {
        Some(Fact::Met { id: other, peer }) => peer_if(other == id, peer),
        _ => None,
    }
}

/// The peer's table.
pub(crate) fn met<'a, R: Role>(
    desk: &'a Desk<R>,
    question: &Question,
    numbers: &Numbers,
) -> Option<&'a Table>
    requires { numbers.now ≡ numbers_of R.SIDE desk.now.facts question.now }
    ensures { option_copied result ≡ peer_of question.now.id desk.now.facts }
{
    // No fact has the number 0.
    peer_at(desk, &question.id, numbers.meeting.unwrap_or(0))
}

pub(crate) fn read(table: Option<&Table>, question: &Question) -> Option<u64>
    ensures { result ≡ option_map (read_at question.now) (option_copied table.entry) }
{
    match table {
        Some(table) => Some(table.at(question.pair, question.direction, question.hour)),
        None => None,
    }
}

fn closed_line(alloc: Global, rule: Rule, number: u32) -> Result<String, AllocError>
    ensures { IfOk result (λ text. string_bytes text ≡ frozen_line_of rule (Some number)) }
{
    match rule {
        Rule::One => format!(in alloc; "frozen fact {number}\n"),
        Rule::Two => format!(in alloc; "frozen fact {number} rule 2\n"),
    }
}

fn frozen_line(alloc: Global, rule: Rule, closing: Option<u32>) -> Result<String, AllocError>
    ensures { IfOk result (λ text. string_bytes text ≡ frozen_line_of rule closing) }
{
    match closing {
        None => format!(in alloc; "frozen not closed\n"),
        Some(number) => closed_line(alloc, rule, number),
    }
}

fn peer_line(alloc: Global, number: u32, peer: Option<u64>) -> Result<String, AllocError>
    ensures { IfOk result (λ text. string_bytes text ≡ peer_line_of number peer) }
{
    match peer {
        None => format!(in alloc; "peer not met\n"),
        Some(quantity) => format!(in alloc; "peer fact {number} quantity {quantity}\n"),
    }
}

fn lower_line(alloc: Global, processed: u64, peer: Option<u64>) -> Result<String, AllocError>
    ensures { IfOk result (λ text. string_bytes text ≡ lower_line_of processed peer) }
{
    match peer {
        None => format!(in alloc; "lower not met\n"),
        Some(peer) => {
            let lower = processed.min(peer);
            format!(in alloc; "lower of {processed} and {peer} = {lower}\n")
        }
    }
}

fn unconfirmed_line(alloc: Global, met: bool) -> Result<String, AllocError>
    ensures { IfOk result (λ text. string_bytes text ≡ confirmed_line_of met None) }
{
    if met {
        return format!(in alloc; "confirmed not saved\n");
    }
    format!(in alloc; "confirmed not met\n")
}

fn confirmed_line(alloc: Global, met: bool, confirmed: Option<u64>) -> Result<String, AllocError>
    ensures { IfOk result (λ text. string_bytes text ≡ confirmed_line_of met confirmed) }
{
    match confirmed {
        Some(quantity) => format!(in alloc; "confirmed {quantity}\n"),
        None => unconfirmed_line(alloc, met),
    }
}

fn told_line(alloc: Global, portfolio: Code, line: Option<&Line>) -> Result<String, AllocError>
    ensures { IfOk result (λ text. string_bytes text ≡ told_line_of portfolio (option_copied line.entry)) }
{
    match line {
        None => format!(in alloc; "told no one\n"),
        Some(_) => format!(in alloc; "told {portfolio}\n"),
    }
}

fn is_told_for(line: &Line, code: Code, direction: Direction) -> bool
    ensures { result ≡ is_told_line code direction line.now }
{
    line.counterparty == code && line.direction == direction
}

fn told_line_for(lines: &[Line], code: Code, direction: Direction) -> Option<&Line>
    ensures { option_copied result ≡ find (is_told_line code direction) lines.now }
{
    lines.iter().find(|line| is_told_for(line, code, direction))
}

pub(crate) fn line_of<'a>(
    side: Side,
    question: &Question,
    nomres: &'a Option<Nomres>,
) -> Option<&'a Line>
    ensures { option_copied result ≡ line_in side question.now nomres.now }
{
    match nomres {
        None => None,
        Some(nomres) => {
            let code = question.pair.at(side.other());
            told_line_for(nomres.lines.as_slice(), code, question.direction)
        }
    }
}

fn told<R: Role>(alloc: Global, desk: &Desk<R>, question: &Question) -> Result<String, AllocError>
    ensures { IfOk result (λ text. string_bytes text
        ≡ told_line_of (own R.SIDE question.now) (line_in R.SIDE question.now (told_of R.SIDE desk.now (own R.SIDE question.now) question.now.id))) }
{
    let portfolio = question.pair.at(R::SIDE);
    let nomres = desk.told(portfolio, question.id)?;
    told_line(alloc, portfolio, line_of(R::SIDE, question, &nomres))
}

/// What became of the processed quantity.
pub(crate) fn outcome_lines<R: Role>(
    alloc: Global,
    desk: &Desk<R>,
    question: &Question,
    numbers: &Numbers,
) -> Result<String, AllocError>
    requires numbers { numbers.now ≡ numbers_of R.SIDE desk.now.facts question.now }
    ensures { IfOk result (λ text. string_bytes text ≡ outcome_lines_of R.SIDE desk.now question.now numbers.now) }
{
    let peer = read(met(desk, question, numbers), question);
    let confirmed = read(desk.confirmed(question.id), question);
    let frozen = frozen_line(alloc, rule(desk, question, numbers), numbers.closing)?;
    let met = peer_line(alloc, numbers.meeting.unwrap_or(0), peer)?;
    let lower = lower_line(alloc, processed(desk, question, numbers), peer)?;
    let confirmed = confirmed_line(alloc, peer.is_some(), confirmed)?;
    let told = told(alloc, desk, question)?;
    format!(in alloc; "{frozen}{met}{lower}{confirmed}{told}")
}
