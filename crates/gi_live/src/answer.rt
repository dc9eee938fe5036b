ghost use Rattle.std.specs.Prelude.{◌≡◌, IfOk, string_bytes};
ghost use Rattle.gi_desk.specs.declared.reply.Answer.TheVariants as answers;
ghost use Rattle.gi_live.specs.Answers.{answer_text, closed_text, due_text, portfolio_part as portfolio_part_of, refused_text};

use gi_desk::{Answer, Refusal};
use gi_pairs::{Code, CycleId};
use std::alloc::{AllocError, Global};

fn portfolio_part(alloc: Global, portfolio: Option<Code>) -> Result<String, AllocError>
    ensures { IfOk result (λ text. string_bytes text ≡ portfolio_part_of portfolio) }
{
    match portfolio {
        Some(code) => format!(in alloc; ",\"portfolio\":\"{code}\""),
        None => Ok(String::new(alloc)),
    }
}

/// The line of what was refused by this name: `{"answer":"refused","line":6,"name":"Stale 2","portfolio":"A"}`, the
/// portfolio where the document could be read.
pub fn refused_line(
    alloc: Global,
    line: u64,
    name: &str,
    portfolio: Option<Code>,
) -> Result<String, AllocError>
    ensures { IfOk result (λ text. string_bytes text ≡ refused_text line name.now portfolio) }
{
    let portfolio = portfolio_part(alloc, portfolio)?;
    format!(in alloc; "{{\"answer\":\"refused\",\"line\":{line},\"name\":\"{name}\"{portfolio}}}\n")
}

fn refusal_line(
    alloc: Global,
    line: u64,
    refusal: Refusal,
    portfolio: Option<Code>,
) -> Result<String, AllocError>
    ensures { IfOk result (λ text. string_bytes text ≡ answer_text line (answers.Refused refusal) portfolio) }
{
    let name = format!(in alloc; "{refusal}")?;
    refused_line(alloc, line, name.as_str(), portfolio)
}

/// The line of a desk's answer to what was asked on the line of this number, from 1, such as
/// `{"answer":"recorded","fact":2,"line":4}`. A portfolio is named beside a refusal alone.
pub fn answer_line(
    alloc: Global,
    line: u64,
    answer: Answer,
    portfolio: Option<Code>,
) -> Result<String, AllocError>
    ensures { IfOk result (λ text. string_bytes text ≡ answer_text line answer portfolio) }
{
    match answer {
        Answer::Recorded { n } => {
            format!(in alloc; "{{\"answer\":\"recorded\",\"fact\":{n},\"line\":{line}}}\n")
        }
        Answer::Repeat { n } => {
            format!(in alloc; "{{\"answer\":\"repeat\",\"fact\":{n},\"line\":{line}}}\n")
        }
        Answer::Kept { have, parts } => format!(in alloc;
            "{{\"answer\":\"kept\",\"have\":{have},\"line\":{line},\"parts\":{parts}}}\n"
        ),
        Answer::Saved { n } => {
            format!(in alloc; "{{\"answer\":\"saved\",\"fact\":{n},\"line\":{line}}}\n")
        }
        Answer::Resent => format!(in alloc; "{{\"answer\":\"resent\",\"line\":{line}}}\n"),
        Answer::Stopped => format!(in alloc; "{{\"answer\":\"stopped\",\"line\":{line}}}\n"),
        Answer::Refused(refusal) => refusal_line(alloc, line, refusal, portfolio),
    }
}

/// The line that so many cycles are due at the moment that the line of this number names, such as
/// `{"answer":"due","cycles":2,"line":7}`.
pub(crate) fn due_line(alloc: Global, line: u64, cycles: u64) -> Result<String, AllocError>
    ensures { IfOk result (λ text. string_bytes text ≡ due_text line cycles) }
{
    format!(in alloc; "{{\"answer\":\"due\",\"cycles\":{cycles},\"line\":{line}}}\n")
}

/// The line of a desk's answer to the closing of a cycle that is due, such as
/// `{"answer":"closed","cycle":35,"day":"2026-01-15","fact":9,"line":7}`.
pub(crate) fn closed_line(
    alloc: Global,
    line: u64,
    id: CycleId,
    answer: Answer,
) -> Result<String, AllocError>
    ensures { IfOk result (λ text. string_bytes text ≡ closed_text line id answer) }
{
    let (day, cycle) = (id.day, id.cycle);
    match answer {
        Answer::Recorded { n } => format!(in alloc;
            "{{\"answer\":\"closed\",\"cycle\":{cycle},\"day\":\"{day}\",\"fact\":{n},\"line\":{line}}}\n"
        ),
        _ => answer_line(alloc, line, answer, None),
    }
}
