ghost use Rattle.std.specs.Prelude.{◌≡◌};
ghost use Rattle.gi_script.specs.Grammar.{IsRuleAfter, Says, SaysCall, SaysClosing, SaysContract, SaysCount, SaysCycle, SaysNotice, SaysNumber};
ghost use Rattle.gi_script.specs.Reading.{Finds, Reads};
ghost use Rattle.gi_script.specs.Words.{words_of};
ghost use Rattle.gi_desk.specs.declared.call.Call.TheVariants as calls;

use crate::fault::LineFault;
use crate::instruction::Instruction;
use crate::verb::Verb;
use crate::words::Words;
use gi_desk::{Body, Call};
use gi_pairs::{CycleId, Side};
use gi_processing::{Contract, Notice, Rule};
use std::alloc::Global;

fn contract(mut words: Words<'_>) -> Option<Contract>
    ensures { Finds (SaysContract words.entry) result }
{
    let portfolio = words.code()?;
    let day = words.day()?;
    let direction = words.direction()?;
    let firm = words.quantity()?;
    let interruptible = words.quantity()?;
    if !words.is_empty() {
        return None;
    }
    Some(Contract {
        portfolio,
        day,
        direction,
        firm,
        interruptible,
    })
}

fn notice(mut words: Words<'_>) -> Option<Notice>
    ensures { Finds (SaysNotice words.entry) result }
{
    let day = words.day()?;
    let direction = words.direction()?;
    let first = words.byte()?;
    let last = words.byte()?;
    let firm = words.permille()?;
    let interruptible = words.permille()?;
    if !words.is_empty() {
        return None;
    }
    Some(Notice {
        day,
        direction,
        first,
        last,
        firm,
        interruptible,
    })
}

fn cycle(mut words: Words<'_>) -> Option<CycleId>
    ensures { Finds (SaysCycle words.entry) result }
{
    let day = words.day()?;
    let cycle = words.byte()?;
    if !words.is_empty() {
        return None;
    }
    Some(CycleId { day, cycle })
}

fn rule(mut words: Words<'_>) -> Option<Rule>
    ensures { Finds (IsRuleAfter words.entry) result }
{
    if words.is_empty() {
        return Some(Rule::Two);
    }
    let rule = words.rule()?;
    if !words.is_empty() {
        return None;
    }
    Some(rule)
}

fn closing(mut words: Words<'_>) -> Option<(CycleId, Rule)>
    ensures { Finds (λ closing. SaysClosing words.entry closing.0 closing.1) result }
{
    let day = words.day()?;
    let cycle = words.byte()?;
    let rule = rule(words)?;
    Some((CycleId { day, cycle }, rule))
}

fn close(closing: (CycleId, Rule)) -> Call
    ensures { result ≡ calls.Close closing.0 closing.1 }
{
    Call::Close {
        id: closing.0,
        rule: closing.1,
    }
}

fn count(mut words: Words<'_>) -> Option<u32>
    ensures { Finds (SaysCount words.entry) result }
{
    let count = words.count()?;
    if !words.is_empty() {
        return None;
    }
    Some(count)
}

fn number(mut words: Words<'_>) -> Option<u32>
    ensures { Finds (SaysNumber words.entry) result }
{
    let number = words.number()?;
    if !words.is_empty() {
        return None;
    }
    Some(number)
}

fn body(alloc: Global, words: Words<'_>) -> Result<Body, LineFault>
    ensures { Reads (λ body. words.entry ≡ words_of body) result }
{
    let Some(text) = words.text() else {
        return Err(LineFault::Unreadable);
    };
    let Ok(bytes) = Vec::from_slice(alloc, text.as_bytes()) else {
        return Err(LineFault::OutOfMemory);
    };
    Ok(Body::from(bytes))
}

/// What `VERB` and the words after it ask of a desk.
pub fn call(alloc: Global, verb: Verb, words: Words<'_>) -> Result<Call, LineFault>
    ensures { Reads (SaysCall verb words.entry) result }
{
    match verb {
        Verb::Contract => Ok(Call::Contract(contract(words).ok_or(LineFault::Unreadable)?)),
        Verb::Notice => Ok(Call::Notice(notice(words).ok_or(LineFault::Unreadable)?)),
        Verb::Submit => Ok(Call::Submit(body(alloc, words)?)),
        Verb::Close => Ok(close(closing(words).ok_or(LineFault::Unreadable)?)),
        Verb::Resend => Ok(Call::Resend(cycle(words).ok_or(LineFault::Unreadable)?)),
        Verb::Deliver => Ok(Call::Deliver(body(alloc, words)?)),
        Verb::Halt if words.is_empty() => Ok(Call::Halt),
        Verb::Halt | Verb::Save | Verb::Restart | Verb::Carry => Err(LineFault::Unreadable),
    }
}

/// What `SIDE VERB` and the words after it say.
pub fn command(
    alloc: Global,
    side: Side,
    verb: Verb,
    words: Words<'_>,
) -> Result<Instruction, LineFault>
    ensures { Reads (Says verb side words.entry) result }
{
    match verb {
        Verb::Save => Ok(Instruction::Save {
            side,
            count: count(words).ok_or(LineFault::Unreadable)?,
        }),
        Verb::Deliver => Ok(Instruction::Deliver {
            side,
            packet: number(words).ok_or(LineFault::Unreadable)?,
        }),
        Verb::Restart => Ok(Instruction::Restart {
            side,
            keep: number(words).ok_or(LineFault::Unreadable)?,
        }),
        Verb::Carry if words.is_empty() => Ok(Instruction::Carry { side }),
        Verb::Carry => Err(LineFault::Unreadable),
        _ => Ok(Instruction::Call {
            side,
            call: call(alloc, verb, words)?,
        }),
    }
}
