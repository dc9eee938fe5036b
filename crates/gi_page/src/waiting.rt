//! What is not final: closed and not confirmed cycles, and the hours for which each would be in force.

ghost use Rattle.std.specs.Prelude.{◌≡◌, ◌++◌, IfOk, OnOk, string_bytes};
ghost use Rattle.gi_page.specs.Waiting.{is_below as is_below_of, is_waiting as is_waiting_of, note as note_of, number_if, span_words as span_words_of, wait_if as wait_if_of, wait_words as wait_words_of, waiting_hours as waiting_hours_of, waiting_part as waiting_part_of, waits as waits_of, would_rule as would_rule_of};

use crate::header::hours_words;
use gi_day_tables::{CycleMark, Standing};
use gi_picture::Hour;
use std::alloc::{AllocError, Global};

fn is_waiting(standing: Standing) -> bool
    ensures { result ≡ is_waiting_of standing }
{
    match standing {
        Standing::NotClosed | Standing::Confirmed => false,
        Standing::Frozen | Standing::Unsaved => true,
    }
}

fn is_below(cycle: Option<u8>, mark: u8) -> bool
    ensures { result ≡ is_below_of cycle mark }
{
    match cycle {
        Some(cycle) => cycle < mark,
        None => true,
    }
}

fn would_rule(mark: CycleMark, hour: Hour) -> bool
    ensures { result ≡ would_rule_of mark hour }
{
    mark.first <= hour.number && is_below(hour.cycle, mark.cycle)
}

fn add_number(numbers: &mut Vec<u8>, mark: CycleMark, hour: Hour) -> Result<(), AllocError>
    ensures { OnOk result (numbers.new.items ≡ numbers.old.items ++ number_if mark hour) }
{
    if would_rule(mark, hour) {
        numbers.push(hour.number)?;
    }
    Ok(())
}

fn waiting_hours(alloc: Global, mark: CycleMark, hours: &[Hour]) -> Result<Vec<u8>, AllocError>
    ensures { IfOk result (λ numbers. numbers.items ≡ waiting_hours_of mark hours.now) }
{
    let mut numbers = Vec::new(alloc);
    for hour in hours {
        add_number(&mut numbers, mark, *hour)?;
    }
    Ok(numbers)
}

fn wait_words(
    alloc: Global,
    cycle: u8,
    first: Option<u8>,
    last: Option<u8>,
) -> Result<String, AllocError>
    ensures { IfOk result (λ text. string_bytes text ≡ wait_words_of cycle first last) }
{
    let Some(first) = first else {
        return Ok(String::new(alloc));
    };
    let Some(last) = last else {
        return Ok(String::new(alloc));
    };
    let hours = hours_words(alloc, u32::from(first), last)?;
    format!(in alloc; "; <span>cycle {cycle}, {hours}</span>")
}

#[tactic(auto, unfolding(crate::specs::Waiting::span_words))]
fn span_words(alloc: Global, cycle: u8, numbers: &[u8]) -> Result<String, AllocError>
    ensures { IfOk result (λ text. string_bytes text ≡ span_words_of cycle numbers.now) }
{
    wait_words(
        alloc,
        cycle,
        numbers.first().copied(),
        numbers.last().copied(),
    )
}

#[tactic(auto, unfolding(crate::specs::Waiting::wait_if))]
fn wait_if(alloc: Global, hours: &[Hour], mark: CycleMark) -> Result<String, AllocError>
    ensures { IfOk result (λ text. string_bytes text ≡ wait_if_of hours.now mark) }
{
    if !is_waiting(mark.standing) {
        return Ok(String::new(alloc));
    }
    let numbers = waiting_hours(alloc, mark, hours)?;
    span_words(alloc, mark.cycle, &numbers)
}

fn waits(alloc: Global, hours: &[Hour], marks: &[CycleMark]) -> Result<String, AllocError>
    ensures { IfOk result (λ text. string_bytes text ≡ waits_of hours.now marks.now) }
{
    let mut text = String::new(alloc);
    for mark in marks {
        let words = wait_if(alloc, hours, *mark)?;
        text.push_str(words.as_str())?;
    }
    Ok(text)
}

#[tactic(auto, unfolding(crate::specs::Waiting::note))]
fn note(alloc: Global, words: &str) -> Result<String, AllocError>
    ensures { IfOk result (λ text. string_bytes text ≡ note_of words.now) }
{
    if words.len() == 0 {
        return Ok(String::new(alloc));
    }
    format!(in alloc; "<p class=\"note\"><b>Not final:</b> closed and not confirmed{words}.</p>\n")
}

/// Which closed cycles wait to be confirmed, and for which hours; nothing where none does.
#[tactic(auto, unfolding(crate::specs::Waiting::waiting_part))]
pub(crate) fn waiting_part(
    alloc: Global,
    hours: &[Hour],
    marks: &[CycleMark],
) -> Result<String, AllocError>
    ensures { IfOk result (λ text. string_bytes text ≡ waiting_part_of hours.now marks.now) }
{
    let words = waits(alloc, hours, marks)?;
    note(alloc, words.as_str())
}
