//! Calls to what a side has recorded.

use crate::nominations::add_verdict;
use crate::nomint_text::nomint;
use crate::processing::records::Records;
use gi_calls::{Answer, Fault, Words};
use gi_messages::Nomint;
use gi_nominations::Verdict;
use std::alloc::{AllocError, Global};

fn set(records: &mut Records, mut words: Words<'_>, text: &mut Answer) -> bool {
    let Some(contract) = words.contract() else {
        return false;
    };
    text.done(&records.set(contract));
    true
}

fn refuses(records: &Records, mut words: Words<'_>, text: &mut Answer) -> bool {
    let Some(contract) = words.contract() else {
        return false;
    };
    text.show(records.contracts().refuses(&contract));
    true
}

fn give(records: &mut Records, mut words: Words<'_>, text: &mut Answer) -> bool {
    let Some(notice) = words.notice() else {
        return false;
    };
    text.done(&records.notice(notice));
    true
}

fn knows(records: &Records, mut words: Words<'_>, text: &mut Answer) -> bool {
    let (Some(portfolio), Some(day)) = (words.code(), words.day()) else {
        return false;
    };
    text.show(records.contracts().knows(portfolio, day));
    true
}

fn available(records: &Records, mut words: Words<'_>, text: &mut Answer) -> bool {
    let (Some(portfolio), Some(day), Some(direction), Some(hour)) = (
        words.code(),
        words.day(),
        words.direction(),
        words.byte(),
    ) else {
        return false;
    };
    let quantity = records
        .contracts()
        .available(portfolio, day, direction, hour);
    text.show(quantity);
    true
}

/// The verdict on a nomination, which is taken where that is wanted and it is recordable.
fn verdict_on(records: &mut Records, nomint: Nomint, takes: bool) -> Result<Verdict, AllocError> {
    if takes {
        records.take(nomint)
    } else {
        Ok(records.judge(&nomint))
    }
}

/// Judges a nomination, or takes it where that is wanted and it is recordable.
fn nominate(
    alloc: Global,
    records: &mut Records,
    words: Words<'_>,
    takes: bool,
    text: &mut Answer,
) -> Result<bool, Fault> {
    let Some(nomint) = nomint(alloc, words.rest())? else {
        return Ok(false);
    };
    add_verdict(verdict_on(records, nomint, takes)?, text);
    Ok(true)
}

/// The answer of a call that the side's records are for.
pub(crate) fn answer_recorded(
    alloc: Global,
    records: &mut Records,
    name: &str,
    words: Words<'_>,
    text: &mut Answer,
) -> Result<bool, Fault> {
    match name {
        "judge" => nominate(alloc, records, words, false, text),
        "take" => nominate(alloc, records, words, true, text),
        _ => Ok(answer_contracts(records, name, words, text)),
    }
}

/// The answer of a call that contracts and notices are for.
fn answer_contracts(
    records: &mut Records,
    name: &str,
    words: Words<'_>,
    text: &mut Answer,
) -> bool {
    match name {
        "set" => set(records, words, text),
        "refuses" => refuses(records, words, text),
        "notice" => give(records, words, text),
        "knows" => knows(records, words, text),
        "available" => available(records, words, text),
        _ => false,
    }
}
