//! The calls of a seat as text: the word of the call, the seat's number, and what is called.

use gi_calls::{Fault, Words};
use gi_desk::{Body, Call};
use gi_pairs::Code;
use std::alloc::{AllocError, Global};
use std::fmt::Write;

/// The bytes of a text.
fn body_of(alloc: Global, text: &str) -> Result<Body, AllocError> {
    Ok(Body::from(Vec::from_slice(alloc, text.as_bytes())?))
}

/// A document of the portfolio with 64 lines, each with the greatest quantity in 24 hours: 23,292
/// bytes as a fact, where the portfolio is of one letter and the version of one digit.
fn long_document(alloc: Global, portfolio: Code, version: u32) -> Result<Body, Fault> {
    let hours = "999999999999,".repeat(alloc, 23)?;
    let mut text = format!(in alloc;
        "{{\"kind\":\"NOMINT\",\"point\":\"BORDER-1\",\"portfolio\":\"{portfolio}\",\"day\":\"2026-01-15\",\"version\":{version},\"lines\":["
    )?;
    for line in 10..74u8 {
        let end = if line == 73 { "]}" } else { "," };
        write!(
            text,
            "{{\"counterparty\":\"B{line}\",\"direction\":\"IM\",\"hours\":[{hours}999999999999]}}{end}"
        )?;
    }
    Ok(Body::from(text.into_bytes()))
}

/// The words as a submission of a long document.
fn long(alloc: Global, mut words: Words<'_>) -> Result<Option<Call>, Fault> {
    let (Some(portfolio), Some(version)) = (words.code(), words.number()) else {
        return Ok(None);
    };
    Ok(Some(Call::Submit(long_document(alloc, portfolio, version)?)))
}

/// The call of this word.
pub(crate) fn named(
    alloc: Global,
    word: &str,
    mut words: Words<'_>,
) -> Result<Option<Call>, Fault> {
    Ok(match word {
        "contract" => words.contract().map(Call::Contract),
        "notice" => words.notice().map(Call::Notice),
        "submit" => Some(Call::Submit(body_of(alloc, words.rest())?)),
        "long" => return long(alloc, words),
        "close" => words.closing().map(|(id, rule)| Call::Close { id, rule }),
        "deliver" => Some(Call::Deliver(body_of(alloc, words.rest())?)),
        "resend" => words.cycle().map(|id| Call::Resend(id)),
        "halt" => Some(Call::Halt),
        _ => None,
    })
}

/// The number of the seat, and the call.
pub fn call_of(alloc: Global, line: &str) -> Result<Option<(u8, Call)>, Fault> {
    let mut words = Words::of(line);
    let word = words.next();
    let Some(seat) = words.byte() else {
        return Ok(None);
    };
    match named(alloc, word, words)? {
        Some(call) => Ok(Some((seat, call))),
        None => Ok(None),
    }
}
