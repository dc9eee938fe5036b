//! The calls of a desk as text.

use super::facts::fact_of;
use gi_calls::Words;
use gi_desk::{Body, Call, Desk, Role};
use std::alloc::{AllocError, Global};

/// The number of `spaces 5`.
fn spaces(text: &str) -> Option<u32> {
    text.strip_prefix("spaces ")?.parse::<u32>().ok()
}

/// The bytes of the text; of `spaces 5`, five spaces.
fn body(alloc: Global, text: &str) -> Result<Body, AllocError> {
    let bytes = match spaces(text) {
        Some(count) => vec![in alloc; b' '; count as usize]?,
        None => Vec::from_slice(alloc, text.as_bytes())?,
    };
    Ok(Body::from(bytes))
}

/// The mark of the next fact to save.
fn save<R: Role>(desk: &Desk<R>) -> Result<Option<Call>, AllocError> {
    let Some((n, fact)) = desk.unsaved() else {
        return Ok(None);
    };
    Ok(Some(Call::MarkSaved {
        n,
        fact: fact.copy()?,
    }))
}

/// The words as the mark of a fact.
fn mark(alloc: Global, words: Words<'_>) -> Option<Call> {
    let mut words = words;
    Some(Call::MarkSaved {
        n: words.number()?,
        fact: fact_of(alloc, words.rest())?,
    })
}

/// The call of this word and of those behind it.
fn named(alloc: Global, word: &str, mut words: Words<'_>) -> Result<Option<Call>, AllocError> {
    Ok(match word {
        "contract" => words.contract().map(|contract| Call::Contract(contract)),
        "notice" => words.notice().map(|notice| Call::Notice(notice)),
        "submit" => Some(Call::Submit(body(alloc, words.rest())?)),
        "close" => words.closing().map(|(id, rule)| Call::Close { id, rule }),
        "deliver" => Some(Call::Deliver(body(alloc, words.rest())?)),
        "resend" => words.cycle().map(|id| Call::Resend(id)),
        "mark" => mark(alloc, words),
        "halt" => Some(Call::Halt),
        _ => None,
    })
}

/// The call that the line makes of the desk.
pub(crate) fn call_of<R: Role>(
    alloc: Global,
    desk: &Desk<R>,
    line: &str,
) -> Result<Option<Call>, AllocError> {
    let mut words = Words::of(line);
    match words.next() {
        "save" => save(desk),
        word => named(alloc, word, words),
    }
}
