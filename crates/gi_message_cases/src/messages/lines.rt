//! Lines of a message, from the words of a call.

use gi_calls::{Fault, Words, hours_of};
use gi_messages::{Line, Lines};
use std::alloc::Global;

/// The line `COUNTERPARTY DIRECTION QUANTITY QUANTITY ..`.
pub(crate) fn line_of(alloc: Global, words: &str) -> Result<Option<Line>, Fault> {
    let mut words = Words::of(words);
    let (Some(counterparty), Some(direction)) = (words.code(), words.direction()) else {
        return Ok(None);
    };
    let Some(hours) = hours_of(alloc, words)? else {
        return Ok(None);
    };
    Ok(Some(Line {
        counterparty,
        direction,
        hours,
    }))
}

/// The lines `LINE / LINE / ..`.
pub(crate) fn lines_of(alloc: Global, words: Words) -> Result<Option<Lines<Line>>, Fault> {
    if words.is_empty() {
        return Ok(Some(Lines::from(Vec::new(alloc))));
    }
    let mut lines = Vec::new(alloc);
    for part in words.rest().split(" / ") {
        let Some(line) = line_of(alloc, part)? else {
            return Ok(None);
        };
        lines.push(line)?;
    }
    Ok(Some(Lines::from(lines)))
}
