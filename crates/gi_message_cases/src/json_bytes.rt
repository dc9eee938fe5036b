//! The bytes that a call of a decoder names.

use gi_calls::{Answer, Fault, Words};
use std::alloc::Global;

/// A text with a part in place of its one `*`.
fn filled(alloc: Global, text: &str, part: &str) -> Result<Option<Vec<u8>>, Fault> {
    let Some((front, back)) = text.split_once('*') else {
        return Ok(None);
    };
    Ok(Some([front, part, back].concat(alloc)?.into_bytes()))
}

/// `_bytes HEX HEX ..`: the bytes, each of two hexadecimal digits.
fn listed(alloc: Global, words: Words) -> Result<Option<Vec<u8>>, Fault> {
    let mut bytes = Vec::new(alloc);
    for word in words.rest().split_whitespace() {
        let Ok(byte) = u8::from_str_radix(word, 16) else {
            return Ok(None);
        };
        bytes.push(byte)?;
    }
    Ok(Some(bytes))
}

/// `_spaced HEX TEXT`: the text with that byte in place of each space.
fn spaced(alloc: Global, mut words: Words) -> Result<Option<Vec<u8>>, Fault> {
    let Ok(byte) = u8::from_str_radix(words.next(), 16) else {
        return Ok(None);
    };
    let mut bytes = Vec::from_slice(alloc, words.rest().as_bytes())?;
    for old in &mut bytes {
        if *old == b' ' {
            *old = byte;
        }
    }
    Ok(Some(bytes))
}

/// `_sized COUNT TEXT`: the text, cut or with spaces behind it, so that it has so many bytes.
fn sized(alloc: Global, mut words: Words) -> Result<Option<Vec<u8>>, Fault> {
    let Some(count) = words.number() else {
        return Ok(None);
    };
    let mut bytes = Vec::from_slice(alloc, words.rest().as_bytes())?;
    bytes.resize(count as usize, b' ')?;
    Ok(Some(bytes))
}

/// `_nested COUNT TEXT`: the text with so many arrays, each in the one before, in place of `*`.
fn nested(alloc: Global, mut words: Words) -> Result<Option<Vec<u8>>, Fault> {
    let Some(count) = words.number() else {
        return Ok(None);
    };
    let opened = "[".repeat(alloc, count as usize)?;
    let closed = "]".repeat(alloc, count as usize)?;
    let arrays = [opened.as_str(), closed.as_str()].concat(alloc)?;
    filled(alloc, words.rest(), arrays.as_str())
}

/// `_many COUNT ELEMENT TEXT`: the text with so many elements, with commas between them, in place
/// of `*`. In an element `#` stands for its number, from 0, in four digits.
fn many(alloc: Global, mut words: Words) -> Result<Option<Vec<u8>>, Fault> {
    let Some(count) = words.number() else {
        return Ok(None);
    };
    let element = words.next();
    let mut elements = String::new(alloc);
    for number in 0..count {
        add_element(alloc, element, number, &mut elements)?;
    }
    filled(alloc, words.rest(), elements.as_str())
}

/// Adds an element with its number in place of `#`, behind a comma where it is not the first.
fn add_element(
    alloc: Global,
    element: &str,
    number: u32,
    elements: &mut String,
) -> Result<(), Fault> {
    let comma = if number > 0 { "," } else { "" };
    let part = match element.split_once('#') {
        Some((front, back)) => format!(in alloc; "{comma}{front}{number:04}{back}"),
        None => format!(in alloc; "{comma}{element}"),
    };
    elements.push_str(part?.as_str())?;
    Ok(())
}

/// The bytes that the words behind a decoder's name tell in a form: the rest of the line as it
/// stands in the form without a name. `None` where there is no such form.
pub(crate) fn json_bytes(
    alloc: Global,
    form: &str,
    words: Words,
) -> Result<Option<Vec<u8>>, Fault> {
    match form {
        "" => Ok(Some(Vec::from_slice(alloc, words.rest().as_bytes())?)),
        "_bytes" => listed(alloc, words),
        "_spaced" => spaced(alloc, words),
        "_sized" => sized(alloc, words),
        "_nested" => nested(alloc, words),
        "_many" => many(alloc, words),
        _ => Ok(None),
    }
}

/// Adds what is written for something that was read: the written bytes, or in the form of many
/// elements whether they are the bytes that were read.
pub(crate) fn add_written(form: &str, read: &[u8], written: &[u8], text: &mut Answer) {
    let answer = if form == "_many" {
        if written == read {
            "written as read"
        } else {
            "written otherwise"
        }
    } else {
        str::from_utf8(written).unwrap_or("no UTF-8")
    };
    text.add(answer);
}
