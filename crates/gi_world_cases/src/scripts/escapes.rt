use gi_calls::Answer;
use std::alloc::{AllocError, Global};

/// The byte that what follows a backslash stands for, and the text behind it.
fn escaped(text: &str) -> Option<(u8, &str)> {
    match text.split_at_checked(1)? {
        ("n", rest) => Some((b'\n', rest)),
        ("r", rest) => Some((b'\r', rest)),
        ("t", rest) => Some((b'\t', rest)),
        ("x", rest) => {
            let (digits, rest) = rest.split_at_checked(2)?;
            Some((u8::from_str_radix(digits, 16).ok()?, rest))
        }
        _ => None,
    }
}

/// The bytes of a text in which `\n`, `\r`, `\t` and `\xHH` are a byte each. None where anything
/// else follows a backslash.
pub fn unescaped(alloc: Global, text: &str) -> Result<Option<Vec<u8>>, AllocError> {
    let mut parts = text.split('\\');
    let plain = parts.next().unwrap_or("");
    let mut bytes = Vec::from_slice(alloc, plain.as_bytes())?;
    for part in parts {
        let Some((byte, rest)) = escaped(part) else {
            return Ok(None);
        };
        bytes.push(byte)?;
        bytes.extend_from_slice(rest.as_bytes())?;
    }
    Ok(Some(bytes))
}

/// Adds a text with its carriage returns and tabs written so.
pub fn add_escaped(given: &str, text: &mut Answer) {
    for character in given.chars() {
        match character {
            '\r' => text.add("\\r"),
            '\t' => text.add("\\t"),
            _ => text.show(character),
        }
    }
}
