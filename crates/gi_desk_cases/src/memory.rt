//! What takes memory. Where there is none it is left out, and what it is a part of is another.

use gi_messages::{Message, encode};
use std::alloc::Global;

/// Adds an item.
pub fn put<T: Drop>(list: &mut Vec<T>, item: T) {
    let _ = list.push(item);
}

/// The message's bytes: no byte where there is no memory for them.
pub fn written(alloc: Global, message: Message) -> Vec<u8> {
    let bytes = encode(alloc, &message);
    drop(message);
    match bytes {
        Ok(bytes) => bytes,
        Err(_) => Vec::new(alloc),
    }
}
