//! About how long texts are, so that the memory for one is taken at once.

ghost use Rattle.std.specs.Prelude.{◌≤◌};
ghost use Rattle.gi_messages.specs.Limits.{most_bytes};

use crate::message::{MOST_BYTES, Message};
use crate::message_line::MessageLine;
use gi_pairs::Row;

// What an object takes beside its rows or lines, a row or a line beside its quantities, and a
// quantity, in bytes: more than most do.
const OBJECT: usize = 256;

const ROW: usize = 96;

const QUANTITY: usize = 8;

fn room(rows: usize, hours: usize) -> usize {
    let row = hours.saturating_mul(QUANTITY).saturating_add(ROW);
    rows.saturating_mul(row)
}

/// About how many bytes rows of as many hours as the first take.
pub fn room_for_rows(rows: &[Row]) -> usize {
    match rows.first() {
        Some(row) => room(rows.len(), row.hours.as_slice().len()),
        None => 0,
    }
}

/// About how many bytes lines of as many hours as the first take.
pub fn room_for_lines<T: MessageLine>(lines: &[T]) -> usize {
    match lines.first() {
        Some(line) => room(lines.len(), line.hours().as_slice().len()),
        None => 0,
    }
}

/// About how many bytes an object takes whose rows or lines take so many.
pub fn room_for_object(inside: usize) -> usize
    ensures { result ≤ most_bytes }
{
    inside.saturating_add(OBJECT).min(MOST_BYTES)
}

/// About how many bytes the text of a message takes.
pub fn room_for(message: &Message) -> usize
    ensures { result ≤ most_bytes }
{
    let inside = match message {
        Message::Nomint(nomint) => room_for_lines(nomint.lines.as_slice()),
        Message::Acknow(_) => 0,
        Message::Nomres(nomres) => room_for_lines(nomres.lines.as_slice()),
        Message::Delord(delord) => room_for_rows(delord.processed.rows()),
        Message::Delres(delres) => {
            let processed = room_for_rows(delres.processed.rows());
            processed.saturating_add(room_for_rows(delres.confirmed.rows()))
        }
    };
    room_for_object(inside)
}
