//! The messages of the dispatch offices, read from JSON text and written as it.
#![tactic(auto)]

mod decoding;
mod encoding;
mod fault;
mod fields;
mod front;
mod head;
mod json_number;
mod json_text;
mod json_value;
mod key;
mod kind;
mod laws;
mod line;
mod line_reading;
mod line_writing;
mod lines;
mod members;
mod message;
mod message_fault;
mod message_line;
mod names;
mod nomination_line;
pub mod parts;
mod quantities;
mod room;
mod row_writing;
mod rows;
mod written;

pub use decoding::decode;
pub use encoding::encode;
pub use key::Key;
pub use laws::{
    names_first_key, one_message, reads_spelling, round_trip, texts_are_short, writable_exactly,
    writes_message,
};
pub use line::Line;
pub use lines::Lines;
pub use message::{
    Acknow, Delord, Delres, LAST_CYCLE, LAST_VERSION, MOST_BYTES, MOST_CONFIRMED_ELEMENTS,
    MOST_PART_ELEMENTS, MOST_PARTS, MOST_PROCESSED_ELEMENTS, Message, Nomint, Nomres,
};
pub use message_fault::MessageFault;
pub use message_line::MessageLine;
pub use nomination_line::{LAST_PRIORITY, NominationLine, USUAL_PRIORITY};
