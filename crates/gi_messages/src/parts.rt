//! The parts of messages, read and written: for JSON objects that are made of the same parts.

pub use crate::decoding::{kind_of, nomint};
pub use crate::encoding::put_nomint;
pub use crate::fault::FieldFault;
pub use crate::fields::{code, day, direction, needed, number, number_or, text};
pub use crate::head::{Span, span_of};
pub use crate::json_text::{JsonText, json};
pub use crate::json_value::{JsonElements, JsonValue};
pub use crate::kind::Kind;
pub use crate::members::{put_code, put_day, put_direction, put_key, put_number, put_text};
pub use crate::room::{room_for_lines, room_for_object, room_for_rows};
pub use crate::row_writing::put_rows;
pub use crate::rows::table;
