//! What is wrong with a message of `match`, and where in it.

use crate::lines::{line_at, parted};
use crate::shown::Shown;
use crate::wanted::Wanted;
use gi_messages::{MOST_CONFIRMED_ELEMENTS, MOST_PART_ELEMENTS, MOST_PROCESSED_ELEMENTS};
use gi_pairs::Quantity;
use serde_json::Value;
use std::alloc::Global;
use std::fmt;

/// The keys of arrays of rows or lines.
const ARRAYS: [&str; 3] = ["processed", "confirmed", "lines"];

/// The keys that an order and an own table have to have the same values at.
const SHAPE: [&str; 5] = ["point", "day", "cycle", "first", "last"];

/// A value in a message. Elements are counted from 0.
#[derive(Clone, Copy)]
pub enum Spot<'a> {
    Key(&'a str),
    Element(&'static str, usize),
    InElement(&'static str, usize, &'a str),
    Hour(&'static str, usize, usize),
}

impl fmt::Display for Spot<'_> {
    fn fmt<W: fmt::Write>(&self, f: &mut fmt::Formatter<W>) -> fmt::Result {
        match self {
            Spot::Key(key) => f.write_str(key),
            Spot::Element(array, at) => write!(f, "{array}[{at}]"),
            Spot::InElement(array, at, key) => write!(f, "{array}[{at}].{key}"),
            Spot::Hour(array, at, hour) => write!(f, "{array}[{at}].hours[{hour}]"),
        }
    }
}

/// What is wrong with a message.
#[derive(Drop)]
pub enum MessagePlace<'a> {
    /// With the whole line.
    Line(&'a str, &'static str),
    /// It is no JSON from here on, as its bytes are counted from 1.
    NotJson {
        line: &'a str,
        column: usize,
    },
    /// With a value, which is missing or another than is wanted.
    Value {
        line: &'a str,
        spot: Spot<'a>,
        found: Option<String>,
        wanted: Wanted,
    },
    /// Both lines are messages, and their values at a key differ.
    Differs {
        key: &'static str,
        order: String,
        own: String,
    },
}

impl fmt::Display for MessagePlace<'_> {
    fn fmt<W: fmt::Write>(&self, f: &mut fmt::Formatter<W>) -> fmt::Result {
        match self {
            MessagePlace::Line(line, found) => write!(f, "{line} {found}"),
            MessagePlace::NotJson { line, column } => {
                write!(f, "{line} is no JSON, from its byte {column} on")
            }
            MessagePlace::Value {
                line,
                spot,
                found: Some(word),
                wanted,
            } => write!(
                f,
                "{line} {spot}: {} is found, and a {wanted} is wanted",
                Shown { word }
            ),
            MessagePlace::Value {
                line,
                spot,
                found: None,
                wanted,
            } => write!(f, "{line} {spot} is missing, and a {wanted} is wanted"),
            MessagePlace::Differs { key, order, own } => {
                let (order, own) = (Shown { word: order }, Shown { word: own });
                write!(
                    f,
                    "{key}: {order} is found in the order, and {own} in the own table"
                )
            }
        }
    }
}

/// What a value has to be at a key.
fn wanted_at(key: &str) -> Wanted {
    match key {
        "kind" => Wanted::Kind,
        "day" => Wanted::Day,
        "direction" => Wanted::Direction,
        "version" => Wanted::Whole {
            least: 1,
            most: 999_999_999,
        },
        "cycle" => Wanted::Whole { least: 0, most: 36 },
        "first" | "last" => Wanted::Whole { least: 1, most: 25 },
        "parts" | "part" => Wanted::Whole { least: 1, most: 66 },
        "priority" => Wanted::Whole { least: 1, most: 9 },
        "hours" => Wanted::Hours,
        "processed" => Wanted::Rows {
            most: MOST_PROCESSED_ELEMENTS,
        },
        "confirmed" => Wanted::Rows {
            most: MOST_CONFIRMED_ELEMENTS,
        },
        "lines" => Wanted::Lines,
        _ => Wanted::Code,
    }
}

/// A whole number of a message.
fn number_at(message: &Value, key: &str) -> Option<u64> {
    message.get(key)?.as_u64()
}

/// What a value of a message has to be at a key, by other values of that message: `last` is not before `first`, `part` not above `parts`,
/// and one of several parts has fewer rows.
fn wanted_in(message: &Value, key: &str) -> Wanted {
    let parts = number_at(message, "parts").unwrap_or(1);
    match (key, wanted_at(key)) {
        ("last", Wanted::Whole { least, most }) => Wanted::Whole {
            least: number_at(message, "first").unwrap_or(least),
            most,
        },
        ("part", Wanted::Whole { least, .. }) => Wanted::Whole { least, most: parts },
        (_, Wanted::Rows { .. }) if parts > 1 => Wanted::Rows {
            most: MOST_PART_ELEMENTS,
        },
        (_, wanted) => wanted,
    }
}

fn is_whole(value: &Value, least: u64, most: u64) -> bool {
    match value.as_u64() {
        Some(number) => least <= number && number <= most,
        None => false,
    }
}

/// Whether a value that is no array is what is wanted.
fn fits(value: &Value, wanted: Wanted) -> bool {
    match wanted {
        Wanted::Whole { least, most } => is_whole(value, least, most),
        Wanted::Quantity => is_whole(value, 0, Quantity::MAX),
        Wanted::Row => value.is_object(),
        _ => match value.as_str() {
            Some(text) => wanted.fits(text),
            None => false,
        },
    }
}

/// Something that is found in a message in place of what is wanted there.
#[derive(Clone, Copy)]
struct Found<'a, 'v> {
    spot: Spot<'a>,
    value: Option<&'v Value>,
    wanted: Wanted,
}

/// How many hours a message is for, where it says so.
fn hours_of(message: &Value) -> Option<u64> {
    let first = message.get("first")?.as_u64()?;
    let last = message.get("last")?.as_u64()?;
    last.checked_sub(first)?.checked_add(1)
}

/// The hours of an element, or the first of them that is no quantity.
fn wrong_hours<'a, 'v>(
    array: &'static str,
    at: usize,
    element: &'v Value,
    count: Option<u64>,
) -> Option<Found<'a, 'v>> {
    let value = element.get("hours");
    let spot = Spot::InElement(array, at, "hours");
    let wanted = Wanted::Hours;
    let Some(hours) = value.and_then(Value::as_array) else {
        return Some(Found {
            spot,
            value,
            wanted,
        });
    };
    for (hour, quantity) in hours.iter().enumerate() {
        if !fits(quantity, Wanted::Quantity) {
            return Some(Found {
                spot: Spot::Hour(array, at, hour),
                value: Some(quantity),
                wanted: Wanted::Quantity,
            });
        }
    }
    match count {
        Some(count) if count != hours.len() as u64 => Some(Found {
            spot,
            value,
            wanted,
        }),
        _ => None,
    }
}

/// What is wrong with an element at a key.
fn wrong_element<'a, 'v>(
    array: &'static str,
    at: usize,
    element: &'v Value,
    key: &'a str,
    count: Option<u64>,
) -> Option<Found<'a, 'v>> {
    let wanted = wanted_at(key);
    match wanted {
        Wanted::Hours => return wrong_hours(array, at, element, count),
        Wanted::Rows { .. } | Wanted::Lines if fits(element, Wanted::Row) => return None,
        Wanted::Rows { .. } | Wanted::Lines => {
            return Some(Found {
                spot: Spot::Element(array, at),
                value: Some(element),
                wanted: Wanted::Row,
            });
        }
        _ => {}
    }
    let value = element.get(key);
    let is_right = match value {
        Some(value) => fits(value, wanted),
        None => key == "priority",
    };
    if is_right {
        return None;
    }
    Some(Found {
        spot: Spot::InElement(array, at, key),
        value,
        wanted,
    })
}

/// The first element of an array that is wrong at a key.
fn wrong_in<'a, 'v>(
    message: &'v Value,
    array: &'static str,
    key: &'a str,
) -> Option<Found<'a, 'v>> {
    let elements = message.get(array)?.as_array()?;
    let count = hours_of(message);
    for (at, element) in elements.iter().enumerate() {
        let found = wrong_element(array, at, element, key, count);
        if found.is_some() {
            return found;
        }
    }
    None
}

/// Whether a key is one of the elements of an array.
fn is_of_elements(array: &str, key: &str) -> bool {
    array == key
        || matches!(
            key,
            "initiating" | "matching" | "counterparty" | "direction" | "hours" | "priority"
        )
}

/// What is wrong at a key: in an element of an array, or else in the message itself.
fn wrong_at<'a, 'v>(message: &'v Value, key: &'a str) -> Found<'a, 'v> {
    for array in ARRAYS {
        if is_of_elements(array, key) {
            if let Some(found) = wrong_in(message, array, key) {
                return found;
            }
        }
    }
    Found {
        spot: Spot::Key(key),
        value: message.get(key),
        wanted: wanted_in(message, key),
    }
}

/// The text of a value; None where memory runs out.
fn text_of(alloc: Global, value: &Value) -> Option<String> {
    value.to_string(alloc).ok()
}

fn told<'a>(alloc: Global, line: &'a str, found: Found<'a, '_>) -> Option<MessagePlace<'a>> {
    let Found {
        spot,
        value,
        wanted,
    } = found;
    let found = match value {
        Some(value) => Some(text_of(alloc, value)?),
        None => None,
    };
    Some(MessagePlace::Value {
        line,
        spot,
        found,
        wanted,
    })
}

/// Where a line is no JSON.
fn not_json<'a>(alloc: Global, line: &'a str, bytes: &[u8]) -> MessagePlace<'a> {
    let Ok(text) = str::from_utf8(bytes) else {
        return MessagePlace::Line(line, "is no UTF-8");
    };
    match Value::from_str(alloc, text) {
        Ok(value) => {
            drop(value);
            MessagePlace::Line(line, "is no JSON")
        }
        Err(error) => MessagePlace::NotJson {
            line,
            column: error.column(),
        },
    }
}

/// The message that a line has; None where it is no JSON, or memory runs out.
fn message_of(alloc: Global, bytes: &[u8]) -> Option<Value> {
    Value::from_str(alloc, str::from_utf8(bytes).ok()?).ok()
}

/// What is wrong with a line that is JSON.
fn of_message<'a>(
    alloc: Global,
    line: &'a str,
    fault: &str,
    key: &'a str,
    bytes: &[u8],
) -> Option<MessagePlace<'a>> {
    let message = message_of(alloc, bytes)?;
    let found = match fault {
        "Field" => wrong_at(&message, key),
        "Parts" => Found {
            spot: Spot::Key("parts"),
            value: message.get("parts"),
            wanted: Wanted::OnePart,
        },
        _ => wrong_at(&message, "kind"),
    };
    let told = told(alloc, line, found);
    drop(message);
    told
}

/// What is wrong with a line of `match`, by the fault of that line and the key that it names.
fn of_line<'a>(
    alloc: Global,
    line: &'a str,
    fault: &str,
    key: &'a str,
    bytes: &[u8],
) -> Option<MessagePlace<'a>> {
    match fault {
        "TooLarge" => Some(MessagePlace::Line(line, "has more than 16777216 bytes")),
        "NotJson" => Some(not_json(alloc, line, bytes)),
        "UnknownKind" | "WrongKind" | "Parts" | "Field" => {
            of_message(alloc, line, fault, key, bytes)
        }
        _ => None,
    }
}

/// The first value in which two messages differ that have to be for the same.
fn difference(alloc: Global, order: &Value, own: &Value) -> Option<MessagePlace<'static>> {
    for key in SHAPE {
        let (ours, theirs) = (order.get(key)?, own.get(key)?);
        let (order, own) = (text_of(alloc, ours)?, text_of(alloc, theirs)?);
        if order.as_str() != own.as_str() {
            return Some(MessagePlace::Differs { key, order, own });
        }
        drop((order, own));
    }
    None
}

fn differing(alloc: Global, input: &[u8]) -> Option<MessagePlace<'static>> {
    let order = message_of(alloc, line_at(input, 1)?)?;
    let place = match message_of(alloc, line_at(input, 2)?) {
        Some(own) => {
            let place = difference(alloc, &order, &own);
            drop(own);
            place
        }
        None => None,
    };
    drop(order);
    place
}

/// What is wrong with the input of `match`, by the fault and what stands behind its first word.
pub(crate) fn message_place<'a>(
    alloc: Global,
    name: &str,
    values: &'a str,
    input: &[u8],
) -> Option<MessagePlace<'a>> {
    let (fault, behind) = parted(values);
    let key = behind.unwrap_or("");
    match name {
        "order:" => of_line(alloc, "order", fault, key, line_at(input, 1)?),
        "own:" => of_line(alloc, "own", fault, key, line_at(input, 2)?),
        _ => differing(alloc, input),
    }
}
