use gi_calls::Answer;
use sqlite::types::ValueRef;
use sqlite::{Error, Row};

/// Adds a value of a row, a text as it stands.
fn add_value(value: ValueRef<'_>, text: &mut Answer) {
    match value {
        ValueRef::Null => text.add("NULL"),
        ValueRef::Int(number) => text.show(number),
        ValueRef::Text(bytes) => text.add(str::from_utf8(bytes).unwrap_or("no text")),
        _ => text.add("other"),
    }
}

/// Adds the values of a row, with one space between them.
fn add_row(row: &Row, text: &mut Answer) {
    for at in 0..row.column_count() {
        if at > 0 {
            text.add(" ");
        }
        if let Ok(value) = row.get_ref(at) {
            add_value(value, text);
        }
    }
}

/// Adds the values of the row that was found, or why there is none.
pub(crate) fn add_found(found: &Result<Row, Error>, text: &mut Answer) {
    match found {
        Ok(row) => add_row(row, text),
        Err(error) => text.show(error),
    }
}
