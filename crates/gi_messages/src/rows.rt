//! Reading the rows of a table.

ghost use Rattle.std.specs.Prelude.{◌≡◌, ◌<◌, ◌≤◌, Err, Ok};
ghost use Rattle.gi_messages.specs.Tokens.{value_at, elements_at};
ghost use Rattle.gi_messages.specs.Reading.{Gives, each, items, row, rows_at, table};
ghost use Rattle.gi_messages.specs.declared.fault.FieldFault.TheVariants.{Wrong};
ghost use Rattle.serde_json.specs.Data.{Items};
ghost use Rattle.serde_json.specs.Events.{items_len};

use crate::fault::FieldFault;
use crate::fields::{code, direction, items};
use crate::json_value::{JsonElements, JsonValue};
use crate::key::Key;
use crate::quantities::hours;
use gi_pairs::{Pair, Row, Table};
use std::alloc::Global;

/// A row for so many hours, from an element of the array at the key `array`.
#[tactic(auto, unfolding(crate::specs::Reading::row))]
pub fn row(
    alloc: Global,
    element: &JsonValue<'_, '_>,
    array: Key,
    count: usize,
) -> Result<Row, FieldFault>
    ensures { Gives (λ found. found) result (row array count (value_at element.now)) }
{
    if !element.is_object() {
        return Err(FieldFault::Wrong(array));
    }
    let pair = Pair {
        initiating: code(element, Key::Initiating)?,
        matching: code(element, Key::Matching)?,
    };
    let direction = direction(element, Key::Direction)?;
    let hours = hours(alloc, element, Some(count))?;
    Ok(Row {
        pair,
        direction,
        hours,
    })
}

fn each_row(
    alloc: Global,
    mut elements: JsonElements<'_, '_>,
    room: usize,
    array: Key,
    count: usize,
) -> Result<Vec<Row>, FieldFault>
    ensures { Gives (λ found. found.items) result (each (row array count) (elements_at elements.entry)) }
{
    let mut rows = Vec::with_capacity(alloc, room)?;
    while let Some(element) = elements.next() {
        rows.push(row(alloc, &element, array, count)?)?;
    }
    Ok(rows)
}

#[tactic(auto, unfolding(crate::specs::Reading::rows_of))]
fn rows_at(
    alloc: Global,
    object: &JsonValue<'_, '_>,
    array: Key,
    limit: usize,
    count: usize,
) -> Result<Vec<Row>, FieldFault>
    ensures value { Gives (λ found. found.items) result (rows_at array limit count (value_at object.now)) }
    ensures too_many { (elements : Items) → items array (value_at object.now) ≡ Ok elements → limit < items_len elements → result ≡ Err (Wrong array) }
{
    let Some(size) = items(object, array)?.count_within(limit) else {
        return Err(FieldFault::Wrong(array));
    };
    each_row(alloc, items(object, array)?, size, array, count)
}

/// The table for the hours from `first` to `last` whose rows stand at a key, at most `limit` of
/// them. The key is wrong where there are more, of which none is read and no memory is taken, and
/// where two rows have one pair and direction.
#[tactic(auto, using(crate::proofs::Elements::table_from_rows), unfolding(crate::specs::Reading::table))]
pub fn table(
    alloc: Global,
    object: &JsonValue<'_, '_>,
    key: Key,
    limit: usize,
    first: u8,
    last: u8,
) -> Result<Table, FieldFault>
    requires { first ≤ last }
    ensures value { Gives (λ found. found) result (table key limit first last (value_at object.now)) }
    ensures too_many { (elements : Items) → items key (value_at object.now) ≡ Ok elements → limit < items_len elements → result ≡ Err (Wrong key) }
{
    let count = usize::from(last) + 1 - usize::from(first);
    let rows = rows_at(alloc, object, key, limit, count)?;
    Table::build(first, last, rows).map_err(|_| FieldFault::Wrong(key))
}
