//! Reading lines.

ghost use Rattle.std.specs.Prelude.{◌≡◌};
ghost use Rattle.gi_messages.specs.Tokens.{value_at, elements_at};
ghost use Rattle.gi_messages.specs.Reading.{Gives, each, lines};

use crate::fault::FieldFault;
use crate::fields::items;
use crate::json_value::{JsonElements, JsonValue};
use crate::key::Key;
use crate::lines::Lines;
use crate::message_line::MessageLine;
use std::alloc::Global;

fn each_line<T: MessageLine>(
    alloc: Global,
    mut elements: JsonElements<'_, '_>,
    count: Option<usize>,
) -> Result<Vec<T>, FieldFault>
    ensures { Gives (λ found. found.items) result (each (T.reading count) (elements_at elements.entry)) }
{
    let mut lines = Vec::new(alloc);
    while let Some(element) = elements.next() {
        lines.push(T::read(alloc, &element, count)?)?;
    }
    Ok(lines)
}

/// The lines at the key `lines`, in the order in which they came: each with so many hours, or with
/// any number of them where no count is given.
#[tactic(auto, unfolding(crate::specs::Reading::lines))]
pub fn lines<T: MessageLine>(
    alloc: Global,
    object: &JsonValue<'_, '_>,
    count: Option<usize>,
) -> Result<Lines<T>, FieldFault>
    ensures { Gives (λ found. found) result (lines (T.reading count) (value_at object.now)) }
{
    let elements = items(object, Key::Lines)?;
    Ok(Lines::from(each_line(alloc, elements, count)?))
}
