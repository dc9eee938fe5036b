//! Reading the quantities of a row or a line.

ghost use Rattle.std.specs.Prelude.{◌≡◌, ℕ, Err, Ok, Some};
ghost use Rattle.gi_messages.specs.Tokens.{value_at, elements_at};
ghost use Rattle.gi_pairs.specs.Quantity.{most_quantity};
ghost use Rattle.gi_messages.specs.Reading.{Gives, each, whole, items, hours};
ghost use Rattle.gi_messages.specs.declared.fault.FieldFault.TheVariants.{Wrong};
ghost use Rattle.serde_json.specs.Data.{Items};
ghost use Rattle.serde_json.specs.Events.{items_len};
ghost use Rattle.gi_messages.specs.declared.key.Key.TheVariants.{Hours as HoursKey};

use crate::fault::FieldFault;
use crate::fields::{items, whole};
use crate::json_value::{JsonElements, JsonValue};
use crate::key::Key;
use gi_pairs::{Hours, LAST_HOUR, Quantity};
use std::alloc::Global;

fn each_quantity(
    alloc: Global,
    mut elements: JsonElements<'_, '_>,
    room: usize,
) -> Result<Vec<Quantity>, FieldFault>
    ensures { Gives (λ found. found.items) result (each (whole 0 most_quantity HoursKey) (elements_at elements.entry)) }
{
    let mut quantities = Vec::with_capacity(alloc, room)?;
    while let Some(element) = elements.next() {
        quantities.push(quantity(&element)?)?;
    }
    Ok(quantities)
}

fn quantity(element: &JsonValue<'_, '_>) -> Result<Quantity, Key>
    ensures { result ≡ whole 0 most_quantity HoursKey (value_at element.now) }
{
    let value = whole(element, Key::Hours, 0, Quantity::MAX)?;
    Ok(Quantity::new(value).unwrap())
}

/// The quantities at the key `hours`: one for each of so many hours, or any number of them where
/// no count is given. Where there are more or fewer than are asked for, none of them is read and no
/// memory is taken.
#[tactic(auto, unfolding(crate::specs::Reading::hours))]
pub fn hours(
    alloc: Global,
    object: &JsonValue<'_, '_>,
    count: Option<usize>,
) -> Result<Hours, FieldFault>
    ensures value { Gives (λ found. found) result (hours count (value_at object.now)) }
    ensures miscounted { (n : ℕ) (elements : Items) → count ≡ Some n → items HoursKey (value_at object.now) ≡ Ok elements → ¬ (items_len elements ≡ n) → result ≡ Err (Wrong HoursKey) }
{
    let room = match count {
        Some(count) => {
            if items(object, Key::Hours)?.count_within(count) != Some(count) {
                return Err(FieldFault::Wrong(Key::Hours));
            }
            count
        }
        None => usize::from(LAST_HOUR),
    };
    let quantities = each_quantity(alloc, items(object, Key::Hours)?, room)?;
    Ok(Hours::from(quantities))
}
