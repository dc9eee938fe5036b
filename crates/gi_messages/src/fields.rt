//! Reading the fields of a JSON object. An error is the key of a field that is missing or wrong.

ghost use Rattle.std.specs.Prelude.{◌≡◌, ◌≤◌, IfOk};
ghost use Rattle.gi_messages.specs.Tokens.{value_at, elements_at};
ghost use Rattle.gi_messages.specs.Reading.{Finds, member_at, whole, number, number_or, text, code, day, direction, items};

use crate::json_value::{JsonElements, JsonValue};
use crate::key::Key;
use crate::names::{code_named, day_named};
use gi_day::GasDay;
use gi_pairs::{Code, Direction};

/// The value at a key of an object.
pub fn needed<'t, 'a>(object: &JsonValue<'t, 'a>, key: Key) -> Result<JsonValue<'t, 'a>, Key>
    ensures { Finds value_at result (member_at key (value_at object.now)) }
{
    object.get(key.text()).ok_or(key)
}

/// A whole number from `low` to `high`. One that is written with a sign, a fraction or an exponent
/// is wrong.
pub fn whole(value: &JsonValue<'_, '_>, key: Key, low: u64, high: u64) -> Result<u64, Key>
    ensures value { result ≡ whole low high key (value_at value.now) }
    ensures within { IfOk result (λ n. (low ≤ n) × (n ≤ high)) }
{
    match value.as_u64() {
        Some(n) if low <= n && n <= high => Ok(n),
        _ => Err(key),
    }
}

/// The whole number from `low` to `high` at a key.
#[tactic(auto, unfolding(crate::specs::Reading::number))]
pub fn number(object: &JsonValue<'_, '_>, key: Key, low: u64, high: u64) -> Result<u64, Key>
    ensures value { result ≡ number low high key (value_at object.now) }
    ensures within { IfOk result (λ n. (low ≤ n) × (n ≤ high)) }
{
    whole(&needed(object, key)?, key, low, high)
}

/// The whole number from `low` to `high` at a key, or the usual one where the key is missing.
#[tactic(auto, unfolding(crate::specs::Reading::number_or))]
pub fn number_or(
    object: &JsonValue<'_, '_>,
    key: Key,
    usual: u64,
    low: u64,
    high: u64,
) -> Result<u64, Key>
    requires { (low ≤ usual) × (usual ≤ high) }
    ensures value { result ≡ number_or usual low high key (value_at object.now) }
    ensures within { IfOk result (λ n. (low ≤ n) × (n ≤ high)) }
{
    match object.get(key.text()) {
        Some(value) => whole(&value, key, low, high),
        None => Ok(usual),
    }
}

/// The text at a key.
#[tactic(auto, unfolding(crate::specs::Reading::text))]
pub fn text<'a>(object: &JsonValue<'_, 'a>, key: Key) -> Result<&'a str, Key>
    ensures { Finds (λ found. found.now) result (text key (value_at object.now)) }
{
    needed(object, key)?.as_str().ok_or(key)
}

/// The code at a key.
#[tactic(auto, unfolding(crate::specs::Reading::code))]
pub fn code(object: &JsonValue<'_, '_>, key: Key) -> Result<Code, Key>
    ensures { result ≡ code key (value_at object.now) }
{
    code_named(text(object, key)?).ok_or(key)
}

/// The gas day at a key.
#[tactic(auto, unfolding(crate::specs::Reading::day))]
pub fn day(object: &JsonValue<'_, '_>, key: Key) -> Result<GasDay, Key>
    ensures { result ≡ day key (value_at object.now) }
{
    day_named(text(object, key)?).ok_or(key)
}

/// The direction at a key.
#[tactic(auto, unfolding(crate::specs::Reading::direction))]
pub fn direction(object: &JsonValue<'_, '_>, key: Key) -> Result<Direction, Key>
    ensures { result ≡ direction key (value_at object.now) }
{
    text(object, key)?.parse::<Direction>().ok().ok_or(key)
}

/// The elements of the array at a key.
#[tactic(auto, unfolding(crate::specs::Reading::items))]
pub fn items<'t, 'a>(object: &JsonValue<'t, 'a>, key: Key) -> Result<JsonElements<'t, 'a>, Key>
    ensures { Finds elements_at result (items key (value_at object.now)) }
{
    needed(object, key)?.elements().ok_or(key)
}
