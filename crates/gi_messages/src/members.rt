//! Writing the members of a JSON object as text, each with its key.

ghost use Rattle.std.specs.Prelude.{◌≡◌};
ghost use Rattle.json.specs.Token.{key as key_token};
ghost use Rattle.json.specs.Written.{Writes};
ghost use Rattle.serde_json.specs.Data.{string};
ghost use Rattle.gi_day.specs.Day.{day_text};
ghost use Rattle.gi_pairs.specs.Direction.{direction_text};
ghost use Rattle.gi_messages.specs.Adding.{AddsMember};
ghost use Rattle.gi_messages.specs.Key.{key_text};
ghost use Rattle.gi_messages.specs.Writing.{whole};
ghost use Rattle.gi_messages.specs.declared.key.Key.TheVariants.{Day as DayKey, Direction as DirectionKey};

use crate::key::Key;
use gi_day::GasDay;
use gi_pairs::{Code, Direction};
use json::Writer;
use std::alloc::{AllocError, Global};

/// Adds a key, whose value has to follow.
pub fn put_key(out: &mut Writer, key: Key) -> Result<(), AllocError>
    ensures { Writes result out.old out.new (key_token (key_text key)) }
{
    out.key(key.text())
}

/// Adds a text at a key.
pub fn put_text(out: &mut Writer, key: Key, text: &str) -> Result<(), AllocError>
    ensures { AddsMember result out.old out.new key (string text.now) }
{
    put_key(out, key)?;
    out.string(text)
}

/// Adds a whole number at a key.
pub fn put_number(out: &mut Writer, key: Key, n: u64) -> Result<(), AllocError>
    ensures { AddsMember result out.old out.new key (whole n) }
{
    put_key(out, key)?;
    out.u64(n)
}

/// Adds a code at a key.
pub fn put_code(out: &mut Writer, key: Key, code: &Code) -> Result<(), AllocError>
    ensures { AddsMember result out.old out.new key (string code.now) }
{
    put_text(out, key, code.as_str())
}

/// Adds a direction at the key `direction`.
pub fn put_direction(out: &mut Writer, direction: Direction) -> Result<(), AllocError>
    ensures { AddsMember result out.old out.new DirectionKey (string (direction_text direction)) }
{
    put_text(out, Key::Direction, direction.as_str())
}

/// Adds a gas day at the key `day`.
pub fn put_day(alloc: Global, out: &mut Writer, day: &GasDay) -> Result<(), AllocError>
    ensures { AddsMember result out.old out.new DayKey (string (day_text day.now)) }
{
    let text = day.to_string(alloc)?;
    put_text(out, Key::Day, text.as_str())
}
