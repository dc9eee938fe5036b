//! The parts of JSON lines.

ghost use Rattle.std.specs.Prelude.{◌≡◌};
ghost use Rattle.gi_exports.specs.Json.{AddsAt};
ghost use Rattle.gi_schedule.specs.Json.{code_data, signed_data};

use gi_pairs::Code;
use json::Writer;
use std::alloc::AllocError;

/// A small number that there may be, as a large one.
pub(crate) fn widened(number: Option<u8>) -> Option<u64>
    ensures { result ≡ number }
{
    match number {
        Some(number) => Some(u64::from(number)),
        None => None,
    }
}

/// Adds a code at a name, null where there is none.
pub(crate) fn put_code_at(
    out: &mut Writer,
    name: &str,
    code: &Option<Code>,
) -> Result<(), AllocError>
    ensures { AddsAt result out.old out.new name.now (code_data code.now) }
{
    out.key(name)?;
    match code {
        Some(code) => out.string(code.as_str()),
        None => out.null(),
    }
}

/// Adds a number that may be negative at a name.
pub fn put_signed(out: &mut Writer, name: &str, number: &i64) -> Result<(), AllocError>
    ensures { AddsAt result out.old out.new name.now (signed_data number.now) }
{
    out.key(name)?;
    out.i64(*number)
}
