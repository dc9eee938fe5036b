//! What texts name.

ghost use Rattle.std.specs.Prelude.{◌≡◌};
ghost use Rattle.gi_messages.specs.Dates.{day_of};
ghost use Rattle.gi_messages.specs.Names.{code_of};

use gi_day::GasDay;
use gi_pairs::Code;

/// The code that the text is.
pub fn code_named(text: &str) -> Option<Code>
    ensures { result ≡ code_of text.now }
{
    Code::read(text).ok()
}

/// The gas day whose text it is.
pub fn day_named(text: &str) -> Option<GasDay>
    ensures { result ≡ day_of text.now }
{
    match GasDay::read(text) {
        Ok(day) => Some(day),
        Err(_) => None,
    }
}
