ghost use Rattle.std.specs.Prelude.{◌≡◌, IfOk};
ghost use Rattle.gi_messages.specs.Tokens.{value_at};
ghost use Rattle.gi_messages.specs.Reading.{Gives};
ghost use Rattle.gi_messages.specs.Adding.{Adds};

use crate::fault::FieldFault;
use crate::json_value::JsonValue;
use gi_pairs::Hours;
use json::Writer;
use std::alloc::{AllocError, Global};

/// What a list of lines asks of a line of a message.
pub trait MessageLine: Drop {
    ghost use Rattle.std.specs.Prelude.{ℕ, List, Option};
    ghost use Rattle.serde_json.specs.Data.{Data};
    ghost use Rattle.gi_messages.specs.Reading.{Read};

    ghost quantities: { Self → List ℕ };

    ghost reading: { Option ℕ → Data → Read Self };

    ghost written: { Self → Data };

    /// One quantity for each hour.
    fn hours(&self) -> &Hours
        ensures { result.now ≡ quantities self.now };

    /// An equal line.
    fn copy(&self) -> Result<Self, AllocError>
        ensures { IfOk result (λ line. line ≡ self.now) };

    /// The line that an element of the array `lines` is: with so many hours, or with any number of
    /// them where no count is given.
    fn read(
        alloc: Global,
        element: &JsonValue<'_, '_>,
        count: Option<usize>,
    ) -> Result<Self, FieldFault>
        ensures { Gives (λ found. found) result (reading count (value_at element.now)) };

    /// Adds the object of the line.
    fn put(&self, out: &mut Writer) -> Result<(), AllocError>
        ensures { Adds result out.old out.new (written self.now) };
}
