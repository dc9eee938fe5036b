use crate::fault::FieldFault;
use crate::fields::{code, direction};
use crate::json_value::JsonValue;
use crate::key::Key;
use crate::members::{put_code, put_direction};
use crate::message_line::MessageLine;
use crate::quantities::hours;
use crate::row_writing::put_hours;
use gi_pairs::{Code, Direction, Hours};
use json::Writer;
use std::alloc::{AllocError, Global};

/// A line of a confirmation: the confirmed quantities that one portfolio and its counterparty at
/// the other operator exchange in a direction.
#[derive(Drop, PartialEq, Eq)]
pub struct Line {
    /// The portfolio at the other operator.
    pub counterparty: Code,
    pub direction: Direction,
    /// One quantity for each hour, in kWh/h.
    pub hours: Hours,
}

impl MessageLine for Line {
    ghost use Rattle.gi_messages.specs.Reading.{line};
    ghost use Rattle.gi_messages.specs.Writing.{line_data};

    ghost quantities = { λ l. l.hours };

    ghost reading = { line };

    ghost written = { line_data };

    fn hours(&self) -> &Hours {
        &self.hours
    }

    fn copy(&self) -> Result<Line, AllocError> {
        Ok(Line {
            counterparty: self.counterparty,
            direction: self.direction,
            hours: self.hours.copy()?,
        })
    }

    #[tactic(auto, unfolding(crate::specs::Reading::line))]
    fn read(
        alloc: Global,
        element: &JsonValue<'_, '_>,
        count: Option<usize>,
    ) -> Result<Line, FieldFault> {
        if !element.is_object() {
            return Err(FieldFault::Wrong(Key::Lines));
        }
        let counterparty = code(element, Key::Counterparty)?;
        let direction = direction(element, Key::Direction)?;
        let hours = hours(alloc, element, count)?;
        Ok(Line {
            counterparty,
            direction,
            hours,
        })
    }

    #[tactic(auto, unfolding(crate::specs::Writing::line_data))]
    fn put(&self, out: &mut Writer) -> Result<(), AllocError> {
        out.begin_object()?;
        put_code(out, Key::Counterparty, &self.counterparty)?;
        put_direction(out, self.direction)?;
        put_hours(out, self.hours.as_slice())?;
        out.end_object()
    }
}
