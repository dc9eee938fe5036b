ghost use Rattle.gi_messages.specs.Adding.{AddsPriority};

use crate::fault::FieldFault;
use crate::fields::{code, direction, number_or};
use crate::json_value::JsonValue;
use crate::key::Key;
use crate::members::{put_code, put_direction, put_number};
use crate::message_line::MessageLine;
use crate::quantities::hours;
use crate::row_writing::put_hours;
use gi_pairs::{Code, Direction, Hours};
use json::Writer;
use std::alloc::{AllocError, Global};

/// The greatest number of a priority: its lines are served last.
pub const LAST_PRIORITY: u8 = 9;

/// The priority of a line whose text names none.
pub const USUAL_PRIORITY: u8 = 5;

/// A line of a nomination: the quantities that its portfolio wants to exchange in a direction with
/// one counterparty at the other operator.
#[derive(Drop, PartialEq, Eq)]
pub struct NominationLine {
    /// The portfolio at the other operator.
    pub counterparty: Code,
    pub direction: Direction,
    /// One quantity for each hour, in kWh/h.
    pub hours: Hours,
    /// From 1 to 9; lower numbers are served first.
    pub priority: u8,
}

/// Adds a priority at the key `priority`, unless it is the usual one.
fn put_priority(out: &mut Writer, priority: u8) -> Result<(), AllocError>
    ensures { AddsPriority result out.old out.new priority }
{
    if priority == USUAL_PRIORITY {
        return Ok(());
    }
    put_number(out, Key::Priority, u64::from(priority))
}

impl MessageLine for NominationLine {
    ghost use Rattle.gi_messages.specs.Reading.{nomination_line};
    ghost use Rattle.gi_messages.specs.Writing.{nomination_line_data};

    ghost quantities = { λ l. l.hours };

    ghost reading = { nomination_line };

    ghost written = { nomination_line_data };

    fn hours(&self) -> &Hours {
        &self.hours
    }

    fn copy(&self) -> Result<NominationLine, AllocError> {
        Ok(NominationLine {
            counterparty: self.counterparty,
            direction: self.direction,
            hours: self.hours.copy()?,
            priority: self.priority,
        })
    }

    #[tactic(auto, unfolding(crate::specs::Reading::nomination_line))]
    fn read(
        alloc: Global,
        element: &JsonValue<'_, '_>,
        count: Option<usize>,
    ) -> Result<NominationLine, FieldFault> {
        if !element.is_object() {
            return Err(FieldFault::Wrong(Key::Lines));
        }
        let counterparty = code(element, Key::Counterparty)?;
        let direction = direction(element, Key::Direction)?;
        let hours = hours(alloc, element, count)?;
        let usual = u64::from(USUAL_PRIORITY);
        let priority = number_or(element, Key::Priority, usual, 1, u64::from(LAST_PRIORITY))?;
        Ok(NominationLine {
            counterparty,
            direction,
            hours,
            priority: priority as u8,
        })
    }

    #[tactic(auto, unfolding(crate::specs::Writing::nomination_line_data))]
    fn put(&self, out: &mut Writer) -> Result<(), AllocError> {
        out.begin_object()?;
        put_code(out, Key::Counterparty, &self.counterparty)?;
        put_direction(out, self.direction)?;
        put_hours(out, self.hours.as_slice())?;
        put_priority(out, self.priority)?;
        out.end_object()
    }
}
