//! Reading the hours that a message is for, and what an order and a response begin with.

ghost use Rattle.std.specs.Prelude.{◌≡◌, ◌≤◌, IfOk};
ghost use Rattle.gi_messages.specs.Tokens.{value_at};
ghost use Rattle.gi_messages.specs.Reading.{span};
ghost use Rattle.gi_messages.specs.Decoding.{head};
ghost use Rattle.gi_messages.specs.Limits.{elements_of};

use crate::fields::{code, day, number, number_or};
use crate::json_value::JsonValue;
use crate::key::Key;
use crate::message::{LAST_CYCLE, MOST_PART_ELEMENTS, MOST_PARTS};
use gi_day::GasDay;
use gi_pairs::{Code, LAST_HOUR};

/// The hours from `first` to `last`, numbered from 1 to 25 at most.
#[derive(Clone, Copy)]
pub struct Span {
    pub first: u8,
    pub last: u8,
}

/// What a DELORD and a DELRES begin with.
#[derive(Clone, Copy)]
pub(crate) struct Head {
    pub point: Code,
    pub day: GasDay,
    pub cycle: u8,
    pub span: Span,
    pub parts: u8,
    pub part: u8,
}

/// How many elements an array has at most in one of so many parts: `most` where there is only one.
pub(crate) fn elements_of(most: usize, parts: u8) -> usize
    ensures { result ≡ elements_of most parts }
{
    if parts == 1 { most } else { MOST_PART_ELEMENTS }
}

/// The hours that an object names.
#[tactic(auto, unfolding(crate::specs::Reading::span))]
pub fn span_of(object: &JsonValue<'_, '_>) -> Result<Span, Key>
    ensures value { result ≡ span (value_at object.now) }
    ensures ordered { IfOk result (λ span. span.first ≤ span.last) }
{
    let first = number(object, Key::First, 1, u64::from(LAST_HOUR))?;
    let last = number(object, Key::Last, first, u64::from(LAST_HOUR))?;
    Ok(Span {
        first: first as u8,
        last: last as u8,
    })
}

#[tactic(auto, unfolding(crate::specs::Decoding::head))]
pub(crate) fn head_of(object: &JsonValue<'_, '_>) -> Result<Head, Key>
    ensures value { result ≡ head (value_at object.now) }
    ensures ordered { IfOk result (λ head. head.span.first ≤ head.span.last) }
{
    let point = code(object, Key::Point)?;
    let day = day(object, Key::Day)?;
    let cycle = number(object, Key::Cycle, 0, u64::from(LAST_CYCLE))? as u8;
    let span = span_of(object)?;
    let parts = number_or(object, Key::Parts, 1, 1, u64::from(MOST_PARTS))?;
    let part = number_or(object, Key::Part, 1, 1, parts)?;
    Ok(Head {
        point,
        day,
        cycle,
        span,
        parts: parts as u8,
        part: part as u8,
    })
}
