//! Hours in words, and their local time.

ghost use Rattle.std.specs.Prelude.{◌≡◌, IfOk, string_bytes};
ghost use Rattle.gi_day_tables.specs.Spans.{span as span_of};
ghost use Rattle.gi_day_tables.specs.Spans.{local_time as local_time_of, local_span as local_span_of};

use gi_picture::{clock_text, time_mark};
use std::alloc::{AllocError, Global};

/// The hours from one to another, as `3` or `3–8`.
#[tactic(auto, unfolding(crate::specs::Spans::span))]
pub(crate) fn span(alloc: Global, first: u8, last: u8) -> Result<String, AllocError>
    ensures { IfOk result (λ text. string_bytes text ≡ span_of first last) }
{
    if first == last {
        return format!(in alloc; "{first}");
    }
    format!(in alloc; "{first}&ndash;{last}")
}

/// The local time at a bound of hours, and which of two it is.
#[tactic(auto, unfolding(crate::specs::Spans::local_time))]
pub(crate) fn local_time(alloc: Global, count: u8, bound: u8) -> Result<String, AllocError>
    ensures { IfOk result (λ text. string_bytes text ≡ local_time_of count bound) }
{
    let time = clock_text(alloc, count, bound)?;
    let mark = time_mark(count, bound);
    format!(in alloc; "{time}{mark}")
}

/// The local time from one bound of hours to another.
#[tactic(auto, unfolding(crate::specs::Spans::local_span))]
pub(crate) fn local_span(
    alloc: Global,
    count: u8,
    before: u8,
    behind: u8,
) -> Result<String, AllocError>
    ensures { IfOk result (λ text. string_bytes text ≡ local_span_of count before behind) }
{
    let from = local_time(alloc, count, before)?;
    let to = local_time(alloc, count, behind)?;
    format!(in alloc; "{from}&ndash;{to}")
}
