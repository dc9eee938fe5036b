//! The lines of an explanation as JSON objects, each with a line feed.

ghost use Rattle.std.specs.Prelude.{◌≡◌, ◌++◌, IfOk};
ghost use Rattle.gi_exports.specs.Json.{line_of};
ghost use Rattle.gi_explanations.specs.JsonLines.{asked_data, closing_data, held_data, lesser_data, met_data, nominated_data, offered_data, reduced_data, served_data, state_data, summed_data, told_data};

use crate::question::Question;
use gi_exports::parts::{
    object_begun, object_ended, put_number_or_null, put_portfolio, put_whole, put_word,
};
use gi_messages::Key;
use gi_messages::parts::{put_code, put_day, put_direction, put_number};
use gi_pairs::{Code, Side};
use std::alloc::{AllocError, Global};

/// What was asked.
pub(crate) fn with_asked(
    alloc: Global,
    text: Vec<u8>,
    side: Side,
    question: &Question,
) -> Result<Vec<u8>, AllocError>
    ensures { IfOk result (λ bytes. bytes.items ≡ text.items ++ line_of (asked_data side question.now)) }
{
    let side = side.to_string(alloc)?;
    let mut out = object_begun(text)?;
    put_number(&mut out, Key::Cycle, u64::from(question.id.cycle))?;
    put_day(alloc, &mut out, &question.id.day)?;
    put_direction(&mut out, question.direction)?;
    put_whole(&mut out, "hour", u64::from(question.hour))?;
    put_code(&mut out, Key::Initiating, &question.pair.initiating)?;
    put_word(&mut out, "line", "explain")?;
    put_code(&mut out, Key::Matching, &question.pair.matching)?;
    put_word(&mut out, "side", side.as_str())?;
    object_ended(out)
}

/// What a nomination says of the quantity.
pub(crate) fn with_nominated(
    text: Vec<u8>,
    fact: Option<u64>,
    priority: Option<u64>,
    quantity: Option<u64>,
    version: Option<u64>,
) -> Result<Vec<u8>, AllocError>
    ensures { IfOk result (λ bytes. bytes.items ≡ text.items ++ line_of (nominated_data fact priority quantity version)) }
{
    let mut out = object_begun(text)?;
    put_number_or_null(&mut out, "fact", fact)?;
    put_word(&mut out, "line", "nomination")?;
    put_number_or_null(&mut out, "priority", priority)?;
    put_number_or_null(&mut out, "quantity", quantity)?;
    put_number_or_null(&mut out, "version", version)?;
    object_ended(out)
}

/// What a contract has, or a notice leaves.
pub(crate) fn with_held(
    text: Vec<u8>,
    line: &str,
    fact: Option<u64>,
    firm: Option<u64>,
    interruptible: Option<u64>,
) -> Result<Vec<u8>, AllocError>
    ensures { IfOk result (λ bytes. bytes.items ≡ text.items ++ line_of (held_data line.now fact firm interruptible)) }
{
    let mut out = object_begun(text)?;
    put_number_or_null(&mut out, "fact", fact)?;
    put_number_or_null(&mut out, "firm", firm)?;
    put_number_or_null(&mut out, "interruptible", interruptible)?;
    put_word(&mut out, "line", line)?;
    object_ended(out)
}

/// What is available.
pub(crate) fn with_offered(
    text: Vec<u8>,
    firm: Option<u64>,
    of_firm: Option<u64>,
    interruptible: Option<u64>,
    of_interruptible: Option<u64>,
    quantity: u64,
) -> Result<Vec<u8>, AllocError>
    ensures { IfOk result (λ bytes. bytes.items ≡ text.items ++ line_of (offered_data firm of_firm interruptible of_interruptible quantity)) }
{
    let mut out = object_begun(text)?;
    put_number_or_null(&mut out, "firm", firm)?;
    put_number_or_null(&mut out, "firm_thousandths", of_firm)?;
    put_number_or_null(&mut out, "interruptible", interruptible)?;
    put_number_or_null(&mut out, "interruptible_thousandths", of_interruptible)?;
    put_word(&mut out, "line", "available")?;
    put_whole(&mut out, "quantity", quantity)?;
    object_ended(out)
}

/// What is served before a priority.
pub(crate) fn with_served(
    text: Vec<u8>,
    before: Option<u64>,
    left: Option<u64>,
    priority: Option<u64>,
) -> Result<Vec<u8>, AllocError>
    ensures { IfOk result (λ bytes. bytes.items ≡ text.items ++ line_of (served_data before left priority)) }
{
    let mut out = object_begun(text)?;
    put_number_or_null(&mut out, "before", before)?;
    put_number_or_null(&mut out, "left", left)?;
    put_word(&mut out, "line", "priority")?;
    put_number_or_null(&mut out, "priority", priority)?;
    object_ended(out)
}

/// The sums of what is nominated.
pub(crate) fn with_summed(
    text: Vec<u8>,
    before: u64,
    up_to: u64,
    all: u64,
) -> Result<Vec<u8>, AllocError>
    ensures { IfOk result (λ bytes. bytes.items ≡ text.items ++ line_of (summed_data before up_to all)) }
{
    let mut out = object_begun(text)?;
    put_whole(&mut out, "all", all)?;
    put_whole(&mut out, "before", before)?;
    put_word(&mut out, "line", "sums")?;
    put_whole(&mut out, "up_to", up_to)?;
    object_ended(out)
}

/// How the processed quantity is made.
pub(crate) fn with_reduced(
    text: Vec<u8>,
    all: Option<u64>,
    before: Option<u64>,
    left: Option<u64>,
    quantity: u64,
    reason: &str,
    up_to: Option<u64>,
) -> Result<Vec<u8>, AllocError>
    ensures { IfOk result (λ bytes. bytes.items ≡ text.items ++ line_of (reduced_data all before left quantity reason.now up_to)) }
{
    let mut out = object_begun(text)?;
    put_number_or_null(&mut out, "all", all)?;
    put_number_or_null(&mut out, "before", before)?;
    put_number_or_null(&mut out, "left", left)?;
    put_word(&mut out, "line", "processed")?;
    put_whole(&mut out, "quantity", quantity)?;
    put_word(&mut out, "reason", reason)?;
    put_number_or_null(&mut out, "up_to", up_to)?;
    object_ended(out)
}

/// Which fact froze it, by which rule.
pub(crate) fn with_closing(
    text: Vec<u8>,
    fact: Option<u64>,
    rule: Option<u64>,
) -> Result<Vec<u8>, AllocError>
    ensures { IfOk result (λ bytes. bytes.items ≡ text.items ++ line_of (closing_data fact rule)) }
{
    let mut out = object_begun(text)?;
    put_number_or_null(&mut out, "fact", fact)?;
    put_word(&mut out, "line", "frozen")?;
    put_number_or_null(&mut out, "rule", rule)?;
    object_ended(out)
}

/// The peer's quantity.
pub(crate) fn with_met(
    text: Vec<u8>,
    fact: Option<u64>,
    quantity: Option<u64>,
) -> Result<Vec<u8>, AllocError>
    ensures { IfOk result (λ bytes. bytes.items ≡ text.items ++ line_of (met_data fact quantity)) }
{
    let mut out = object_begun(text)?;
    put_number_or_null(&mut out, "fact", fact)?;
    put_word(&mut out, "line", "peer")?;
    put_number_or_null(&mut out, "quantity", quantity)?;
    object_ended(out)
}

/// The lower of both.
pub(crate) fn with_lesser(
    text: Vec<u8>,
    peer: Option<u64>,
    processed: Option<u64>,
    quantity: Option<u64>,
) -> Result<Vec<u8>, AllocError>
    ensures { IfOk result (λ bytes. bytes.items ≡ text.items ++ line_of (lesser_data peer processed quantity)) }
{
    let mut out = object_begun(text)?;
    put_word(&mut out, "line", "lower")?;
    put_number_or_null(&mut out, "peer", peer)?;
    put_number_or_null(&mut out, "processed", processed)?;
    put_number_or_null(&mut out, "quantity", quantity)?;
    object_ended(out)
}

/// Whether it is confirmed.
pub(crate) fn with_state(
    text: Vec<u8>,
    quantity: Option<u64>,
    state: &str,
) -> Result<Vec<u8>, AllocError>
    ensures { IfOk result (λ bytes. bytes.items ≡ text.items ++ line_of (state_data quantity state.now)) }
{
    let mut out = object_begun(text)?;
    put_word(&mut out, "line", "confirmed")?;
    put_number_or_null(&mut out, "quantity", quantity)?;
    put_word(&mut out, "state", state)?;
    object_ended(out)
}

/// Whom it was told.
pub(crate) fn with_told(text: Vec<u8>, portfolio: &Option<Code>) -> Result<Vec<u8>, AllocError>
    ensures { IfOk result (λ bytes. bytes.items ≡ text.items ++ line_of (told_data portfolio.now)) }
{
    let mut out = object_begun(text)?;
    put_word(&mut out, "line", "told")?;
    put_portfolio(&mut out, portfolio)?;
    object_ended(out)
}
