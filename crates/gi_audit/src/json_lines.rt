//! The lines of an audit as JSON objects, each with a line feed.

ghost use Rattle.std.specs.Prelude.{◌≡◌, ◌++◌, IfOk, codes};
ghost use Rattle.serde_json.specs.Data.{null};
ghost use Rattle.gi_messages.specs.Adding.{Adds};
ghost use Rattle.gi_exports.specs.Json.{AddsAt, line_of};
ghost use Rattle.gi_audit.specs.JsonLines.{agreed_data, against_word as against_word_of, closing_of as closing_in, cycle_data, differs_data, first_cycle_data, hour_of as hour_in, met_of as met_in, no_cycle_data, open_data, place_data, place_object, verdict_data, written_of as written_in};

use crate::difference::{Against, Difference};
use crate::finding::Finding;
use crate::place::{HourDifference, Place};
use crate::verdict::Verdict;
use gi_exports::parts::{object_begun, object_ended, put_number_or_null, put_whole, put_word};
use gi_messages::Key;
use gi_messages::parts::{put_code, put_day, put_direction, put_number};
use gi_pairs::CycleId;
use json::Writer;
use std::alloc::{AllocError, Global};

fn with_agreed(
    alloc: Global,
    text: Vec<u8>,
    id: &CycleId,
    im: u64,
    mi: u64,
) -> Result<Vec<u8>, AllocError>
    ensures { IfOk result (λ bytes. bytes.items ≡ text.items ++ line_of (agreed_data id.now im mi)) }
{
    let mut out = object_begun(text)?;
    put_number(&mut out, Key::Cycle, u64::from(id.cycle))?;
    put_day(alloc, &mut out, &id.day)?;
    put_word(&mut out, "found", "agreed")?;
    put_whole(&mut out, "im", im)?;
    put_word(&mut out, "line", "cycle")?;
    put_whole(&mut out, "mi", mi)?;
    object_ended(out)
}

fn with_open(alloc: Global, text: Vec<u8>, id: &CycleId, at: &str) -> Result<Vec<u8>, AllocError>
    ensures { IfOk result (λ bytes. bytes.items ≡ text.items ++ line_of (open_data id.now at.now)) }
{
    let mut out = object_begun(text)?;
    put_word(&mut out, "at", at)?;
    put_number(&mut out, Key::Cycle, u64::from(id.cycle))?;
    put_day(alloc, &mut out, &id.day)?;
    put_word(&mut out, "found", "open")?;
    put_word(&mut out, "line", "cycle")?;
    object_ended(out)
}

fn hour_of(differs: Option<HourDifference>) -> Option<u64>
    ensures { result ≡ hour_in differs }
{
    match differs {
        Some(differs) => Some(u64::from(differs.hour)),
        None => None,
    }
}

fn met_of(differs: Option<HourDifference>) -> Option<u64>
    ensures { result ≡ met_in differs }
{
    match differs {
        Some(differs) => Some(differs.met),
        None => None,
    }
}

fn written_of(differs: Option<HourDifference>) -> Option<u64>
    ensures { result ≡ written_in differs }
{
    match differs {
        Some(differs) => Some(differs.written),
        None => None,
    }
}

fn put_object(out: &mut Writer, place: Place) -> Result<(), AllocError>
    ensures { Adds result out.old out.new (place_object place) }
{
    out.begin_object()?;
    put_direction(out, place.key.direction)?;
    put_number_or_null(out, "hour", hour_of(place.hour))?;
    put_code(out, Key::Initiating, &place.key.pair.initiating)?;
    put_code(out, Key::Matching, &place.key.pair.matching)?;
    put_number_or_null(out, "met", met_of(place.hour))?;
    put_number_or_null(out, "written", written_of(place.hour))?;
    out.end_object()
}

fn put_null(out: &mut Writer, name: &str) -> Result<(), AllocError>
    ensures { AddsAt result out.old out.new name.now null }
{
    out.key(name)?;
    out.null()
}

fn put_place_at(out: &mut Writer, place: Place) -> Result<(), AllocError>
    ensures { AddsAt result out.old out.new (codes "place") (place_object place) }
{
    out.key("place")?;
    put_object(out, place)
}

fn put_place(out: &mut Writer, place: Option<Place>) -> Result<(), AllocError>
    ensures { AddsAt result out.old out.new (codes "place") (place_data place) }
{
    match place {
        Some(place) => put_place_at(out, place),
        None => put_null(out, "place"),
    }
}

fn against_word(against: Against) -> &'static str
    ensures { result.now ≡ against_word_of against }
{
    match against {
        Against::NotClosed => "not closed",
        Against::NotMet => "not met",
        Against::Closed(_) => "closed",
    }
}

fn closing_of(against: Against) -> Option<u64>
    ensures { result ≡ closing_in against }
{
    match against {
        Against::Closed(n) => Some(u64::from(n)),
        _ => None,
    }
}

fn with_difference(
    alloc: Global,
    text: Vec<u8>,
    id: &CycleId,
    difference: Difference,
    place: Option<Place>,
) -> Result<Vec<u8>, AllocError>
    ensures { IfOk result (λ bytes. bytes.items ≡ text.items ++ line_of (differs_data id.now difference place)) }
{
    let side = difference.side.to_string(alloc)?;
    let mut out = object_begun(text)?;
    put_word(&mut out, "against", against_word(difference.against))?;
    put_number_or_null(&mut out, "closing", closing_of(difference.against))?;
    put_number(&mut out, Key::Cycle, u64::from(id.cycle))?;
    put_day(alloc, &mut out, &id.day)?;
    put_word(&mut out, "found", "differs")?;
    put_word(&mut out, "line", "cycle")?;
    put_whole(&mut out, "meeting", u64::from(difference.met))?;
    put_place(&mut out, place)?;
    put_word(&mut out, "side", side.as_str())?;
    object_ended(out)
}

/// What is found of a cycle.
pub(crate) fn with_cycle(
    alloc: Global,
    text: Vec<u8>,
    id: &CycleId,
    found: Finding,
    place: Option<Place>,
) -> Result<Vec<u8>, AllocError>
    ensures { IfOk result (λ bytes. bytes.items ≡ text.items ++ line_of (cycle_data id.now found place)) }
{
    match found {
        Finding::Agreed { im, mi } => with_agreed(alloc, text, id, im, mi),
        Finding::OpenAtInitiating => with_open(alloc, text, id, "I"),
        Finding::OpenAtBoth => with_open(alloc, text, id, "both"),
        Finding::Differs(difference) => with_difference(alloc, text, id, difference, place),
    }
}

fn with_no_cycle(text: Vec<u8>, verdict: &str) -> Result<Vec<u8>, AllocError>
    ensures { IfOk result (λ bytes. bytes.items ≡ text.items ++ line_of (no_cycle_data verdict.now)) }
{
    let mut out = object_begun(text)?;
    put_null(&mut out, "cycle")?;
    put_null(&mut out, "day")?;
    put_word(&mut out, "line", "verdict")?;
    put_word(&mut out, "verdict", verdict)?;
    object_ended(out)
}

fn with_first_cycle(alloc: Global, text: Vec<u8>, id: &CycleId) -> Result<Vec<u8>, AllocError>
    ensures { IfOk result (λ bytes. bytes.items ≡ text.items ++ line_of (first_cycle_data id.now)) }
{
    let mut out = object_begun(text)?;
    put_number(&mut out, Key::Cycle, u64::from(id.cycle))?;
    put_day(alloc, &mut out, &id.day)?;
    put_word(&mut out, "line", "verdict")?;
    put_word(&mut out, "verdict", "differs")?;
    object_ended(out)
}

/// What they come to.
pub(crate) fn with_verdict(
    alloc: Global,
    text: Vec<u8>,
    verdict: &Verdict,
) -> Result<Vec<u8>, AllocError>
    ensures { IfOk result (λ bytes. bytes.items ≡ text.items ++ line_of (verdict_data verdict.now)) }
{
    match verdict {
        Verdict::Agreed => with_no_cycle(text, "agreed"),
        Verdict::Open => with_no_cycle(text, "open"),
        Verdict::Empty => with_no_cycle(text, "empty"),
        Verdict::Differs(id) => with_first_cycle(alloc, text, id),
    }
}
