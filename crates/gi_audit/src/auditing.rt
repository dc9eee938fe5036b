//! The audit of two desks.

ghost use Rattle.std.specs.Prelude.{◌≡◌, ◌↔◌, ◌||◌, IfOk, false, if◌then◌else◌, string_bytes};
ghost use Rattle.gi_audit.specs.Agreeing.{Agree, ConfirmOneQuantity};
ghost use Rattle.gi_audit.specs.Audit.{IsAudit, cycle_lines, last_line as last_line_of, line_of};
ghost use Rattle.gi_audit.specs.Finding.{is_agreed, is_difference};
ghost use Rattle.gi_audit.specs.Verdict.{IsToldExactly, any_agrees, first_difference, names_difference};

use crate::comparing::{found_at, place_found};
use crate::cycles::closed_at_either;
use crate::finding::Finding;
use crate::laws::agreeing_desks_confirm_one_quantity;
use crate::place::Place;
use crate::revealing::reveal_invariant;
use crate::verdict::Verdict;
use gi_desk::Desk;
use gi_initiator::Initiating;
use gi_matcher::Matching;
use gi_pairs::CycleId;
use gi_text::RightInTwo;
use std::alloc::{AllocError, Global};

/// What two desks have of their cycles.
#[derive(Drop)]
pub struct Audited {
    /// A line for each cycle that either has closed, by gas day and number, and a last one.
    pub text: String,
    /// What they come to, which the last line tells.
    pub verdict: Verdict,
}

/// What is found of some cycles.
#[derive(Drop)]
struct Found {
    /// A line for each.
    text: String,
    /// The first of which a table differs.
    first: Option<CycleId>,
    /// One of them is agreed.
    agreed: bool,
}

fn line(
    alloc: Global,
    id: &CycleId,
    found: Finding,
    place: Option<Place>,
) -> Result<String, AllocError>
    ensures { IfOk result (λ line. string_bytes line ≡ line_of id.now found place) }
{
    let day = id.day;
    let cycle = RightInTwo {
        number: u64::from(id.cycle),
    };
    match place {
        Some(place) => format!(in alloc; "{day} {cycle} {found}{place}\n"),
        None => format!(in alloc; "{day} {cycle} {found}\n"),
    }
}

fn last_line(alloc: Global, verdict: &Verdict) -> Result<String, AllocError>
    ensures { IfOk result (λ line. string_bytes line ≡ last_line_of verdict.now) }
{
    match verdict {
        Verdict::Agreed => format!(in alloc; "agreed\n"),
        Verdict::Open => format!(in alloc; "open\n"),
        Verdict::Empty => format!(in alloc; "empty\n"),
        Verdict::Differs(id) => {
            let (day, cycle) = (id.day, id.cycle);
            format!(in alloc; "differs at {day} {cycle}\n")
        }
    }
}

/// The cycle, where it differs.
pub(crate) fn differing(id: &CycleId, found: Finding) -> Option<CycleId>
    ensures { result ≡ if is_difference found then Some id.now else None }
{
    if found.is_difference() {
        Some(*id)
    } else {
        None
    }
}

/// Whether any is agreed, with one more.
pub(crate) fn or_agreed(agreed: bool, found: Finding) -> bool
    ensures { result ≡ (agreed || is_agreed found) }
{
    agreed || found.is_agreed()
}

fn lines(
    alloc: Global,
    initiating: &Desk<Initiating>,
    matching: &Desk<Matching>,
    ids: &[CycleId],
) -> Result<Found, AllocError>
    ensures text { IfOk result (λ them. string_bytes them.text ≡ cycle_lines initiating.now matching.now ids.now) }
    ensures first { IfOk result (λ them. them.first ≡ first_difference initiating.now matching.now ids.now) }
    ensures agreed { IfOk result (λ them. them.agreed ≡ any_agrees initiating.now matching.now ids.now) }
{
    let mut text = String::new(alloc);
    let mut first = None;
    let mut agreed = false;
    for id in ids {
        let found = found_at(initiating, matching, id);
        let place = place_found(initiating, matching, id, found);
        let line = line(alloc, id, found, place)?;
        text.push_str(line.as_str())?;
        first = first.or(differing(id, found));
        agreed = or_agreed(agreed, found);
    }
    Ok(Found {
        text,
        first,
        agreed,
    })
}

/// Sets two desks against each other:
/// a line for each cycle that either has closed, by gas day and number, with what is found of it,
/// and a last one: `agreed`, `open`, `empty`, or the first cycle of which a table differs.
///
/// None differs exactly where each table that either side met is the one that the other side froze,
/// and what the initiating side met the matching side met before. Then every quantity that either
/// side has confirmed is the lower of the two that both froze. Where neither has closed a cycle, or
/// there is none that both have confirmed, this says nothing of a quantity that both rely on: it is
/// told as `Empty` or `Open`, and never as `Agreed`.
pub fn audit(
    alloc: Global,
    initiating: &Desk<Initiating>,
    matching: &Desk<Matching>,
) -> Result<Audited, AllocError>
    ensures written { IfOk result (λ audit. IsAudit initiating.now matching.now (string_bytes audit.text) audit.verdict) }
    ensures verdict { IfOk result (λ audit. (names_difference audit.verdict ≡ false) ↔ Agree initiating.now matching.now) }
    ensures told { IfOk result (λ audit. IsToldExactly initiating.now matching.now audit.verdict) }
    ensures one_quantity { IfOk result (λ audit. names_difference audit.verdict ≡ false → ConfirmOneQuantity initiating.now matching.now) }
{
    agreeing_desks_confirm_one_quantity();
    reveal_invariant(initiating);
    reveal_invariant(matching);
    let ids = closed_at_either(alloc, initiating, matching)?;
    let Found {
        mut text,
        first,
        agreed,
    } = lines(alloc, initiating, matching, &ids)?;
    let verdict = Verdict::of(first, agreed, &ids);
    let last = last_line(alloc, &verdict)?;
    text.push_str(last.as_str())?;
    Ok(Audited { text, verdict })
}
