//! The audit of two desks as JSON lines.

ghost use Rattle.std.specs.Prelude.{◌≡◌, ◌↔◌, IfOk, false};
ghost use Rattle.gi_audit.specs.Agreeing.{Agree, ConfirmOneQuantity};
ghost use Rattle.gi_audit.specs.JsonAudit.{IsJsonAudit, cycle_objects};
ghost use Rattle.gi_audit.specs.Verdict.{IsToldExactly, any_agrees, first_difference, names_difference};

use crate::auditing::{differing, or_agreed};
use crate::comparing::{found_at, place_found};
use crate::cycles::closed_at_either;
use crate::json_lines::{with_cycle, with_verdict};
use crate::laws::agreeing_desks_confirm_one_quantity;
use crate::revealing::reveal_invariant;
use crate::verdict::Verdict;
use gi_desk::Desk;
use gi_initiator::Initiating;
use gi_matcher::Matching;
use gi_pairs::CycleId;
use std::alloc::{AllocError, Global};

/// What two desks have of their cycles, as JSON lines.
#[derive(Drop)]
pub struct AuditedJson {
    /// An object for each cycle that either has closed, by gas day and number, and a last one.
    pub text: Vec<u8>,
    /// What they come to, which the last object tells.
    pub verdict: Verdict,
}

/// What is found of some cycles.
#[derive(Drop)]
struct FoundObjects {
    /// An object for each.
    text: Vec<u8>,
    /// The first of which a table differs.
    first: Option<CycleId>,
    /// One of them is agreed.
    agreed: bool,
}

fn objects(
    alloc: Global,
    initiating: &Desk<Initiating>,
    matching: &Desk<Matching>,
    ids: &[CycleId],
) -> Result<FoundObjects, AllocError>
    ensures text { IfOk result (λ them. them.text.items ≡ cycle_objects initiating.now matching.now ids.now) }
    ensures first { IfOk result (λ them. them.first ≡ first_difference initiating.now matching.now ids.now) }
    ensures agreed { IfOk result (λ them. them.agreed ≡ any_agrees initiating.now matching.now ids.now) }
{
    let mut text = Vec::new(alloc);
    let mut first = None;
    let mut agreed = false;
    for id in ids {
        let found = found_at(initiating, matching, id);
        let place = place_found(initiating, matching, id, found);
        text = with_cycle(alloc, text, id, found, place)?;
        first = first.or(differing(id, found));
        agreed = or_agreed(agreed, found);
    }
    Ok(FoundObjects {
        text,
        first,
        agreed,
    })
}

/// What `audit` tells as JSON lines: an object for each of its lines, in its order, with the same
/// numbers. Each is compact, with its keys in byte order; `line` is `cycle`, and `verdict` of the last
/// one, and null stands for what is not there.
pub fn audit_json(
    alloc: Global,
    initiating: &Desk<Initiating>,
    matching: &Desk<Matching>,
) -> Result<AuditedJson, AllocError>
    ensures written { IfOk result (λ audit. IsJsonAudit initiating.now matching.now audit.text.items audit.verdict) }
    ensures verdict { IfOk result (λ audit. (names_difference audit.verdict ≡ false) ↔ Agree initiating.now matching.now) }
    ensures told { IfOk result (λ audit. IsToldExactly initiating.now matching.now audit.verdict) }
    ensures one_quantity { IfOk result (λ audit. names_difference audit.verdict ≡ false → ConfirmOneQuantity initiating.now matching.now) }
{
    agreeing_desks_confirm_one_quantity();
    reveal_invariant(initiating);
    reveal_invariant(matching);
    let ids = closed_at_either(alloc, initiating, matching)?;
    let FoundObjects {
        text,
        first,
        agreed,
    } = objects(alloc, initiating, matching, &ids)?;
    let verdict = Verdict::of(first, agreed, &ids);
    let text = with_verdict(alloc, text, &verdict)?;
    Ok(AuditedJson { text, verdict })
}
