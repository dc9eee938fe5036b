//! The audit of both operators' books, which are read by their names.

ghost use Rattle.std.specs.Prelude.{◌≡◌, Err, IfErr, IfOk, false};
ghost use Rattle.gi_audit.specs.Agreeing.{ConfirmOneQuantity};
ghost use Rattle.gi_audit.specs.Verdict.{IsToldExactly, names_difference};
ghost use Rattle.gi_pairs.specs.Code.{IsCode};
ghost use Rattle.gi_commands.specs.Auditing.{HasAudit, IsAuditIn, IsFactsAudit, IsNoAudit, IsNoFactsAudit};
ghost use Rattle.gi_commands.specs.Fault.{no_code};
ghost use Rattle.gi_commands.specs.Owned.{of_owner};
ghost use Rattle.gi_pairs.specs.declared.side.Side.TheVariants.{I, M};

use crate::fault::Fault;
use crate::owned::owned_facts;
use crate::replaying::replayed;
use gi_audit::{Audited, AuditedJson, Verdict, audit, audit_json};
use gi_command_line::{Audit, LineFormat};
use gi_desk::{Desk, Fact};
use gi_initiator::Initiating;
use gi_matcher::Matching;
use gi_pairs::{Code, CodeText, Side};
use gi_store::{BookSource, Owner};
use std::alloc::{AllocError, Global};

/// The audit of two desks, as it is written.
#[derive(Drop)]
pub struct AuditText {
    /// Its lines.
    pub text: Vec<u8>,
    /// What they come to, which the last one tells.
    pub verdict: Verdict,
}

fn desks_audit(
    alloc: Global,
    format: LineFormat,
    initiating: &Desk<Initiating>,
    matching: &Desk<Matching>,
) -> Result<AuditText, AllocError>
    ensures written { IfOk result (λ it. IsAuditIn format initiating.now matching.now it.text.items it.verdict) }
    ensures told { IfOk result (λ it. IsToldExactly initiating.now matching.now it.verdict) }
    ensures one_quantity { IfOk result (λ it. names_difference it.verdict ≡ false → ConfirmOneQuantity initiating.now matching.now) }
{
    match format {
        LineFormat::Text => {
            let Audited { text, verdict } = audit(alloc, initiating, matching)?;
            let text = text.into_bytes();
            Ok(AuditText { text, verdict })
        }
        LineFormat::Json => {
            let AuditedJson { text, verdict } = audit_json(alloc, initiating, matching)?;
            Ok(AuditText { text, verdict })
        }
    }
}

/// The audit of the facts of two books. `BadFact` for the first fact that no desk of the initiating
/// side and point records after those before it, and then for that of the matching side; and
/// `OutOfMemory`.
pub fn facts_audit(
    alloc: Global,
    format: LineFormat,
    point: Code,
    initiating: Vec<Fact>,
    matching: Vec<Fact>,
) -> Result<AuditText, Fault>
    ensures audited { IfOk result (λ it. IsFactsAudit format point initiating.items matching.items it.text.items it.verdict) }
    ensures fault { IfErr result (IsNoFactsAudit point initiating.items matching.items) }
{
    let initiating = match replayed::<Initiating>(alloc, point, initiating) {
        Ok(initiating) => initiating,
        Err(fault) => {
            // (handed to drop, by one call: going out of scope here would be checked field by field on each way out)
            drop(matching);
            return Err(fault);
        }
    };
    let matching = match replayed::<Matching>(alloc, point, matching) {
        Ok(matching) => matching,
        Err(fault) => {
            drop(initiating);
            return Err(fault);
        }
    };
    let audited = desks_audit(alloc, format, &initiating, &matching);
    drop(initiating);
    drop(matching);
    Ok(audited?)
}

/// The audit of both operators' books. `CodeText` where the point is no code, whatever the books are;
/// then why the initiating operator's cannot be read, and why the matching one's; then the faults of
/// their facts.
pub(crate) fn named_audit<B: BookSource>(
    alloc: Global,
    books: &B,
    wanted: Audit<'_>,
) -> Result<AuditText, Fault>
    ensures audited { IfOk result (λ it. HasAudit wanted.entry.format (of_owner (B.gives books.now wanted.entry.books.initiating.now) I wanted.entry.books.point.now) (of_owner (B.gives books.now wanted.entry.books.matching.now) M wanted.entry.books.point.now) wanted.entry.books.point.now it.text.items it.verdict) }
    ensures fault { IfErr result (IsNoAudit (of_owner (B.gives books.now wanted.entry.books.initiating.now) I wanted.entry.books.point.now) (of_owner (B.gives books.now wanted.entry.books.matching.now) M wanted.entry.books.point.now) wanted.entry.books.point.now) }
    ensures code { ¬ (IsCode wanted.entry.books.point.now) → result ≡ Err no_code }
{
    let files = wanted.books;
    let point = Code::read(files.point)?;
    let initiating = owned_facts(
        books,
        files.initiating,
        Owner {
            side: Side::I,
            point,
        },
    )?;
    let matching = match owned_facts(
        books,
        files.matching,
        Owner {
            side: Side::M,
            point,
        },
    ) {
        Ok(matching) => matching,
        Err(fault) => {
            drop(initiating);
            return Err(Fault::from(fault));
        }
    };
    facts_audit(alloc, wanted.format, point, initiating, matching)
}
