//! The report of a book that is read by its name.

ghost use Rattle.std.specs.Prelude.{◌≡◌, Err, IfErr, IfOk};
ghost use Rattle.gi_pairs.specs.Code.{IsCode};
ghost use Rattle.gi_commands.specs.Fault.{no_code};
ghost use Rattle.gi_commands.specs.Owned.{of_owner};
ghost use Rattle.gi_commands.specs.Reporting.{HasBookReport, IsNamedFault};

use crate::desk_report::DeskReport;
use crate::fault::Fault;
use crate::owned::owned_facts;
use crate::reporting::facts_report;
use gi_command_line::BookFile;
use gi_initiator::Initiating;
use gi_matcher::Matching;
use gi_pairs::{Code, CodeText, Side};
use gi_store::{BookSource, Owner};
use std::alloc::Global;

/// The report of a side's book. `CodeText` where the point is no code, whatever the book is; then why
/// it cannot be read, and then the faults of its facts.
pub(crate) fn named_report<B: BookSource>(
    alloc: Global,
    books: &B,
    kind: DeskReport,
    side: Side,
    book: BookFile<'_>,
) -> Result<Vec<u8>, Fault>
    ensures reported { IfOk result (λ text. HasBookReport (of_owner (B.gives books.now book.entry.file.now) side book.entry.point.now) kind side book.entry.point.now (text.items)) }
    ensures fault { IfErr result (IsNamedFault (of_owner (B.gives books.now book.entry.file.now) side book.entry.point.now) side book.entry.point.now) }
    ensures code { ¬ (IsCode book.entry.point.now) → result ≡ Err no_code }
{
    let point = Code::read(book.point)?;
    let facts = owned_facts(books, book.file, Owner { side, point })?;
    match side {
        Side::I => facts_report::<Initiating>(alloc, kind, point, facts),
        Side::M => facts_report::<Matching>(alloc, kind, point, facts),
    }
}
