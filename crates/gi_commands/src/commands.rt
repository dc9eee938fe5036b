ghost use Rattle.std.specs.Prelude.{◌≡◌, IfErr, IfSome, OnOk, Err, option_map};
ghost use Rattle.gi_pairs.specs.Code.{IsCode};
ghost use Rattle.gi_command_line.specs.Asked.{book_of, expected_words, explain as asks_explanation, meaning, narrowing_words, page as asks_page, quantity_words, report as asks_report};
ghost use Rattle.gi_commands.specs.Auditing.{Audits, IsFirstAuditFault, LeavesAudit};
ghost use Rattle.gi_commands.specs.Commands.{Does, HasNoCode, HasNoPoint, IsDeskFault, IsFaultOf, Leaves, LeavesFront, MayRead, ReadsUnlessBook, TellsDesk};
ghost use Rattle.gi_commands.specs.Contents.{IsFirstContentsFault, LeavesContents, TellsBook};
ghost use Rattle.gi_commands.specs.Fault.{no_code};
ghost use Rattle.gi_commands.specs.Owned.{of_owner};
ghost use Rattle.gi_pairs.specs.declared.side.Side.TheVariants.{I, M};
ghost use Rattle.gi_commands.specs.Leaving.{LeavesNothing};
ghost use Rattle.gi_commands.specs.Reporting.{IsFirstBookFault, ReportsBook};
ghost use Rattle.gi_commands.specs.Simulating.{HasReport, HasScript, IsFirstScriptFault, Reports, Simulates};

use crate::auditing::named_audit;
use crate::books::named_report;
use crate::contents::named_contents;
use crate::desk_report::{DeskReport, PageDay};
use crate::explaining::question;
use crate::fault::Fault;
use crate::narrowing::wanted;
use crate::reporting::script_report;
use crate::simulating::simulated;
use crate::tables::{match_tables, read_input, tell_hours, write_text};
use gi_audit::Verdict;
use gi_command_line::{Audit, BookFile, BookQuestion, DayPage, Explanation, Report, Request};
use gi_day::GasDay;
use gi_pairs::Side;
use gi_store::BookSource;
use gi_table_commands::Calls;
use std::alloc::Global;
use std::io::{Read, Write};
use std::thread::Threads;

fn simulate_script<R: Read, W: Write>(
    alloc: Global,
    trace: bool,
    input: &mut R,
    output: &mut W,
) -> Result<(), Fault>
    ensures done { OnOk result (IfSome (R.remaining input.old) (λ bytes.
        Simulates trace bytes (W.contents output.old) (W.contents output.new))) }
    ensures leaves { IfErr result (LeavesFront trace (R.remaining input.old) (W.contents output.old) (W.contents output.new)) }
    ensures first { IfErr result (λ fault. IfSome (R.remaining input.old) (λ bytes.
        IsFirstScriptFault HasScript bytes fault)) }
{
    let bytes = read_input(alloc, input, &mut Calls::none())?;
    let written = simulated(alloc, bytes, trace)?;
    write_text(written.text.as_bytes(), output)?;
    if written.complete {
        Ok(())
    } else {
        Err(Fault::OutOfMemory)
    }
}

fn report_script<R: Read, W: Write>(
    alloc: Global,
    kind: DeskReport,
    side: Side,
    input: &mut R,
    output: &mut W,
) -> Result<(), Fault>
    ensures done { OnOk result (IfSome (R.remaining input.old) (λ bytes.
        Reports kind side bytes (W.contents output.old) (W.contents output.new))) }
    ensures leaves { IfErr result (LeavesNothing (W.contents output.old) (W.contents output.new)) }
    ensures first { IfErr result (λ fault. IfSome (R.remaining input.old) (λ bytes.
        IsFirstScriptFault (HasReport kind side) bytes fault)) }
{
    let bytes = read_input(alloc, input, &mut Calls::none())?;
    let text = script_report(alloc, kind, side, bytes.as_slice())?;
    write_text(text.as_slice(), output)
}

fn report_book<B: BookSource, W: Write>(
    alloc: Global,
    books: &B,
    kind: DeskReport,
    side: Side,
    book: BookFile<'_>,
    output: &mut W,
) -> Result<(), Fault>
    ensures done { OnOk result (ReportsBook (of_owner (B.gives books.now book.entry.file.now) side book.entry.point.now) kind side book.entry.point.now (W.contents output.old) (W.contents output.new)) }
    ensures leaves { IfErr result (LeavesNothing (W.contents output.old) (W.contents output.new)) }
    ensures first { IfErr result (IsFirstBookFault (of_owner (B.gives books.now book.entry.file.now) side book.entry.point.now) kind side book.entry.point.now) }
    ensures code { ¬ (IsCode book.entry.point.now) → result ≡ Err no_code }
{
    let text = named_report(alloc, books, kind, side, book)?;
    write_text(text.as_slice(), output)
}

/// Tells of a side's desk: of its book, or else after a script.
fn tell_desk<B: BookSource, R: Read, W: Write>(
    alloc: Global,
    books: &B,
    kind: DeskReport,
    side: Side,
    book: Option<BookFile<'_>>,
    input: &mut R,
    output: &mut W,
) -> Result<(), Fault>
    ensures done { OnOk result (TellsDesk (B.gives books.now) kind side (book_of book.entry) (R.remaining input.old) (W.contents output.old) (W.contents output.new)) }
    ensures first { IfErr result (IsDeskFault (B.gives books.now) kind side (book_of book.entry) (R.remaining input.old)) }
    ensures leaves { IfErr result (LeavesNothing (W.contents output.old) (W.contents output.new)) }
    ensures unread { ReadsUnlessBook (book_of book.entry) (R.remaining input.old) (R.remaining input.new) }
    ensures code { HasNoPoint (book_of book.entry) → result ≡ Err no_code }
{
    match book {
        Some(book) => report_book(alloc, books, kind, side, book, output),
        None => report_script(alloc, kind, side, input, output),
    }
}

fn report<B: BookSource, R: Read, W: Write>(
    alloc: Global,
    books: &B,
    asked: Report<'_>,
    input: &mut R,
    output: &mut W,
) -> Result<(), Fault>
    ensures done { OnOk result (Does (B.gives books.now) (asks_report asked.entry.kind asked.entry.format asked.entry.side (narrowing_words asked.entry.narrowing) (book_of asked.entry.book))
        (R.remaining input.old) (W.contents output.old) (W.contents output.new)) }
    ensures first { IfErr result (IsFaultOf (B.gives books.now) (asks_report asked.entry.kind asked.entry.format asked.entry.side (narrowing_words asked.entry.narrowing) (book_of asked.entry.book)) (R.remaining input.old)) }
    ensures leaves { IfErr result (LeavesNothing (W.contents output.old) (W.contents output.new)) }
    ensures unread { ReadsUnlessBook (book_of asked.entry.book) (R.remaining input.old) (R.remaining input.new) }
    ensures code { HasNoCode (asks_report asked.entry.kind asked.entry.format asked.entry.side (narrowing_words asked.entry.narrowing) (book_of asked.entry.book)) → result ≡ Err no_code }
{
    let wanted = wanted(asked.narrowing)?;
    tell_desk(
        alloc,
        books,
        DeskReport::Listed(asked.kind, asked.format, wanted),
        asked.side,
        asked.book,
        input,
        output,
    )
}

fn explain<B: BookSource, R: Read, W: Write>(
    alloc: Global,
    books: &B,
    wanted: Explanation<'_>,
    input: &mut R,
    output: &mut W,
) -> Result<(), Fault>
    ensures done { OnOk result (Does (B.gives books.now) (asks_explanation wanted.entry.format wanted.entry.side (quantity_words wanted.entry.quantity) (book_of wanted.entry.book))
        (R.remaining input.old) (W.contents output.old) (W.contents output.new)) }
    ensures first { IfErr result (IsFaultOf (B.gives books.now) (asks_explanation wanted.entry.format wanted.entry.side (quantity_words wanted.entry.quantity) (book_of wanted.entry.book)) (R.remaining input.old)) }
    ensures leaves { IfErr result (LeavesNothing (W.contents output.old) (W.contents output.new)) }
    ensures unread { ReadsUnlessBook (book_of wanted.entry.book) (R.remaining input.old) (R.remaining input.new) }
    ensures code { HasNoCode (asks_explanation wanted.entry.format wanted.entry.side (quantity_words wanted.entry.quantity) (book_of wanted.entry.book)) → result ≡ Err no_code }
{
    let question = question(wanted.quantity)?;
    tell_desk(
        alloc,
        books,
        DeskReport::Explanation(question, wanted.format),
        wanted.side,
        wanted.book,
        input,
        output,
    )
}

fn page<B: BookSource, R: Read, W: Write>(
    alloc: Global,
    books: &B,
    wanted: DayPage<'_>,
    input: &mut R,
    output: &mut W,
) -> Result<(), Fault>
    ensures done { OnOk result (Does (B.gives books.now) (asks_page wanted.entry.side wanted.entry.day.now (book_of wanted.entry.book))
        (R.remaining input.old) (W.contents output.old) (W.contents output.new)) }
    ensures first { IfErr result (IsFaultOf (B.gives books.now) (asks_page wanted.entry.side wanted.entry.day.now (book_of wanted.entry.book)) (R.remaining input.old)) }
    ensures leaves { IfErr result (LeavesNothing (W.contents output.old) (W.contents output.new)) }
    ensures unread { ReadsUnlessBook (book_of wanted.entry.book) (R.remaining input.old) (R.remaining input.new) }
    ensures code { HasNoCode (asks_page wanted.entry.side wanted.entry.day.now (book_of wanted.entry.book)) → result ≡ Err no_code }
{
    let day = match GasDay::read(wanted.day) {
        Ok(day) => day,
        Err(fault) => return Err(Fault::Day(fault)),
    };
    tell_desk(
        alloc,
        books,
        DeskReport::Page(PageDay { day }),
        wanted.side,
        wanted.book,
        input,
        output,
    )
}

fn audit_books<B: BookSource, W: Write>(
    alloc: Global,
    books: &B,
    wanted: Audit<'_>,
    output: &mut W,
) -> Result<(), Fault>
    ensures done { OnOk result (Audits wanted.entry.format (of_owner (B.gives books.now wanted.entry.books.initiating.now) I wanted.entry.books.point.now) (of_owner (B.gives books.now wanted.entry.books.matching.now) M wanted.entry.books.point.now) wanted.entry.books.point.now (W.contents output.old) (W.contents output.new)) }
    ensures first { IfErr result (IsFirstAuditFault wanted.entry.format (of_owner (B.gives books.now wanted.entry.books.initiating.now) I wanted.entry.books.point.now) (of_owner (B.gives books.now wanted.entry.books.matching.now) M wanted.entry.books.point.now) wanted.entry.books.point.now) }
    ensures leaves { IfErr result (LeavesAudit wanted.entry.format (of_owner (B.gives books.now wanted.entry.books.initiating.now) I wanted.entry.books.point.now) (of_owner (B.gives books.now wanted.entry.books.matching.now) M wanted.entry.books.point.now) wanted.entry.books.point.now (W.contents output.old) (W.contents output.new)) }
    ensures code { ¬ (IsCode wanted.entry.books.point.now) → result ≡ Err no_code }
{
    let audit = named_audit(alloc, books, wanted)?;
    write_text(audit.text.as_slice(), output)?;
    match audit.verdict {
        Verdict::Agreed | Verdict::Open => Ok(()),
        Verdict::Empty => Err(Fault::Empty),
        Verdict::Differs(_) => Err(Fault::Differs),
    }
}

/// Tells what a book is, and then `Unexpected`, where its first facts are not those that were expected.
fn tell_book<B: BookSource, W: Write>(
    alloc: Global,
    books: &B,
    question: BookQuestion<'_>,
    output: &mut W,
) -> Result<(), Fault>
    ensures done { OnOk result (TellsBook (B.gives books.now question.entry.file.now) (option_map expected_words question.entry.expected) (W.contents output.old) (W.contents output.new)) }
    ensures first { IfErr result (IsFirstContentsFault (B.gives books.now question.entry.file.now) (option_map expected_words question.entry.expected)) }
    ensures leaves { IfErr result (LeavesContents (B.gives books.now question.entry.file.now) (option_map expected_words question.entry.expected) (W.contents output.old) (W.contents output.new)) }
{
    let contents = named_contents(alloc, books, question)?;
    write_text(contents.text.as_bytes(), output)?;
    if contents.is_expected {
        Ok(())
    } else {
        Err(Fault::Unexpected)
    }
}

/// Does what a request asks for, and answers the fault, if any: after a fault nothing is written,
/// unless memory ran out in a script's step or the writer failed, and then perhaps a part, or books
/// differ or close no cycle, and then their audit. `Write`, where the writer fails, comes after every
/// other fault but these. Books are read from `books`, by the names in the words. `match` works in
/// several threads.
pub fn perform<B: BookSource, R: Read, W: Write>(
    alloc: Global,
    threads: &(impl Threads + Sync),
    books: &B,
    request: Request<'_>,
    input: &mut R,
    output: &mut W,
) -> Result<(), Fault>
    ensures done { OnOk result (Does (B.gives books.now) (meaning request.entry) (R.remaining input.old) (W.contents output.old) (W.contents output.new)) }
    ensures first { IfErr result (IsFaultOf (B.gives books.now) (meaning request.entry) (R.remaining input.old)) }
    ensures leaves { IfErr result (Leaves (B.gives books.now) (meaning request.entry) (R.remaining input.old) (W.contents output.old) (W.contents output.new)) }
    ensures unread { MayRead (meaning request.entry) (R.remaining input.old) (R.remaining input.new) }
    ensures code { HasNoCode (meaning request.entry) → result ≡ Err no_code }
{
    match request {
        Request::Match => match_tables(threads, alloc, input, output),
        Request::Hours(day) => tell_hours(alloc, day, output),
        Request::Simulate { trace, .. } => simulate_script(alloc, trace, input, output),
        Request::Report(asked) => report(alloc, books, asked, input, output),
        Request::Audit(wanted) => audit_books(alloc, books, wanted, output),
        Request::Book(question) => tell_book(alloc, books, question, output),
        Request::Explain(wanted) => explain(alloc, books, wanted, input, output),
        Request::Page(wanted) => page(alloc, books, wanted, input, output),
        Request::Mistaken(_) => Err(Fault::CommandLine),
    }
}
