//! What `report`, `explain` and `page` write of a script's end, and of a book.

ghost use Rattle.std.specs.Prelude.{◌≡◌, Err, IfErr, IfOk, List};
ghost use Rattle.sqlite.specs.Held.{state};
ghost use Rattle.gi_facts.specs.declared.fact.Fact.{Fact};
ghost use Rattle.gi_script.specs.Script.{HasNoPoint};
ghost use Rattle.gi_script.specs.declared.fault.ScriptFault.TheVariants.{Point};
ghost use Rattle.gi_store.specs.Book.{IsRead};
ghost use Rattle.gi_store.specs.Clean.{IsClean};
ghost use Rattle.gi_store.specs.Keeping.{AddsNoOutcome, Keeps};
ghost use Rattle.gi_commands.specs.Owned.{anything};
ghost use Rattle.gi_page.specs.Page.{IsPage};
ghost use Rattle.gi_commands.specs.Reporting.{HasBookReport, IsBookFault, IsBookReport, IsCsvReport, IsExplanation, IsFactsFault, IsJsonReport, IsReport, IsRowsFault, IsTextReport};
ghost use Rattle.gi_commands.specs.Simulating.{IsNoScript, IsScriptReport};
ghost use Rattle.gi_world.specs.World.{station_of};

use crate::desk_report::{DeskReport, PageDay};
use crate::fault::Fault;
use crate::replaying::replayed;
use gi_changes::{change_csv, change_json, change_report};
use gi_command_line::{Format, LineFormat, ReportKind};
use gi_desk::{Desk, Fact, Role};
use gi_explanations::{Question, explanation, explanation_json};
use gi_exports::{confirmed_csv, confirmed_json, open_csv, open_json, refused_csv, refused_json};
use gi_initiator::Initiating;
use gi_matcher::Matching;
use gi_page::day_page;
use gi_pairs::{Code, Side};
use gi_reports::{confirmed_report, open_report, refused_report};
use gi_schedule::{
    Wanted, cut_csv, cut_json, cut_report, schedule_csv, schedule_json, schedule_report,
};
use gi_script::read_script;
use gi_simulation::refused_submissions;
use gi_store::BookStore;
use gi_world::World;
use sqlite::Alter;
use std::alloc::{AllocError, Global};

fn text_report<R: Role>(
    alloc: Global,
    kind: ReportKind,
    wanted: &Wanted,
    desk: &Desk<R>,
    submissions: &[Option<Code>],
) -> Result<Vec<u8>, AllocError>
    ensures { IfOk result (λ text. IsTextReport kind wanted.now R.SIDE desk.now submissions.now text.items) }
{
    let text = match kind {
        ReportKind::Open => open_report(alloc, desk)?,
        ReportKind::Confirmed => confirmed_report(alloc, desk)?,
        ReportKind::Refused => refused_report(alloc, submissions)?,
        ReportKind::Schedule => schedule_report(alloc, desk, wanted)?,
        ReportKind::Cut => cut_report(alloc, desk, wanted)?,
        ReportKind::Changes => change_report(alloc, desk, wanted)?,
    };
    Ok(text.into_bytes())
}

fn csv_report<R: Role>(
    alloc: Global,
    kind: ReportKind,
    wanted: &Wanted,
    desk: &Desk<R>,
    submissions: &[Option<Code>],
) -> Result<Vec<u8>, AllocError>
    ensures { IfOk result (λ text. IsCsvReport kind wanted.now R.SIDE desk.now submissions.now text.items) }
{
    match kind {
        ReportKind::Open => open_csv(alloc, desk),
        ReportKind::Confirmed => confirmed_csv(alloc, desk),
        ReportKind::Refused => refused_csv(alloc, submissions),
        ReportKind::Schedule => schedule_csv(alloc, desk, wanted),
        ReportKind::Cut => cut_csv(alloc, desk, wanted),
        ReportKind::Changes => change_csv(alloc, desk, wanted),
    }
}

fn json_report<R: Role>(
    alloc: Global,
    kind: ReportKind,
    wanted: &Wanted,
    desk: &Desk<R>,
    submissions: &[Option<Code>],
) -> Result<Vec<u8>, AllocError>
    ensures { IfOk result (λ text. IsJsonReport kind wanted.now R.SIDE desk.now submissions.now text.items) }
{
    match kind {
        ReportKind::Open => open_json(alloc, desk),
        ReportKind::Confirmed => confirmed_json(alloc, desk),
        ReportKind::Refused => refused_json(alloc, submissions),
        ReportKind::Schedule => schedule_json(alloc, desk, wanted),
        ReportKind::Cut => cut_json(alloc, desk, wanted),
        ReportKind::Changes => change_json(alloc, desk, wanted),
    }
}

fn explained<R: Role>(
    alloc: Global,
    format: LineFormat,
    desk: &Desk<R>,
    question: &Question,
) -> Result<Vec<u8>, AllocError>
    ensures { IfOk result (λ text. IsExplanation format R.SIDE desk.now question.now text.items) }
{
    match format {
        LineFormat::Text => Ok(explanation(alloc, desk, question)?.into_bytes()),
        LineFormat::Json => explanation_json(alloc, desk, question),
    }
}

fn paged<R: Role>(alloc: Global, desk: &Desk<R>, asked: &PageDay) -> Result<Vec<u8>, AllocError>
    ensures { IfOk result (λ text. IsPage R.SIDE desk.now asked.now.day text.items) }
{
    day_page(alloc, desk, asked.day)
}

fn desk_report<R: Role>(
    alloc: Global,
    kind: DeskReport,
    desk: &Desk<R>,
    submissions: &[Option<Code>],
) -> Result<Vec<u8>, AllocError>
    ensures { IfOk result (λ text. IsReport kind R.SIDE desk.now submissions.now (text.items)) }
{
    match kind {
        DeskReport::Listed(kind, Format::Text, wanted) => text_report(
            alloc,
            kind,
            &wanted,
            desk,
            submissions,
        ),
        DeskReport::Listed(kind, Format::Csv, wanted) => csv_report(
            alloc,
            kind,
            &wanted,
            desk,
            submissions,
        ),
        DeskReport::Listed(kind, Format::Json, wanted) => json_report(
            alloc,
            kind,
            &wanted,
            desk,
            submissions,
        ),
        DeskReport::Explanation(question, format) => explained(alloc, format, desk, &question),
        DeskReport::Page(asked) => paged(alloc, desk, &asked),
    }
}

fn side_report(
    alloc: Global,
    kind: DeskReport,
    side: Side,
    world: &World,
    submissions: &[Option<Code>],
) -> Result<Vec<u8>, AllocError>
    ensures { IfOk result (λ text. IsReport kind side (station_of side world.now).desk submissions.now (text.items)) }
{
    match side {
        Side::I => desk_report(alloc, kind, world.initiating(), submissions),
        Side::M => desk_report(alloc, kind, world.matching(), submissions),
    }
}

/// What `report` writes for an input: the report of a side after the script's steps. The fault is
/// the script's, or `OutOfMemory`; `Point` wants no memory.
pub fn script_report(
    alloc: Global,
    kind: DeskReport,
    side: Side,
    input: &[u8],
) -> Result<Vec<u8>, Fault>
    ensures text { IfOk result (λ text. IsScriptReport kind side input.now (text.items)) }
    ensures fault { IfErr result (IsNoScript input.now) }
    ensures point { HasNoPoint input.now → result ≡ Err (Fault.Script Point) }
{
    let script = read_script(alloc, input)?;
    let (simulation, submissions) = refused_submissions(alloc, side, script)?;
    let text = side_report(alloc, kind, side, simulation.world(), &submissions);
    // (handed to drop, by one call: going out of scope here would be checked field by field on each way out)
    drop(simulation);
    drop(submissions);
    match text {
        Ok(text) => Ok(text),
        Err(_) => Err(Fault::OutOfMemory),
    }
}

pub(crate) fn facts_report<R: Role>(
    alloc: Global,
    kind: DeskReport,
    point: Code,
    facts: Vec<Fact>,
) -> Result<Vec<u8>, Fault>
    ensures reported { IfOk result (λ text. IsBookReport kind R.SIDE point facts.items (text.items)) }
    ensures fault { IfErr result (IsFactsFault R.SIDE point facts.items) }
{
    let desk = replayed::<R>(alloc, point, facts)?;
    let text = desk_report(alloc, kind, &desk, &[]);
    drop(desk);
    Ok(text?)
}

fn replayed_report<R: Role, S: Alter>(
    alloc: Global,
    kind: DeskReport,
    point: Code,
    book: &mut BookStore<S>,
) -> Result<Vec<u8>, Fault>
    ensures of_rows { IsClean S.Store book.new.connection →
        IfOk result (λ text. (facts : List Fact) × IsRead (state S.Store book.new.connection) facts × IsBookReport kind R.SIDE point facts (text.items)) }
    ensures refused_rows { IsClean S.Store book.new.connection →
        IfErr result (IsRowsFault R.SIDE point (state S.Store book.old.connection) (state S.Store book.new.connection)) }
    ensures reported { IfOk result (λ text. HasBookReport anything kind R.SIDE point (text.items)) }
    ensures fault { IfErr result (IsBookFault anything R.SIDE point) }
    ensures kept { IsClean S.Store book.new.connection → Keeps (state S.Store book.old.connection) (state S.Store book.new.connection) }
    ensures crash { IsClean S.Store book.new.connection → AddsNoOutcome (state S.Store book.old.connection) (state S.Store book.new.connection) }
{
    facts_report::<R>(alloc, kind, point, book.load()?)
}

/// What `report` writes of a book: the report of the side's desk, replayed from its facts.
/// `refused` has no lines, since refusals are no facts. The faults of `load`, then `BadFact` for the
/// first fact that no desk of this side and point records after those before it, and `OutOfMemory`.
pub fn book_report<S: Alter>(
    alloc: Global,
    kind: DeskReport,
    side: Side,
    point: Code,
    book: &mut BookStore<S>,
) -> Result<Vec<u8>, Fault>
    ensures of_rows { IsClean S.Store book.new.connection →
        IfOk result (λ text. (facts : List Fact) × IsRead (state S.Store book.new.connection) facts × IsBookReport kind side point facts (text.items)) }
    ensures refused_rows { IsClean S.Store book.new.connection →
        IfErr result (IsRowsFault side point (state S.Store book.old.connection) (state S.Store book.new.connection)) }
    ensures reported { IfOk result (λ text. HasBookReport anything kind side point (text.items)) }
    ensures fault { IfErr result (IsBookFault anything side point) }

    // No row is changed, and a crash leaves nothing that it could not leave before.
    ensures kept { IsClean S.Store book.new.connection → Keeps (state S.Store book.old.connection) (state S.Store book.new.connection) }
    ensures crash { IsClean S.Store book.new.connection → AddsNoOutcome (state S.Store book.old.connection) (state S.Store book.new.connection) }
{
    match side {
        Side::I => replayed_report::<Initiating, S>(alloc, kind, point, book),
        Side::M => replayed_report::<Matching, S>(alloc, kind, point, book),
    }
}
