//! The answers to queries, of a desk as it stands between two stretches.

ghost use Rattle.std.specs.Prelude.{◌≡◌, ◌≤◌, ◌++◌, ◌∷◌, [], ℤ, MatchOption, IfErr, IfOk, None, OnOk, Some, filter, length, map, string_bytes};
ghost use Rattle.std.specs.Option.{option_copied};
ghost use Rattle.json.specs.Print.{print};
ghost use Rattle.json.specs.Token.{Token};
ghost use Rattle.gi_reports.specs.Counts.{is_confirmed};
ghost use Rattle.gi_script.specs.Reading.{Finds};
ghost use Rattle.gi_live.specs.Answering.{AnswersLine, AsksDue, AsksGiven, IsEnding, IsRows, LeavesAnswer, Tells, WritesAnswer, WritesEnding, comma_for as comma_for_of, explained_text, fact_line, fact_lines, facts_text, outgoing_at, outgoing_of, outgoing_text, report_start, report_text, rows_text};
ghost use Rattle.gi_live.specs.Answers.{refused_text};
ghost use Rattle.gi_live.specs.Queries.{kind_text as kind_text_of};
ghost use Rattle.gi_live.specs.declared.query.Query.TheVariants as queries;

use crate::answer::refused_line;
use crate::asking::{MOST_LINE, text_of};
use crate::input::InputLine;
use crate::live_fault::LiveFault;
use crate::query::{Query, Report, ReportQuery, read_query};
use crate::telling::add_packets;
use crate::writing::write;
use gi_changes::change_json;
use gi_desk::{Desk, Fact, Role};
use gi_explanations::{Question, explanation};
use gi_exports::{confirmed_json, open_json};
use gi_facts::encode_fact;
use gi_moments::Moment;
use gi_pairs::CycleId;
use gi_reports::closed_cycles;
use gi_schedule::{cut_json, schedule_json};
use gi_text::LINE_FEED;
use json::Writer;
use std::alloc::{AllocError, Global};
use std::io::Write;

// ---- what facts let out

fn add_outgoing<R: Role>(
    alloc: Global,
    text: &mut Vec<u8>,
    desk: &Desk<R>,
    from: u32,
    n: u32,
) -> Result<(), AllocError>
    requires { 1 ≤ n }
    ensures { OnOk result (text.new.items ≡ text.old.items ++ outgoing_at R.SIDE desk.now from n) }
{
    if n < from {
        return Ok(());
    }
    let packets = desk.saved_out(n)?;
    add_packets(alloc, text, Some(n), &packets)
}

fn add_all_outgoing<R: Role>(
    alloc: Global,
    text: &mut Vec<u8>,
    desk: &Desk<R>,
    from: u32,
    saved: u32,
) -> Result<(), AllocError>
    ensures { OnOk result (text.new.items ≡ text.old.items ++ outgoing_of R.SIDE desk.now from saved) }
{
    for before in 0..saved {
        add_outgoing(alloc, text, desk, from, before + 1)?;
    }
    Ok(())
}

fn outgoing<R: Role>(
    alloc: Global,
    desk: &Desk<R>,
    line: u64,
    from: u32,
) -> Result<Vec<u8>, AllocError>
    ensures { IfOk result (λ text. text.items ≡ outgoing_text R.SIDE desk.now line from) }
{
    let saved = desk.saved();
    let answer = format!(in alloc;
        "{{\"answer\":\"outgoing\",\"facts\":{saved},\"line\":{line}}}\n"
    )?;
    let mut text = answer.into_bytes();
    add_all_outgoing(alloc, &mut text, desk, from, saved)?;
    Ok(text)
}

// ---- facts

fn add_some_fact(alloc: Global, text: &mut Vec<u8>, n: u32, fact: &Fact) -> Result<(), AllocError>
    ensures { OnOk result (text.new.items ≡ text.old.items ++ fact_line n (Some fact.now)) }
{
    let number = format!(in alloc; "{{\"fact\":{n},\"record\":")?;
    let record = encode_fact(alloc, fact)?;
    text.extend_from_slice(number.as_bytes())?;
    text.extend_from_slice(&record)?;
    text.extend_from_slice(b"}\n")
}

fn add_fact(
    alloc: Global,
    text: &mut Vec<u8>,
    n: u32,
    fact: Option<&Fact>,
) -> Result<(), AllocError>
    ensures { OnOk result (text.new.items ≡ text.old.items ++ fact_line n (option_copied fact.entry)) }
{
    match fact {
        Some(fact) => add_some_fact(alloc, text, n, fact),
        None => Ok(()),
    }
}

fn add_facts<R: Role>(
    alloc: Global,
    text: &mut Vec<u8>,
    desk: &Desk<R>,
    count: u32,
) -> Result<(), AllocError>
    ensures { OnOk result (text.new.items ≡ text.old.items ++ fact_lines desk.now.facts count) }
{
    for before in 0..count {
        add_fact(alloc, text, before + 1, desk.fact(before + 1))?;
    }
    Ok(())
}

fn facts<R: Role>(alloc: Global, desk: &Desk<R>, line: u64) -> Result<Vec<u8>, AllocError>
    ensures { IfOk result (λ text. text.items ≡ facts_text desk.now line) }
{
    let count = desk.len();
    let answer = format!(in alloc; "{{\"answer\":\"facts\",\"facts\":{count},\"line\":{line}}}\n")?;
    let mut text = answer.into_bytes();
    add_facts(alloc, &mut text, desk, count)?;
    Ok(text)
}

// ---- reports

fn comma_for(byte: u8) -> u8
    ensures { result ≡ comma_for_of byte }
{
    if byte == LINE_FEED { b',' } else { byte }
}

fn add_commas(text: &mut Vec<u8>, rows: &[u8]) -> Result<(), AllocError>
    ensures { OnOk result (text.new.items ≡ text.old.items ++ map comma_for_of rows.now) }
{
    for byte in rows {
        text.push(comma_for(*byte))?;
    }
    Ok(())
}

/// The lines of a report as the elements of an array.
fn add_rows(text: &mut Vec<u8>, lines: &[u8]) -> Result<(), AllocError>
    ensures { OnOk result (text.new.items ≡ text.old.items ++ rows_text lines.now) }
{
    add_commas(text, &lines[..lines.len().saturating_sub(1)])
}

fn rows<R: Role>(alloc: Global, desk: &Desk<R>, asked: &ReportQuery) -> Result<Vec<u8>, AllocError>
    ensures { IfOk result (λ lines. IsRows R.SIDE desk.now asked.now.kind asked.now.wanted lines.items) }
{
    match asked.kind {
        Report::Open => open_json(alloc, desk),
        Report::Confirmed => confirmed_json(alloc, desk),
        Report::Schedule => schedule_json(alloc, desk, &asked.wanted),
        Report::Cut => cut_json(alloc, desk, &asked.wanted),
        Report::Changes => change_json(alloc, desk, &asked.wanted),
    }
}

fn name_of(kind: Report) -> &'static str
    ensures { result.now ≡ kind_text_of kind }
{
    match kind {
        Report::Open => "open",
        Report::Confirmed => "confirmed",
        Report::Schedule => "schedule",
        Report::Cut => "cut",
        Report::Changes => "changes",
    }
}

fn report_head(alloc: Global, line: u64, name: &str) -> Result<String, AllocError>
    ensures { IfOk result (λ text. string_bytes text ≡ report_start line name.now) }
{
    format!(in alloc; "{{\"answer\":\"report\",\"kind\":\"{name}\",\"line\":{line},\"rows\":[")
}

fn report(alloc: Global, line: u64, kind: Report, lines: &[u8]) -> Result<Vec<u8>, AllocError>
    ensures { IfOk result (λ text. text.items ≡ report_text line kind lines.now) }
{
    let mut text = report_head(alloc, line, name_of(kind))?.into_bytes();
    add_rows(&mut text, lines)?;
    text.extend_from_slice(b"]}\n")?;
    Ok(text)
}

fn desk_report<R: Role>(
    alloc: Global,
    desk: &Desk<R>,
    line: u64,
    asked: &ReportQuery,
) -> Result<Vec<u8>, AllocError>
    ensures { IfOk result (λ text. Tells R.SIDE desk.now line (queries.Report asked.now) text.items) }
{
    let lines = rows(alloc, desk, asked)?;
    report(alloc, line, asked.kind, &lines)
}

// ---- explanations

fn json_string(alloc: Global, text: &str) -> Result<Vec<u8>, AllocError>
    ensures { IfOk result (λ bytes. bytes.items ≡ print (Token.string text.now ∷ [])) }
{
    let mut out = Writer::new(Vec::new(alloc));
    out.string(text)?;
    Ok(out.into_inner())
}

fn explained(alloc: Global, line: u64, text: &str) -> Result<Vec<u8>, AllocError>
    ensures { IfOk result (λ all. all.items ≡ explained_text line text.now) }
{
    let answer = format!(in alloc; "{{\"answer\":\"explained\",\"line\":{line},\"text\":")?;
    let mut all = answer.into_bytes();
    let string = json_string(alloc, text)?;
    all.extend_from_slice(&string)?;
    all.extend_from_slice(b"}\n")?;
    Ok(all)
}

fn desk_explanation<R: Role>(
    alloc: Global,
    desk: &Desk<R>,
    line: u64,
    question: &Question,
) -> Result<Vec<u8>, AllocError>
    ensures { IfOk result (λ text. Tells R.SIDE desk.now line (queries.Explain question.now) text.items) }
{
    let text = explanation(alloc, desk, question)?;
    explained(alloc, line, text.as_str())
}

// ---- any of them

/// The answer to a query on the line of this number, and what is told behind it.
fn query_text<R: Role>(
    alloc: Global,
    desk: &Desk<R>,
    line: u64,
    query: &Query,
) -> Result<Vec<u8>, AllocError>
    requires { (moment : ℤ) → ¬ (query.now ≡ queries.Due moment) }
    ensures { IfOk result (λ text. Tells R.SIDE desk.now line query.now text.items) }
{
    match query {
        Query::Outgoing(from) => outgoing(alloc, desk, line, *from),
        Query::Facts => facts(alloc, desk, line),
        Query::Report(asked) => desk_report(alloc, desk, line, asked),
        Query::Explain(question) => desk_explanation(alloc, desk, line, question),
        Query::Due(_) => unreachable!(),
    }
}

fn refused(alloc: Global, line: u64, name: &str) -> Result<Vec<u8>, AllocError>
    ensures { IfOk result (λ text. text.items ≡ refused_text line name.now None) }
{
    Ok(refused_line(alloc, line, name, None)?.into_bytes())
}

/// The query that a line asks which is ended.
fn query_in(line: &[u8]) -> Option<Query>
    ensures { Finds (AsksGiven line.now) result }
{
    read_query(text_of(line)?)
}

fn moment_in(query: Query) -> Option<Moment>
    ensures { MatchOption result ((moment : ℤ) → ¬ (query ≡ queries.Due moment)) (λ moment. query ≡ queries.Due moment) }
{
    match query {
        Query::Due(moment) => Some(moment),
        _ => None,
    }
}

/// The moment at which a line asks for what is due.
pub(crate) fn due_in(line: &InputLine) -> Option<Moment>
    ensures { MatchOption result ((moment : ℤ) → ¬ AsksDue line.now moment) (AsksDue line.now) }
{
    let given = line.as_slice();
    if given.len() > MOST_LINE {
        return None;
    }
    match query_in(given) {
        Some(query) => moment_in(query),
        None => None,
    }
}

fn line_answer<R: Role>(
    alloc: Global,
    desk: &Desk<R>,
    number: u64,
    line: &[u8],
) -> Result<Vec<u8>, AllocError>
    requires { (moment : ℤ) → ¬ AsksDue line.now moment }
    ensures { IfOk result (λ text. AnswersLine R.SIDE desk.now number line.now text.items) }
{
    if line.len() > MOST_LINE {
        return refused(alloc, number, "TooLarge");
    }
    match query_in(line) {
        Some(query) => query_text(alloc, desk, number, &query),
        None => refused(alloc, number, "Unreadable"),
    }
}

/// Writes the answer to a query, which stands on the line of this number and does not ask for what is due. `OutOfMemory`, where nothing is
/// written, and `Write`.
pub(crate) fn answer_query<R: Role, O: Write>(
    alloc: Global,
    desk: &Desk<R>,
    number: u64,
    line: &InputLine,
    output: &mut O,
) -> Result<(), LiveFault>
    requires { (moment : ℤ) → ¬ AsksDue line.now moment }
    ensures written { OnOk result (WritesAnswer R.SIDE desk.now number line.now (O.contents output.old) (O.contents output.new)) }
    ensures leaves { IfErr result (LeavesAnswer (O.contents output.old) (O.contents output.new)) }
{
    match line_answer(alloc, desk, number, line.as_slice()) {
        Ok(text) => write(output, &text),
        Err(_) => Err(LiveFault::OutOfMemory),
    }
}

// ---- the end

fn confirmed_count<R: Role>(desk: &Desk<R>, ids: &[CycleId]) -> usize
    ensures { result ≡ length (filter (is_confirmed R.SIDE desk.now) ids.now) }
{
    let mut count = 0;
    for id in ids {
        if desk.confirmed(*id).is_some() {
            count += 1;
        }
    }
    count
}

fn ending<R: Role>(alloc: Global, desk: &Desk<R>) -> Result<String, AllocError>
    ensures { IfOk result (λ text. IsEnding R.SIDE desk.now (string_bytes text)) }
{
    let (facts, saved) = (desk.len(), desk.saved());
    let ids = closed_cycles(alloc, desk)?;
    let confirmed = confirmed_count(desk, &ids);
    format!(in alloc;
        "{{\"answer\":\"ended\",\"confirmed\":{confirmed},\"facts\":{facts},\"saved\":{saved}}}\n"
    )
}

/// Writes the last line of a run, such as `{"answer":"ended","confirmed":1,"facts":9,"saved":9}`. The faults are those of
/// [`answer_query`].
pub(crate) fn tell_end<R: Role, O: Write>(
    alloc: Global,
    desk: &Desk<R>,
    output: &mut O,
) -> Result<(), LiveFault>
    ensures written { OnOk result (WritesEnding R.SIDE desk.now (O.contents output.old) (O.contents output.new)) }
    ensures leaves { IfErr result (LeavesAnswer (O.contents output.old) (O.contents output.new)) }
{
    match ending(alloc, desk) {
        Ok(text) => write(output, text.as_bytes()),
        Err(_) => Err(LiveFault::OutOfMemory),
    }
}
