//! What a line asks of a running office beside a call.

ghost use Rattle.std.specs.Prelude.{◌≡◌};
ghost use Rattle.gi_script.specs.Reading.{Finds};
ghost use Rattle.gi_live.specs.Queries.{AsksQuery, IsPortfolioAfter, SaysMoment, SaysNarrowing, SaysQuantity, SaysQuery, SaysReport, SaysStart, SaysWanted, everything as all_wanted, kind_named as kind_of, query_word as query_word_of};

use gi_explanations::Question;
use gi_moments::Moment;
use gi_pairs::{Code, CycleId, Pair};
use gi_schedule::Wanted;
use gi_script::Words;

/// Which report is asked for.
#[derive(Clone, Copy, Debug, PartialEq, Eq)]
pub enum Report {
    /// The closed cycles that are not confirmed.
    Open,
    /// The confirmed quantities.
    Confirmed,
    /// What is in force for each hour.
    Schedule,
    /// Where a pair gets less than was nominated.
    Cut,
    /// What each confirmed cycle changed.
    Changes,
}

/// A report, and the gas day and the portfolio to which it is narrowed.
#[derive(Clone, Copy)]
pub struct ReportQuery {
    pub kind: Report,
    pub wanted: Wanted,
}

/// What a line asks beside a call.
#[derive(Clone, Copy)]
pub enum Query {
    /// What the saved facts from this number on let out.
    Outgoing(u32),
    /// All facts.
    Facts,
    Report(ReportQuery),
    /// What a quantity comes from.
    Explain(Question),
    /// That the cycles be closed which are due at the moment.
    Due(Moment),
}

/// The word with which a query begins.
#[derive(Clone, Copy, Debug, PartialEq, Eq)]
pub enum QueryWord {
    Outgoing,
    Facts,
    Report,
    Explain,
    Due,
}

#[tactic(auto, unfolding(crate::specs::Queries::query_word))]
fn query_word(text: &str) -> Option<QueryWord>
    ensures { result ≡ query_word_of text.now }
{
    match text {
        "outgoing" => Some(QueryWord::Outgoing),
        "facts" => Some(QueryWord::Facts),
        "report" => Some(QueryWord::Report),
        "explain" => Some(QueryWord::Explain),
        "due" => Some(QueryWord::Due),
        _ => None,
    }
}

#[tactic(auto, unfolding(crate::specs::Queries::kind_named))]
fn kind_named(text: &str) -> Option<Report>
    ensures { result ≡ kind_of text.now }
{
    match text {
        "open" => Some(Report::Open),
        "confirmed" => Some(Report::Confirmed),
        "schedule" => Some(Report::Schedule),
        "cut" => Some(Report::Cut),
        "changes" => Some(Report::Changes),
        _ => None,
    }
}

fn start(mut words: Words<'_>) -> Option<u32>
    ensures { Finds (SaysStart words.entry) result }
{
    let number = words.count()?;
    if !words.is_empty() {
        return None;
    }
    Some(number)
}

fn everything() -> Wanted
    ensures { result ≡ all_wanted }
{
    Wanted {
        day: None,
        portfolio: None,
    }
}

fn portfolio_after(mut words: Words<'_>) -> Option<Option<Code>>
    ensures { Finds (IsPortfolioAfter words.entry) result }
{
    if words.is_empty() {
        return Some(None);
    }
    let code = words.code()?;
    if !words.is_empty() {
        return None;
    }
    Some(Some(code))
}

fn narrowing(mut words: Words<'_>) -> Option<Wanted>
    ensures { Finds (SaysNarrowing words.entry) result }
{
    if words.is_empty() {
        return Some(everything());
    }
    let day = words.day()?;
    let portfolio = portfolio_after(words)?;
    Some(Wanted {
        day: Some(day),
        portfolio,
    })
}

fn wanted(kind: Report, words: Words<'_>) -> Option<Wanted>
    ensures { Finds (SaysWanted kind words.entry) result }
{
    match kind {
        Report::Open | Report::Confirmed if words.is_empty() => Some(everything()),
        Report::Open | Report::Confirmed => None,
        Report::Schedule | Report::Cut | Report::Changes => narrowing(words),
    }
}

fn asked_report(mut words: Words<'_>) -> Option<ReportQuery>
    ensures { Finds (SaysReport words.entry) result }
{
    let kind = kind_named(words.next()?)?;
    let wanted = wanted(kind, words)?;
    Some(ReportQuery { kind, wanted })
}

/// The greatest number of a cycle that a gas day can have.
const LAST_CYCLE: u8 = 36;

/// The greatest number of an hour that a gas day can have.
const LAST_HOUR: u8 = 25;

fn quantity(mut words: Words<'_>) -> Option<Question>
    ensures { Finds (SaysQuantity words.entry) result }
{
    let initiating = words.code()?;
    let matching = words.code()?;
    let direction = words.direction()?;
    let day = words.day()?;
    let cycle = words.byte()?;
    let hour = words.byte()?;
    if !words.is_empty() || cycle > LAST_CYCLE || !(1..=LAST_HOUR).contains(&hour) {
        return None;
    }
    Some(Question {
        pair: Pair {
            initiating,
            matching,
        },
        direction,
        id: CycleId { day, cycle },
        hour,
    })
}

fn moment(mut words: Words<'_>) -> Option<Moment>
    ensures { Finds (SaysMoment words.entry) result }
{
    let moment = Moment::read(words.next()?)?;
    if !words.is_empty() {
        return None;
    }
    Some(moment)
}

/// What the words behind the first one ask.
fn query_of(word: QueryWord, words: Words<'_>) -> Option<Query>
    ensures { Finds (SaysQuery word words.entry) result }
{
    match word {
        QueryWord::Outgoing => Some(Query::Outgoing(start(words)?)),
        QueryWord::Facts if words.is_empty() => Some(Query::Facts),
        QueryWord::Facts => None,
        QueryWord::Report => Some(Query::Report(asked_report(words)?)),
        QueryWord::Explain => Some(Query::Explain(quantity(words)?)),
        QueryWord::Due => Some(Query::Due(moment(words)?)),
    }
}

/// The query that a line asks, which is UTF-8.
pub(crate) fn read_query(line: &[u8]) -> Option<Query>
    ensures { Finds (AsksQuery line.now) result }
{
    let Ok(text) = str::from_utf8(line) else {
        return None;
    };
    let mut words = Words::of(text);
    let word = query_word(words.next()?)?;
    query_of(word, words)
}
