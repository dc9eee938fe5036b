//! Nominations: how each is judged, and which ones are in force.

ghost use Rattle.std.specs.Prelude.{◌≡◌};
ghost use Rattle.gi_nominations.specs.Book.{IsNewer};
ghost use Rattle.gi_nominations.specs.declared.verdict.Verdict.TheVariants as Verdict;

use crate::hours_text::add_hours;
use crate::messages::shown::add_priority;
use crate::nomint_text::nomint;
use gi_calls::{Answer, Fault, Subject, Words};
use gi_day::Calendar;
use gi_messages::Nomint;
use gi_nominations::{Book, MOST_LINES, Setting, Verdict};
use std::alloc::{AllocError, Global};

/// The calls of the subject `nominations`: `new POINT`, `judge known|unknown CLOSED NOMINT`, where
/// CLOSED is the last closed cycle of the gas day or `none`, `take` with the same words, which takes
/// what is recordable, `in_force PORTFOLIO DAY` and `most_lines`.
#[derive(Drop)]
pub struct Nominations {
    book: Option<Book>,
}

/// A nomination, and what it is judged by beside the book.
#[derive(Drop)]
struct Offer {
    known: bool,
    last_closed: Option<u8>,
    nomint: Nomint,
}

/// The next word as whether a portfolio is known.
fn known(words: &mut Words<'_>) -> Option<bool> {
    match words.next() {
        "known" => Some(true),
        "unknown" => Some(false),
        _ => None,
    }
}

/// The next word as the cycle that was closed last, if one was.
fn last_closed(words: &mut Words<'_>) -> Option<Option<u8>> {
    match words.next() {
        "none" => Some(None),
        word => Some(Some(word.parse::<u8>().ok()?)),
    }
}

/// All words that are left as a nomination and what it is judged by.
fn read_offer(alloc: Global, mut words: Words<'_>) -> Result<Option<Offer>, Fault> {
    let (Some(known), Some(last_closed)) = (known(&mut words), last_closed(&mut words)) else {
        return Ok(None);
    };
    match nomint(alloc, words.rest())? {
        Some(nomint) => Ok(Some(Offer {
            known,
            last_closed,
            nomint,
        })),
        None => Ok(None),
    }
}

/// The verdict on the nomination, by the frame of its gas day.
fn judge(book: &Book, offer: &Offer) -> Verdict
    ensures { result ≡ Verdict.Recordable → IsNewer book.now.documents offer.now.nomint }
{
    let calendar = Calendar::new().unwrap();
    let setting = Setting {
        frame: calendar.frame(offer.nomint.day).unwrap(),
        known: offer.known,
        last_closed: offer.last_closed,
    };
    book.judge(&setting, &offer.nomint)
}

/// The verdict on the nomination, which is taken where it is recordable.
fn take(book: &mut Book, offer: Offer) -> Result<Verdict, AllocError> {
    let verdict = judge(book, &offer);
    if let Verdict::Recordable = verdict {
        book.take(offer.nomint)?;
    }
    Ok(verdict)
}

/// Adds a verdict.
pub(crate) fn add_verdict(verdict: Verdict, text: &mut Answer) {
    match verdict {
        Verdict::Refused(fault) => text.show(fault),
        other => text.debug(&other),
    }
}

/// Adds the version and the lines of a nomination.
fn add_nomint(nomint: &Nomint, text: &mut Answer) {
    text.add("version");
    text.word(nomint.version);
    for line in nomint.lines.as_slice() {
        text.end_line();
        text.show(line.counterparty);
        text.word(line.direction);
        add_priority(line, text);
        add_hours(line.hours.as_slice(), text);
    }
}

impl Nominations {
    pub fn new() -> Nominations {
        Nominations { book: None }
    }

    /// Begins a book.
    fn begin(&mut self, alloc: Global, mut words: Words<'_>, text: &mut Answer) -> bool {
        let Some(point) = words.code() else {
            return false;
        };
        self.book = Some(Book::new(alloc, point));
        text.add("ok");
        true
    }

    fn judge(&self, alloc: Global, words: Words<'_>, text: &mut Answer) -> Result<bool, Fault> {
        let Some(book) = &self.book else {
            return Ok(false);
        };
        let Some(offer) = read_offer(alloc, words)? else {
            return Ok(false);
        };
        add_verdict(judge(book, &offer), text);
        Ok(true)
    }

    fn take(&mut self, alloc: Global, words: Words<'_>, text: &mut Answer) -> Result<bool, Fault> {
        let Some(book) = &mut self.book else {
            return Ok(false);
        };
        let Some(offer) = read_offer(alloc, words)? else {
            return Ok(false);
        };
        add_verdict(take(book, offer)?, text);
        Ok(true)
    }

    fn in_force(&self, mut words: Words<'_>, text: &mut Answer) -> bool {
        let (Some(book), Some(portfolio), Some(day)) = (&self.book, words.code(), words.day())
        else {
            return false;
        };
        match book.in_force(portfolio, day) {
            Some(nomint) => add_nomint(nomint, text),
            None => text.add("none"),
        }
        true
    }
}

impl Subject for Nominations {
    fn answer(&mut self, rt: &HostRuntime, call: &str, text: &mut Answer) -> Result<bool, Fault> {
        let alloc = rt.alloc();
        let mut words = Words::of(call);
        match words.next() {
            "new" => Ok(self.begin(alloc, words, text)),
            "judge" => self.judge(alloc, words, text),
            "take" => self.take(alloc, words, text),
            "in_force" => Ok(self.in_force(words, text)),
            "most_lines" => {
                text.show(MOST_LINES);
                Ok(true)
            }
            _ => Ok(false),
        }
    }
}
