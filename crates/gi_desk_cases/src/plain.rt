//! A plain desk: it keeps its facts, how many of them are saved, and whether it is halted, and goes
//! through all facts for each answer.

use crate::frames::{cycle_count, hours};
use crate::memory::put;
use crate::processing::{lesser_of, processed};
use crate::reading::{
    in_force, is_known, last_closed, meeting, number_of_closing, number_of_taking,
};
use gi_day::{Calendar, GasDay};
use gi_desk::{Answer, Body, Call, Fact, Outcome, Packet, Refusal, StageName};
use gi_messages::{Delord, Delres, Message, NominationLine, Nomint, decode};
use gi_nominations::NominationFault;
use gi_pairs::{Code, CycleId, MOST_PROCESSED_ROWS, MOST_ROWS, Row, Side, Table};
use gi_parts::{KeptPart, Part};
use gi_processing::{Notice, Rule};
use std::alloc::Global;

// What goes out of scope here and in the modules beside is handed to `drop`, by one call, since it would
// be checked field by field on each way out.

#[derive(Drop)]
pub struct Plain {
    pub alloc: Global,
    pub calendar: Calendar,
    pub side: Side,
    pub point: Code,
    pub facts: Vec<Fact>,
    pub saved: usize,
    pub halted: bool,
    /// The parts of messages that are kept.
    pub kept: Vec<KeptPart>,
}

/// The number as the answers have it.
pub fn number(n: usize) -> u32 {
    u32::try_from(n).unwrap_or(u32::MAX)
}

/// The rule of a closing.
fn rule_of(fact: &Fact) -> Rule {
    match fact {
        Fact::Closed { rule, .. } => *rule,
        _ => Rule::One,
    }
}

/// How many lines are of the line's counterparty and direction.
fn count_like(lines: &[NominationLine], line: &NominationLine) -> usize {
    let mut count = 0usize;
    for other in lines {
        if other.counterparty == line.counterparty && other.direction == line.direction {
            count = count.wrapping_add(1);
        }
    }
    count
}

/// The fault of a nomination's lines.
fn lines_fault(lines: &[NominationLine], hours: u8) -> Option<NominationFault> {
    for line in lines {
        if line.hours.as_slice().len() != usize::from(hours) {
            return Some(NominationFault::HourCount);
        }
    }
    if lines.len() > 64 {
        return Some(NominationFault::TooManyLines);
    }
    for line in lines {
        if count_like(lines, line) > 1 {
            return Some(NominationFault::DuplicateLine);
        }
    }
    None
}

/// The fault of a nomination beside the one in force.
fn version_fault(held: &Nomint, document: &Nomint) -> Option<NominationFault> {
    let version = held.version;
    if document.version < version {
        return Some(NominationFault::Stale { held: version });
    }
    if document.version == version && document.lines != held.lines {
        return Some(NominationFault::Conflict { held: version });
    }
    None
}

/// Whether both are the same row; no row is another one.
fn is_same(row: Option<&Row>, other: Option<&Row>) -> bool {
    match (row, other) {
        (Some(row), Some(other)) => row == other,
        _ => false,
    }
}

/// The first place, from 1, at which rows differ from others.
fn difference(rows: &[Row], others: &[Row]) -> Option<u32> {
    for place in 0..rows.len().max(others.len()) {
        if !is_same(rows.get(place), others.get(place)) {
            return Some(number(place.wrapping_add(1)));
        }
    }
    None
}

/// The fault of a response that confirms anything but the lesser; an order confirms nothing.
fn not_the_lesser(confirmed: Option<&Table>, lesser: &Table) -> Option<Refusal> {
    let row = difference(confirmed?.rows(), lesser.rows())?;
    Some(Refusal::NotTheLesser { row })
}

/// Whether each row stands among others.
fn are_among(rows: &[Row], others: &[Row]) -> bool {
    for row in rows {
        if !others.contains(row) {
            return false;
        }
    }
    true
}

/// Whether a part may stand beside another one of its cycle.
fn goes_with(one: &Part, part: &Part) -> bool {
    one.parts == part.parts
        && (one.number != part.number
            || one.processed == part.processed && one.confirmed_rows() == part.confirmed_rows())
}

/// Adds copies of rows.
fn add_rows(rows: &mut Vec<Row>, more: &[Row]) {
    for row in more {
        if let Ok(row) = row.copy() {
            put(rows, row);
        }
    }
}

/// Copies of rows.
fn rows_of(alloc: Global, more: &[Row]) -> Vec<Row> {
    let mut rows = Vec::new(alloc);
    add_rows(&mut rows, more);
    rows
}

/// Whether two rows are of one pair and direction.
fn has_twins(rows: &[Row]) -> bool {
    for place in 0..rows.len() {
        for other in 0..place {
            if rows[place].key() == rows[other].key() {
                return true;
            }
        }
    }
    false
}

/// A message of another kind is refused.
fn wrong_kind(message: Message) -> Outcome {
    drop(message);
    Outcome::Refuses(Refusal::WrongKind)
}

impl Plain {
    /// A desk without facts.
    pub fn new(alloc: Global, side: Side, point: Code) -> Option<Plain> {
        Some(Plain {
            alloc,
            calendar: Calendar::new().ok()?,
            side,
            point,
            facts: Vec::new(alloc),
            saved: 0,
            halted: false,
            kept: Vec::new(alloc),
        })
    }

    /// Starts again with so many of its facts, all saved.
    pub fn restart(&mut self, keep: usize) {
        self.facts.truncate(keep);
        self.saved = self.facts.len();
        self.halted = false;
        self.kept.clear();
    }

    /// The frozen table of the cycle, once it is closed: that of the facts before its closing, by its
    /// rule.
    pub fn frozen(&self, id: &CycleId) -> Option<Table> {
        let n = number_of_closing(&self.facts, id)?;
        let before = self.facts.get(..n.wrapping_sub(1))?;
        let rule = rule_of(self.facts.get(n.wrapping_sub(1))?);
        processed(self.alloc, &self.calendar, before, self.side, id, rule)
    }

    /// The lesser of the cycle's frozen table and the peer's, where both are of the same hours.
    pub fn lesser(&self, id: &CycleId, peer: &Table) -> Option<Table> {
        match self.frozen(id) {
            Some(own) => lesser_of(self.alloc, &own, peer),
            None => None,
        }
    }

    fn noticed(&self, notice: &Notice) -> Outcome {
        let hours = hours(&self.calendar, notice.day);
        if notice.first < 1 || notice.last < notice.first || hours < notice.last {
            return Outcome::Refuses(Refusal::NoticeRange);
        }
        if notice.firm > 1000 || notice.interruptible > 1000 {
            return Outcome::Refuses(Refusal::PermilleRange);
        }
        Outcome::Records(Fact::Noticed(*notice))
    }

    /// Whether the gas day's last cycle is closed.
    fn is_over(&self, day: GasDay) -> bool {
        let cycle = cycle_count(&self.calendar, day).wrapping_sub(1);
        number_of_closing(&self.facts, &CycleId { day, cycle }).is_some()
    }

    fn nomination_fault(&self, document: &Nomint) -> Option<NominationFault> {
        if document.point != self.point {
            return Some(NominationFault::WrongPoint);
        }
        if !is_known(&self.facts, document.portfolio, document.day) {
            return Some(NominationFault::UnknownPortfolio);
        }
        let hours = hours(&self.calendar, document.day);
        if let Some(fault) = lines_fault(document.lines.as_slice(), hours) {
            return Some(fault);
        }
        if self.is_over(document.day) {
            return Some(NominationFault::DayOver);
        }
        match in_force(&self.facts, document.portfolio, document.day) {
            Some(held) => version_fault(held, document),
            None => None,
        }
    }

    fn nominated(&self, document: Nomint) -> Outcome {
        let refused = self.nomination_fault(&document).map(Refusal::Nomination);
        let taken = number_of_taking(&self.facts, &document);
        let outcome = match (refused, taken) {
            (Some(refusal), _) => Outcome::Refuses(refusal),
            (None, Some(n)) => Outcome::RepeatsNomination { n: number(n) },
            (None, None) => return Outcome::Records(Fact::Nominated(document)),
        };
        drop(document);
        outcome
    }

    fn submitted(&self, body: &Body) -> Outcome {
        match decode(self.alloc, body.as_slice()) {
            Ok(Message::Nomint(document)) => self.nominated(document),
            Ok(other) => wrong_kind(other),
            Err(fault) => Outcome::Refuses(Refusal::Message(fault)),
        }
    }

    fn closed(&self, id: &CycleId, rule: Rule) -> Outcome {
        if id.cycle >= cycle_count(&self.calendar, id.day) {
            return Outcome::Refuses(Refusal::NoSuchCycle);
        }
        if number_of_closing(&self.facts, id).is_some() {
            return Outcome::Refuses(Refusal::AlreadyClosed);
        }
        match last_closed(&self.facts, id.day) {
            Some(last) if last > id.cycle => Outcome::Refuses(Refusal::OutOfOrder { last }),
            _ => Outcome::Records(Fact::Closed { id: *id, rule }),
        }
    }

    /// What stands against a message of the peer to that side, whatever its rows are.
    fn message_fault(&self, side: Side, point: Code, id: &CycleId, part: &Part) -> Option<Refusal> {
        if side != self.side {
            return Some(Refusal::WrongKind);
        }
        if point != self.point {
            return Some(Refusal::WrongPoint);
        }
        match self.frozen(id) {
            None => Some(Refusal::NotClosed),
            Some(own) if !own.covers_same_hours(&part.processed) => Some(Refusal::ShapeDiffers),
            Some(_) => None,
        }
    }

    /// What a whole message comes to that nothing else stands against: at the initiating side also that
    /// something else is confirmed.
    fn met(&self, id: CycleId, part: Part) -> Outcome {
        let Part {
            processed,
            confirmed,
            ..
        } = part;
        let refusal = match self.lesser(&id, &processed) {
            Some(lesser) => not_the_lesser(confirmed.as_ref(), &lesser),
            None => Some(Refusal::ShapeDiffers),
        };
        drop(confirmed);
        if let Some(refusal) = refusal {
            drop(processed);
            return Outcome::Refuses(refusal);
        }
        match meeting(&self.facts, &id) {
            Some((n, met)) if *met == processed => Outcome::RepeatsMeeting { n: number(n) },
            Some(_) => Outcome::Refuses(Refusal::Conflict),
            None => Outcome::Records(Fact::Met {
                id,
                peer: processed,
            }),
        }
    }

    /// What one of several parts comes to where the cycle met that table by that fact.
    fn part_again(&self, id: &CycleId, n: usize, met: &Table, part: &Part) -> Outcome {
        let are_known = match self.lesser(id, met) {
            Some(lesser) => {
                are_among(part.processed.rows(), met.rows())
                    && are_among(part.confirmed_rows(), lesser.rows())
            }
            None => false,
        };
        match (are_known, part.number) {
            (false, _) => Outcome::Refuses(Refusal::Conflict),
            (true, 1) => Outcome::RepeatsMeeting { n: number(n) },
            (true, _) => Outcome::RepeatsPart { n: number(n) },
        }
    }

    /// What one of several parts comes to at a frozen cycle.
    fn part_met(&self, id: CycleId, part: Part) -> Outcome {
        let mut have = 0usize;
        let mut is_there = false;
        for one in &self.kept {
            if one.id == id {
                have = have.wrapping_add(1);
                is_there = is_there || one.part.number == part.number;
                if !goes_with(&one.part, &part) {
                    return Outcome::Refuses(Refusal::PartDiffers { part: part.number });
                }
            }
        }
        if is_there || have.wrapping_add(1) < usize::from(part.parts) {
            return Outcome::Keeps { id, part };
        }
        self.all_met(id, part)
    }

    /// What all parts come to.
    fn all_met(&self, id: CycleId, part: Part) -> Outcome {
        let mut processed = rows_of(self.alloc, part.processed.rows());
        let mut confirmed = rows_of(self.alloc, part.confirmed_rows());
        for one in &self.kept {
            if one.id == id {
                add_rows(&mut processed, one.part.processed.rows());
                add_rows(&mut confirmed, one.part.confirmed_rows());
            }
        }
        if has_twins(&processed) || has_twins(&confirmed) {
            return Outcome::Refuses(Refusal::PartsOverlap);
        }
        if processed.len() > MOST_PROCESSED_ROWS || confirmed.len() > MOST_ROWS {
            return Outcome::Refuses(Refusal::TooManyRows);
        }
        let (first, last) = (part.processed.first(), part.processed.last());
        let is_confirmed = part.confirmed.is_some();
        let (Ok(processed), Ok(confirmed)) = (
            Table::build(first, last, processed),
            Table::build(first, last, confirmed),
        ) else {
            return Outcome::Refuses(Refusal::OutOfMemory);
        };
        self.met(
            id,
            Part {
                number: 1,
                parts: 1,
                processed,
                confirmed: is_confirmed.then_some(confirmed),
            },
        )
    }

    /// What the peer's message to that side comes to.
    fn met_by(&self, side: Side, point: Code, id: CycleId, part: Part) -> Outcome {
        if let Some(refusal) = self.message_fault(side, point, &id, &part) {
            drop(part);
            return Outcome::Refuses(refusal);
        }
        if part.parts == 1 {
            return self.met(id, part);
        }
        match meeting(&self.facts, &id) {
            Some((n, met)) => self.part_again(&id, n, met, &part),
            None => self.part_met(id, part),
        }
    }

    fn order_met(&self, order: Delord) -> Outcome {
        let (point, day, cycle) = (order.point, order.day, order.cycle);
        self.met_by(
            Side::M,
            point,
            CycleId { day, cycle },
            Part::of_order(order),
        )
    }

    fn response_met(&self, response: Delres) -> Outcome {
        let (point, day, cycle) = (response.point, response.day, response.cycle);
        self.met_by(
            Side::I,
            point,
            CycleId { day, cycle },
            Part::of_response(response),
        )
    }

    fn delivered(&self, body: &Body) -> Outcome {
        match decode(self.alloc, body.as_slice()) {
            Ok(Message::Delord(order)) => self.order_met(order),
            Ok(Message::Delres(response)) => self.response_met(response),
            Ok(other) => wrong_kind(other),
            Err(fault) => Outcome::Refuses(Refusal::Message(fault)),
        }
    }

    fn resent(&self, id: &CycleId) -> Outcome {
        match number_of_closing(&self.facts, id) {
            Some(n) if n <= self.saved => Outcome::Resends(*id),
            _ => Outcome::Refuses(Refusal::NotClosed),
        }
    }

    fn marked(&self, n: u32, fact: &Fact) -> Outcome {
        let expected = number(self.saved.wrapping_add(1));
        if n != expected {
            return Outcome::Refuses(Refusal::NotNext { expected });
        }
        match self.facts.get(self.saved) {
            Some(next) if next.is(fact) => Outcome::Saves { n },
            _ => Outcome::Refuses(Refusal::OtherFact),
        }
    }

    /// What the call comes to.
    fn outcome(&self, call: &Call) -> Outcome {
        if self.halted {
            return Outcome::Refuses(Refusal::Halted);
        }
        match call {
            Call::Contract(contract) => Outcome::Records(Fact::Contracted(*contract)),
            Call::Notice(notice) => self.noticed(notice),
            Call::Submit(body) => self.submitted(body),
            Call::Close { id, rule } => self.closed(id, *rule),
            Call::Deliver(body) => self.delivered(body),
            Call::Resend(id) => self.resent(id),
            Call::MarkSaved { n, fact } => self.marked(*n, fact),
            Call::Halt => Outcome::Stops,
        }
    }

    /// How many parts are kept with this one.
    fn kept_with(&self, id: &CycleId, part: &Part) -> u8 {
        let mut have = 0u8;
        let mut is_there = false;
        for one in &self.kept {
            if one.id == *id {
                have = have.wrapping_add(1);
                is_there = is_there || one.part.number == part.number;
            }
        }
        if is_there { have } else { have.wrapping_add(1) }
    }

    /// The answer to what a call comes to.
    fn answer(&self, outcome: &Outcome) -> Answer {
        match outcome {
            Outcome::Records(_) => Answer::Recorded {
                n: number(self.facts.len().wrapping_add(1)),
            },
            Outcome::RepeatsNomination { n }
            | Outcome::RepeatsMeeting { n }
            | Outcome::RepeatsPart { n } => Answer::Repeat { n: *n },
            Outcome::Keeps { id, part } => Answer::Kept {
                have: self.kept_with(id, part),
                parts: part.parts,
            },
            Outcome::Saves { n } => Answer::Saved { n: *n },
            Outcome::Resends(_) => Answer::Resent,
            Outcome::Stops => Answer::Stopped,
            Outcome::Refuses(refusal) => Answer::Refused(*refusal),
        }
    }

    /// Keeps a part, unless it is kept already.
    fn keep(&mut self, id: CycleId, part: Part) {
        for one in &self.kept {
            if one.id == id && one.part.number == part.number {
                drop(part);
                return;
            }
        }
        put(&mut self.kept, KeptPart { id, part });
    }

    /// Makes its change.
    fn apply(&mut self, outcome: Outcome) {
        match outcome {
            Outcome::Records(fact) => {
                if let Fact::Met { id, .. } = &fact {
                    let id = *id;
                    self.kept.retain(|one| one.id != id);
                }
                put(&mut self.facts, fact)
            }
            Outcome::Keeps { id, part } => self.keep(id, part),
            Outcome::Saves { n } => self.saved = n as usize,
            Outcome::Stops => self.halted = true,
            _ => {}
        }
    }

    /// Makes the call, and adds the packets that it lets out; its answer.
    pub fn step(&mut self, packets: &mut Vec<Packet>, call: &Call) -> Answer {
        let outcome = self.outcome(call);
        let answer = self.answer(&outcome);
        self.let_out(packets, &outcome);
        self.apply(outcome);
        answer
    }

    /// How far the cycle is.
    pub fn state(&self, id: &CycleId) -> StageName {
        if meeting(&self.facts, id).is_some() {
            return StageName::Matched;
        }
        match number_of_closing(&self.facts, id) {
            Some(_) => StageName::Frozen,
            None => StageName::Collecting,
        }
    }

    /// The confirmed table, once a saved fact met the peer's.
    pub fn confirmed(&self, id: &CycleId) -> Option<Table> {
        let saved = self.facts.get(..self.saved)?;
        let (_, peer) = meeting(saved, id)?;
        self.lesser(id, peer)
    }
}
