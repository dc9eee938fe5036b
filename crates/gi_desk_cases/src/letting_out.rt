//! What a plain desk lets out.

use crate::memory::{put, written};
use crate::plain::Plain;
use crate::reading::{meeting, number_of_closing};
use gi_desk::{Body, Fact, Outcome, Packet, Recipient};
use gi_messages::{Acknow, Delord, Delres, Line, Lines, Message, Nomint, Nomres};
use gi_pairs::{Code, CycleId, Row, Side, Table};
use std::alloc::Global;

/// Adds a packet.
fn add_packet(packets: &mut Vec<Packet>, to: Recipient, message: Message) {
    let body = Body::from(written(*packets.allocator(), message));
    put(packets, Packet { to, body });
}

/// Whether the code is above the last one, where there is one.
fn is_later(code: &Code, last: &Option<Code>) -> bool {
    match last {
        Some(last) => code > last,
        None => true,
    }
}

/// The least code of the side's portfolios that is above the last one.
fn next_code(rows: &[Row], side: Side, last: &Option<Code>) -> Option<Code> {
    let mut least = None;
    for row in rows {
        let code = row.pair.at(side);
        let is_lower = match &least {
            Some(least) => code < *least,
            None => true,
        };
        if is_lower && is_later(&code, last) {
            least = Some(code);
        }
    }
    least
}

/// Adds the row as a line.
fn add_line(lines: &mut Vec<Line>, side: Side, row: &Row) {
    if let Ok(hours) = row.hours.copy() {
        let line = Line {
            counterparty: row.pair.at(side.other()),
            direction: row.direction,
            hours,
        };
        put(lines, line);
    }
}

/// The rows of a portfolio as lines.
fn lines_of(alloc: Global, side: Side, portfolio: Code, rows: &[Row]) -> Lines<Line> {
    let mut lines = Vec::new(alloc);
    for row in rows {
        if row.pair.at(side) == portfolio {
            add_line(&mut lines, side, row);
        }
    }
    Lines::from(lines)
}

impl Plain {
    /// What a portfolio is told by a confirmed table, where it stands in one of its rows.
    pub fn told(&self, portfolio: Code, id: &CycleId, confirmed: &Table) -> Option<Nomres> {
        let lines = lines_of(self.alloc, self.side, portfolio, confirmed.rows());
        if lines.as_slice().is_empty() {
            return None;
        }
        Some(Nomres {
            point: self.point,
            portfolio,
            day: id.day,
            cycle: id.cycle,
            first: confirmed.first(),
            last: confirmed.last(),
            lines,
        })
    }

    fn acknowledge(&self, packets: &mut Vec<Packet>, document: &Nomint) {
        let message = Message::Acknow(Acknow {
            point: self.point,
            portfolio: document.portfolio,
            day: document.day,
            version: document.version,
        });
        add_packet(packets, Recipient::User(document.portfolio), message);
    }

    /// Adds the order of the cycle, at the initiating side.
    fn order(&self, packets: &mut Vec<Packet>, id: &CycleId) {
        if self.side == Side::M {
            return;
        }
        if let Some(processed) = self.frozen(id) {
            let message = Message::Delord(Delord {
                point: self.point,
                day: id.day,
                cycle: id.cycle,
                parts: 1,
                part: 1,
                processed,
            });
            add_packet(packets, Recipient::Peer, message);
        }
    }

    /// The response of the cycle with this confirmed table.
    fn response(&self, id: &CycleId, confirmed: Table) -> Option<Message> {
        let processed = self.frozen(id)?;
        Some(Message::Delres(Delres {
            point: self.point,
            day: id.day,
            cycle: id.cycle,
            parts: 1,
            part: 1,
            processed,
            confirmed,
        }))
    }

    /// Adds the response of the cycle, at the matching side.
    fn respond(&self, packets: &mut Vec<Packet>, id: &CycleId, confirmed: Table) {
        if self.side == Side::I {
            return;
        }
        if let Some(message) = self.response(id, confirmed) {
            add_packet(packets, Recipient::Peer, message);
        }
    }

    /// Adds what a portfolio is told.
    fn tell(&self, packets: &mut Vec<Packet>, portfolio: Code, id: &CycleId, confirmed: &Table) {
        if let Some(told) = self.told(portfolio, id, confirmed) {
            add_packet(packets, Recipient::User(portfolio), Message::Nomres(told));
        }
    }

    /// Adds what each portfolio is told, by code.
    fn tell_all(&self, packets: &mut Vec<Packet>, id: &CycleId, confirmed: &Table) {
        let mut last = None;
        for _ in 0..confirmed.rows().len() {
            let Some(portfolio) = next_code(confirmed.rows(), self.side, &last) else {
                return;
            };
            self.tell(packets, portfolio, id, confirmed);
            last = Some(portfolio);
        }
    }

    /// Adds the response to a meeting with the peer's table.
    fn answer_met(&self, packets: &mut Vec<Packet>, id: &CycleId, peer: &Table) {
        if let Some(confirmed) = self.lesser(id, peer) {
            self.respond(packets, id, confirmed);
        }
    }

    /// Adds what the portfolios are told of a meeting with the peer's table.
    fn tell_met(&self, packets: &mut Vec<Packet>, id: &CycleId, peer: &Table) {
        if let Some(confirmed) = self.lesser(id, peer) {
            self.tell_all(packets, id, &confirmed);
        }
    }

    /// Adds what fact number `n` lets out; where it is a repeat, of a meeting the response alone.
    fn add(&self, packets: &mut Vec<Packet>, n: usize, is_again: bool) {
        match self.facts.get(n.wrapping_sub(1)) {
            Some(Fact::Nominated(document)) => self.acknowledge(packets, document),
            Some(Fact::Closed { id, .. }) => self.order(packets, id),
            Some(Fact::Met { id, peer }) => {
                self.answer_met(packets, id, peer);
                if !is_again {
                    self.tell_met(packets, id, peer);
                }
            }
            _ => {}
        }
    }

    /// The same, where the fact is saved.
    fn add_saved(&self, packets: &mut Vec<Packet>, n: usize, is_again: bool) {
        if n <= self.saved {
            self.add(packets, n, is_again);
        }
    }

    /// Adds again what the closing and the meeting of the cycle let out.
    fn add_cycle(&self, packets: &mut Vec<Packet>, id: &CycleId) {
        if let Some(n) = number_of_closing(&self.facts, id) {
            self.add_saved(packets, n, false);
        }
        if let Some((n, _)) = meeting(&self.facts, id) {
            self.add_saved(packets, n, false);
        }
    }

    /// Adds the packets of the reply to what a call comes to.
    pub fn let_out(&self, packets: &mut Vec<Packet>, outcome: &Outcome) {
        match outcome {
            Outcome::RepeatsNomination { n } | Outcome::RepeatsMeeting { n } => {
                self.add_saved(packets, *n as usize, true);
            }
            Outcome::Saves { n } => self.add(packets, *n as usize, false),
            Outcome::Resends(id) => self.add_cycle(packets, id),
            _ => {}
        }
    }
}
