//! What is drawn from: two points, three portfolios of the one side and two of the other, and two gas
//! days, one of 24 hours and one of 23.

use crate::random::Random;
use gi_day::GasDay;
use gi_pairs::{Code, CycleId, Quantity};

#[derive(Clone, Copy)]
pub struct Names {
    points: (Code, Code),
    portfolios: (Code, Code, Code),
    counterparties: (Code, Code),
    days: (GasDay, GasDay),
    none: Quantity,
}

/// Both texts as codes.
fn codes(first: &str, second: &str) -> Option<(Code, Code)> {
    match (Code::read(first), Code::read(second)) {
        (Ok(first), Ok(second)) => Some((first, second)),
        _ => None,
    }
}

/// The gas day of 24 hours and the one of 23.
fn days() -> Option<(GasDay, GasDay)> {
    match (GasDay::read("2026-01-15"), GasDay::read("2026-03-28")) {
        (Ok(long), Ok(short)) => Some((long, short)),
        _ => None,
    }
}

impl Names {
    pub fn read() -> Option<Names> {
        let (Some(points), Some(portfolios), Some(counterparties)) = (
            codes("BORDER-1", "BORDER-2"),
            codes("A", "B"),
            codes("X", "Y"),
        ) else {
            return None;
        };
        let (Some(days), Ok(third), Ok(none)) = (days(), Code::read("C"), Quantity::new(0)) else {
            return None;
        };
        Some(Names {
            points,
            portfolios: (portfolios.0, portfolios.1, third),
            counterparties,
            days,
            none,
        })
    }

    /// The own point.
    pub fn point(&self) -> Code {
        self.points.0
    }

    /// The portfolio of a number.
    pub fn portfolio(&self, number: u8) -> Code {
        match number {
            0 => self.portfolios.0,
            1 => self.portfolios.1,
            _ => self.portfolios.2,
        }
    }

    /// The peer's portfolio of a number.
    pub fn counterparty(&self, number: u8) -> Code {
        match number {
            0 => self.counterparties.0,
            _ => self.counterparties.1,
        }
    }

    /// The gas day of a number: of 24 hours and 36 cycles, or of 23 hours and 35 cycles.
    pub fn gas_day(&self, number: u8) -> GasDay {
        match number {
            0 => self.days.0,
            _ => self.days.1,
        }
    }

    pub fn drawn_portfolio(&self, random: &mut Random) -> Code {
        self.portfolio(match random.below(8) {
            0..=3 => 0,
            4..=6 => 1,
            _ => 2,
        })
    }

    /// A gas day, more often the first.
    pub fn drawn_day(&self, random: &mut Random) -> GasDay {
        match random.below(4) {
            0 => self.days.1,
            _ => self.days.0,
        }
    }

    /// The own point, and at times another one.
    pub fn drawn_point(&self, random: &mut Random) -> Code {
        match random.below(32) {
            0 => self.points.1,
            _ => self.points.0,
        }
    }

    pub fn quantity(&self, random: &mut Random) -> Quantity {
        Quantity::new(u64::from(random.below(9))).unwrap_or(self.none)
    }

    pub fn cycle_id(&self, random: &mut Random) -> CycleId {
        CycleId {
            day: self.drawn_day(random),
            cycle: match random.below(10) {
                0 => 0,
                1 | 2 => 20,
                3 | 4 => 21,
                5 | 6 => 33,
                7 | 8 => 34,
                _ => 35,
            },
        }
    }
}
