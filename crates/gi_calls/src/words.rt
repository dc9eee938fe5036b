use gi_day::GasDay;
use gi_pairs::{Code, CycleId, Direction, Key, Pair, Quantity, Side};
use gi_processing::{Contract, Notice, Rule};

/// The words of a call that are still to be read, with one space between them.
#[derive(Clone, Copy, Drop)]
pub struct Words<'a> {
    rest: Option<&'a str>,
}

impl<'a> Words<'a> {
    /// The words of a line.
    pub fn of(line: &'a str) -> Words<'a> {
        Words { rest: Some(line) }
    }

    /// The next word; the empty word after the last.
    pub fn next(&mut self) -> &'a str {
        let Some(rest) = self.rest else {
            return "";
        };
        match rest.split_once(' ') {
            Some((word, rest)) => {
                self.rest = Some(rest);
                word
            }
            None => {
                self.rest = None;
                rest
            }
        }
    }

    /// All that is left, with its spaces.
    pub fn rest(self) -> &'a str {
        self.rest.unwrap_or("")
    }

    /// Whether no word is left.
    pub fn is_empty(self) -> bool {
        self.rest.is_none()
    }

    /// The next word as a code.
    pub fn code(&mut self) -> Option<Code> {
        Code::read(self.next()).ok()
    }

    /// The next word as a gas day.
    pub fn day(&mut self) -> Option<GasDay> {
        GasDay::read(self.next()).ok()
    }

    /// The next word as a quantity, in kWh/h.
    pub fn quantity(&mut self) -> Option<Quantity> {
        Quantity::new(self.next().parse::<u64>().ok()?).ok()
    }

    /// The next word as a direction.
    pub fn direction(&mut self) -> Option<Direction> {
        self.next().parse::<Direction>().ok()
    }

    /// The next word as a side.
    pub fn side(&mut self) -> Option<Side> {
        self.next().parse::<Side>().ok()
    }

    /// The next word as a number that fits.
    pub fn byte(&mut self) -> Option<u8> {
        self.next().parse::<u8>().ok()
    }

    /// The next word as a number that fits.
    pub fn number(&mut self) -> Option<u32> {
        self.next().parse::<u32>().ok()
    }

    /// The next word as a moment, in whole seconds since 1970-01-01T00:00Z.
    pub fn moment(&mut self) -> Option<i64> {
        self.next().parse::<i64>().ok()
    }

    /// The next two words as a cycle: its day and its number.
    pub fn cycle(&mut self) -> Option<CycleId> {
        Some(CycleId {
            day: self.day()?,
            cycle: self.byte()?,
        })
    }

    /// The next word as a rule, rule 2 where no word is left.
    pub fn rule(&mut self) -> Option<Rule> {
        if self.is_empty() {
            return Some(Rule::Two);
        }
        match self.next() {
            "1" => Some(Rule::One),
            "2" => Some(Rule::Two),
            _ => None,
        }
    }

    /// The next words as a closing: a cycle, and the rule.
    pub fn closing(&mut self) -> Option<(CycleId, Rule)> {
        Some((self.cycle()?, self.rule()?))
    }

    /// The next two words as a pair: the initiating code and the matching one.
    pub fn pair(&mut self) -> Option<Pair> {
        Some(Pair {
            initiating: self.code()?,
            matching: self.code()?,
        })
    }

    /// The next three words as a key: a pair and a direction.
    pub fn key(&mut self) -> Option<Key> {
        Some(Key {
            pair: self.pair()?,
            direction: self.direction()?,
        })
    }

    /// The next word as thousandths.
    fn permille(&mut self) -> Option<u16> {
        self.next().parse::<u16>().ok()
    }

    /// The next five words as a contract: its portfolio, gas day and direction, and the firm and the
    /// interruptible quantity, in kWh/h.
    pub fn contract(&mut self) -> Option<Contract> {
        let (Some(portfolio), Some(day), Some(direction), Some(firm), Some(interruptible)) = (
            self.code(),
            self.day(),
            self.direction(),
            self.quantity(),
            self.quantity(),
        ) else {
            return None;
        };
        Some(Contract {
            portfolio,
            day,
            direction,
            firm,
            interruptible,
        })
    }

    /// The next six words as a notice: its gas day and direction, the first and the last hour, and the
    /// thousandths of the firm and of the interruptible quantities.
    pub fn notice(&mut self) -> Option<Notice> {
        let (Some(day), Some(direction), Some(first), Some(last)) = (
            self.day(),
            self.direction(),
            self.byte(),
            self.byte(),
        ) else {
            return None;
        };
        let (Some(firm), Some(interruptible)) = (self.permille(), self.permille()) else {
            return None;
        };
        Some(Notice {
            day,
            direction,
            first,
            last,
            firm,
            interruptible,
        })
    }
}
