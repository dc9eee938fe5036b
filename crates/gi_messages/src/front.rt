//! Bytes that are read from their front.

use gi_day::GasDay;
use gi_pairs::{Code, Direction, Hours, LAST_HOUR, Pair, Quantity, Row};
use std::alloc::Global;
use std::str;

/// What is left to read. Each call takes what it names from the front, after the bytes that it is
/// given, or answers `None`.
#[derive(Drop)]
pub(crate) struct Front<'a> {
    rest: &'a [u8],
}

impl<'a> Front<'a> {
    pub(crate) fn new(bytes: &'a [u8]) -> Front<'a> {
        Front { rest: bytes }
    }

    /// These bytes.
    pub(crate) fn skip(&mut self, bytes: &[u8]) -> Option<()> {
        if !self.rest.starts_with(bytes) {
            return None;
        }
        self.rest = &self.rest[bytes.len()..];
        Some(())
    }

    /// Text up to a quotation mark, and the mark.
    fn text(&mut self, before: &[u8]) -> Option<&'a str> {
        self.skip(before)?;
        let end = self.rest.iter().position(|byte| *byte == b'"')?;
        let text = str::from_utf8(&self.rest[..end]).ok()?;
        self.rest = &self.rest[end + 1..];
        Some(text)
    }

    pub(crate) fn code(&mut self, before: &[u8]) -> Option<Code> {
        Code::read(self.text(before)?).ok()
    }

    pub(crate) fn day(&mut self, before: &[u8]) -> Option<GasDay> {
        GasDay::read(self.text(before)?).ok()
    }

    fn direction(&mut self, before: &[u8]) -> Option<Direction> {
        self.text(before)?.parse::<Direction>().ok()
    }

    /// The number that the digits are, however many there are.
    pub(crate) fn number(&mut self) -> Option<u64> {
        let end = self.rest.iter().position(|byte| !byte.is_ascii_digit())?;
        let mut value = 0u64;
        for digit in &self.rest[..end] {
            let digit = u64::from(digit.wrapping_sub(b'0'));
            value = value.checked_mul(10)?.checked_add(digit)?;
        }
        self.rest = &self.rest[end..];
        Some(value)
    }

    /// A number below 256.
    pub(crate) fn small(&mut self, before: &[u8]) -> Option<u8> {
        self.skip(before)?;
        u8::try_from(self.number()?).ok()
    }

    fn quantity(&mut self) -> Option<Quantity> {
        Quantity::new(self.number()?).ok()
    }

    /// Whether a comma follows an element of an array, and not the array's end.
    fn goes_on(&mut self) -> Option<bool> {
        if self.skip(b"]").is_some() {
            return Some(false);
        }
        self.skip(b",")?;
        Some(true)
    }

    /// An array of 1 to 25 quantities.
    fn hours(&mut self, alloc: Global, before: &[u8]) -> Option<Hours> {
        self.skip(before)?;
        let mut quantities = Vec::with_capacity(alloc, usize::from(LAST_HOUR)).ok()?;
        for _ in 0..LAST_HOUR {
            quantities.push(self.quantity()?).ok()?;
            if !self.goes_on()? {
                return Some(Hours::from(quantities));
            }
        }
        None
    }

    fn pair(&mut self) -> Option<Pair> {
        let initiating = self.code(b",\"initiating\":\"")?;
        let matching = self.code(b",\"matching\":\"")?;
        self.skip(b"}")?;
        Some(Pair {
            initiating,
            matching,
        })
    }

    fn row(&mut self, alloc: Global) -> Option<Row> {
        let direction = self.direction(b"{\"direction\":\"")?;
        let hours = self.hours(alloc, b",\"hours\":[")?;
        let pair = self.pair()?;
        Some(Row {
            pair,
            direction,
            hours,
        })
    }

    /// An array of at most so many rows.
    pub(crate) fn rows(&mut self, alloc: Global, before: &[u8], most: usize) -> Option<Vec<Row>> {
        self.skip(before)?;
        let mut rows = Vec::new(alloc);
        if self.skip(b"]").is_some() {
            return Some(rows);
        }
        for _ in 0..most {
            rows.push(self.row(alloc)?).ok()?;
            if !self.goes_on()? {
                return Some(rows);
            }
        }
        None
    }
}
