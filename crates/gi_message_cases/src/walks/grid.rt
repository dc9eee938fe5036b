//! Tables with a row for each of many pairs.

use gi_calls::{Fault, Words, like_row};
use gi_pairs::{Code, Pair, Quantity, Row, Table};
use std::alloc::Global;

/// Rows for the pairs of the first so many portfolios A00, A01, .. with B's from one number up to
/// another: in each hour a quantity, which rises with the number of B.
#[derive(Clone, Copy)]
pub(crate) struct Grid {
    portfolios: u8,
    from: u8,
    to: u8,
    quantity: Quantity,
    rise: u32,
}

/// The code of a letter and a number.
fn code(alloc: Global, letter: &str, number: u8) -> Result<Option<Code>, Fault> {
    let text = format!(in alloc; "{letter}{number:02}")?;
    Ok(Code::read(text.as_str()).ok())
}

/// The pair of these numbers.
fn pair(alloc: Global, a: u8, b: u8) -> Result<Option<Pair>, Fault> {
    let initiating = code(alloc, "A", a)?;
    let matching = code(alloc, "B", b)?;
    let (Some(initiating), Some(matching)) = (initiating, matching) else {
        return Ok(None);
    };
    Ok(Some(Pair {
        initiating,
        matching,
    }))
}

impl Grid {
    /// The grid of the words `PORTFOLIOS FROM TO QUANTITY RISE`.
    pub(crate) fn of(words: &str) -> Option<Grid> {
        let mut words = Words::of(words);
        Some(Grid {
            portfolios: words.byte()?,
            from: words.byte()?,
            to: words.byte()?,
            quantity: words.quantity()?,
            rise: words.number()?,
        })
    }

    /// The quantity of the pairs with this B.
    fn quantity_at(&self, b: u8) -> Option<Quantity> {
        let risen = u64::from(self.rise).wrapping_mul(u64::from(b));
        Quantity::new(self.quantity.value().wrapping_add(risen)).ok()
    }

    /// The row of a pair, for so many hours.
    fn row(&self, alloc: Global, a: u8, b: u8, hours: u8) -> Result<Option<Row>, Fault> {
        let pair = pair(alloc, a, b)?;
        let (Some(pair), Some(quantity)) = (pair, self.quantity_at(b)) else {
            return Ok(None);
        };
        Ok(Some(like_row(alloc, pair, quantity, hours)?))
    }

    /// Adds the rows of a portfolio, for so many hours; `false` where one of them is none.
    fn add_rows(
        &self,
        alloc: Global,
        a: u8,
        hours: u8,
        rows: &mut Vec<Row>,
    ) -> Result<bool, Fault> {
        for b in self.from..self.to {
            let Some(row) = self.row(alloc, a, b, hours)? else {
                return Ok(false);
            };
            rows.push(row)?;
        }
        Ok(true)
    }

    /// The table, for the hours from one up to another.
    pub(crate) fn table(&self, alloc: Global, first: u8, last: u8) -> Result<Option<Table>, Fault> {
        let hours = last.saturating_sub(first).saturating_add(1);
        let mut rows = Vec::new(alloc);
        for a in 0..self.portfolios {
            if !self.add_rows(alloc, a, hours, &mut rows)? {
                return Ok(None);
            }
        }
        Ok(Table::build(first, last, rows).ok())
    }
}

/// How many rows have the quantity in each hour.
pub(crate) fn count_of(table: &Table, quantity: Quantity) -> usize {
    let mut count = 0usize;
    for row in table.rows() {
        if row.hours.as_slice().iter().all(|it| *it == quantity) {
            count = count.wrapping_add(1);
        }
    }
    count
}
