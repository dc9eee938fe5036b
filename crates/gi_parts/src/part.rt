ghost use Rattle.std.specs.Prelude.{◌≡◌, ◌≤◌, IfSome, length};
ghost use Rattle.gi_pairs.specs.Limits.{most_rows};
ghost use Rattle.gi_pairs.specs.Table.{HasShapeOf, TableContents};
ghost use Rattle.gi_parts.specs.Hours.{AreRowsFor, IsPartFor};
ghost use Rattle.gi_parts.specs.Parts.{part_of_order, part_of_response, rows_in, rows_of};

use gi_messages::{Delord, Delres};
use gi_pairs::{Row, Table};

/// A part of an order or a response: the whole of it where it comes in one.
#[derive(Drop)]
pub struct Part {
    /// From 1 to `parts`.
    pub number: u8,
    /// Of how many it is one, at most 66.
    pub parts: u8,
    /// At most 1,000 rows where there are several parts.
    pub processed: Table,
    /// What a response confirms, in as few rows; nothing of an order.
    pub confirmed: Option<Table>,
}

/// The tables that all parts of an order or a response make.
#[derive(Drop)]
pub struct Whole {
    pub processed: Table,
    /// What a response confirms; nothing of an order.
    pub confirmed: Option<Table>,
}

/// Which rows of a part.
#[derive(Clone, Copy)]
pub(crate) enum Array {
    Processed,
    Confirmed,
}

fn rows_of_some(table: &Option<Table>) -> &[Row]
    ensures rows { result.now ≡ rows_of table.now }
    ensures few { length result.now ≤ most_rows }
    ensures fit { (own : TableContents) → IfSome table.now (HasShapeOf own) → AreRowsFor own result.now }
{
    match table {
        Some(table) => table.rows(),
        None => &[],
    }
}

impl Whole {
    /// The rows that it confirms.
    pub fn confirmed_rows(&self) -> &[Row]
        ensures rows { result.now ≡ rows_of self.now.confirmed }
        ensures few { length result.now ≤ most_rows }
    {
        rows_of_some(&self.confirmed)
    }
}

impl Part {
    /// The part that an order is.
    pub fn of_order(order: Delord) -> Part
        ensures { result ≡ part_of_order order }
    {
        Part {
            number: order.part,
            parts: order.parts,
            processed: order.processed,
            confirmed: None,
        }
    }

    /// The part that a response is.
    pub fn of_response(response: Delres) -> Part
        ensures { result ≡ part_of_response response }
    {
        Part {
            number: response.part,
            parts: response.parts,
            processed: response.processed,
            confirmed: Some(response.confirmed),
        }
    }

    /// The rows that it confirms.
    pub fn confirmed_rows(&self) -> &[Row]
        ensures rows { result.now ≡ rows_of self.now.confirmed }
        ensures few { length result.now ≤ most_rows }
    {
        rows_of_some(&self.confirmed)
    }

    pub(crate) fn rows(&self, array: Array) -> &[Row]
        ensures rows { result.now ≡ rows_in array self.now }
        ensures fit { (own : TableContents) → IsPartFor own self.now → AreRowsFor own result.now }
    {
        match array {
            Array::Processed => self.processed.rows(),
            Array::Confirmed => rows_of_some(&self.confirmed),
        }
    }
}
