ghost use Rattle.std.specs.Prelude.{◌≡◌, ◌==◌, ◌≤◌, ◌↔◌, IfOk, IsTrue, MatchOption, false, find, true, All, length};
ghost use Rattle.std.proofs.Common.{rules};
ghost use Rattle.std.specs.Bool.{OnFalse, OnTrue};
ghost use Rattle.std.specs.Cmp.Rules.{comparing};
ghost use Rattle.std.specs.List.{list_all};
ghost use Rattle.std.specs.List.Sorted.{IsPermutation, IsSortedByKey, IsStrictlySortedBy};
ghost use Rattle.std.specs.Option.{option_copied};
ghost use Rattle.gi_pairs.specs.Limits.{last_hour, most_rows};
ghost use Rattle.gi_pairs.specs.Quantity.{IsQuantity};
ghost use Rattle.gi_pairs.specs.Row.{key_of, IsRow};
ghost use Rattle.gi_pairs.specs.Key.{key_cmp};
ghost use Rattle.gi_pairs.specs.Table.{HasShapeOf, IsTable, covered, in_order, is_at, is_hour_range as is_hour_range_of, keys_of, reading, same_hours, built, joined, repeats};

mod slicing;

use crate::direction::Direction;
use crate::join_fault::JoinFault;
use crate::key::Key;
use crate::pair::Pair;
use crate::row::Row;
use crate::rows::Rows;
use std::alloc::AllocError;
use std::cmp::Ordering;
use std::error::Error;
use std::fmt;
use std::marker::Model;

/// The number of the last hour of the longest gas day.
pub const LAST_HOUR: u8 = 25;

/// How many rows a table has at most: as many as two processed tables together.
pub const MOST_ROWS: usize = 2 * MOST_PROCESSED_ROWS;

/// How many rows a table of processed quantities has at most.
pub const MOST_PROCESSED_ROWS: usize = 4096;

/// Why rows make no table.
#[derive(Clone, Copy, Debug, PartialEq, Eq)]
pub enum TableFault {
    /// Not 1 <= first <= last <= 25.
    HourRange,
    /// More than 8,192 rows.
    TooManyRows,
    /// A row whose quantities are not as many as the covered hours.
    UnequalHours,
    /// Two rows of one pair and direction.
    Duplicate,
    /// Memory ran out.
    OutOfMemory,
}

impl fmt::Display for TableFault {
    ghost use Rattle.std.specs.Prelude.{Some};
    ghost use Rattle.gi_pairs.specs.FaultText.{fault_text};

    ghost output = { λ fault. Some (fault_text fault) };

    fn fmt<W: fmt::Write>(&self, f: &mut fmt::Formatter<W>) -> fmt::Result {
        f.write_str(match self {
            TableFault::HourRange => "HourRange",
            TableFault::TooManyRows => "TooManyRows",
            TableFault::UnequalHours => "UnequalHours",
            TableFault::Duplicate => "Duplicate",
            TableFault::OutOfMemory => "OutOfMemory",
        })
    }
}

impl Error for TableFault {}

/// A table of quantities in kWh/h, by pair, direction and hour. It covers the hours from `first`
/// to `last`, numbered from 1, has at most 8,192 rows in table order (by initiating code, matching
/// code, `IM` before `MI`), and reads 0 outside its rows and hours.
#[derive(Drop)]
pub struct Table {
    first: u8,
    last: u8,
    rows: Rows,
}

impl Model for Table {
    ghost use Rattle.gi_pairs.specs.Table.{TableContents, IsTable};

    ghost Value = { TableContents };

    ghost use Rattle.gi_pairs.specs.TableRepr.{contents};

    ghost view = { contents };

    ghost invariant = { λ t. IsTable (contents t) };
}

fn is_hour_range(first: u8, last: u8) -> bool
    ensures { result ≡ is_hour_range_of first last }
{
    1 <= first && first <= last && last <= LAST_HOUR
}

fn have_hours(rows: &[Row], hours: usize) -> bool
    ensures lengths { result ≡ list_all (λ row. length row.hours == hours) rows.now }
    ensures known { OnTrue result (All IsRow rows.now) }
{
    for row in rows {
        row.reveal_invariant();
        if row.hours.as_slice().len() != hours {
            return false;
        }
    }
    true
}

fn sort_rows(rows: &mut Vec<Row>)
    ensures permutation { IsPermutation rows.old.items rows.new.items }
    ensures sorted { IsSortedByKey key_of key_cmp rows.new.items }
{
    rows.sort_unstable_by_key(|row| row.key());
}

fn has_twins(rows: &[Row]) -> bool
    requires { IsSortedByKey key_of key_cmp rows.now }
    ensures twins { result ≡ repeats (keys_of rows.now) }
    ensures ordered { OnFalse result (IsStrictlySortedBy key_cmp (keys_of rows.now)) }
{
    for i in 1..rows.len() {
        if rows[i - 1].key().cmp(&rows[i].key()) == Ordering::Equal {
            return true;
        }
    }
    false
}

/// The rows in table order, where no key stands twice.
fn ordered(rows: Vec<Row>) -> Option<Rows>
    ensures { MatchOption result (repeats (keys_of rows.items) ≡ true) (λ sorted. (repeats (keys_of rows.items) ≡ false) × (sorted ≡ in_order rows.items)) }
{
    let mut rows = rows;
    sort_rows(&mut rows);
    if has_twins(&rows) {
        return None;
    }
    Some(Rows::new(rows))
}

fn row_of(rows: &[Row], key: Key) -> Option<&Row>
    requires { IsStrictlySortedBy key_cmp (keys_of rows.now) }
    ensures { option_copied result ≡ find (is_at key) rows.now }
{
    match rows.binary_search_by_key(&key, |row| row.key()) {
        Ok(place) => Some(&rows[place]),
        Err(_) => None,
    }
}

impl Table {
    /// The table that covers the hours from `first` to `last` and has these rows, which come in
    /// any order. The refusals, in their order, are `HourRange`, `TooManyRows`, `UnequalHours` and
    /// `Duplicate`; sorting takes no memory, so `OutOfMemory` does not come.
    pub fn build(first: u8, last: u8, rows: Vec<Row>) -> Result<Table, TableFault>
        ensures exact { result ≡ built first last rows.items }
        ensures rows { IfOk result (λ table. IsPermutation rows.items table.rows) }
        ensures table { IfOk result IsTable }
    {
        if !is_hour_range(first, last) {
            return Err(TableFault::HourRange);
        }
        if rows.len() > MOST_ROWS {
            return Err(TableFault::TooManyRows);
        }
        if !have_hours(&rows, usize::from(last - first) + 1) {
            return Err(TableFault::UnequalHours);
        }
        match ordered(rows) {
            Some(rows) => Ok(Table { first, last, rows }),
            None => Err(TableFault::Duplicate),
        }
    }

    /// The table for the hours from `first` to `last` that the rows of its parts make, which come
    /// in any order: each is of codes and quantities, and has these hours. `Overlap` where a pair
    /// and direction stands twice, then `TooMany` where there are more than `most` rows; it takes
    /// no memory.
    pub fn join(first: u8, last: u8, rows: Vec<Row>, most: usize) -> Result<Table, JoinFault>
        requires begins { 1 ≤ first }
        requires ordered { first ≤ last }
        requires ends { last ≤ last_hour }
        requires rows { All IsRow rows.items }
        requires whole { All (λ row. length row.hours ≡ covered first last) rows.items }
        requires limit { most ≤ most_rows }
        ensures exact { result ≡ joined first last most rows.items }
        ensures table { IfOk result IsTable }
    {
        let are_few = rows.len() <= most;
        match ordered(rows) {
            None => Err(JoinFault::Overlap),
            Some(rows) if are_few => Ok(Table { first, last, rows }),
            Some(_) => Err(JoinFault::TooMany),
        }
    }

    /// The quantity, in kWh/h, of a pair, a direction and an hour: that of the row, where one
    /// covers the hour, and 0 elsewhere.
    pub fn at(&self, pair: Pair, direction: Direction, hour: u8) -> u64
        ensures value { result ≡ reading self.now pair direction hour }
        ensures in_range { IsQuantity result }
    {
        if hour < self.first || self.last < hour {
            return 0;
        }
        match row_of(self.rows.as_slice(), Key { pair, direction }) {
            Some(row) => row.hours.as_slice()[usize::from(hour - self.first)].value(),
            None => 0,
        }
    }

    /// The first hour that it covers, from 1.
    pub fn first(&self) -> u8
        ensures { result ≡ self.now.first }
    {
        self.first
    }

    /// The last hour that it covers, at most 25.
    pub fn last(&self) -> u8
        ensures value { result ≡ self.now.last }
        ensures in_range { result ≤ last_hour }
    {
        self.last
    }

    /// The rows, in table order.
    pub fn rows(&self) -> &[Row]
        ensures rows { result.now ≡ self.now.rows }
        ensures table { IsTable self.now }
    {
        self.rows.as_slice()
    }

    /// Every table is one.
    pub fn reveal_invariant(&self)
        ensures { IsTable self.now }
    {
        let _ = self.rows();
    }

    /// Whether the two are for the same hours.
    pub fn covers_same_hours(&self, other: &Table) -> bool
        ensures value { result ≡ same_hours self.now other.now }
        ensures shape { IsTrue result ↔ HasShapeOf self.now other.now }
    {
        (self.first, self.last) == (other.first, other.last)
    }

    /// The same table, in memory that its copies share. `OutOfMemory` where there is none for the share.
    pub fn share(self) -> Result<Table, AllocError>
        ensures { IfOk result (λ table. table ≡ self) }
    {
        Ok(Table {
            first: self.first,
            last: self.last,
            rows: self.rows.share()?,
        })
    }

    /// An equal table: in the same memory where that is shared.
    pub fn copy(&self) -> Result<Table, AllocError>
        ensures { IfOk result (λ table. table ≡ self.now) }
    {
        Ok(Table {
            first: self.first,
            last: self.last,
            rows: self.rows.copy()?,
        })
    }
}

/// Two tables are equal where they cover the same hours and have equal rows.
impl PartialEq for Table {
    ghost use Rattle.gi_pairs.specs.Table.{table_eq};

    ghost eq = { table_eq };

    ghost laws = { Prim.search (comparing, rules) depth 12 };

    fn eq(&self, other: &Table) -> bool {
        self.covers_same_hours(other) && self.rows() == other.rows()
    }
}

impl Eq for Table {
    ghost laws = { Prim.search (comparing, rules) depth 12 };
}
