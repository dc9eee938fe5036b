//! The rows of the lesser of two tables the plain way, each quantity read at both tables.

use gi_pairs::{Hours, Key, Quantity, Row, Table};
use std::alloc::{AllocError, Global};

/// The lower of both readings for a key in an hour.
fn lower_at(own: &Table, peer: &Table, key: &Key, hour: u8) -> Quantity {
    let ours = own.at(key.pair, key.direction, hour);
    let theirs = peer.at(key.pair, key.direction, hour);
    if theirs < ours {
        Quantity::new(theirs).unwrap()
    } else {
        Quantity::new(ours).unwrap()
    }
}

/// The row of a key, on the hours of the own table.
fn lower_row(alloc: Global, own: &Table, peer: &Table, key: &Key) -> Result<Row, AllocError> {
    let mut quantities = Vec::new(alloc);
    for hour in own.first()..own.last() + 1 {
        quantities.push(lower_at(own, peer, key, hour))?;
    }
    Ok(Row {
        pair: key.pair,
        direction: key.direction,
        hours: Hours::from(quantities),
    })
}

/// A row for each key of the own table, and for each that the peer's alone has.
pub fn plain_rows(alloc: Global, own: &Table, peer: &Table) -> Result<Vec<Row>, AllocError> {
    let mut rows = Vec::new(alloc);
    for row in own.rows() {
        rows.push(lower_row(alloc, own, peer, &row.key())?)?;
    }
    for row in peer.rows() {
        let key = row.key();
        if own
            .rows()
            .binary_search_by_key(&key, |row| row.key())
            .is_err()
        {
            rows.push(lower_row(alloc, own, peer, &key)?)?;
        }
    }
    Ok(rows)
}
