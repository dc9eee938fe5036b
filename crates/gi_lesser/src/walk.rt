//! The walk over the rows of both tables.
ghost use Rattle.std.specs.Prelude.{◌≡◌, ◌++◌, IfOk, OnOk, map};
ghost use Rattle.std.specs.List.Sorted.{IsStrictlySortedBy};
ghost use Rattle.gi_pairs.specs.Key.{key_cmp};
ghost use Rattle.gi_pairs.specs.Table.{keys_of};
ghost use Rattle.gi_lesser.specs.Walk.{alone, first_of_both, lesser_rows, lower_hours, with_hours};

use gi_pairs::{Quantity, Row};
use std::alloc::{AllocError, Global};
use std::cmp::Ordering;

fn lower_row(alloc: Global, our: &Row, their: &Row) -> Result<Row, AllocError>
    ensures { IfOk result (λ row. row ≡ with_hours our.now (lower_hours our.now their.now)) }
{
    let both = our.hours.as_slice().iter().zip(their.hours.as_slice());
    let lower: Vec<Quantity> = both.map(|(our, their)| (*our).min(*their)).collect(alloc)?;
    Ok(Row {
        pair: our.pair,
        direction: our.direction,
        hours: lower.into(),
    })
}

/// A row that the other side has not: that side reads 0.
fn row_alone(alloc: Global, row: &Row) -> Result<Row, AllocError>
    ensures { IfOk result (λ lower. lower ≡ alone row.now) }
{
    let zero = Quantity::new(0).unwrap();
    let zeros = vec![in alloc; zero; row.hours.as_slice().len()]?;
    Ok(Row {
        pair: row.pair,
        direction: row.direction,
        hours: zeros.into(),
    })
}

fn first_row(alloc: Global, order: Ordering, our: &Row, their: &Row) -> Result<Row, AllocError>
    ensures { IfOk result (λ row. row ≡ first_of_both order our.now their.now) }
{
    match order {
        Ordering::Less => row_alone(alloc, our),
        Ordering::Equal => lower_row(alloc, our, their),
        Ordering::Greater => row_alone(alloc, their),
    }
}

fn add_alone(alloc: Global, rows: &mut Vec<Row>, more: &[Row]) -> Result<(), AllocError>
    ensures { OnOk result (rows.new.items ≡ rows.old.items ++ map alone more.now) }
{
    for row in more {
        rows.push(row_alone(alloc, row)?)?;
    }
    Ok(())
}

/// The rows of both sides, each with the lower of both quantities in every hour: one walk over
/// both, in table order.
pub fn lower_rows(alloc: Global, ours: &[Row], theirs: &[Row]) -> Result<Vec<Row>, AllocError>
    requires ours { IsStrictlySortedBy key_cmp (keys_of ours.now) }
    requires theirs { IsStrictlySortedBy key_cmp (keys_of theirs.now) }
    ensures { IfOk result (λ rows. rows.items ≡ lesser_rows ours.now theirs.now) }
{
    let mut rows = Vec::with_capacity(alloc, ours.len() + theirs.len())?;
    let (mut i, mut j) = (0, 0);
    while i < ours.len() && j < theirs.len() {
        let (our, their) = (&ours[i], &theirs[j]);
        let order = our.key().cmp(&their.key());
        rows.push(first_row(alloc, order, our, their)?)?;
        i += usize::from(order.is_le());
        j += usize::from(order.is_ge());
    }
    add_alone(alloc, &mut rows, ours.split_at(i).1)?;
    add_alone(alloc, &mut rows, theirs.split_at(j).1)?;
    Ok(rows)
}
