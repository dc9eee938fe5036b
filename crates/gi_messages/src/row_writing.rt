//! Writing the rows of a table as text.

ghost use Rattle.gi_messages.specs.Adding.{Adds, AddsMember};
ghost use Rattle.gi_messages.specs.Writing.{whole_numbers, row_data, rows_data};
ghost use Rattle.gi_messages.specs.declared.key.Key.TheVariants.{Hours as HoursKey};

use crate::key::Key;
use crate::members::{put_code, put_direction, put_key};
use gi_pairs::{Quantity, Row};
use json::Writer;
use std::alloc::AllocError;

fn put_quantities(out: &mut Writer, quantities: &[Quantity]) -> Result<(), AllocError>
    ensures { Adds result out.old out.new (whole_numbers quantities.now) }
{
    out.begin_array()?;
    for quantity in quantities {
        out.u64(quantity.value())?;
    }
    out.end_array()
}

/// Adds the quantities at the key `hours`, in their order.
pub fn put_hours(out: &mut Writer, quantities: &[Quantity]) -> Result<(), AllocError>
    ensures { AddsMember result out.old out.new HoursKey (whole_numbers quantities.now) }
{
    put_key(out, Key::Hours)?;
    put_quantities(out, quantities)
}

#[tactic(auto, unfolding(crate::specs::Writing::row_data))]
fn put_row(out: &mut Writer, row: &Row) -> Result<(), AllocError>
    ensures { Adds result out.old out.new (row_data row.now) }
{
    out.begin_object()?;
    put_direction(out, row.direction)?;
    put_hours(out, row.hours.as_slice())?;
    put_code(out, Key::Initiating, &row.pair.initiating)?;
    put_code(out, Key::Matching, &row.pair.matching)?;
    out.end_object()
}

fn put_each_row(out: &mut Writer, rows: &[Row]) -> Result<(), AllocError>
    ensures { Adds result out.old out.new (rows_data rows.now) }
{
    out.begin_array()?;
    for row in rows {
        put_row(out, row)?;
    }
    out.end_array()
}

/// Adds the array of the rows at a key, in their order.
pub fn put_rows(out: &mut Writer, key: Key, rows: &[Row]) -> Result<(), AllocError>
    ensures { AddsMember result out.old out.new key (rows_data rows.now) }
{
    put_key(out, key)?;
    put_each_row(out, rows)
}
