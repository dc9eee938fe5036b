//! What a table has in a direction.

ghost use Rattle.std.specs.Prelude.{◌≡◌, ◌≤◌, ◌*◌, length, sum};
ghost use Rattle.gi_pairs.specs.Limits.{last_hour};
ghost use Rattle.gi_pairs.specs.Quantity.{most_quantity};
ghost use Rattle.gi_audit.specs.Finding.{row_total as row_total_of, total as total_of};

use gi_pairs::{Direction, Hours, Row, Table};

fn hours_total(hours: &Hours) -> u64
    requires { length hours.now ≤ last_hour }
    ensures { result ≡ sum hours.now }
{
    let mut total = 0;
    for quantity in hours.as_slice() {
        total += quantity.value();
    }
    total
}

fn row_total(row: &Row, direction: Direction) -> u64
    requires { length row.now.hours ≤ last_hour }
    ensures { result ≡ row_total_of direction row.now }
{
    if row.direction == direction {
        hours_total(&row.hours)
    } else {
        0
    }
}

/// The sum of all its quantities in the direction, in kWh.
pub(crate) fn total(table: &Table, direction: Direction) -> u64
    ensures { result ≡ total_of direction table.now }
{
    let mut total = 0;
    for row in table.rows() {
        total += row_total(row, direction);
    }
    total
}
