ghost use Rattle.std.specs.Prelude.{◌≡◌, ◌≤◌, IfOk, length};
ghost use Rattle.gi_pairs.specs.Limits.{most_processed_rows};
ghost use Rattle.gi_pairs.specs.Table.{IsTable};
ghost use Rattle.gi_lesser.specs.Lesser.{HasShapeOf, IsLesser, lesser_of};
ghost use Rattle.gi_lesser.specs.Walk.{lesser_rows};

use crate::parallel::lower_rows_by_parts;
use crate::walk::lower_rows;
use gi_pairs::{Row, Table};
use std::alloc::{AllocError, Global};
use std::thread::Threads;

fn table_of(own: &Table, peer: &Table, rows: Vec<Row>) -> Table
    requires own_table { IsTable own.now }
    requires peer_table { IsTable peer.now }
    requires shape { HasShapeOf own.now peer.now }
    requires own { length own.now.rows ≤ most_processed_rows }
    requires peer { length peer.now.rows ≤ most_processed_rows }
    requires rows { rows.items ≡ lesser_rows own.now.rows peer.now.rows }
    ensures value { result ≡ lesser_of own.now peer.now }
    ensures law { IsLesser own.now peer.now result }
{
    Table::build(own.first(), own.last(), rows).unwrap()
}

/// The lesser of two tables of the same hours: the rows of both, each with the lower of the two
/// readings in every hour.
pub fn lesser(alloc: Global, own: &Table, peer: &Table) -> Result<Table, AllocError>
    requires shape { HasShapeOf own.now peer.now }
    requires own { length own.now.rows ≤ most_processed_rows }
    requires peer { length peer.now.rows ≤ most_processed_rows }
    ensures value { IfOk result (λ table. table ≡ lesser_of own.now peer.now) }
    ensures law { IfOk result (IsLesser own.now peer.now) }
{
    let rows = lower_rows(alloc, own.rows(), peer.rows())?;
    Ok(table_of(own, peer, rows))
}

/// The same by several threads: each row of the own table is merged with the peer's by one of them.
pub fn lesser_parallel(
    rt: &(impl Threads + Sync),
    alloc: Global,
    own: &Table,
    peer: &Table,
) -> Result<Table, AllocError>
    requires shape { HasShapeOf own.now peer.now }
    requires own { length own.now.rows ≤ most_processed_rows }
    requires peer { length peer.now.rows ≤ most_processed_rows }
    ensures value { IfOk result (λ table. table ≡ lesser_of own.now peer.now) }
    ensures law { IfOk result (IsLesser own.now peer.now) }
{
    let rows = lower_rows_by_parts(rt, alloc, own.rows(), peer.rows())?;
    Ok(table_of(own, peer, rows))
}
