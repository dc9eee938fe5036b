ghost use Rattle.std.specs.Prelude.{◌≡◌, IfOk, drop, take};

use crate::row::Row;
use std::alloc::{AllocError, Global};
use std::marker::Model;
use std::sync::Arc;

#[derive(Drop)]
enum Kept {
    Own(Vec<Row>),
    Shared(Arc<Vec<Row>, Global>),
}

/// The rows of a table: its own, or in memory that its copies share.
#[derive(Drop)]
pub(crate) struct Rows {
    kept: Kept,
}

impl Model for Rows {
    ghost use Rattle.std.specs.Prelude.{List};
    ghost use Rattle.gi_pairs.specs.declared.row.Row.{Row};
    ghost use Rattle.gi_pairs.specs.RowsRepr.{kept_rows};

    ghost Value = { List Row };

    ghost view = { λ r. kept_rows r.kept };
}

impl Rows {
    pub(crate) fn new(rows: Vec<Row>) -> Rows
        ensures { result ≡ rows.items }
    {
        Rows {
            kept: Kept::Own(rows),
        }
    }

    pub(crate) fn as_slice(&self) -> &[Row]
        ensures { result.now ≡ self.now }
    {
        match &self.kept {
            Kept::Own(rows) => rows,
            Kept::Shared(rows) => rows,
        }
    }

    /// The same rows in memory that their copies share.
    pub(crate) fn share(self) -> Result<Rows, AllocError>
        ensures { IfOk result (λ rows. rows ≡ self) }
    {
        let shared = match self.kept {
            Kept::Own(rows) => Arc::new(*rows.allocator(), rows)?,
            Kept::Shared(rows) => rows,
        };
        Ok(Rows {
            kept: Kept::Shared(shared),
        })
    }

    /// Equal rows: the same memory where that is shared.
    pub(crate) fn copy(&self) -> Result<Rows, AllocError>
        ensures { IfOk result (λ rows. rows ≡ self.now) }
    {
        Ok(match &self.kept {
            Kept::Own(rows) => Rows::new(copy_rows(*rows.allocator(), rows)?),
            Kept::Shared(rows) => Rows {
                kept: Kept::Shared(Arc::try_clone(rows)?),
            },
        })
    }

    /// Copies of the rows from a place on, counted from 0, at most so many; all of them in the same
    /// memory where that is shared.
    pub(crate) fn slice(&self, alloc: Global, from: usize, most: usize) -> Result<Rows, AllocError>
        ensures { IfOk result (λ rows. rows ≡ take most (drop from self.now)) }
    {
        let rows = self.as_slice();
        if from == 0 && rows.len() <= most {
            return self.copy();
        }
        let rest = &rows[from.min(rows.len())..];
        let some = &rest[..most.min(rest.len())];
        Ok(Rows::new(copy_rows(alloc, some)?))
    }
}

fn copy_rows(alloc: Global, rows: &[Row]) -> Result<Vec<Row>, AllocError>
    ensures { IfOk result (λ copies. copies.items ≡ rows.now) }
{
    let mut copies = Vec::with_capacity(alloc, rows.len())?;
    for row in rows {
        copies.push(row.copy()?)?;
    }
    Ok(copies)
}
