//! What a part comes to with those that are kept of its cycle.

ghost use Rattle.std.specs.Prelude.{◌≡◌, ◌≤◌, ◌++◌, ◌==◌, ◌&&◌, ◌||◌, All, IfOk, IsTrue, OnOk, count_by, false, length, not};
ghost use Rattle.std.specs.List.{list_all, list_any};
ghost use Rattle.gi_pairs.specs.Limits.{most_rows};
ghost use Rattle.gi_pairs.specs.Table.{TableContents, joined as joined_rows};
ghost use Rattle.gi_parts.specs.Gathering.{IsGathered, all_rows, go_together as go_together_of, goes_with as goes_with_part, is_awaiting as is_awaiting_of, is_whole, joined_with};
ghost use Rattle.gi_parts.specs.Hours.{AreRowsFor, IsPartFor};
ghost use Rattle.gi_parts.specs.Joining.{both as both_of};
ghost use Rattle.gi_parts.specs.Parts.{IsSent, count_of, is_of, is_there as is_there_of, parts_of, rows_in};
ghost use Rattle.gi_parts.specs.Walks.{rows_if};
ghost use Rattle.gi_parts.specs.declared.part.Array.TheVariants.{Confirmed, Processed};

use crate::gathered::{Gathered, PartFault};
use crate::kept_parts::KeptPart;
use crate::part::{Array, Part, Whole};
use gi_pairs::{CycleId, JoinFault, MOST_PROCESSED_ROWS, MOST_ROWS, Row, Table};
use std::alloc::{AllocError, Global};

/// Whether a part may stand beside another one.
fn goes_with(part: &Part, other: &Part) -> bool
    ensures { result ≡ goes_with_part part.now other.now }
{
    part.processed.covers_same_hours(&other.processed)
        && part.parts == other.parts
        && (part.number != other.number
            || part.rows(Array::Processed) == other.rows(Array::Processed)
                && part.rows(Array::Confirmed) == other.rows(Array::Confirmed))
}

/// Whether a part may stand beside each that is kept of its cycle.
fn goes_with_each(kept: &[KeptPart], id: &CycleId, part: &Part) -> bool
    ensures { result ≡ list_all (λ one. not (is_of id.now one) || goes_with_part part.now one.part) kept.now }
{
    kept.iter()
        .all(|one| one.id != *id || goes_with(part, &one.part))
}

/// Whether a part may stand beside all that are kept of its cycle.
fn go_together(kept: &[KeptPart], id: &CycleId, part: &Part) -> bool
    ensures { result ≡ go_together_of part.now (parts_of id.now kept.now) }
{
    goes_with_each(kept, id, part)
}

/// Whether one that is kept is of the cycle and has this part's number.
fn is_one(kept: &[KeptPart], id: &CycleId, part: &Part) -> bool
    ensures { result ≡ list_any (λ one. is_of id.now one && (part.now.number == one.part.number)) kept.now }
{
    kept.iter()
        .any(|one| one.id == *id && part.number == one.part.number)
}

/// Whether a part of this number is kept of the cycle.
pub(crate) fn is_there(kept: &[KeptPart], id: &CycleId, part: &Part) -> bool
    ensures { result ≡ is_there_of part.now (parts_of id.now kept.now) }
{
    is_one(kept, id, part)
}

/// How many that are kept are of the cycle.
fn count_of_all(kept: &[KeptPart], id: &CycleId) -> usize
    ensures { result ≡ count_by (is_of id.now) kept.now }
{
    kept.iter().filter(|one| one.id == *id).count()
}

/// How many parts are kept of the cycle.
pub(crate) fn count(kept: &[KeptPart], id: &CycleId) -> usize
    ensures value { result ≡ count_of id.now kept.now }
    ensures few { result ≤ length kept.now }
{
    count_of_all(kept, id)
}

/// Whether it is kept already, or others are missing besides it.
fn is_awaiting(kept: &[KeptPart], id: &CycleId, part: &Part) -> bool
    ensures { result ≡ is_awaiting_of part.now (parts_of id.now kept.now) }
{
    is_there(kept, id, part) || count(kept, id) + 1 < usize::from(part.parts)
}

/// Puts copies of rows behind others.
fn add_rows(rows: &mut Vec<Row>, more: &[Row]) -> Result<(), AllocError>
    ensures { OnOk result (rows.new.items ≡ rows.old.items ++ more.now) }
{
    for row in more {
        rows.push(row.copy()?)?;
    }
    Ok(())
}

/// Puts the rows of a part behind others, where it is of the cycle.
fn add_if(rows: &mut Vec<Row>, one: &KeptPart, id: &CycleId, array: Array) -> Result<(), AllocError>
    ensures rows { OnOk result (rows.new.items ≡ rows.old.items ++ rows_if array id.now one.now) }
    ensures fit { (own : TableContents) → (IsTrue (is_of id.now one.now) → IsPartFor own one.now.part) → AreRowsFor own rows.old.items → OnOk result (AreRowsFor own rows.new.items) }
{
    if one.id != *id {
        return Ok(());
    }
    add_rows(rows, one.part.rows(array))
}

/// The rows of all parts of a cycle, in the order in which they came.
fn rows_of(
    alloc: Global,
    kept: &[KeptPart],
    id: &CycleId,
    part: &Part,
    array: Array,
) -> Result<Vec<Row>, AllocError>
    ensures rows { IfOk result (λ rows. rows.items ≡ all_rows array part.now (parts_of id.now kept.now)) }
    ensures fit { (own : TableContents) → All (IsPartFor own) (parts_of id.now kept.now) → IsPartFor own part.now → IfOk result (λ rows. AreRowsFor own rows.items) }
{
    let mut rows = Vec::new(alloc);
    for one in kept {
        add_if(&mut rows, one, id, array)?;
    }
    add_rows(&mut rows, part.rows(array))?;
    Ok(rows)
}

/// The table of at most so many rows that one array of all parts makes.
fn table_of(
    alloc: Global,
    kept: &[KeptPart],
    id: &CycleId,
    part: &Part,
    array: Array,
    most: usize,
) -> Result<Result<Table, JoinFault>, AllocError>
    requires part { IsPartFor part.now.processed part.now }
    requires kept { All (IsPartFor part.now.processed) (parts_of id.now kept.now) }
    requires limit { most ≤ most_rows }
    ensures { IfOk result (λ table. table ≡ joined_rows part.now.processed.first part.now.processed.last most (all_rows array part.now (parts_of id.now kept.now))) }
{
    part.processed.reveal_invariant();
    let rows = rows_of(alloc, kept, id, part, array)?;
    Ok(Table::join(part.processed.first(), part.processed.last(), rows, most))
}

/// Both tables, the second where something is confirmed.
fn both(
    processed: Result<Table, JoinFault>,
    confirmed: Result<Table, JoinFault>,
    part: &Part,
) -> Gathered
    ensures { result ≡ both_of processed confirmed part.now }
{
    match (processed, confirmed) {
        (Ok(processed), Ok(confirmed)) => Gathered::Complete(Whole {
            processed,
            confirmed: part.confirmed.is_some().then_some(confirmed),
        }),
        (Err(JoinFault::Overlap), _) | (_, Err(JoinFault::Overlap)) => {
            Gathered::Refused(PartFault::PartsOverlap)
        }
        _ => Gathered::Refused(PartFault::TooManyRows),
    }
}

/// What the last part that was missing makes with the others.
fn joined(
    alloc: Global,
    kept: &[KeptPart],
    id: &CycleId,
    part: &Part,
) -> Result<Gathered, AllocError>
    requires part { IsPartFor part.now.processed part.now }
    requires kept { All (IsPartFor part.now.processed) (parts_of id.now kept.now) }
    ensures { IfOk result (λ gathered. gathered ≡ joined_with part.now (all_rows Processed part.now (parts_of id.now kept.now)) (all_rows Confirmed part.now (parts_of id.now kept.now))) }
{
    let processed = table_of(alloc, kept, id, part, Array::Processed, MOST_PROCESSED_ROWS)?;
    let Ok(confirmed) = table_of(alloc, kept, id, part, Array::Confirmed, MOST_ROWS) else {
        // (handed to drop, by one call: going out of scope here would be checked field by field on each way out)
        drop(processed);
        return Err(AllocError);
    };
    Ok(both(processed, confirmed, part))
}

/// What one of several parts comes to with those that are kept of its cycle.
fn gather_parts(alloc: Global, kept: &[KeptPart], id: &CycleId, part: Part) -> Gathered
    requires several { is_whole part ≡ false }
    requires readable { IsSent part }
    requires kept { All IsSent (parts_of id.now kept.now) }
    ensures { IsGathered id.now kept.now part result }
{
    if !go_together(kept, id, &part) {
        let number = part.number;
        drop(part);
        return Gathered::Refused(PartFault::PartDiffers { part: number });
    }
    if is_awaiting(kept, id, &part) {
        return Gathered::Keep(part);
    }
    let gathered = joined(alloc, kept, id, &part);
    drop(part);
    match gathered {
        Ok(gathered) => gathered,
        Err(_) => Gathered::Refused(PartFault::OutOfMemory),
    }
}

/// What a part comes to with those that are kept of its cycle.
pub(crate) fn gather(alloc: Global, kept: &[KeptPart], id: &CycleId, part: Part) -> Gathered
    requires readable { IsSent part }
    requires kept { All IsSent (parts_of id.now kept.now) }
    ensures { IsGathered id.now kept.now part result }
{
    if part.parts == 1 {
        return Gathered::Complete(Whole {
            processed: part.processed,
            confirmed: part.confirmed,
        });
    }
    gather_parts(alloc, kept, id, part)
}
