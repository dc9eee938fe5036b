//! The rows of the lesser, each row of the first side by a worker.
ghost use Rattle.std.specs.Prelude.{◌≡◌, ◌≤◌, ◌<◌, IfOk, length, map};
ghost use Rattle.std.specs.List.{flat_map, range_with_len};
ghost use Rattle.std.specs.List.Sorted.{IsStrictlySortedBy};
ghost use Rattle.gi_pairs.specs.Key.{key_cmp};
ghost use Rattle.gi_pairs.specs.Table.{keys_of};
ghost use Rattle.gi_lesser.specs.Parts.{count_below, edge_of, part_of};
ghost use Rattle.gi_lesser.specs.Walk.{lesser_rows};

use crate::walk::lower_rows;
use gi_pairs::{Key, Row};
use rayon::prelude::*;
use std::alloc::{AllocError, Global};
use std::thread::Threads;

/// The fewest rows of the first side that are worth a thread of their own.
const ROWS_FOR_A_THREAD: usize = 2_048;

fn place_of(rows: &[Row], key: Key) -> usize
    requires { IsStrictlySortedBy key_cmp (keys_of rows.now) }
    ensures value { result ≡ count_below key rows.now }
    ensures within { result ≤ length rows.now }
{
    match rows.binary_search_by_key(&key, |row| row.key()) {
        Ok(place) => place,
        Err(place) => place,
    }
}

fn edge(ours: &[Row], theirs: &[Row], i: usize) -> usize
    requires { IsStrictlySortedBy key_cmp (keys_of theirs.now) }
    ensures value { result ≡ edge_of ours.now theirs.now i }
    ensures within { result ≤ length theirs.now }
{
    if i == 0 {
        return 0;
    }
    match ours.get(i) {
        Some(row) => place_of(theirs, row.key()),
        None => theirs.len(),
    }
}

fn part(alloc: Global, ours: &[Row], theirs: &[Row], i: usize) -> Result<Vec<Row>, AllocError>
    requires within { i < length ours.now }
    requires ours { IsStrictlySortedBy key_cmp (keys_of ours.now) }
    requires theirs { IsStrictlySortedBy key_cmp (keys_of theirs.now) }
    ensures { IfOk result (λ rows. rows.items ≡ part_of ours.now theirs.now i) }
{
    let (from, to) = (edge(ours, theirs, i), edge(ours, theirs, i + 1));
    let our = ours.split_at(i).1.split_at(1).0;
    lower_rows(alloc, our, theirs.split_at(to).0.split_at(from).1)
}

fn all_parts(
    rt: &(impl Threads + Sync),
    alloc: Global,
    ours: &[Row],
    theirs: &[Row],
) -> Result<Vec<Vec<Row>>, AllocError>
    requires ours { IsStrictlySortedBy key_cmp (keys_of ours.now) }
    requires theirs { IsStrictlySortedBy key_cmp (keys_of theirs.now) }
    ensures { IfOk result (λ parts. map (λ part. part.items) parts.items ≡ map (part_of ours.now theirs.now) (range_with_len 0 (length ours.now))) }
{
    (0..ours.len())
        .into_par_iter()
        .with_min_len(ROWS_FOR_A_THREAD)
        .map(
            |i: usize| -> Result<Vec<Row>, AllocError>
                requires { (i < length ours.now) × IsStrictlySortedBy key_cmp (keys_of ours.now) × IsStrictlySortedBy key_cmp (keys_of theirs.now) }
                ensures { IfOk result (λ rows. rows.items ≡ part_of ours.entry.now theirs.entry.now i) }
            { part(alloc, ours, theirs, i) },
        )
        .collect::<Result<Vec<Vec<Row>>, AllocError>>(rt, alloc)?
}

fn gather(alloc: Global, count: usize, parts: Vec<Vec<Row>>) -> Result<Vec<Row>, AllocError>
    ensures { IfOk result (λ rows. rows.items ≡ flat_map (λ part. part.items) parts.items) }
{
    let mut rows = Vec::with_capacity(alloc, count)?;
    for mut part in parts {
        rows.append(&mut part)?;
    }
    Ok(rows)
}

/// The rows of both sides, each with the lower of both quantities in every hour, in table order: a
/// part for each row of the first side, by several threads.
pub fn lower_rows_by_parts(
    rt: &(impl Threads + Sync),
    alloc: Global,
    ours: &[Row],
    theirs: &[Row],
) -> Result<Vec<Row>, AllocError>
    requires ours { IsStrictlySortedBy key_cmp (keys_of ours.now) }
    requires theirs { IsStrictlySortedBy key_cmp (keys_of theirs.now) }
    ensures { IfOk result (λ rows. rows.items ≡ lesser_rows ours.now theirs.now) }
{
    if ours.is_empty() {
        return lower_rows(alloc, ours, theirs);
    }
    let parts = all_parts(rt, alloc, ours, theirs)?;
    gather(alloc, ours.len() + theirs.len(), parts)
}
