//! What a role's decision is made of.

ghost use Rattle.std.specs.Prelude.{◌≡◌, ◌≤◌, length};
ghost use Rattle.gi_pairs.specs.Limits.{most_rows};
ghost use Rattle.gi_desk.specs.Deciding.{are_among as are_among_of, difference as difference_of, met_again as met_again_of, part_again as part_again_of, refusal_of as refusal_of_fault};

use crate::decision::Decision;
use crate::refusal::Refusal;
use gi_cycles::Matched;
use gi_pairs::{Row, Table};
use gi_parts::{Part, PartFault};

/// The least place, from 1, at which two lists of rows differ; a row that one of them lacks
/// differs. The first has at most 8,192 rows.
pub fn difference(rows: &[Row], others: &[Row]) -> Option<u32>
    requires { length rows.now ≤ most_rows }
    ensures { result ≡ difference_of rows.now others.now }
{
    for place in 0..rows.len() {
        if place == others.len() || rows[place] != others[place] {
            return Some(place as u32 + 1);
        }
    }
    if rows.len() == others.len() {
        return None;
    }
    Some(rows.len() as u32 + 1)
}

/// `Again` where a cycle that met the first table meets the second, which is the same one, and
/// `Conflict` where it is not.
pub fn met_again(met: &Table, peer: &Table) -> Decision
    ensures { result ≡ met_again_of met.now peer.now }
{
    if met == peer {
        Decision::Again
    } else {
        Decision::Refused(Refusal::Conflict)
    }
}

fn are_among(rows: &[Row], others: &[Row]) -> bool
    ensures { result ≡ are_among_of rows.now others.now }
{
    rows.iter().all(|row| others.contains(row))
}

/// `Again` where each row of a part stands in the peer's table, and each that it confirms in the
/// confirmed one, and `Conflict` where one does not.
pub fn part_again(cycle: &Matched, part: &Part) -> Decision
    ensures { result ≡ part_again_of cycle.now part.now }
{
    if are_among(part.processed.rows(), cycle.peer().rows())
        && are_among(part.confirmed_rows(), cycle.confirmed().rows())
    {
        Decision::Again
    } else {
        Decision::Refused(Refusal::Conflict)
    }
}

/// Why a part is not taken, as the desk refuses it.
pub fn refusal_of(fault: PartFault) -> Refusal
    ensures { result ≡ refusal_of_fault fault }
{
    match fault {
        PartFault::PartDiffers { part } => Refusal::PartDiffers { part },
        PartFault::PartsOverlap => Refusal::PartsOverlap,
        PartFault::TooManyRows => Refusal::TooManyRows,
        PartFault::OutOfMemory => Refusal::OutOfMemory,
    }
}
