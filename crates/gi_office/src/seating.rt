//! The seats of a new office.

ghost use Rattle.std.specs.Prelude.{◌≡◌, ◌<◌, ◌≤◌, IfOk};
ghost use Rattle.gi_office.specs.Opening.{new_seat, new_seats};

use crate::seat::Seat;
use std::alloc::{AllocError, Global};
use std::sync::ledger::{Ledger, Share};

fn seat_of<L: Ledger>(alloc: Global, number: u8, share: Share<L>) -> Seat<L>
    requires backed { 0 < share.parts }
    requires none { share.amount ≡ 0 }
    ensures { result ≡ new_seat share.parts number }
{
    Seat {
        number,
        notes: Vec::new(alloc),
        share,
    }
}

/// The last seat has all parts that are left, so that all seats together have the whole ledger, which
/// counting them against the book takes.
pub(crate) fn seats_of<L: Ledger>(
    alloc: Global,
    share: Share<L>,
    count: u8,
) -> Result<Vec<Seat<L>>, AllocError>
    requires some { 1 ≤ count }
    requires few { count ≤ 16 }
    requires parts { share.parts ≡ 16 }
    requires none { share.amount ≡ 0 }
    ensures { IfOk result (λ seats. seats.items ≡ new_seats count) }
{
    let mut rest = share;
    let Ok(mut seats) = Vec::with_capacity(alloc, count as usize) else {
        // (handed to drop, by one call: going out of scope here would be checked field by field on each way out)
        drop(rest);
        return Err(AllocError);
    };
    for number in 1..count {
        let share = rest.split_off(1, 0);
        seats.push_reserved(seat_of(alloc, number, share));
    }
    seats.push_reserved(seat_of(alloc, count, rest));
    Ok(seats)
}
