//! Calls from the seats.

use gi_calls::{Answer, Fault};
use gi_desk::{Call, Role};
use gi_office::{Office, OfficeFault, Receipt, Seat};
use std::sync::Wait;
use std::sync::ledger::Ledger;

/// Takes the seat of this number.
pub fn taken<L: Ledger>(seats: &mut Vec<Seat<L>>, number: u8) -> Option<Seat<L>> {
    let place = seats.iter().position(|it| it.number() == number)?;
    if place < seats.len() {
        Some(seats.swap_remove(place))
    } else {
        None
    }
}

/// Puts a seat back among the others.
pub fn put_back<L: Ledger>(seats: &mut Vec<Seat<L>>, seat: Seat<L>) -> Result<(), Fault> {
    seats.push(seat)?;
    Ok(())
}

/// Adds how many calls a seat noted.
pub fn count_notes<L: Ledger>(seats: &[Seat<L>], number: u8, text: &mut Answer) -> bool {
    let Some(seat) = seats.iter().find(|it| it.number() == number) else {
        return false;
    };
    text.show(seat.notes().len());
    true
}

/// Loses a seat.
pub fn lose<L: Ledger>(seats: &mut Vec<Seat<L>>, number: u8, text: &mut Answer) -> bool {
    match taken(seats, number) {
        Some(seat) => {
            // (handed to `drop`, by one call: going out of scope here would be checked field by
            // field on each way out)
            drop(seat);
            text.add("ok");
            true
        }
        None => false,
    }
}

/// Makes the call from the seat.
pub fn asked<R: Role, L: Ledger, W: Wait>(
    handle: &W,
    office: &Office<R, L>,
    seat: Seat<L>,
    call: Call,
) -> (Seat<L>, Result<Receipt, OfficeFault>) {
    match call {
        Call::Contract(contract) => office.contract(handle, seat, contract),
        Call::Notice(notice) => office.notice(handle, seat, notice),
        Call::Submit(body) => office.submit(handle, seat, body),
        Call::Close { id, rule } => office.close_cycle(handle, seat, id, rule),
        Call::Deliver(body) => office.deliver(handle, seat, body),
        Call::Resend(id) => office.resend(handle, seat, id),
        _ => office.halt(handle, seat),
    }
}
