//! An office taken apart: what each seat noted, against the trail.

ghost use Rattle.std.specs.Prelude.{◌≡◌, ◌+◌, MatchOption, Some, length};
ghost use Rattle.std.specs.Option.{option_map};
ghost use Rattle.gi_office.specs.Settling.{AreAll, AreSettled, Differs, DiffersAt, IsUnsettled, noted_by, notes_at, notes_of, parts_of};

use crate::comparing::is_noted;
use crate::entry::Entry;
use crate::note::Note;
use crate::seat::Seat;
use crate::unsettled::Unsettled;
use std::sync::ledger::{Book, Ledger, Share};

fn difference(number: u8, notes: &[Note], trail: &[Entry]) -> Option<u64>
    ensures { MatchOption result (notes.now ≡ notes_of number trail.now) (λ place. DiffersAt place notes.now (notes_of number trail.now)) }
{
    let mut next = 0;
    for i in 0..trail.len() {
        let entry = &trail[i];
        if entry.seat != number {
            continue;
        }
        if !is_noted(notes, next, i as u64 + 1, entry) {
            return Some(next as u64 + 1);
        }
        next += 1;
    }
    if next < notes.len() {
        return Some(next as u64 + 1);
    }
    None
}

fn list_of<L: Ledger>(number: u8, seats: &[Seat<L>]) -> Option<&[Note]>
    ensures { option_map (λ notes. notes.now) result ≡ notes_at number seats.now }
{
    let seat = seats.iter().find(|seat| seat.number() == number)?;
    Some(seat.notes())
}

fn fault_of<L: Ledger>(number: u8, seats: &[Seat<L>], trail: &[Entry]) -> Option<Unsettled>
    ensures { MatchOption result (notes_at number seats.now ≡ Some (notes_of number trail.now)) (λ fault. (fault.seat ≡ number) × Differs trail.now seats.now fault) }
{
    let Some(notes) = list_of(number, seats) else {
        return Some(Unsettled {
            seat: number,
            place: 0,
        });
    };
    let place = difference(number, notes, trail)?;
    Some(Unsettled {
        seat: number,
        place,
    })
}

pub(crate) fn first_fault<L: Ledger>(
    count: u8,
    seats: &[Seat<L>],
    trail: &[Entry],
) -> Option<Unsettled>
    ensures { MatchOption result (AreSettled count trail.now seats.now) (IsUnsettled count trail.now seats.now) }
{
    for before in 0..count {
        if let Some(fault) = fault_of(before + 1, seats, trail) {
            return Some(fault);
        }
    }
    None
}

fn share_of<L: Ledger>(seat: Seat<L>) -> Share<L>
    ensures parts { result.parts ≡ seat.parts }
    ensures amount { result.amount ≡ length seat.notes }
{
    let Seat {
        number: _,
        notes: _,
        share,
    } = seat;
    share
}

fn joined<L: Ledger>(first: Share<L>, seats: Vec<Seat<L>>) -> Share<L>
    ensures parts { result.parts ≡ first.parts + parts_of seats.items }
    ensures amount { result.amount ≡ first.amount + noted_by seats.items }
{
    let mut all = first;
    for seat in seats {
        all.merge(share_of(seat));
    }
    all
}

/// Only a share that has all parts of the ledger tells the book's total, so all are merged into one.
pub(crate) fn merge<L: Ledger>(book: Book<L>, seats: Vec<Seat<L>>)
    ensures { AreAll L.parts seats.items → noted_by seats.items ≡ book.total }
{
    let mut book = book;
    let mut seats = seats;
    let Some(last) = seats.pop() else {
        return;
    };
    let mut all = joined(share_of(last), seats);
    book.audit(&mut all);
}
