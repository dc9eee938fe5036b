//! An operator's office: one desk (`gi_desk`) under a lock, which several threads call, each from a
//! seat of its own; the trail of all calls, against which `settle` holds what each seat noted; and
//! the turns that save the desk's facts in a book (`gi_store`).
//!
//! ```text
//!   thread 1 ── seat 1 ──┐            ┌ lock ─────────────────────────────────────┐
//!   thread 2 ── seat 2 ──┼─ submit.. ─│ desk ── step ── reply                     │
//!   thread 3 ── seat 3 ──┘            │ trail: (seat, call, reply) (seat, call, ..│
//!                                     └───────────────────────────────────────────┘
//!   each seat: its own (place, call, reply) ..        settle: the two agree, or where first not
//! ```
//!
//! Whoever drives an office has these duties: to keep each seat to one thread at a time (a call takes
//! it and gives it back); to send what a reply lets out, and nothing else; and at the end to hand all
//! seats back to [`Office::settle`]. Who makes turns that save ([`Office::save_turn`]) does so from one
//! seat, by one thread at a time, always with the desk's own book, which is loaded: a fact is saved
//! and lets out what it has by such a turn alone. A turn saves several facts, and what each lets out is
//! in the notes of its seat, after a fault too. It goes on until there is nothing to save, the desk is
//! halted, or a turn answers a fault. Who serves sessions ([`Office::serve`]) gives each a seat of
//! its own, and all submissions whose order matters to one session, since nothing is said of the order
//! between two; it takes the seats back from what is served, after a fault too ([`Session::into_parts`],
//! [`Served::into_parts`]).
//!
//! ```text
//! let (office, mut seats) = Office::new(alloc, blank, desk, 2)?;
//! let (saver, seat) = (seats.pop().unwrap(), seats.pop().unwrap());
//! let (seat, answer) = office.submit(&rt, seat, body);
//! let receipt = answer?;                       // its place in the trail, and the desk's reply
//! send(receipt.reply.out);                     // a repeat of what is saved is answered at once
//! let noted = saver.notes().len();
//! let (saver, turn) = office.save_turn(&rt, saver, &mut book);
//! for note in &saver.notes()[noted..] {
//!     send(note.reply.out);                    // what was saved is told, and not before
//! }
//! turn?;
//! seats.push(seat)?;
//! seats.push(saver)?;
//! let settled = office.settle(seats)?;         // each reply is the desk's at its place in one life
//! report(settled.desk());
//! ```
//!
//! An office is opened from a blank ledger of 16 parts in a function over `L: Ledger`, so a seat of
//! another office is of another type. A call that waits for the lock returns once it has it; nothing
//! is said of who comes first.
//!
//! Begin with [`Held`], which says what one call does, then [`Office`], which takes the lock for it;
//! [`Seat`], [`Entry`], [`Note`] and [`Receipt`] are what a call leaves. [`Unsettled`] tells where a
//! seat and the trail differ. [`Session`], [`Gate`] and [`Served`] are for workers, one a seat; a
//! [`Waker`] is a gate that notifies who makes turns.
//!
//! Of offices that are over, those of one operator are put together by [`join_lives`], and those of the
//! two operators set against each other by [`reconcile`]: what both confirmed and told is then one.
#![tactic(auto)]

mod comparing;
mod copying;
mod entry;
mod facts;
mod gate;
mod held;
mod joining;
mod life_fault;
mod look;
mod note;
mod office;
mod office_fault;
mod open_fault;
mod receipt;
mod reconciling;
mod save_fault;
mod seat;
mod seating;
mod session;
mod settled;
mod settling;
mod stretch;
mod turn;
mod unreconciled;
mod unsettled;
mod waited;
mod waker;
mod work;
mod writing;

pub use entry::Entry;
pub use facts::Facts;
pub use gate::Gate;
pub use held::{Held, MOST_SEATS};
pub use joining::join_lives;
pub use life_fault::LifeFault;
pub use look::Look;
pub use note::Note;
pub use office::Office;
pub use office_fault::OfficeFault;
pub use open_fault::OpenFault;
pub use receipt::Receipt;
pub use reconciling::reconcile;
pub use save_fault::SaveFault;
pub use seat::{MOST_NOTES, Seat};
pub use session::{Served, Session};
pub use settled::Settled;
pub use turn::Turn;
pub use unreconciled::Unreconciled;
pub use unsettled::Unsettled;
pub use waited::Waited;
pub use waker::Waker;
