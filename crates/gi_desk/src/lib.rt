//! One operator's desk: a machine over its list of facts. What is not saved is not said.
//!
//! A desk reads no file, no clock and no message by itself. It takes one [`Call`] after the other
//! ([`Desk::step`]) and gives a [`Reply`] to each: an [`Answer`], and the packets that may leave
//! now. What it knows is a list of facts, of which the first so many are saved, and beside it what
//! they come to:
//!
//! ```text
//!             call
//!               │   Desk::outcome: what it comes to, by the facts
//!       ┌───────┼──────────────┬───────────────┐
//!   a refusal   a new fact     a repeat        the mark of fact n, a resending
//!       │       │              │               │   Desk::out: what a saved fact lets out
//!       │       │              └── packets ────┴── packets
//!       │       │   Desk::apply: the change
//!       │       └── recorded as fact n, unsaved: nothing leaves
//!       │
//!       └── reply: answer and packets
//!
//!    recorded ── the store writes fact n ── MarkSaved n ── saved: its packets leave
//! ```
//!
//! Whoever drives a desk has four duties, in this order: to make the call; to write each fact that
//! it recorded to the store, under its number; to tell the desk that the fact stands there
//! for good; and only then to send what that lets out.
//!
//! ```text
//! let mut desk = Desk::<Initiating>::replay(alloc, calendar, point, book.load()?)?;
//! loop {
//!     let reply = desk.step(&next_call());
//!     send(reply.out);
//!     while let Some((n, fact)) = desk.unsaved() {
//!         let fact = fact.copy()?;
//!         book.save_next(n, &fact)?;
//!         send(desk.step(&Call::MarkSaved { n, fact }).out);
//!     }
//! }
//! ```
//!
//! Who keeps more of a step than the desk does makes it in two: [`Desk::prepare`], its own copies
//! and places, then [`Desk::make`].
//!
//! A table of more than 1,000 rows goes out in parts, and comes so. One that comes is kept beside the
//! facts until it is the last one missing of its cycle; then all together are decided on as a whole
//! message is ([`Answer::Kept`], `gi_parts`). No fact says what is kept: a meeting drops it, and so
//! does a start.
//!
//! A desk that starts again is made of its saved facts ([`Desk::replay`]). Packets may be lost or
//! come twice, so what saved facts let out can be let out again ([`Call::Resend`]).
//!
//! Read [`Call`], [`Answer`] and [`Refusal`] first, then [`Desk`]; [`Role`] is what differs between
//! the two operators (`gi_initiator`, `gi_matcher`), and [`Desk::confirmed`] and [`Desk::told`] are
//! what comes of a cycle. The laws of any number of calls are the functions of `laws.rt`.
#![tactic(auto)]

mod call;
mod capacity;
mod deciding;
mod decision;
mod desk;
mod fact_packets;
mod judging;
mod kept;
mod laws;
mod outcome;
mod packet;
mod prepared;
mod ranges;
mod refusal;
mod replay_fault;
mod reply;
mod role;
mod stage;
mod stage_name;
mod stages;
mod telling;

pub use call::Call;
pub use deciding::{difference, met_again, part_again, refusal_of};
pub use decision::Decision;
pub use desk::Desk;
pub use gi_facts::{Fact, FactFault, decode_fact, encode_fact};
pub use judging::MOST_FACTS;
pub use laws::{
    closes_once, confirms_for_good, confirms_through_restarts, freezes_for_good, fronts_are_legal,
    keeps_the_highest_version, lets_out_for_good, matches_for_good, meets_once, only_appends,
    orders_only_of_cycles, records_what_calls_record, refusals_change_nothing,
    says_only_what_is_saved, sends_whole_tables, stays_legal, versions_rise, writes_messages,
};
pub use outcome::Outcome;
pub use packet::{Body, Packet, Packets, Recipient};
pub use prepared::Prepared;
pub use refusal::Refusal;
pub use replay_fault::ReplayFault;
pub use reply::{Answer, Reply};
pub use role::Role;
pub use stage_name::StageName;
