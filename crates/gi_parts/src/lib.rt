//! An order or a response that comes in parts: how a table is split, what is kept while a part is
//! missing, and what all parts come to.
//!
//! A table of more than 1,000 rows goes out in parts of 1,000, numbered from 1 ([`parts_for`],
//! [`part_of_table`]); a response goes out in as many as its confirmed table. Parts are lost,
//! repeated, and come in any order. Whoever receives them keeps those of each cycle
//! ([`KeptParts`]), and asks of each one what it comes to ([`KeptParts::gather`]):
//!
//! ```text
//!  a part ── a whole message ─────────────────────────────────► Complete
//!    │
//!    ├── other hours, another number of parts, or the same
//!    │   part with other rows, is kept ───────────────────────► PartDiffers
//!    ├── it is there, or another one is missing besides it ───► Keep
//!    │
//!    └── none is missing: the rows of all parts together
//!          ├── a pair and direction twice ────────────────────► PartsOverlap
//!          ├── too many rows ─────────────────────────────────► TooManyRows
//!          └── the tables ────────────────────────────────────► Complete
//! ```
//!
//! A refusal changes nothing, and nothing is kept before the caller says so:
//!
//! ```text
//! match kept.gather(alloc, &id, part) {
//!     Gathered::Keep(part) => kept.keep(id, part)?,
//!     Gathered::Complete(whole) => {
//!         meet(whole);
//!         kept.forget(&id);
//!     }
//!     Gathered::Refused(fault) => refuse(fault),
//! }
//! ```
//!
//! The laws are the functions of `laws.rt`: tables that were split are made again by their parts in
//! any order, each at least once, and none of these is refused.
#![tactic(auto)]

mod gathered;
mod gathering;
mod kept_parts;
mod laws;
mod part;
mod splitting;

pub use gathered::{Gathered, PartFault};
pub use kept_parts::{KeptPart, KeptParts};
pub use laws::{
    carries_all_rows, gathers_in_any_order, gathers_what_was_split, sends_readable_parts,
};
pub use part::{Part, Whole};
pub use splitting::{part_of_table, parts_for};
