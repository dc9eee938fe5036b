//! Both running offices (`gi_office`), driven by a script (`gi_script`), each with its book
//! (`gi_store`): the sessions of both submit at the same time, each from its seat, and all else is called
//! from the main seat of each office, its last one, by one thread at a time.
//!
//! ```text
//!   script: a line, or a batch of submissions
//!      │
//!      ├─ a line:  the main seat of its side calls; `carry` delivers what the carrier gives
//!      └─ a batch: the sessions of both offices submit from their seats, and meanwhile a turn that
//!         saves is made from the main seat for each notice; then all are joined
//!      │
//!      ▼
//!   turns that save, from each main seat, until nothing is left to save or the desk is halted
//!      │      a fact stands in the book, and only then its mark lets out what it has
//!      ▼
//!   what the main seats were let out since: to the carrier towards the other office
//!      │
//!      └─ the next line or batch; behind the last one all seats go back to both offices, these settle,
//!         and are set against each other
//! ```
//!
//! The order is the whole point: a call records, a turn saves and then marks, a mark lets out, and what it
//! let out is sent after the turns, with what was asked for again and is saved already. So nothing is sent
//! of what is not saved, whichever thread recorded it. A session sends nothing to the other office: a
//! submission lets out no more than its ACKNOW, to its portfolio, where it repeats what is saved.
//!
//! Begin with [`serve`], which does all of it, and says how it ends. [`sessions_of`] says which session
//! submits which nomination of a batch: all of one portfolio go to one session, since nothing is said of
//! the order between two. A step is told by its [`Word`], without numbers of facts and packets, which
//! depend on how the threads came to the lock. [`close_both`] ends it: each office settles as `gi_office`
//! says, the two are reconciled, and the last lines tell what came of it; [`ServeFault`] is why it did
//! not end well. A [`Watch`] is told how far a run is. Who drives one office by itself has [`called`] and [`saved_all`].
#![tactic(auto)]

mod assigning;
mod at_once;
mod batch;
mod both;
mod closing;
mod once;
mod paired;
mod pieces;
mod running;
mod serve_fault;
mod serving;
mod station;
mod telling;
mod turns;
mod watch;
mod word;

pub use assigning::sessions_of;
pub use closing::{Closed, close_both};
pub use running::{called, saved_all};
pub use serve_fault::ServeFault;
pub use serving::serve;
pub use turns::Turns;
pub use watch::Watch;
pub use word::Word;
