//! Books over disks in memory that stop, or that fail once: what the cases about them call. A worked
//! exchange runs on two offices, and the disk of one stops at each of its calls in turn; or a book is
//! written, and its disk fails at each of its writes in turn.
#![tactic(auto)]

mod books;
mod ends;
mod failing;
mod lent;
mod lives;
mod plans;
mod scripts;
mod sittings;
mod stops;
mod writes;

pub use stops::Stops;
