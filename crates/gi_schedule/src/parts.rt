//! The parts of reports, for reports that are made of the same parts.

pub use crate::columns::{RightInTwelve, SignedInTwelve};
pub use crate::in_force::last_before;
pub use crate::keys::add_cycle_keys;
pub use crate::listing::is_listed;
pub use crate::objects::put_signed;
pub use crate::text_cuts::place_text;
