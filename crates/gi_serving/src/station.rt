use gi_desk::{Desk, Role};
use std::alloc::Global;
use std::sync::ledger::Blank;

#[derive(Drop)]
pub(crate) struct Station<R: Role, B: Drop> {
    pub(crate) alloc: Global,
    pub(crate) blank: Blank,
    pub(crate) desk: Desk<R>,
    pub(crate) book: B,
}
