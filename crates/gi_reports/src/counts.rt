//! How many facts a desk has, how many are saved, and how many cycles are confirmed.

ghost use Rattle.std.specs.Prelude.{◌≡◌, IfOk, filter, length, string_bytes};
ghost use Rattle.gi_reports.specs.Counts.{counts_line as line_of, is_confirmed};

use crate::cycles::closings;
use gi_desk::{Desk, Role};
use gi_pairs::CycleId;
use std::alloc::{AllocError, Global};

fn confirmed_count<R: Role>(desk: &Desk<R>, ids: &[CycleId]) -> usize
    ensures { result ≡ length (filter (is_confirmed R.SIDE desk.now) ids.now) }
{
    let mut count = 0;
    for id in ids {
        if desk.confirmed(*id).is_some() {
            count += 1;
        }
    }
    count
}

/// The line `I facts 4 saved 4 confirmed 1` of a desk: its side, how many facts it has, how many of
/// them are saved, and how many cycles are confirmed.
pub fn counts_line<R: Role>(alloc: Global, desk: &Desk<R>) -> Result<String, AllocError>
    ensures { IfOk result (λ line. string_bytes line ≡ line_of R.SIDE desk.now) }
{
    let (side, facts, saved) = (R::SIDE, desk.len(), desk.saved());
    let ids = closings(alloc, desk)?;
    let confirmed = confirmed_count(desk, &ids);
    format!(in alloc; "{side} facts {facts} saved {saved} confirmed {confirmed}\n")
}
