//! The saved fact that closed a cycle.

ghost use Rattle.std.specs.Prelude.{◌≡◌};
ghost use Rattle.gi_audit.specs.Finding.{closing_within as closing_among};

use gi_desk::{Desk, Role};
use gi_pairs::CycleId;

/// The number of the saved fact that closed the cycle.
pub(crate) fn saved_closing<R: Role>(desk: &Desk<R>, id: &CycleId) -> Option<u32>
    ensures { result ≡ closing_among desk.now id.now }
{
    let closing = desk.closing(*id)?;
    if closing > desk.saved() {
        return None;
    }
    Some(closing)
}
