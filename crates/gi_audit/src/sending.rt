//! What a desk has written to its peer.

ghost use Rattle.std.specs.Prelude.{◌≡◌};
ghost use Rattle.std.specs.Option.{option_copied};
ghost use Rattle.gi_audit.specs.Sent.{has_sent as has_sent_of, sent_table as sent_table_of};

use crate::closing::saved_closing;
use crate::revealing::reveal_invariant;
use gi_desk::{Desk, Role};
use gi_pairs::{CycleId, Side, Table};

/// Whether the desk has written of the cycle: the initiating side once its closing is saved, and the
/// matching side once its meeting is.
fn has_sent<R: Role>(desk: &Desk<R>, id: &CycleId) -> bool
    ensures { result ≡ has_sent_of R.SIDE desk.now id.now }
{
    match R::SIDE {
        Side::I => saved_closing(desk, id).is_some(),
        Side::M => desk.confirmed(*id).is_some(),
    }
}

/// The frozen table that the desk has written to its peer of the cycle.
pub(crate) fn sent_table<'a, R: Role>(desk: &'a Desk<R>, id: &CycleId) -> Option<&'a Table>
    ensures { option_copied result ≡ sent_table_of R.SIDE desk.now id.now }
{
    reveal_invariant(desk);
    if !has_sent(desk, id) {
        return None;
    }
    desk.frozen(*id)
}
