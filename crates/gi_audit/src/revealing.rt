//! What is so of every desk.

ghost use Rattle.gi_desk.specs.Writable.{FitsDesk};
ghost use Rattle.gi_world.specs.Agreement.{IsLegal};

use gi_desk::{Desk, Role};

/// Does nothing: what it promises of a desk is always so, and is known once it is called; `saved`
/// tells that no more facts are saved than there are.
pub(crate) fn reveal_invariant<R: Role>(desk: &Desk<R>)
    ensures legal { IsLegal R.SIDE desk.now }
    ensures fits { FitsDesk R.SIDE desk.now.point desk.now.facts }
{
    desk.reveal_invariant();
    let _ = desk.saved();
}
