ghost use Rattle.std.specs.Prelude.{◌≡◌};

use crate::outcome::Outcome;
use crate::reply::Reply;

/// A step that is computed and not yet made: `Desk::prepare` gives it, and `Desk::make` makes it.
/// Between the two its caller makes what memory may be wanted for, so that nothing is left to undo.
#[derive(Drop)]
pub struct Prepared {
    pub(crate) outcome: Outcome,
    pub(crate) reply: Reply,
}

impl Prepared {
    /// The reply that is given when it is made.
    pub fn reply(&self) -> &Reply
        ensures { result.now ≡ self.now.reply }
    {
        &self.reply
    }
}
