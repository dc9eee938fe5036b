//! What holds of all faults. The function does nothing; its clause is the law.
ghost use Rattle.gi_commands.specs.Laws.{HasOneStatus};

/// A fault of `match`, of `hours` or of words has one exit status, whichever program tells it.
pub fn one_status()
    ensures { HasOneStatus }
{}
