//! What holds of all changes. These functions do nothing; their clauses are the laws.

ghost use Rattle.gi_changes.specs.Laws.{AddUp, AddUpToSchedule, BeginAfter, BeginFromNothing, ShareChanges};

/// All changes of a pair and a direction in an hour together are what is in force for them in the
/// end, as in the schedule.
pub fn adds_up()
    ensures sum { AddUp }
    ensures schedule { AddUpToSchedule }
{}

/// A line begins with what the last confirmed cycle before it that covers the hour has for it, and
/// with 0 where there is none.
pub fn begins_after()
    ensures after { BeginAfter }
    ensures first { BeginFromNothing }
{}

/// Two sides that have confirmed the same have the same changes.
pub fn shares_changes()
    ensures { ShareChanges }
{}
