//! What holds of all schedules. These functions do nothing; their clauses are the laws.

ghost use Rattle.gi_schedule.specs.Laws.{ListsEachHour, ListsEachHourOnce, ListsEachPair, ListsEachPairOnce, ListsWhatIsInForce, SaysWhatWasCut, SharesSchedules};

use gi_explanations::{explains_the_confirmed, explains_the_frozen};

/// A schedule lists an hour with the cycle that is in force for it; it lists each such hour, in order,
/// once, and each pair and direction for which a confirmed cycle of the gas day has a row, in table
/// order, once.
pub fn lists_what_is_in_force()
    ensures in_force { ListsWhatIsInForce }
    ensures hours { ListsEachHour }
    ensures hours_once { ListsEachHourOnce }
    ensures pairs { ListsEachPair }
    ensures pairs_once { ListsEachPairOnce }
{}

/// Two sides that have confirmed the same have the same schedule, whatever else they have closed.
pub fn shares_schedules()
    ensures { SharesSchedules }
{}

/// What was nominated less what is confirmed is what a side's own capacity and the other operator are
/// said to have cut, in every hour that is listed.
pub fn says_what_was_cut()
    ensures { SaysWhatWasCut }
{
    explains_the_frozen();
    explains_the_confirmed();
}
