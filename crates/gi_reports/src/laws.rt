//! What holds of all counts of refused submissions. These functions do nothing; their clauses are
//! the laws.

ghost use Rattle.gi_reports.specs.Laws.{CountsEachOnce, KeepsFirstPlaces};

/// No element is counted twice; those counted are the elements of the list, and no other.
pub fn counts_each_once()
    ensures { CountsEachOnce }
{}

/// One stands before another exactly where its first place in the list is before the other's.
pub fn keeps_first_places()
    ensures { KeepsFirstPlaces }
{}
