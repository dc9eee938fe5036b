//! What holds of all pages. These functions do nothing; their clauses are the laws.

ghost use Rattle.gi_page.specs.Laws.{ListsEachConfirmed, ListsEachFrozen, ListsEachOnce, ShowsWhatIsInForce, SumsTheDay, SumsTheRows, SumsTheSchedule, TellsTheSchedule};

/// What is in force for a pair in an hour, and of all pairs together, is what the schedule says; so is
/// the sum over the pairs and directions of the page.
pub fn tells_the_schedule()
    ensures pairs { TellsTheSchedule }
    ensures sums { SumsTheSchedule }
    ensures day { SumsTheDay }
{}

/// The sums of an hour are those of what the rows show.
pub fn sums_the_rows()
    ensures { SumsTheRows }
{}

/// An hour stands with the cycle in force for it; where there is none, with the last closed one that
/// covers it.
pub fn shows_what_is_in_force()
    ensures { ShowsWhatIsInForce }
{}

/// Each pair and direction for which a closed or a confirmed cycle of the day has a row is listed, in
/// table order, once.
pub fn lists_each_row()
    ensures frozen { ListsEachFrozen }
    ensures confirmed { ListsEachConfirmed }
    ensures once { ListsEachOnce }
{}
