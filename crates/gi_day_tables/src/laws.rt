//! What holds of all tables. These functions do nothing; their clauses are the laws.

ghost use Rattle.gi_day_tables.specs.FlowRuns.{FlowRunsAreLongest, FlowRunsAreTheHours};
ghost use Rattle.gi_day_tables.specs.Laws.{CountsEachGroup, LinesTellAll, NamesCutters, ShowsAllAsDrawn, ShowsGroups, SumsEachGroup, SumsWhatIsShown, TellsCuts};

/// A sum is that of what its column shows of the hours.
pub fn sums_what_is_shown()
    ensures { SumsWhatIsShown }
{}

/// A cut is what is nominated less what is in force, told as own and the peer's parts.
pub fn tells_cuts()
    ensures { TellsCuts }
{}

/// A line names who cut.
pub fn names_cutters()
    ensures { NamesCutters }
{}

/// The merged runs of a row are its hours, and the longest that there are: each begins with the hour
/// behind the one before it, and shows something else.
pub fn flow_runs_are_the_hours()
    ensures hours { FlowRunsAreTheHours }
    ensures longest { FlowRunsAreLongest }
{}

/// The lines of a group of cuts tell all that its head says: each its cut, in each of its hours.
pub fn lines_tell_all()
    ensures { LinesTellAll }
{}

/// The table by hour shows what the charts draw.
pub fn shows_all_as_drawn()
    ensures { ShowsAllAsDrawn }
{}

/// Each group of cuts is shown, or counted and summed in the foot.
pub fn counts_each_group()
    ensures count { CountsEachGroup }
    ensures sum { SumsEachGroup }
{}

/// As many groups of cuts are shown as have 100 lines together, where the first has no more.
pub fn shows_what_fits()
    ensures { ShowsGroups }
{}
