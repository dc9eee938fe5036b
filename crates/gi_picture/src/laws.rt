//! What holds of each picture of a day. These functions do nothing; their clauses are the laws.

ghost use Rattle.gi_picture.specs.Axis.{PrefixesDivide};
ghost use Rattle.gi_picture.specs.Clock.{EndsAsItBegins};
ghost use Rattle.gi_picture.specs.Escape.{WritesPlain};
ghost use Rattle.gi_picture.specs.Frame.{PlotsHoldAll};
ghost use Rattle.gi_picture.specs.Heights.{ChartsHoldTheDay, NetHoldsTheDay};
ghost use Rattle.gi_picture.specs.Names.{NamesKeepApart};
ghost use Rattle.gi_picture.specs.Quantities.{CutsAddUp};
ghost use Rattle.gi_picture.specs.Runs.{RunsAreLongest, RunsAreTheHours};
ghost use Rattle.gi_picture.specs.Scale.{AxesHoldAll};

/// An axis holds every value that it is made for.
pub fn axes_hold_all()
    ensures { AxesHoldAll }
{}

/// The merged runs of a day are its hours, and the longest that there are: each begins where the one
/// before it ends, and has another value.
pub fn runs_are_the_hours()
    ensures hours { RunsAreTheHours }
    ensures longest { RunsAreLongest }
{}

/// Labels of an axis are whole numbers.
pub fn prefixes_divide()
    ensures { PrefixesDivide }
{}

/// Escaped text begins and ends no tag.
pub fn writes_plain()
    ensures { WritesPlain }
{}

/// A gas day ends at the local time at which it begins.
pub fn ends_as_it_begins()
    ensures { EndsAsItBegins }
{}

/// Names at the ends of lines keep 19 apart, and stay within the plot, where there is room for them.
pub fn names_keep_apart()
    ensures { NamesKeepApart }
{}

/// What an axis holds stands in the plot, above the zero line or below it.
pub fn plots_hold_all()
    ensures { PlotsHoldAll }
{}

/// What own capacity cuts and what the peer cuts is all that is nominated and not in force.
pub fn cuts_add_up()
    ensures { CutsAddUp }
{}

/// Each line of the chart of a direction stands in its plot, in each hour of the day.
pub fn charts_hold_the_day()
    ensures { ChartsHoldTheDay }
{}

/// Each line of the chart of the net flow stands in its plot, in each hour of the day.
pub fn net_holds_the_day()
    ensures { NetHoldsTheDay }
{}
