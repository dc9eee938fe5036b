//! What holds of all runs. These functions do nothing; their clauses are the laws.

ghost use Rattle.gi_simulation.specs.Laws.{PlainIsTheStep, TraceFollowsItsStep, TraceIsIndented};
ghost use Rattle.gi_simulation.specs.OnItsWay.{OnlySentEverWaits, WhatIsCarriedIsDelivered, WhatWasSentIsDelivered};

/// Where only what the other side let out is on its way to a side, what the carrier gives next is
/// delivered; and so it is in every run of a new simulation.
pub fn what_is_carried_is_delivered()
    ensures sent { WhatWasSentIsDelivered }
    ensures waits { OnlySentEverWaits }
    ensures delivered { WhatIsCarriedIsDelivered }
{}

/// Without a trace a turn prints the line of its step alone; with one the same line, and then the
/// trace, each piece of which begins with two spaces and ends with a line feed.
pub fn a_trace_follows_its_step()
    ensures plain { PlainIsTheStep }
    ensures follows { TraceFollowsItsStep }
    ensures indented { TraceIsIndented }
{}
