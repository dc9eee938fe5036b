//! What holds of all carriers. This function does nothing; its clauses are the law.

ghost use Rattle.gi_carrier.specs.Laws.{WhatComesOutWasSent, WhatWaitsWasSent};

/// Over any calls of a new carrier, what waits and what comes out was sent before.
pub fn what_comes_out_was_sent()
    ensures waits { WhatWaitsWasSent }
    ensures out { WhatComesOutWasSent }
{}
