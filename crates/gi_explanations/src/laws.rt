//! What holds of all explanations. These functions do nothing; their clauses are the laws.

ghost use Rattle.gi_explanations.specs.Laws.{ExplainsByFacts, ExplainsTheAvailable, ExplainsTheConfirmed, ExplainsTheFrozen, ExplainsTheLeft, ExplainsTheProcessed};

/// The processed quantity of a closed cycle is what its frozen table reads.
pub fn explains_the_frozen()
    ensures { ExplainsTheFrozen }
{}

/// The confirmed quantity is the lower of the processed one and the peer's.
pub fn explains_the_confirmed()
    ensures { ExplainsTheConfirmed }
{}

/// What is available, what is left, and the processed quantity are what the formulas make of the
/// numbers that are shown.
pub fn explains_the_reduction()
    ensures available { ExplainsTheAvailable }
    ensures left { ExplainsTheLeft }
    ensures processed { ExplainsTheProcessed }
{}

/// The numbers of facts that are shown are those of the facts that say it.
pub fn explains_by_facts()
    ensures { ExplainsByFacts }
{}
