//! What the two rules come to. These functions do nothing; their clauses are the laws.

ghost use Rattle.gi_processing.specs.Laws.{HigherTakeNothing, RulesAgree, WholeWhereAllFit};

/// By rule 2 no line gets less, or more, because of one with a higher number.
pub fn higher_take_nothing()
    ensures { HigherTakeNothing }
{}

/// Where all lines have one priority, the two rules agree.
pub fn rules_agree()
    ensures { RulesAgree }
{}

/// Where all lines fit, each has its quantity, by either rule.
pub fn whole_where_all_fit()
    ensures { WholeWhereAllFit }
{}
