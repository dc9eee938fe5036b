//! What holds of all lessers. These functions do nothing; their clauses are the laws.

ghost use Rattle.gi_lesser.specs.Laws.{AddsNoRows, LessensBothWays};

/// The lesser of two tables does not depend on which comes first.
pub fn lessens_both_ways()
    ensures { LessensBothWays }
{}

/// For any keys, as for those of one portfolio, the lesser has at most as many rows as both tables
/// together.
pub fn adds_no_rows()
    ensures { AddsNoRows }
{}
