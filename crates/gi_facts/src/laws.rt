//! What holds of all facts. These functions do nothing; their clauses are the laws.

ghost use Rattle.gi_facts.specs.Laws.{BatchIsFew, BatchRoundTrips, IsOneFact, IsText, IsWritableExactly, ReadsSpelling, RoundTrips, SameFactsAreEqual, WritesFact};

/// A JSON value stands for one fact at most.
pub fn one_fact()
    ensures { IsOneFact }
{}

/// Bytes are read as the fact that they spell, and as no other.
pub fn reads_fact()
    ensures { ReadsSpelling }
{}

/// A fact is writable exactly where its point, portfolio and counterparties are codes, its day a gas
/// day, its version from 1 to 999,999,999, the priorities of its lines from 1 to 9, its cycle from 0
/// to 36, its quantities and per-mille numbers in range, its hours 1 <= first <= last <= 25, and
/// where its table has at most 4,096 rows. A closing may name either rule.
pub fn fact_writable_exactly()
    ensures { IsWritableExactly }
{}

/// What is written for a fact stands for it.
pub fn writes_fact()
    ensures { WritesFact }
{}

/// A fact that is written is read back, whatever the length of its text.
pub fn fact_round_trip()
    ensures { RoundTrips }
{}

/// What is written for a fact is UTF-8 text.
pub fn fact_is_text()
    ensures { IsText }
{}

/// Facts are the same exactly where they are equal.
pub fn same_facts_are_equal()
    ensures { SameFactsAreEqual }
{}

/// From 1 to 64 facts that are written as one text are read back, in their order.
pub fn batch_round_trip()
    ensures { BatchRoundTrips }
{}

/// What is read as facts are from 1 to 64.
pub fn batch_is_few()
    ensures { BatchIsFew }
{}
