//! What holds of every book. The functions do nothing; their clauses are the laws.

ghost use Rattle.gi_store.specs.Laws.{MemoryIsClean, MemoryNeverFails};

/// The premise of the clauses on books, that nobody else writes the database and that the disk
/// returns what was written, always holds in memory.
pub fn memory_is_clean()
    ensures { MemoryIsClean }
{}

/// No disk lies under memory, so none fails there, and none shuts an open connection. Of the causes of
/// `Store` (`FailsToRead`, `IsLoadCaused`) a limit on the steps of queries is left, and what no table
/// of SQLite's has: the tree of another one, or a row without a whole number or without a body.
pub fn memory_never_fails()
    ensures { MemoryNeverFails }
{}
