//! What holds of all tables that go out in parts. These functions do nothing; their clauses are the
//! laws.

ghost use Rattle.gi_parts.specs.Laws.{CarriesAllRows, GathersInAnyOrder, GathersWhatWasSplit, SendsReadableParts};

/// The parts of a table, one after the other, have all of its rows, and no row twice.
pub fn carries_all_rows()
    ensures { CarriesAllRows }
{}

/// Each part in which an order or a response goes out can be read.
pub fn sends_readable_parts()
    ensures { SendsReadableParts }
{}

/// Where all that is kept of a cycle are parts of the same tables, no further one is refused, and
/// the last one missing gives exactly these tables.
pub fn gathers_what_was_split()
    ensures { GathersWhatWasSplit }
{}

/// Tables that were split are made again by their parts in any order, each at least once.
pub fn gathers_in_any_order()
    ensures { GathersInAnyOrder }
{}
