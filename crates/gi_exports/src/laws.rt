//! What the reports have in common with those in text. These functions do nothing; their clauses
//! are the laws.

ghost use Rattle.gi_exports.specs.Laws.{ListsConfirmed, ListsOpen};

/// `confirmed_report` has a line for each hour that `confirmed_csv` and `confirmed_json` write, in
/// the same order.
pub fn lists_confirmed()
    ensures { ListsConfirmed }
{}

/// `open_report` has a line for each cycle that `open_csv` and `open_json` write, in the same order.
pub fn lists_open()
    ensures { ListsOpen }
{}
