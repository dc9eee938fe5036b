//! The desk of a book's facts.

ghost use Rattle.std.specs.Prelude.{◌≡◌, IfErr, IfOk, None};
ghost use Rattle.gi_desk.specs.Machine.{bad_fact};
ghost use Rattle.gi_commands.specs.Reporting.{IsFactsFault, desk_of};

use crate::fault::Fault;
use gi_day::Calendar;
use gi_desk::{Desk, Fact, Role};
use gi_pairs::Code;
use std::alloc::Global;

/// The desk of these facts. `BadFact` for the first that no desk of this side and point records
/// after those before it, and `OutOfMemory`.
pub fn replayed<R: Role>(alloc: Global, point: Code, facts: Vec<Fact>) -> Result<Desk<R>, Fault>
    ensures legal { IfOk result (λ desk. bad_fact R.SIDE point facts.items ≡ None) }
    ensures desk { IfOk result (λ desk. desk ≡ desk_of point facts.items) }
    ensures fault { IfErr result (IsFactsFault R.SIDE point facts.items) }
{
    Ok(Desk::<R>::replay(alloc, Calendar::new()?, point, facts)?)
}
