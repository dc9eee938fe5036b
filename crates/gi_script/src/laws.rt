//! What holds of all scripts, and of all requests. These functions do nothing; their clauses are the laws.

ghost use Rattle.gi_script.specs.Laws.{IsOneInstruction, IsOneOfficeScript, IsOneRequest, IsOneScript};

/// A line spells one instruction at most.
pub fn one_instruction()
    ensures { IsOneInstruction }
{}

/// A line asks for one call at most.
pub fn one_request()
    ensures { IsOneRequest }
{}

/// Bytes are one script at most.
pub fn one_script()
    ensures { IsOneScript }
{}

/// Bytes are one script of a running office at most.
pub fn one_office_script()
    ensures { IsOneOfficeScript }
{}
