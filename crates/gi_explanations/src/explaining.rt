ghost use Rattle.std.specs.Prelude.{◌≡◌, ◌≤◌, IfOk, string_bytes};
ghost use Rattle.gi_explanations.specs.Explanation.{explanation as explanation_of};

use crate::basis::{asked_line, basis_lines};
use crate::numbers::Numbers;
use crate::outcome::outcome_lines;
use crate::question::Question;
use crate::reduction::reduction_lines;
use gi_desk::{Desk, Role};
use std::alloc::{AllocError, Global};

/// What a quantity comes from, in twelve lines where the cycle is closed by rule 1, and in thirteen
/// elsewhere: what was asked; the nomination, the contract and the notice that count, each with the
/// number of its fact; what is available, what lines of lower numbers leave of it, the sums of what is
/// nominated, and the processed quantity by its formula; the closing, the peer's quantity and the
/// lower of both; whether that is confirmed, and whom it was told. The facts that count are those
/// before the cycle's closing, all where it is not closed.
pub fn explanation<R: Role>(
    alloc: Global,
    desk: &Desk<R>,
    question: &Question,
) -> Result<String, AllocError>
    ensures { IfOk result (λ text. string_bytes text ≡ explanation_of R.SIDE desk.now question.now) }
{
    let numbers = Numbers::of(desk, question);
    let asked = asked_line(alloc, R::SIDE, question)?;
    let basis = basis_lines(alloc, desk, question, &numbers)?;
    let reduction = reduction_lines(alloc, desk, question, &numbers)?;
    let outcome = outcome_lines(alloc, desk, question, &numbers)?;
    format!(in alloc; "{asked}{basis}{reduction}{outcome}")
}
