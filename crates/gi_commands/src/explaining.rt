//! The quantity that the words of `explain` name.

ghost use Rattle.std.specs.Prelude.{◌≡◌, Err, IfErr, IfOk, IsOk};
ghost use Rattle.gi_command_line.specs.Asked.{quantity_words};
ghost use Rattle.gi_commands.specs.Explaining.{Asks, IsQuestionFault, NamesNoCodes};
ghost use Rattle.gi_commands.specs.Fault.{no_code};
ghost use Rattle.gi_explanations.specs.declared.question.Question.{Question as QuestionContents};

use crate::fault::Fault;
use gi_command_line::NamedQuantity;
use gi_day::GasDay;
use gi_explanations::Question;
use gi_pairs::{Code, CycleId, Pair};

/// The question that words ask. `Code` where a portfolio is none, then `Day` where the day is no
/// gas day.
pub(crate) fn question(words: NamedQuantity<'_>) -> Result<Question, Fault>
    ensures asked { IfOk result (Asks (quantity_words words.entry)) }
    ensures fault { IfErr result (IsQuestionFault (quantity_words words.entry)) }
    ensures code { NamesNoCodes (quantity_words words.entry) → result ≡ Err no_code }
    ensures read { (q : QuestionContents) → Asks (quantity_words words.entry) q → IsOk result }
{
    let initiating = Code::read(words.initiating)?;
    let matching = Code::read(words.matching)?;
    let day = match GasDay::read(words.day) {
        Ok(day) => day,
        Err(fault) => return Err(Fault::Day(fault)),
    };
    Ok(Question {
        pair: Pair {
            initiating,
            matching,
        },
        direction: words.direction,
        id: CycleId {
            day,
            cycle: words.cycle,
        },
        hour: words.hour,
    })
}
