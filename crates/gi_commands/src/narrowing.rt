//! To which gas day and portfolio words narrow a report.

ghost use Rattle.std.specs.Prelude.{◌≡◌, Err, IfErr, IfOk, option_map};
ghost use Rattle.gi_command_line.specs.Asked.{narrowing_words};
ghost use Rattle.gi_commands.specs.Fault.{no_code};
ghost use Rattle.gi_commands.specs.Narrowing.{HasNoPortfolio, IsNarrowingFault, IsNoDayNamed, IsPortfolio, NamesDay, NamesPortfolio, Narrows};

use crate::fault::Fault;
use gi_command_line::Narrowing;
use gi_day::{DayFault, GasDay};
use gi_pairs::Code;
use gi_schedule::Wanted;

fn portfolio_named(word: Option<&str>) -> Result<Option<Code>, Fault>
    ensures named { IfOk result (NamesPortfolio (option_map (λ s. s.now) word.entry)) }
    ensures known { IfOk result (λ _. IsPortfolio (option_map (λ s. s.now) word.entry)) }
    ensures fault { IfErr result (λ why. why ≡ no_code) }
    ensures code { HasNoPortfolio (option_map (λ s. s.now) word.entry) → result ≡ Err no_code }
    ensures none { IfErr result (λ _. HasNoPortfolio (option_map (λ s. s.now) word.entry)) }
{
    match word {
        Some(word) => Ok(Some(Code::read(word)?)),
        None => Ok(None),
    }
}

fn day_named(word: Option<&str>) -> Result<Option<GasDay>, DayFault>
    ensures named { IfOk result (NamesDay (option_map (λ s. s.now) word.entry)) }
    ensures fault { IfErr result (IsNoDayNamed (option_map (λ s. s.now) word.entry)) }
{
    match word {
        Some(word) => Ok(Some(GasDay::read(word)?)),
        None => Ok(None),
    }
}

/// What is wanted by the words. `Code` where the portfolio is none, then `Day` where the day is no gas
/// day.
pub(crate) fn wanted(words: Narrowing<'_>) -> Result<Wanted, Fault>
    ensures wanted { IfOk result (Narrows (narrowing_words words.entry)) }
    ensures fault { IfErr result (IsNarrowingFault (narrowing_words words.entry)) }
    ensures code { HasNoPortfolio (narrowing_words words.entry).portfolio → result ≡ Err no_code }
{
    let portfolio = portfolio_named(words.portfolio)?;
    match day_named(words.day) {
        Ok(day) => Ok(Wanted { day, portfolio }),
        Err(fault) => Err(Fault::Day(fault)),
    }
}
