ghost use Rattle.std.specs.Prelude.{◌≡◌, ◌∷◌, ◌↔◌, [], IsTrue, MatchOption};
ghost use Rattle.gi_pairs.specs.Quantity.{most_quantity};
ghost use Rattle.gi_script.specs.Grammar.{IsCodeWord, IsDayWord, IsDirectionWord, IsRuleWord, IsSideWord, IsVerbWord};
ghost use Rattle.gi_script.specs.Numbers.{IsNumber, IsCount, most_byte, most_permille, most_number};
ghost use Rattle.gi_script.specs.Reading.{Takes};
ghost use Rattle.gi_script.specs.Words.{words_of};

use crate::number::number;
use crate::rule_text::rule_named;
use crate::verb::{Verb, verb_named};
use gi_day::GasDay;
use gi_pairs::{Code, Direction, Quantity, Side};
use gi_processing::Rule;
use std::marker::Model;

/// The words of a line that are still to be read: the text that has them, or nothing after the last.
#[derive(Drop)]
pub struct Words<'a> {
    rest: Option<&'a str>,
}

impl<'a> Model for Words<'a> {
    ghost use Rattle.std.specs.Prelude.{List, ℕ};

    ghost Value = { List (List ℕ) };

    ghost use Rattle.gi_script.specs.WordsRepr.{words_left};

    ghost view = { λ w. words_left w.rest };
}

impl<'a> Words<'a> {
    /// The words of a line.
    pub fn of(line: &'a str) -> Words<'a>
        ensures { result ≡ words_of line.now }
    {
        Words { rest: Some(line) }
    }

    /// The next word.
    pub fn next(&mut self) -> Option<&'a str>
        ensures { MatchOption result ((self.old ≡ []) × (self.new ≡ [])) (λ word. self.old ≡ word.now ∷ self.new) }
    {
        let rest = self.rest?;
        match rest.split_once(' ') {
            Some((word, rest)) => {
                self.rest = Some(rest);
                Some(word)
            }
            None => {
                self.rest = None;
                Some(rest)
            }
        }
    }

    /// Whether no word is left.
    pub fn is_empty(&self) -> bool
        ensures { IsTrue result ↔ (self.now ≡ []) }
    {
        self.rest.is_none()
    }

    /// The text of the words that are left, with its spaces.
    pub fn text(self) -> Option<&'a str>
        ensures { MatchOption result (self.entry ≡ []) (λ text. self.entry ≡ words_of text.now) }
    {
        self.rest
    }

    /// A code.
    pub fn code(&mut self) -> Option<Code>
        ensures { Takes IsCodeWord self.old result self.new }
    {
        Code::read(self.next()?).ok()
    }

    /// A gas day.
    pub fn day(&mut self) -> Option<GasDay>
        ensures { Takes IsDayWord self.old result self.new }
    {
        GasDay::read(self.next()?).ok()
    }

    /// A side.
    pub fn side(&mut self) -> Option<Side>
        ensures { Takes IsSideWord self.old result self.new }
    {
        self.next()?.parse::<Side>().ok()
    }

    /// A verb.
    pub fn verb(&mut self) -> Option<Verb>
        ensures { Takes IsVerbWord self.old result self.new }
    {
        verb_named(self.next()?)
    }

    /// A direction.
    pub fn direction(&mut self) -> Option<Direction>
        ensures { Takes IsDirectionWord self.old result self.new }
    {
        self.next()?.parse::<Direction>().ok()
    }

    /// A rule: `1` or `2`.
    pub fn rule(&mut self) -> Option<Rule>
        ensures { Takes IsRuleWord self.old result self.new }
    {
        rule_named(self.next()?)
    }

    /// A quantity, in kWh/h.
    pub fn quantity(&mut self) -> Option<Quantity>
        ensures { Takes (IsNumber most_quantity) self.old result self.new }
    {
        Quantity::new(number(Quantity::MAX, self.next()?)?).ok()
    }

    /// A number from 0 to 255.
    pub fn byte(&mut self) -> Option<u8>
        ensures { Takes (IsNumber most_byte) self.old result self.new }
    {
        Some(number(255, self.next()?)? as u8)
    }

    /// A number from 0 to 65,535.
    pub fn permille(&mut self) -> Option<u16>
        ensures { Takes (IsNumber most_permille) self.old result self.new }
    {
        Some(number(65_535, self.next()?)? as u16)
    }

    /// A number from 0 to 4,294,967,295.
    pub fn number(&mut self) -> Option<u32>
        ensures { Takes (IsNumber most_number) self.old result self.new }
    {
        Some(number(4_294_967_295, self.next()?)? as u32)
    }

    /// A number from 1 to 1,000,000.
    pub fn count(&mut self) -> Option<u32>
        ensures { Takes IsCount self.old result self.new }
    {
        let count = number(1_000_000, self.next()?)?;
        if count == 0 {
            return None;
        }
        Some(count as u32)
    }
}
