ghost use Rattle.gi_script.specs.Grammar.{IsRuleWord};
ghost use Rattle.gi_script.specs.Reading.{Finds};

use gi_processing::Rule;

/// The rule that a word names: `1` or `2`.
pub fn rule_named(text: &str) -> Option<Rule>
    ensures { Finds (IsRuleWord text.now) result }
{
    match text {
        "1" => Some(Rule::One),
        "2" => Some(Rule::Two),
        _ => None,
    }
}
