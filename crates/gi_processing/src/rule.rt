ghost use Rattle.std.specs.Prelude.{◌≡◌};
ghost use Rattle.gi_processing.specs.Rule.{rule_number, rule_numbered};

/// By which rule the lines of a portfolio share what is available to it.
#[derive(Clone, Copy, Debug, PartialEq, Eq)]
pub enum Rule {
    /// All lines alike, whatever their priorities.
    One,
    /// The lines of lower numbers first.
    Two,
}

impl Rule {
    /// The rule's number, 1 or 2.
    pub fn number(self) -> u8
        ensures { result ≡ rule_number self }
    {
        match self {
            Rule::One => 1,
            Rule::Two => 2,
        }
    }

    /// The rule of that number.
    pub fn numbered(number: u64) -> Option<Rule>
        ensures { result ≡ rule_numbered number }
    {
        match number {
            1 => Some(Rule::One),
            2 => Some(Rule::Two),
            _ => None,
        }
    }
}
