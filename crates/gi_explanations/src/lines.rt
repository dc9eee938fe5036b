//! The lines of a nomination that a quantity comes from, and their sums.

ghost use Rattle.std.specs.Prelude.{◌≡◌, ◌-◌, ◌≤◌, filter, length};
ghost use Rattle.std.specs.Option.{option_copied};
ghost use Rattle.gi_nominations.specs.Lines.{most_lines};
ghost use Rattle.gi_pairs.specs.Quantity.{IsQuantity};
ghost use Rattle.gi_processing.specs.Reduction.{in_direction, quantity_at};
ghost use Rattle.gi_explanations.specs.Sums.{group_for, is_counted, is_line, is_of_group, line_for as line_for_code, share_of, sum_over};

use gi_messages::NominationLine;
use gi_pairs::{Code, Direction};
use gi_processing::Rule;

/// Which counterparties are summed, beside a code.
#[derive(Clone, Copy)]
pub(crate) enum Span {
    /// Those before it.
    Before,
    /// Those before it, and it.
    UpTo,
    All,
}

impl Span {
    fn counts(self, code: Code, other: Code) -> bool
        ensures { result ≡ is_counted self code other }
    {
        match self {
            Span::Before => other.cmp(&code).is_lt(),
            Span::UpTo => other.cmp(&code).is_le(),
            Span::All => true,
        }
    }
}

/// Which lines of a direction are summed.
#[derive(Clone, Copy)]
pub(crate) enum Group {
    Whole,
    /// Those of a priority.
    Of(u8),
    /// Those of lower numbers.
    Before(u8),
}

impl Group {
    fn has(self, line: &NominationLine) -> bool
        ensures { result ≡ is_of_group self line.now }
    {
        match self {
            Group::Whole => true,
            Group::Of(priority) => line.priority == priority,
            Group::Before(priority) => line.priority < priority,
        }
    }

    /// Those that share by the rule with the line, where there is one.
    pub(crate) fn sharing(rule: Rule, line: Option<&NominationLine>) -> Group
        ensures { result ≡ group_for rule (option_copied line.entry) }
    {
        match (rule, line) {
            (Rule::Two, Some(line)) => Group::Of(line.priority),
            _ => Group::Whole,
        }
    }
}

fn is_for(line: &NominationLine, code: Code, direction: Direction) -> bool
    ensures { result ≡ is_line code direction line.now }
{
    line.counterparty == code && line.direction == direction
}

pub(crate) fn line_for(
    lines: &[NominationLine],
    code: Code,
    direction: Direction,
) -> Option<&NominationLine>
    ensures { option_copied result ≡ line_for_code code direction lines.now }
{
    lines.iter().find(|line| is_for(line, code, direction))
}

pub(crate) fn quantity(line: &NominationLine, hour: u8) -> u64
    ensures value { result ≡ quantity_at (hour - 1) line.now }
    ensures in_range { IsQuantity result }
{
    match line
        .hours
        .as_slice()
        .get(usize::from(hour.saturating_sub(1)))
    {
        Some(quantity) => quantity.value(),
        None => 0,
    }
}

fn share(
    line: &NominationLine,
    span: Span,
    group: Group,
    code: Code,
    direction: Direction,
    hour: u8,
) -> u64
    ensures value { result ≡ share_of span group code direction (hour - 1) line.now }
    ensures in_range { IsQuantity result }
{
    if line.direction != direction || !group.has(line) || !span.counts(code, line.counterparty) {
        return 0;
    }
    quantity(line, hour)
}

/// The sum, in the hour, of the quantities of those lines of the direction and the group whose
/// counterparties are counted.
pub(crate) fn sum(
    lines: &[NominationLine],
    span: Span,
    group: Group,
    code: Code,
    direction: Direction,
    hour: u8,
) -> u64
    requires few { length lines.now ≤ most_lines }
    ensures { result ≡ sum_over span code (hour - 1) (filter (is_of_group group) (in_direction direction lines.now)) }
{
    let mut sum = 0;
    for line in lines {
        sum += share(line, span, group, code, direction, hour);
    }
    sum
}
