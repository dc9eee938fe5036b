//! Numbers, as words.

ghost use Rattle.std.specs.Prelude.{◌≡◌, ◌≤◌, IfSome};
ghost use Rattle.gi_command_line.specs.Numbers.{begins_right as begins_right_by, cycle_named as cycle_named_by, hour_named as hour_named_by, is_number as is_number_by, number_named as number_named_by, number_up_to as number_up_to_by, within as within_of};

/// The number that a word of one or two digits names.
fn number_named(word: &str) -> Option<u8>
    ensures { result ≡ number_named_by word.now }
{
    match word.as_bytes() {
        [ones @ b'0'..=b'9'] => Some(*ones - b'0'),
        [tens @ b'1'..=b'9', ones @ b'0'..=b'9'] => Some(10 * (*tens - b'0') + (*ones - b'0')),
        _ => None,
    }
}

fn within(first: u8, last: u8, number: Option<u8>) -> Option<u8>
    ensures { result ≡ within_of first last number }
{
    match number {
        Some(number) if first <= number && number <= last => Some(number),
        _ => None,
    }
}

/// The number of a cycle that a word names: 0 to 36, which is the last that any gas day has.
#[tactic(auto, unfolding(crate::specs::Numbers::cycle_named))]
pub(crate) fn cycle_named(word: &str) -> Option<u8>
    ensures { result ≡ cycle_named_by word.now }
{
    within(0, 36, number_named(word))
}

/// The number of an hour that a word names: 1 to 25.
#[tactic(auto, unfolding(crate::specs::Numbers::hour_named))]
pub(crate) fn hour_named(word: &str) -> Option<u8>
    ensures { result ≡ hour_named_by word.now }
{
    within(1, 25, number_named(word))
}

/// Whether there is a digit, and a zero in front stands alone.
fn begins_right(digits: &[u8]) -> bool
    ensures { result ≡ begins_right_by digits.now }
{
    match digits {
        [] => false,
        [_] => true,
        [first, _, ..] => *first != b'0',
    }
}

/// Whether a word is decimal digits, with no sign and no zero in front.
fn is_number(word: &[u8]) -> bool
    ensures { result ≡ is_number_by word.now }
{
    begins_right(word) && word.iter().all(|byte| byte.is_ascii_digit())
}

/// The number that a word writes in decimal digits, with no sign and no zero in front, where it is at
/// most so great.
pub(crate) fn number_up_to(most: u32, word: &str) -> Option<u32>
    ensures value { result ≡ number_up_to_by most word.now }
    ensures within { IfSome result (λ number. number ≤ most) }
{
    if !is_number(word.as_bytes()) {
        return None;
    }
    match word.parse::<u32>() {
        Ok(number) if number <= most => Some(number),
        _ => None,
    }
}
