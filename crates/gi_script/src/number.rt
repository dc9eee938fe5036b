ghost use Rattle.std.specs.Prelude.{◌≡◌, ◌≤◌};
ghost use Rattle.gi_script.specs.Numbers.{IsNumber};
ghost use Rattle.gi_script.specs.Reading.{Finds};

/// The number that the word's decimal digits write, where it is at most so great. Leading zeros are
/// digits; a sign is none.
pub fn number(most: u64, word: &str) -> Option<u64>
    ensures { Finds (IsNumber most word.now) result }
{
    // The parser also takes a plus.
    if word.as_bytes().first() == Some(&b'+') {
        return None;
    }
    match word.parse::<u64>() {
        Ok(number) if number <= most => Some(number),
        _ => None,
    }
}
