ghost use Rattle.std.specs.Prelude.{◌≡◌, [], ◌∷◌, MatchResult};
ghost use Rattle.gi_table_commands.specs.Lines.{HasLines, HasNoLines};

use crate::fault::Fault;
use gi_text::split_line;

/// The two lines of an input that has exactly two: `Lines` for any other.
pub fn two_lines(input: &[u8]) -> Result<(&[u8], &[u8]), Fault>
    ensures { MatchResult result
        (λ parts. HasLines input.now parts.0.now parts.1.now)
        (λ fault. (fault ≡ Fault.Lines) × HasNoLines input.now) }
{
    let Some((first, rest)) = split_line(input) else {
        return Err(Fault::Lines);
    };
    let Some((second, rest)) = split_line(rest) else {
        return Err(Fault::Lines);
    };
    match split_line(rest) {
        None => Ok((first, second)),
        Some(_) => Err(Fault::Lines),
    }
}
