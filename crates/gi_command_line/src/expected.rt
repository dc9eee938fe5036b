ghost use Rattle.std.specs.Prelude.{◌≡◌, option_map};
ghost use Rattle.gi_command_line.specs.Asked.{expected_words};
ghost use Rattle.gi_command_line.specs.Expected.{expected_named, is_digest as is_digest_by, is_hexadecimal as is_hexadecimal_by};

use crate::numbers::number_up_to;

/// The first facts that a book is expected to have: how many, and their digest.
#[derive(Clone, Copy, Debug, PartialEq, Eq)]
pub struct ExpectedFacts<'a> {
    /// From 0 to 1,000,000, the most that a book takes.
    pub facts: u32,
    /// 64 digits of `0` to `9` and `a` to `f`.
    pub digest: &'a str,
}

const MOST_FACTS: u32 = 1_000_000;

fn is_hexadecimal(byte: u8) -> bool
    ensures { result ≡ is_hexadecimal_by byte }
{
    matches!(byte, b'0'..=b'9' | b'a'..=b'f')
}

fn is_digest(text: &str) -> bool
    ensures { result ≡ is_digest_by text.now }
{
    text.len() == 64 && text.as_bytes().iter().all(|byte| is_hexadecimal(*byte))
}

impl<'a> ExpectedFacts<'a> {
    /// The facts that a word names: their number, with no sign and no zero in front, a colon and their
    /// digest.
    #[tactic(auto, unfolding(crate::specs::Expected::expected_named))]
    pub fn named(word: &'a str) -> Option<ExpectedFacts<'a>>
        ensures { option_map expected_words result ≡ expected_named word.now }
    {
        let (number, digest) = match word.split_once(':') {
            Some(parts) => parts,
            None => return None,
        };
        match number_up_to(MOST_FACTS, number) {
            Some(facts) if is_digest(digest) => Some(ExpectedFacts { facts, digest }),
            _ => None,
        }
    }
}
