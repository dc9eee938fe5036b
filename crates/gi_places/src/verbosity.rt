//! `--verbose`, before the words of a command.

ghost use Rattle.std.specs.Prelude.{◌≡◌, ◌<◌, IsTrue, length, map, string_bytes};
ghost use Rattle.gi_places.specs.Verbosity.{asks_verbose as asks_verbose_by, command_words};

use std::convert::AsStr;

fn asks_verbose<S: AsStr>(words: &[S]) -> bool
    ensures asked { result ≡ asks_verbose_by (map S.text words.now) }
    ensures behind { IsTrue result → 1 < length words.now }
{
    match words {
        [_, option, ..] => option.as_str() == "--verbose",
        _ => false,
    }
}

/// Takes `--verbose` from the words of a command line, where it is the first behind the program's own name, and answers whether it was.
#[tactic(auto, using(crate::proofs::WordsBehind::taken, crate::proofs::WordsBehind::kept))]
pub fn take_verbose(words: &mut Vec<String>) -> bool
    ensures asked { result ≡ asks_verbose_by (map string_bytes words.old.items) }
    ensures words { map string_bytes words.new.items ≡ command_words (map string_bytes words.old.items) }
{
    let is_verbose = asks_verbose(words.as_slice());
    if is_verbose {
        let option = words.remove(1);
        drop(option);
    }
    is_verbose
}
