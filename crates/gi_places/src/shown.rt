use std::fmt;

/// How many characters of a word are shown.
const MOST_SHOWN: usize = 40;

/// A word of an input as it is shown to a person: its front where it is long, and without what would steer a terminal.
#[derive(Clone, Copy)]
pub(crate) struct Shown<'a> {
    pub word: &'a str,
}

fn shown_as(character: char) -> char {
    if character.is_control() {
        '?'
    } else {
        character
    }
}

impl fmt::Display for Shown<'_> {
    fn fmt<W: fmt::Write>(&self, f: &mut fmt::Formatter<W>) -> fmt::Result {
        for (at, character) in self.word.chars().enumerate() {
            if at == MOST_SHOWN {
                return f.write_str("..");
            }
            f.write_char(shown_as(character))?;
        }
        Ok(())
    }
}
