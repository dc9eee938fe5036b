//! What is wrong with a word of the command line.

use crate::place::Place;
use crate::wanted::Wanted;

/// A word of the command line, and what it has to be.
pub type Meant<'a> = (Option<&'a str>, Wanted);

/// The first of the words that is not what it has to be.
pub(crate) fn wrong_word<'a>(words: [Meant<'a>; 4]) -> Option<Place<'a>> {
    for (word, wanted) in words {
        if let Some(word) = word {
            if !wanted.fits(word) {
                return Some(Place::Word(word, wanted));
            }
        }
    }
    None
}
