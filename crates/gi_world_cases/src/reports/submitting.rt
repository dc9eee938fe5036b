use gi_calls::Words;
use gi_pairs::Code;
use std::alloc::{AllocError, Global};

/// Submissions of one submitter, one after the other.
#[derive(Clone, Copy, Drop)]
struct Group {
    count: usize,
    who: Option<Code>,
}

impl Group {
    /// The submissions that a word names: `?` is one of nobody known, `A` one of A, `1000*A` 1,000.
    fn of(word: &str) -> Option<Group> {
        let (count, name) = match word.split_once('*') {
            Some((count, name)) => (count.parse::<usize>().ok()?, name),
            None => (1, word),
        };
        let who = match name {
            "?" => None,
            _ => Some(Code::read(name).ok()?),
        };
        Some(Group { count, who })
    }

    /// Adds the submitter as often as it stands there.
    fn add(&self, submitters: &mut Vec<Option<Code>>) -> Result<(), AllocError> {
        for _ in 0..self.count {
            submitters.push(self.who)?;
        }
        Ok(())
    }
}

/// The submitters that the words name.
pub fn submitters(
    alloc: Global,
    words: Words<'_>,
) -> Result<Option<Vec<Option<Code>>>, AllocError> {
    let mut submitters = Vec::new(alloc);
    if words.is_empty() {
        return Ok(Some(submitters));
    }
    for word in words.rest().split(' ') {
        let Some(group) = Group::of(word) else {
            return Ok(None);
        };
        group.add(&mut submitters)?;
    }
    Ok(Some(submitters))
}
