//! What came of a step, in a word.

ghost use Rattle.std.specs.Prelude.{◌≡◌};
ghost use Rattle.gi_serving.specs.Words.{word_of, word_of_call};

use gi_desk::{Answer, Refusal};
use gi_office::{OfficeFault, Receipt};
use std::fmt;

/// What came of a step, without numbers of facts and packets.
#[derive(Clone, Copy, Debug, PartialEq, Eq)]
pub enum Word {
    /// The call is recorded.
    Recorded,
    /// The call repeats what is recorded.
    Repeat,
    /// A part of the peer's order or response is kept.
    Kept,
    /// A fact is saved.
    Saved,
    /// What a cycle let out is let out again.
    Resent,
    /// The desk is halted.
    Stopped,
    /// The carrier gave nothing.
    Nothing,
    /// The desk refused it.
    Refused(Refusal),
    /// The seat is full, or it was before what was left undone.
    SeatFull,
}

impl fmt::Display for Word {
    ghost use Rattle.std.specs.Prelude.{Some};
    ghost use Rattle.gi_serving.specs.Words.{word_text};

    ghost output = { λ word. Some (word_text word) };

    fn fmt<W: fmt::Write>(&self, f: &mut fmt::Formatter<W>) -> fmt::Result {
        f.write_str(match self {
            Word::Recorded => "recorded",
            Word::Repeat => "repeat",
            Word::Kept => "kept",
            Word::Saved => "saved",
            Word::Resent => "resent",
            Word::Stopped => "stopped",
            Word::Nothing => "nothing",
            Word::Refused(refusal) => return write!(f, "refused {refusal}"),
            Word::SeatFull => "refused SeatFull",
        })
    }
}

impl Word {
    pub(crate) fn of(answer: &Answer) -> Word
        ensures { result ≡ word_of answer.now }
    {
        match answer {
            Answer::Recorded { .. } => Word::Recorded,
            Answer::Repeat { .. } => Word::Repeat,
            Answer::Kept { .. } => Word::Kept,
            Answer::Saved { .. } => Word::Saved,
            Answer::Resent => Word::Resent,
            Answer::Stopped => Word::Stopped,
            Answer::Refused(refusal) => Word::Refused(*refusal),
        }
    }

    /// `None` for want of memory, which has no word.
    pub(crate) fn of_call(answer: Result<Receipt, OfficeFault>) -> Option<Word>
        ensures { result ≡ word_of_call answer }
    {
        match answer {
            Ok(receipt) => Some(Word::of(&receipt.reply.answer)),
            Err(OfficeFault::SeatFull) => Some(Word::SeatFull),
            Err(OfficeFault::OutOfMemory) => None,
        }
    }
}
