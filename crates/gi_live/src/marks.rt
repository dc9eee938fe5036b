//! The saving of what a step recorded, and what is known of it then.

ghost use Rattle.std.specs.Prelude.{◌≡◌, OnOk, drop, length};
ghost use Rattle.gi_serving.specs.Asking.{NotesMarks, NotesTurns};
ghost use Rattle.gi_serving.specs.Ending.{place_of};
ghost use Rattle.gi_live.specs.Running.{notes_since};
ghost use Rattle.gi_live.specs.Telling.{saved_by as saved_by_of};

use crate::telling::saved_by;
use gi_desk::Role;
use gi_office::{Note, Office, SaveFault, Seat};
use gi_serving::{Turns, saved_all};
use std::sync::Wait;
use std::sync::ledger::Ledger;

/// That turns were made until nothing was left to save, or one failed: how many facts are saved, and how many notes the seat had
/// before. [`saved_now`] alone makes it, so who holds one has saved before.
#[derive(Drop)]
pub(crate) struct Marks {
    saved: u32,
    noted: usize,
}

impl Marks {
    /// How many facts are saved.
    pub(crate) fn saved(&self) -> u32
        ensures { result ≡ self.now.saved }
    {
        self.saved
    }

    /// The marks among the seat's notes.
    pub(crate) fn of<'a>(&self, notes: &'a [Note]) -> &'a [Note]
        ensures { result.now ≡ drop self.now.noted notes.now }
    {
        &notes[self.noted.min(notes.len())..]
    }
}

/// Saves all that is not saved, where so many facts were, and gives what is known of it.
pub(crate) fn saved_now<R: Role, L: Ledger, B: Turns, W: Wait>(
    rt: &W,
    office: &Office<R, L>,
    book: &mut B,
    seat: Seat<L>,
    saved: u32,
) -> (Seat<L>, Marks, Result<(), SaveFault>)
    ensures place { place_of result.0 ≡ place_of seat }
    ensures saved { result.1.saved ≡ saved_by_of saved (notes_since seat result.0) }
    ensures noted { result.1.noted ≡ length seat.notes }
    ensures marks { OnOk result.2 (NotesMarks seat result.0) }
    ensures notes { NotesTurns seat result.0 }
{
    let noted = seat.notes().len();
    let (seat, end) = saved_all(rt, office, book, seat);
    let marks = &seat.notes()[noted.min(seat.notes().len())..];
    let saved = saved_by(saved, marks);
    (seat, Marks { saved, noted }, end)
}
