//! Where a step is told, which has to be saved before.

ghost use Rattle.std.specs.Prelude.{◌≡◌, ◌⊎◌, ◌+◌, ◌<◌, ◌^◌, IfErr, List, OnOk, Option, drop, length, ℕ};
ghost use Rattle.std.specs.Io.KnownBytes.{Appends};
ghost use Rattle.gi_live.specs.Telling.{step_text as step_text_of};

use crate::came::Came;
use crate::live_fault::LiveFault;
use crate::marks::Marks;
use crate::telling::step_text;
use crate::writing::write;
use gi_office::Note;
use std::alloc::Global;
use std::io::Write;

/// What takes the text of a step, and nothing else: whoever has no more than this writes only what [`Marks`] let him, and so nothing
/// of a fact before it is saved.
pub(crate) trait Outlet {
    ghost use Rattle.std.specs.Prelude.{◌≡◌, ◌⊎◌, ◌+◌, ◌<◌, ◌^◌, IfErr, List, OnOk, Option, drop, length, ℕ};
    ghost use Rattle.std.specs.Io.KnownBytes.{Appends};
    ghost use Rattle.gi_live.specs.Telling.{step_text};
    ghost use Rattle.gi_live.specs.declared.live_fault.LiveFault.TheVariants as faults;

    /// What was written, where that is known.
    ghost told: { Self → Option (List ℕ) };

    /// Tells what came of lines, from this number on, as far as it may be told by how many facts are saved, and what the marks among
    /// these notes let out. `OutOfMemory`, where nothing is written, and `Write`.
    fn tell(
        &mut self,
        alloc: Global,
        line: u64,
        cames: &[Came],
        marks: &Marks,
        notes: &[Note],
    ) -> Result<(), LiveFault>
        requires { line + length cames.now < 2 ^ 64 }
        ensures written { OnOk result (Appends (told self.old) (told self.new) (step_text marks.now.saved line cames.now (drop marks.now.noted notes.now))) }
        ensures fault { IfErr result (λ fault. (fault ≡ faults.Write) ⊎ ((fault ≡ faults.OutOfMemory) × (self.new ≡ self.old))) };
}

impl<O: Write> Outlet for O {
    ghost told = { λ output. O.contents output };

    fn tell(
        &mut self,
        alloc: Global,
        line: u64,
        cames: &[Came],
        marks: &Marks,
        notes: &[Note],
    ) -> Result<(), LiveFault> {
        match step_text(alloc, marks.saved(), line, cames, marks.of(notes)) {
            Ok(text) => write(self, &text),
            Err(_) => Err(LiveFault::OutOfMemory),
        }
    }
}
