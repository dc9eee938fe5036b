ghost use Rattle.std.specs.Prelude.{◌≡◌};
ghost use Rattle.gi_script.specs.Script.{takes};

use crate::instruction::Instruction;

/// Which lines a script may have.
#[derive(Clone, Copy, Debug, PartialEq, Eq)]
pub(crate) enum Forms {
    /// Lines of all forms.
    All,
    /// Those that a running office takes.
    Office,
}

impl Forms {
    /// Whether an instruction has a line of these forms.
    pub fn take(self, instruction: &Instruction) -> bool
        ensures { result ≡ takes self instruction.now }
    {
        match self {
            Forms::All => true,
            Forms::Office => !matches!(
                instruction,
                Instruction::Save { .. } | Instruction::Deliver { .. } | Instruction::Restart { .. }
            ),
        }
    }
}
