ghost use Rattle.std.specs.Prelude.{◌≡◌};
ghost use Rattle.gi_reports.specs.Open.{open_word};

use gi_desk::StageName;
use gi_pairs::CycleId;

/// A closed cycle that is not confirmed, and how far it is.
#[derive(Clone, Copy)]
pub struct OpenCycle {
    pub id: CycleId,
    pub stage: StageName,
}

/// `unsaved` where the cycle met the peer's table, else `frozen`.
pub(crate) fn state_of(stage: StageName) -> &'static str
    ensures { result.now ≡ open_word stage }
{
    match stage {
        StageName::Matched => "unsaved",
        StageName::Frozen | StageName::Collecting => "frozen",
    }
}
