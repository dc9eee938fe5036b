ghost use Rattle.std.specs.Prelude.{◌≡◌};

use std::alloc::AllocError;
use std::error::Error;
use std::fmt;

/// Why a step is refused. It leaves the world as it was.
#[derive(Clone, Copy, Debug, PartialEq, Eq)]
pub enum WorldFault {
    /// A delivery as a local call: only what the other side let out is delivered.
    NotLocal,
    /// The other side let out no packet of that number to its peer.
    NoSuchPacket,
    /// The restart keeps fewer facts than are saved.
    KeepsTooFew { saved: u32 },
    /// The restart keeps more facts than there are.
    KeepsTooMany { len: u32 },
    /// Memory ran out.
    OutOfMemory,
}

impl From<AllocError> for WorldFault {
    ghost use Rattle.gi_world.specs.declared.world_fault.WorldFault.TheVariants.{OutOfMemory};

    ghost from_gives = { λ _ e. e ≡ OutOfMemory };

    fn from(_refused: AllocError) -> WorldFault {
        WorldFault::OutOfMemory
    }
}

impl fmt::Display for WorldFault {
    ghost use Rattle.std.specs.Prelude.{Some};
    ghost use Rattle.gi_world.specs.FaultText.{world_fault_text};

    ghost output = { λ fault. Some (world_fault_text fault) };

    fn fmt<W: fmt::Write>(&self, f: &mut fmt::Formatter<W>) -> fmt::Result {
        f.write_str(match self {
            WorldFault::NotLocal => "NotLocal",
            WorldFault::NoSuchPacket => "NoSuchPacket",
            WorldFault::KeepsTooFew { saved } => return write!(f, "KeepsTooFew {saved}"),
            WorldFault::KeepsTooMany { len } => return write!(f, "KeepsTooMany {len}"),
            WorldFault::OutOfMemory => "OutOfMemory",
        })
    }
}

impl Error for WorldFault {}
