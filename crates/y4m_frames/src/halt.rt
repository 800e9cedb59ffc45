//! Why a reader of a frame file stops.
ghost use Rattle.std.specs.Prelude.{◌≡◌};
ghost use Rattle.y4m_frames.specs.declared.halt.Halt.TheVariants as halts;

use mv_ends::Failed;
use mv_terms::{FrameFault, NoMemory};
use std::alloc::AllocError;

/// Why a reader of a frame file gives no frame.
#[derive(Clone, Copy, Debug, PartialEq, Eq)]
pub enum Halt {
    /// The file is refused.
    Fault(FrameFault),
    /// The shelf couldn't be read.
    Read,
    /// There was no memory.
    NoMemory,
}

impl From<Failed> for Halt {
    ghost from_gives = { λ _ halt. halt ≡ halts.Read };

    fn from(_failed: Failed) -> Halt {
        Halt::Read
    }
}

impl From<FrameFault> for Halt {
    ghost from_gives = { λ fault halt. halt ≡ halts.Fault fault };

    fn from(fault: FrameFault) -> Halt {
        Halt::Fault(fault)
    }
}

impl From<NoMemory> for Halt {
    ghost from_gives = { λ _ halt. halt ≡ halts.NoMemory };

    fn from(_none: NoMemory) -> Halt {
        Halt::NoMemory
    }
}

impl From<AllocError> for Halt {
    ghost from_gives = { λ _ halt. halt ≡ halts.NoMemory };

    fn from(_none: AllocError) -> Halt {
        Halt::NoMemory
    }
}
