//! Why bytes gave no value.

ghost use Rattle.std.specs.Prelude.{◌≡◌};
ghost use Rattle.desk_codec.specs.Faults.{fault_of};

use desk_types::{Refusal, WantOfMemory};
use std::fmt;
use thiserror::Error;

/// Why bytes gave no field of a spelling.
#[derive(Clone, Copy, Debug, PartialEq, Eq)]
pub(crate) enum SpellingFault {
    /// They begin with no such field.
    NoSpelling,
    /// The allocator refused memory.
    NoMemory,
}

impl From<WantOfMemory> for SpellingFault {
    ghost use Rattle.std.specs.Prelude.{◌≡◌};
    ghost use Rattle.desk_codec.specs.declared.fault.SpellingFault.TheVariants.{NoMemory};

    ghost from_gives = { λ _ fault. fault ≡ NoMemory };

    fn from(_refused: WantOfMemory) -> SpellingFault {
        SpellingFault::NoMemory
    }
}

/// The fault of a field whose value was refused.
pub(crate) fn fault_of_refusal(refusal: Refusal) -> SpellingFault
    ensures { result ≡ fault_of refusal }
{
    if refusal.is_want_of_memory() {
        SpellingFault::NoMemory
    } else {
        SpellingFault::NoSpelling
    }
}

/// Why bytes that are still coming begin with no whole value.
#[derive(Clone, Copy, Debug, PartialEq, Eq)]
pub enum Lack {
    /// More bytes are needed.
    Needs,
    /// However they go on, no value begins so.
    NoSpelling,
}

/// Why bytes gave no value: `FrameFault` where they are no spelling, `WantOfMemory` where the allocator refused memory.
#[derive(Drop, Error)]
#[error("{} {}", .refusal.number(), .refusal.name())]
pub struct FrameFault {
    pub refusal: Refusal,
}

impl fmt::Debug for FrameFault {
    fn fmt<W: fmt::Write>(&self, f: &mut fmt::Formatter<W>) -> fmt::Result {
        f.write_str(self.refusal.name())
    }
}

impl From<SpellingFault> for FrameFault {
    ghost use Rattle.std.specs.Prelude.{◌≡◌};
    ghost use Rattle.desk_codec.specs.Faults.{refusal_of};

    ghost from_gives = { λ fault e. e.refusal ≡ refusal_of fault };

    fn from(fault: SpellingFault) -> FrameFault {
        let refusal = match fault {
            SpellingFault::NoSpelling => Refusal::FrameFault,
            SpellingFault::NoMemory => Refusal::WantOfMemory,
        };
        FrameFault { refusal }
    }
}
