//! Why a node gave no reply.

use desk_types::WantOfMemory;
use std::alloc::AllocError;

/// Why a node gave no reply.
#[derive(Drop)]
pub enum NodeFault {
    /// Memory was refused.
    WantOfMemory,
    /// The node takes no bytes, or gives no reply line.
    Broken,
}

impl From<WantOfMemory> for NodeFault {
    ghost use Rattle.std.specs.Prelude.{◌≡◌};
    ghost use Rattle.desk_send.specs.declared.fault.NodeFault.TheVariants as faults;

    ghost from_gives = { λ _ fault. fault ≡ faults.WantOfMemory };

    fn from(_refused: WantOfMemory) -> NodeFault {
        NodeFault::WantOfMemory
    }
}

impl From<AllocError> for NodeFault {
    ghost use Rattle.std.specs.Prelude.{◌≡◌};
    ghost use Rattle.desk_send.specs.declared.fault.NodeFault.TheVariants as faults;

    ghost from_gives = { λ _ fault. fault ≡ faults.WantOfMemory };

    fn from(_refused: AllocError) -> NodeFault {
        NodeFault::WantOfMemory
    }
}
