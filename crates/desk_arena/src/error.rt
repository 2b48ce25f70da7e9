//! Why an arena is not made, or takes nothing more.

use std::alloc::AllocError;

/// The allocator refused memory.
#[derive(Clone, Copy, Debug, PartialEq, Eq)]
pub struct WantOfMemory;

impl From<AllocError> for WantOfMemory {
    fn from(_refused: AllocError) -> WantOfMemory {
        WantOfMemory
    }
}

/// What was pushed would take the arena past its capacity.
#[derive(Clone, Copy, Debug, PartialEq, Eq)]
pub struct Full;
