//! The limits of a keeper.

/// So many ticks after its request a session that has no answer gets `Waiting`, to ask again.
pub const WAITING_TICKS: u64 = 50;
