//! The limits of a replica.

/// So many ticks go by before a replica asks for a log again.
pub const ASK_TICKS: u64 = 50;

/// So many ticks go by before a replica tells the same node a past log again. They are fewer than that node waits
/// between two asks, so that none is in vain because it came a little early.
pub const TELL_TICKS: u64 = 40;

/// So many ticks a token counts as heard that a node said where it asked. It is twice as long as a node waits between
/// two asks, so that one of these may be lost.
pub const HEARD_TICKS: u64 = 100;

/// So many requests are held for the next epoch, at most: one for each session of a node.
pub const DEFERRED_REQUESTS: usize = 8;
