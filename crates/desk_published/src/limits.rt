//! The limit of a history.

/// A history has no more entries than this. No log comes near it.
pub const HISTORY_ENTRIES: u64 = 1 << 61;
