//! The limit of trees.

/// The number of each tree of a database is below this.
pub const TREES: u32 = 1 << 31;
