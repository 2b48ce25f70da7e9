//! What a node offers for a view.

use desk_log::Log;

/// What a node offers to the primary of a view: its log and its commit, and the last view in which it was normal.
#[derive(Drop)]
pub struct Offer {
    pub normal: u64,
    pub commit: u64,
    pub log: Log,
}
