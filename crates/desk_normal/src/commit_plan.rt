//! What the primary is going to do with an acknowledgement.

use desk_log::Sending;

/// What the primary is going to do with an acknowledgement: its new commit, whether it takes the acknowledgement in,
/// and what it sends and answers.
#[derive(Drop)]
pub struct CommitPlan {
    pub commit: u64,
    pub acknowledged: bool,
    pub sending: Sending,
}
