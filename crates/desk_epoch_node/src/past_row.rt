//! What an epoch keeps of a client of past epochs.

use desk_types::RequestNumber;

/// The number and the place of a client's latest entry in past epochs. The place is counted from the first entry of all
/// epochs.
#[derive(Clone, Copy)]
pub struct PastRow {
    pub number: RequestNumber,
    pub place: u64,
}
