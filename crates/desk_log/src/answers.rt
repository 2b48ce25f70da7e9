//! What a rule of a node answers to clients.

use desk_types::{ClientId, Refusal, RequestNumber};

/// What a rule of a node answers to clients. Where a reply is due it names the place of the entry: the board has the
/// reply.
#[derive(Drop)]
pub enum Answers {
    /// No client is answered.
    Nothing,
    /// The replies to the entries after a place, up to another, in the order of places.
    Replies {
        after: u64,
        upto: u64,
    },
    /// The reply to the entry at a place, which its client was given before.
    Repeat {
        place: u64,
    },
    /// The refusal of the request that has just come, which is put into no log.
    Refusal {
        client: ClientId,
        number: RequestNumber,
        refusal: Refusal,
    },
}
