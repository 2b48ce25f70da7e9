//! What is asked of a node over epochs by what comes to it.

use desk_node::Event;
use desk_types::{ClientId, Entry, Items, Refusal, RequestNumber};

/// What is asked of a node over epochs by what comes to it.
#[derive(Drop)]
pub enum Deed {
    /// Nothing.
    Ignore,
    /// Its node of the epoch deals with an event.
    Own(Event),
    /// It answers that a request stands at a place of past logs.
    Answer {
        client: ClientId,
        number: RequestNumber,
        place: u64,
    },
    /// It refuses a request.
    Refuse {
        client: ClientId,
        number: RequestNumber,
        refusal: Refusal,
    },
    /// It keeps a request for the next epoch.
    Keep(Entry),
    /// It asks a node for what it lacks of its epoch.
    Ask {
        to: u8,
    },
    /// It asks all others for what it lacks of its epoch.
    AskAll,
    /// It tells a node the log of a past epoch, after a place.
    Tell {
        to: u8,
        epoch: u64,
        base: u64,
    },
    /// It takes the entries after a place of its log, which reach the end of its epoch, and begins the next.
    Take {
        base: u64,
        entries: Items<Entry>,
    },
    /// Nothing any more: it was replaced.
    Stop,
}
