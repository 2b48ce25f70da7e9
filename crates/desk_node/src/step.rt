//! What a step of a node hands back.

ghost use Rattle.std.specs.Prelude.{◌≡◌, []};

use desk_log::Sending;
use desk_types::{Outcome, Packet};
use std::alloc::Global;

/// What a step of a node sends and answers: the packets in the order of their sending, each with its receiver, and the
/// answers to clients.
#[derive(Drop)]
pub struct Step {
    pub packets: Vec<(u8, Packet)>,
    pub answers: Vec<Outcome>,
}

impl Step {
    /// Nothing. It takes no memory.
    pub(crate) fn nothing(alloc: Global) -> Step
        ensures packets { result.packets.items ≡ [] }
        ensures answers { result.answers.items ≡ [] }
    {
        Step {
            packets: Vec::new(alloc),
            answers: Vec::new(alloc),
        }
    }

    /// What a rule sends that answers nothing. It takes no memory.
    pub(crate) fn unanswered(alloc: Global, sending: Sending) -> Step
        ensures packets { result.packets.items ≡ sending.packets.items }
        ensures answers { result.answers.items ≡ [] }
    {
        Step {
            packets: sending.packets,
            answers: Vec::new(alloc),
        }
    }
}
