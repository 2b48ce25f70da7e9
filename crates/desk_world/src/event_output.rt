//! What an event gave.

use desk_types::{Outcome, Packet};
use std::marker::Model;

/// What an event gave: the packets that were sent, each with its receiver, and the answers, each with its node.
#[derive(Drop)]
pub struct EventOutput {
    pub packets: Vec<(u8, Packet)>,
    pub answers: Vec<(u8, Outcome)>,
}

impl Model for EventOutput {
    ghost use Rattle.desk_world.specs.Report.{OutputValue};

    ghost Value = { OutputValue };

    ghost view = { λ h. record { packets = h.packets.items; answers = h.answers.items } };
}
