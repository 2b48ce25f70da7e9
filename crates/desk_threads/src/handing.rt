//! Where packets go.

ghost use Rattle.desk_replica.specs.EpochPackets.{packets_under};

use desk_types::{EpochPacket, Packet, Purpose};

/// Takes the packets of a node, each with the number of the node to which it goes.
pub trait Out {
    ghost use Rattle.std.specs.Prelude.{ℕ, List, [], ◌∷◌, ◌++◌};
    ghost use Rattle.desk_types.specs.declared.epoch_packet.EpochPacket.{EpochPacket as AnEpochPacket};

    /// What it was became what it is now, as it took these packets, in order.
    ghost takes: { Self → List (ℕ × AnEpochPacket) → Self → Type 0 };

    /// Takes one packet.
    fn hand(&mut self, to: u8, packet: EpochPacket)
        ensures { takes self.old ((to, packet) ∷ []) self.new };

    /// Where it took none, it is what it was.
    ghost takes_none: { (out : Self) → takes out [] out };

    /// Where it took some and then others, it took all of them.
    ghost takes_then: { (old mid new : Self) → (first last : List (ℕ × AnEpochPacket)) → takes old first mid →
        takes mid last new → takes old (first ++ last) new };
}

/// Hands packets out, in order, all of this epoch and for this. It takes no memory.
pub fn hand_all<O: Out>(out: &mut O, epoch: u64, purpose: Purpose, packets: Vec<(u8, Packet)>)
    ensures { O.Out.takes out.old (packets_under epoch purpose packets.items) out.new }
{
    for (to, packet) in packets {
        let sent = EpochPacket {
            epoch,
            purpose,
            packet,
        };
        out.hand(to, sent);
    }
}
