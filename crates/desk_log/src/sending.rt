//! What a rule sends and answers.

ghost use Rattle.std.specs.Prelude.{◌≡◌, ◌≤◌, [], ◌∷◌, ◌++◌, length, take, IfOk, OnErr};
ghost use Rattle.desk_types.specs.declared.packet.Message.TheVariants as messages;
ghost use Rattle.desk_types.specs.declared.refusal.Refusal.TheVariants as refusals;
ghost use Rattle.desk_log.specs.declared.answers.Answers.TheVariants as answers;
ghost use Rattle.desk_log.specs.Change.{to_others};

use crate::answers::Answers;
use crate::group_node::GroupNode;
use desk_types::limits::{LAST_VIEW, LOG_ENTRIES};
use desk_types::{Entry, Message, Packet, Refusal, WantOfMemory};
use std::alloc::Global;

/// What a rule of a node sends and answers: the packets in the order of their sending, each with its receiver, and what
/// clients are answered.
#[derive(Drop)]
pub struct Sending {
    pub packets: Vec<(u8, Packet)>,
    pub answers: Answers,
}

impl Sending {
    /// Nothing. It takes no memory.
    pub fn nothing(alloc: Global) -> Sending
        ensures packets { result.packets.items ≡ [] }
        ensures answers { result.answers ≡ answers.Nothing }
    {
        Sending::packets(Vec::new(alloc))
    }

    /// These packets, and no answer.
    pub fn packets(packets: Vec<(u8, Packet)>) -> Sending
        ensures packets { result.packets.items ≡ packets.items }
        ensures answers { result.answers ≡ answers.Nothing }
    {
        Sending {
            packets,
            answers: Answers::Nothing,
        }
    }

    /// One packet to a node, and no answer.
    pub fn one_packet(alloc: Global, to: u8, packet: Packet) -> Result<Sending, WantOfMemory>
        ensures packets { IfOk result (λ sending. sending.packets.items ≡ (to, packet) ∷ []) }
        ensures answers { IfOk result (λ sending. sending.answers ≡ answers.Nothing) }
    {
        let mut packets = Vec::new(alloc);
        packets.push((to, packet))?;
        Ok(Sending::packets(packets))
    }

    /// The refusal of a request. It takes no memory.
    pub fn refusal(alloc: Global, entry: &Entry, refusal: Refusal) -> Sending
        ensures packets { result.packets.items ≡ [] }
        ensures answers { result.answers ≡ answers.Refusal entry.now.client entry.now.number refusal }
    {
        Sending {
            packets: Vec::new(alloc),
            answers: Answers::Refusal {
                client: entry.client,
                number: entry.number,
                refusal,
            },
        }
    }
}

/// The PrepareOk by which the node says that its log of a view has the entries up to a place.
pub fn acknowledgement(member: GroupNode, view: u64, place: u64) -> Packet
    requires view { view ≤ LAST_VIEW }
    requires place { place ≤ LOG_ENTRIES }
    ensures { result ≡ messages.PrepareOk member.id view place }
{
    Packet::new(Message::PrepareOk {
        from: member.id,
        view,
        place,
    })
}

/// Puts a copy of a packet to a node last.
fn push_copy(packets: &mut Vec<(u8, Packet)>, to: u8, packet: &Packet) -> Result<(), WantOfMemory>
    ensures ok { IfOk result (λ _. packets.new.items ≡ packets.old.items ++ (to, packet.now) ∷ []) }
    ensures err { OnErr result (packets.new.items ≡ packets.old.items) }
{
    let copy = packet.copy()?;
    packets.push((to, copy))?;
    Ok(())
}

/// Puts a copy of a packet to each other node last.
#[tactic(auto, using(std::proofs::lemmas::List::map_push), unfolding(crate::specs::Change::to_others))]
fn push_copies(
    member: GroupNode,
    packets: &mut Vec<(u8, Packet)>,
    packet: &Packet,
) -> Result<(), WantOfMemory>
    ensures ok { IfOk result (λ _. packets.new.items ≡ packets.old.items ++ to_others member.id member.n packet.now) }
    ensures err { OnErr result (take (length packets.old.items) packets.new.items ≡ packets.old.items) }
{
    for j in 0..member.n {
        if j != member.id {
            push_copy(packets, j, packet)?;
        }
    }
    Ok(())
}

/// Puts a packet to each other node last, by rising number. Where memory is refused some of them may stand
/// there, after what stood there before.
// The packet is dropped here, and nowhere else, since to drop one of any kind is dear to prove.
pub fn push_to_others(
    member: GroupNode,
    packets: &mut Vec<(u8, Packet)>,
    packet: Packet,
) -> Result<(), WantOfMemory>
    ensures ok { IfOk result (λ _. packets.new.items ≡ packets.old.items ++ to_others member.id member.n packet) }
    ensures err { OnErr result (take (length packets.old.items) packets.new.items ≡ packets.old.items) }
{
    push_copies(member, packets, &packet)
}
