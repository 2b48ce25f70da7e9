//! Steps of a node for packets. Its state is saved before anything is sent.

ghost use Rattle.std.specs.Prelude.{map, ◌≡◌, ◌⊎◌, List, [], ◌∷◌, OnOk, IfOk, IfErr};
ghost use Rattle.std.specs.Io.KnownBytes.{Appends};
ghost use Rattle.desk_types.specs.declared.packet.Message.{Message};
ghost use Rattle.desk_types.specs.declared.refusal.Refusal.TheVariants as refusals;
ghost use Rattle.desk_frames.specs.Received.{ForFirst};
ghost use Rattle.desk_node.specs.NodeValue.{NodeValue, IsSameNode};
ghost use Rattle.desk_types.specs.Refusal.{IsStoreRefusal};
ghost use Rattle.desk_answer.specs.AnswerFile.{LeavesFile, IsEither, HasFollowed};
ghost use Rattle.desk_types.specs.Refusal.{IsWritingFault};
ghost use Rattle.desk_answer.specs.AnswerStream.{HasStepped, HasSent, HasSentButLast};
ghost use Rattle.desk_output.specs.Prefixes.{AppendsPrefix};

use crate::stream::sending::send;
use desk_node::{Event, Node, Step};
use desk_saved::SavedState;
use desk_types::{Packet, Refusal};
use sqlite::Alter;
use std::alloc::Global;
use std::io::Write;

/// Steps the node for a packet, saves its state, and gives what it sends.
fn step_saved<S: Alter>(
    node: &mut Node,
    file: &mut SavedState<S>,
    packet: Packet,
) -> Result<Vec<(u8, Packet)>, Refusal>
    requires last { file.old.last ≡ node.old.saved }
    ensures ok { IfOk result (λ packets.
        HasStepped node.old (packet ∷ []) node.new (map (λ sent. sent.1) packets.items)) }
    // Where memory is refused nothing changes.
    ensures refused { IfErr result (λ r. r ≡ refusals.WantOfMemory → (node.new ≡ node.old) × (file.new ≡ file.old)) }
    ensures unsaved { IfErr result (λ r. IsStoreRefusal r → (more : List Message)
        × HasStepped node.old (packet ∷ []) node.new more
        × LeavesFile S.Store file.old file.new (IsEither node.old.saved node.new.saved)) }
    ensures fault { IfErr result (λ r. (r ≡ refusals.WantOfMemory) ⊎ IsStoreRefusal r) }
    ensures same { IsSameNode node.old node.new }
    ensures file { HasFollowed S.Store file.old file.new node.new.saved result }
{
    // Its proof takes half a minute: packets and answers, with all that they hold, are dropped at its ends.
    let before = node.saved().commit();
    let Step { packets, .. } = node.step(Event::Packet(packet))?;
    file.save_after(node.saved(), before)?;
    Ok(packets)
}

/// Answers a packet: the node's state is saved first, and then what it sends is written.
fn answer_packet<W: Write, S: Alter>(
    alloc: Global,
    writer: &mut W,
    node: &mut Node,
    file: &mut SavedState<S>,
    packet: Packet,
) -> Result<(), Refusal>
    requires last { file.old.last ≡ node.old.saved }
    ensures ok { OnOk result
        (HasSent (Appends (W.contents writer.old) (W.contents writer.new)) node.old node.new (packet ∷ [])) }
    ensures cut_short { IfErr result (λ r. IsWritingFault r → ForFirst
        (HasSent (AppendsPrefix (W.contents writer.old) (W.contents writer.new)) node.old node.new) (packet ∷ [])) }
    ensures unsaved { IfErr result (λ r. IsStoreRefusal r → (between : NodeValue)
        × ForFirst (HasSentButLast (Appends (W.contents writer.old) (W.contents writer.new))
        node.old between node.new) (packet ∷ [])
        × LeavesFile S.Store file.old file.new (IsEither between.saved node.new.saved)) }
    ensures fault { IfErr result (λ r. IsWritingFault r ⊎ IsStoreRefusal r) }
    ensures same { IsSameNode node.old node.new }
    ensures file { HasFollowed S.Store file.old file.new node.new.saved result }
{
    let packets = step_saved(node, file, packet)?;
    send(alloc, writer, packets.as_slice())
}

/// Answers packets, in their order.
pub(crate) fn answer_packets<W: Write, S: Alter>(
    alloc: Global,
    writer: &mut W,
    node: &mut Node,
    file: &mut SavedState<S>,
    packets: Vec<Packet>,
) -> Result<(), Refusal>
    requires last { file.old.last ≡ node.old.saved }
    ensures ok { OnOk result
        (HasSent (Appends (W.contents writer.old) (W.contents writer.new)) node.old node.new packets.items) }
    ensures cut_short { IfErr result (λ r. IsWritingFault r → ForFirst
        (HasSent (AppendsPrefix (W.contents writer.old) (W.contents writer.new)) node.old node.new) packets.items) }
    ensures unsaved { IfErr result (λ r. IsStoreRefusal r → (between : NodeValue)
        × ForFirst (HasSentButLast (Appends (W.contents writer.old) (W.contents writer.new))
        node.old between node.new) packets.items
        × LeavesFile S.Store file.old file.new (IsEither between.saved node.new.saved)) }
    ensures fault { IfErr result (λ r. IsWritingFault r ⊎ IsStoreRefusal r) }
    ensures same { IsSameNode node.old node.new }
    ensures file { HasFollowed S.Store file.old file.new node.new.saved result }
{
    for packet in packets {
        answer_packet(alloc, writer, node, file, packet)?;
    }
    Ok(())
}
