//! Packets that a peer sends.

ghost use Rattle.std.specs.Prelude.{◌≡◌, ◌≤◌, length, [], OnOk, IfErr};
ghost use Rattle.std.specs.Io.KnownBytes.{IsAtEnd};
ghost use Rattle.desk_types.specs.declared.refusal.Refusal.TheVariants as refusals;
ghost use Rattle.desk_frames.specs.Received.{ForFirst};
ghost use Rattle.desk_mailbox.specs.Ends.{put_by, IsSameSender};
ghost use Rattle.desk_peers.specs.Incoming.{comes_from, suits, HasPutOne, HasPutOf, HasPutOnlyOf};
ghost use Rattle.desk_peers.specs.Incoming.{HasFramesAfter, HasTakenWhole, EndsEarly, EndsFrames, IsTakeFault};
ghost use Rattle.desk_peers.specs.declared.header.TheConstants.{MARK_BYTES};

use crate::header::{EpochHeader, EpochPlaces};
use crate::start::{StreamStart, read_start, start_frames};
use crate::watch::PacketWatch;
use desk_codec::laws::spellings;
use desk_frames::read_packets;
use desk_mailbox::{Item, Sender};
use desk_types::{EpochPacket, Message, Packet, Purpose, Refusal};
use std::alloc::Global;
use std::io::Read;
use std::sync::Wait;

/// Whether a packet names this node as its sender, where it is known who sends.
fn comes_from(from: Option<u8>, packet: &Packet) -> bool
    ensures { result ≡ comes_from from packet.now }
{
    match from {
        Some(node) => packet.message().from() == node,
        None => true,
    }
}

/// Whether a packet is of the kind that its purpose has.
fn suits(purpose: Purpose, packet: &Packet) -> bool
    ensures { result ≡ suits purpose packet.now }
{
    match purpose {
        Purpose::Step => true,
        Purpose::Ask => match packet.message() {
            Message::GetState { .. } => true,
            _ => false,
        },
        Purpose::Tell => match packet.message() {
            Message::NewState { view, .. } => *view == 0,
            _ => false,
        },
    }
}

/// Puts a packet into the mailbox where it comes from there and suits the purpose; it is seen before. It is false where
/// the keeper has ended.
fn put_packet<R: Wait, P: PacketWatch>(
    rt: &R,
    watch: &P,
    header: EpochHeader,
    from: Option<u8>,
    sender: Sender<Item>,
    packet: Packet,
) -> (Sender<Item>, bool)
    ensures same { IsSameSender sender result.0 }
    ensures put { HasPutOne header from (put_by sender) (put_by result.0) packet result.1 }
{
    if !comes_from(from, &packet) || !suits(header.purpose, &packet) {
        drop(packet);
        return (sender, true);
    }
    let EpochHeader { epoch, purpose } = header;
    let packet = EpochPacket {
        epoch,
        purpose,
        packet,
    };
    watch.see(&packet);
    let item = Item::Packet(packet);
    let (sender, outcome) = sender.put(rt, item);
    match outcome {
        Ok(()) => (sender, true),
        Err(back) => {
            drop(back);
            (sender, false)
        }
    }
}

/// Puts the packets that come from there and suit the purpose into the mailbox, in order, until the keeper has ended.
fn put_packets<R: Wait, P: PacketWatch>(
    rt: &R,
    watch: &P,
    header: EpochHeader,
    from: Option<u8>,
    sender: Sender<Item>,
    packets: Vec<Packet>,
) -> (Sender<Item>, Result<(), Refusal>)
    ensures same { IsSameSender sender result.0 }
    ensures ok { OnOk result.1 (HasPutOf header from (put_by sender) (put_by result.0) packets.items) }
    ensures err { IfErr result.1 (λ _.
        ForFirst (HasPutOf header from (put_by sender) (put_by result.0)) packets.items) }
    ensures fault { IfErr result.1 (λ r. r ≡ refusals.NodeStopped) }
{
    let mut sender = sender;
    for packet in packets {
        let (back, put) = put_packet(rt, watch, header, from, sender, packet);
        sender = back;
        if !put {
            return (sender, Err(Refusal::NodeStopped));
        }
    }
    (sender, Ok(()))
}

/// Puts the packets of a connection's frames into the mailbox, to the end of the stream.
fn take_frames<I: Read, R: Wait, P: PacketWatch>(
    rt: &R,
    watch: &P,
    alloc: Global,
    from: Option<u8>,
    start: &StreamStart,
    reader: &mut I,
    sender: Sender<Item>,
) -> (Sender<Item>, Result<(), Refusal>)
    requires { length start.now.bytes.items ≤ MARK_BYTES }
    ensures same { IsSameSender sender result.0 }
    ensures end { OnOk result.1 (IsAtEnd (I.remaining reader.new)) }
    ensures ok { OnOk result.1 (HasFramesAfter start.now.bytes.items (I.remaining reader.old) (I.remaining reader.new)
        (HasPutOf start.now.header from (put_by sender) (put_by result.0)) []) }
    ensures err { IfErr result.1 (λ r. EndsFrames start.now.header from r start.now.bytes.items
        (I.remaining reader.old) (I.remaining reader.new) (put_by sender) (put_by result.0)) }
    ensures fault { IfErr result.1 IsTakeFault }
{
    spellings();
    let mut frames = match start_frames(alloc, start.bytes.as_slice()) {
        Ok(frames) => frames,
        Err(refusal) => return (sender, Err(refusal)),
    };
    let mut sender = sender;
    'pieces: loop {
        match read_packets(reader, &mut frames) {
            Err(refusal) => return (sender, Err(refusal)),
            Ok(None) => return (sender, Ok(())),
            Ok(Some(packets)) => {
                let (back, outcome) = put_packets(rt, watch, start.header, from, sender, packets);
                sender = back;
                if let Err(refusal) = outcome {
                    return (sender, Err(refusal));
                }
            }
        }
    }
}

/// Reads a peer's stream to its end: its header, or none where that is untold, and then frames. Each packet is put into
/// the mailbox with the header's epoch and purpose, in order, and is seen before; it waits while the mailbox is full.
/// Where it is known which node sends, a packet that names another one as its sender is left out; so is a packet of an
/// ask that is no GetState, and one of a tell that is no NewState of view 0, from which no node takes anything.
///
/// It ends early where the keeper has ended (`NodeStopped`), where memory is refused (`WantOfMemory`), at bytes that
/// neither a header of these places nor a frame begins with (`FrameFault`), at a read that fails, an end inside the
/// header or a frame, and after 4,294,967,295 reads of frames (`ReadFault`). Where epochs have fewer places than
/// `LOG_ENTRIES`, a stream that begins with a frame is refused by `FrameFault` as well.
pub fn take_packets<I: Read, R: Wait, P: PacketWatch>(
    rt: &R,
    watch: &P,
    alloc: Global,
    places: EpochPlaces,
    from: Option<u8>,
    reader: &mut I,
    sender: Sender<Item>,
) -> (Sender<Item>, Result<(), Refusal>)
    ensures same { IsSameSender sender result.0 }
    // It read to the end, and put the packets of the whole stream that are to be put.
    ensures end { OnOk result.1 (IsAtEnd (I.remaining reader.new)) }
    ensures ok { OnOk result.1
        (HasTakenWhole places.places from (I.remaining reader.old) (I.remaining reader.new) (put_by sender)
        (put_by result.0)) }
    // The first packets of what was read were put: all before the bad bytes or the read that failed.
    ensures err { IfErr result.1 (λ r. EndsEarly places.places from r (I.remaining reader.old) (I.remaining reader.new)
        (put_by sender) (put_by result.0)) }
    ensures fault { IfErr result.1 IsTakeFault }
    ensures from { HasPutOnlyOf from (put_by sender) (put_by result.0) }
{
    match read_start(alloc, places, reader) {
        Err(refusal) => (sender, Err(refusal)),
        Ok(None) => (sender, Ok(())),
        Ok(Some(start)) => take_frames(rt, watch, alloc, from, &start, reader, sender),
    }
}
