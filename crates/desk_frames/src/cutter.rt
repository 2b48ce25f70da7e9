//! Cutting a stream that comes in pieces.

ghost use Rattle.std.specs.Prelude.{◌≡◌, ◌≤◌, ◌<◌, ◌+◌, ◌++◌, ◌↔◌, [], Some, IfOk, OnOk, OnErr, IsTrue, length};
ghost use Rattle.std.specs.Prelude.{take, drop};
ghost use Rattle.desk_frames.specs.declared.cutter.TheConstants.{ROOM_BYTES};
ghost use Rattle.desk_frames.specs.Frame.{HasTaken, HasCut, StillPreserved, Stands, Awaits, front_entries};
ghost use Rattle.desk_frames.specs.Reading.{listed, end_answer};
ghost use Rattle.desk_frames.specs.Stream.{Open, Stopped, Came, Fed, viewed};

use crate::frame::{FrameStage, OpenFrame};
use crate::front::front_of;
use desk_codec::{ENTRY_HEAD_BYTES, FrameFault};
use desk_types::limits::BODY_BYTES;
use desk_types::{Packet, Refusal, WantOfMemory};
use std::alloc::Global;
use std::marker::Model;

/// The bytes of the longest entry, which is the longest that waits to be whole.
const ROOM_BYTES: usize = ENTRY_HEAD_BYTES + BODY_BYTES;

/// Cuts frames off a stream, of which it keeps what is not whole yet. A contract sees where it stands: what came of the
/// next frame, or that a fault was met.
pub(crate) struct FrameCutter {
    alloc: Global,
    frame: OpenFrame,
    /// Room for what is not whole yet, an entry at most.
    room: Vec<u8>,
    /// How many bytes of it came.
    filled: usize,
}

// Written out, so that callers need not prove each part's drop.
impl Drop for FrameCutter {
    fn drop(self) {
        let FrameCutter {
            alloc: _,
            frame: _,
            room: _,
            filled: _,
        } = self;
    }
}

impl Model for FrameCutter {
    ghost use Rattle.std.specs.Prelude.{◌≡◌, ◌<◌, length, take};
    ghost use Rattle.desk_frames.specs.declared.cutter.TheConstants.{ROOM_BYTES};
    ghost use Rattle.desk_frames.specs.Stream.{Standing};
    ghost use Rattle.desk_frames.specs.Frame.{position, Awaits};

    ghost Value = { Standing };

    ghost view = { λ c. position c.frame (take c.filled c.room.items) };

    ghost invariant = { λ c. (length c.room.items ≡ ROOM_BYTES)
        × Awaits c.frame.stage (take c.filled c.room.items) × (c.filled < ROOM_BYTES) };
}

/// Puts bytes into the room, from a place on.
pub(crate) fn put(room: &mut [u8], at: usize, bytes: &[u8])
    requires { at + length bytes.now ≤ length room.old }
    ensures { room.new ≡ take at room.old ++ bytes.now ++ drop (at + length bytes.now) room.old }
{
    room[at..at + bytes.len()].copy_from_slice(bytes);
}

/// Takes what comes next, and puts its packet last where one is whole with it. It gives how many bytes that has, or
/// `None` where more are needed.
fn step(
    frame: &mut OpenFrame,
    bytes: &[u8],
    packets: &mut Vec<Packet>,
) -> Result<Option<usize>, WantOfMemory>
    ensures ok { IfOk result (λ count.
        HasTaken bytes.now frame.old packets.old.items count frame.new packets.new.items) }
    ensures err { OnErr result (StillPreserved frame.old packets.old.items frame.new packets.new.items) }
{
    let Some((count, packet)) = frame.step(bytes)? else {
        return Ok(None);
    };
    if let Some(packet) = packet {
        if let Err(failed) = packets.push(packet) {
            frame.take_back(failed.value);
            return Err(WantOfMemory);
        }
    }
    Ok(Some(count))
}

/// Takes what stands whole in the bytes, and gives what is left of them.
fn cut<'a>(
    frame: &mut OpenFrame,
    bytes: &'a [u8],
    packets: &mut Vec<Packet>,
) -> Result<&'a [u8], WantOfMemory>
    ensures awaits { IfOk result (λ rest. Awaits frame.new.stage rest.now) }
    ensures room { IfOk result (λ rest. length rest.now < ROOM_BYTES) }
    ensures stands { OnOk result (Stands frame.new.stage frame.new.entries) }
    ensures ok { IfOk result (λ rest.
        HasCut bytes.now frame.old packets.old.items rest.now frame.new packets.new.items) }
    ensures err { OnErr result (StillPreserved frame.old packets.old.items frame.new packets.new.items) }
{
    let mut rest = bytes;
    while let Some(count) = step(frame, rest, packets)? {
        let (_, beyond) = rest.split_at(count);
        rest = beyond;
    }
    frame.stands();
    Ok(rest)
}

/// Takes what stands whole in the bytes, puts what is left of them into the room, and gives its length.
fn cut_rest(
    frame: &mut OpenFrame,
    room: &mut [u8],
    bytes: &[u8],
    packets: &mut Vec<Packet>,
) -> Result<usize, WantOfMemory>
    requires { length room.old ≡ ROOM_BYTES }
    ensures room { length room.new ≡ ROOM_BYTES }
    ensures awaits { IfOk result (λ left. Awaits frame.new.stage (take left room.new)) }
    ensures less { IfOk result (λ left. left < ROOM_BYTES) }
    ensures stands { OnOk result (Stands frame.new.stage frame.new.entries) }
    ensures ok { IfOk result (λ left.
        HasCut bytes.now frame.old packets.old.items (take left room.new) frame.new packets.new.items) }
    ensures err { OnErr result (StillPreserved frame.old packets.old.items frame.new packets.new.items) }
    ensures unchanged { OnErr result (room.new ≡ room.old) }
{
    let left = cut(frame, bytes, packets)?;
    put(room, 0, left);
    Ok(left.len())
}

/// Takes a piece after the bytes that are in the room, and gives how many bytes are there then.
fn cut_piece(
    frame: &mut OpenFrame,
    room: &mut [u8],
    filled: usize,
    piece: &[u8],
    packets: &mut Vec<Packet>,
) -> Result<usize, WantOfMemory>
    requires room { length room.old ≡ ROOM_BYTES }
    requires filled { filled < ROOM_BYTES }
    requires awaits { Awaits frame.old.stage (take filled room.old) }
    ensures room { length room.new ≡ ROOM_BYTES }
    ensures awaits { IfOk result (λ left. Awaits frame.new.stage (take left room.new)) }
    ensures less { IfOk result (λ left. left < ROOM_BYTES) }
    ensures stands { OnOk result (Stands frame.new.stage frame.new.entries) }
    ensures ok { IfOk result (λ left.
        HasCut (take filled room.old ++ piece.now) frame.old packets.old.items (take left room.new)
        frame.new packets.new.items) }
    ensures err { OnErr result (StillPreserved frame.old packets.old.items frame.new packets.new.items) }
    ensures unchanged { OnErr result (take filled room.new ≡ take filled room.old) }
{
    if filled == 0 {
        return cut_rest(frame, room, piece, packets);
    }
    let front = front_of(piece, room.len() - filled);
    put(room, filled, front);
    let there = filled + front.len();
    match step(frame, &room[..there], packets)? {
        Some(count) => {
            let (_, beyond) = piece.split_at(count - filled);
            cut_rest(frame, room, beyond, packets)
        }
        // (a full room holds all that is needed)
        None => {
            frame.stands();
            Ok(there)
        }
    }
}

/// Goes back to a stage with so many entries, of which a packet that was whole since took some.
fn undo(frame: &mut OpenFrame, stage: FrameStage, count: usize, packets: Vec<Packet>)
    requires count { count ≤ length (front_entries packets.items frame.old.entries) }
    requires stands { Stands stage (take count (front_entries packets.items frame.old.entries)) }
    ensures { frame.new ≡ record {
      stage = stage;
      entries = take count (front_entries packets.items frame.old.entries);
    } }
{
    let mut packets = packets;
    packets.truncate(1);
    match packets.pop() {
        Some(first) => {
            frame.take_back(first);
            frame.go_back(stage, count);
        }
        None => frame.go_back(stage, count),
    }
}

impl FrameCutter {
    /// A cutter at the beginning of a stream. Memory alone is refused.
    pub(crate) fn new(alloc: Global) -> Result<FrameCutter, WantOfMemory>
        ensures { IfOk result (λ c. c ≡ Open []) }
    {
        Ok(FrameCutter {
            alloc,
            frame: OpenFrame::new(alloc),
            room: vec![in alloc; 0; ROOM_BYTES]?,
            filled: 0,
        })
    }

    /// The answer at the end of the stream.
    pub(crate) fn end(&self) -> Result<Option<Vec<Packet>>, Refusal>
        ensures { listed (λ v. v.items) result ≡ end_answer self.now }
    {
        match self.frame.stage() {
            FrameStage::Stopped => Err(Refusal::FrameFault),
            FrameStage::Length => {
                if self.filled == 0 {
                    Ok(None)
                } else {
                    Err(Refusal::ReadFault)
                }
            }
            _ => Err(Refusal::ReadFault),
        }
    }

    /// Takes a piece, and gives the packets that are whole with them. Where memory is refused the cutter
    /// stands as it did.
    fn take(&mut self, piece: &[u8]) -> Result<Vec<Packet>, WantOfMemory>
        ensures ok { IfOk result (λ packets. Came self.old piece.now packets.items self.new) }
        ensures err { OnErr result (self.new ≡ self.old) }
    {
        let stage = self.frame.stage();
        let count = self.frame.count();
        let mut packets = Vec::new(self.alloc);
        match cut_piece(
            &mut self.frame,
            self.room.as_mut_slice(),
            self.filled,
            piece,
            &mut packets,
        ) {
            Ok(filled) => {
                self.filled = filled;
                Ok(packets)
            }
            Err(want) => {
                undo(&mut self.frame, stage, count, packets);
                Err(want)
            }
        }
    }

    /// Whether a fault was met.
    fn is_stopped(&self) -> bool
        ensures { IsTrue result ↔ (self.now ≡ Stopped) }
    {
        match self.frame.stage() {
            FrameStage::Stopped => true,
            _ => false,
        }
    }

    /// Takes the next piece of the stream, and gives the packets that are whole now.
    pub(crate) fn feed(&mut self, piece: &[u8]) -> Result<Vec<Packet>, FrameFault>
        ensures { Fed self.old piece.now (viewed (λ v. v.items) result) self.new }
    {
        if self.is_stopped() {
            return Err(FrameFault {
                refusal: Refusal::FrameFault,
            });
        }
        match self.take(piece) {
            Ok(packets) => {
                if packets.is_empty() && self.is_stopped() {
                    return Err(FrameFault {
                        refusal: Refusal::FrameFault,
                    });
                }
                Ok(packets)
            }
            Err(_) => Err(FrameFault {
                refusal: Refusal::WantOfMemory,
            }),
        }
    }
}
