//! The frame that stands open.

ghost use Rattle.std.specs.Prelude.{◌≡◌, ◌≤◌, ◌<◌, [], length, take, IfOk, OnErr};
ghost use Rattle.desk_frames.specs.declared.frame.FrameStage.TheVariants as stages;
ghost use Rattle.desk_frames.specs.Frame.{
  Stands,
  IsOpen,
  Stepped,
  AfterPart,
  IsAwaited,
  stage_after_length,
  stage_after_part,
};
ghost use Rattle.desk_frames.specs.Stream.{announced_length};
ghost use Rattle.desk_frames.specs.Whole.{log_in};

use crate::front::front_of;
use desk_codec::{HEAD_BYTES, Lack, PacketStart, front_entry, front_start, packet_of};
use desk_types::limits::FRAME_BYTES;
use desk_types::{Entry, Message, Packet, WantOfMemory};
use std::alloc::Global;
use std::marker::Model;
use std::mem;

/// Where a frame stands.
#[derive(Clone, Copy)]
pub(crate) enum FrameStage {
    /// Its length comes next.
    Length,
    /// A packet of so many bytes begins.
    Start {
        announced: usize,
    },
    /// An entry comes next. The packet has `announced` bytes, of which `left` come from this entry on, and `more`
    /// entries.
    Entries {
        announced: usize,
        left: usize,
        start: PacketStart,
        more: u32,
    },
    /// No packet begins so, which is reported with the frame's last byte, so many bytes on.
    Doomed {
        left: usize,
    },
    /// No frame begins so.
    Stopped,
}

/// The frame that stands open: where it stands, and the entries that came.
pub(crate) struct OpenFrame {
    alloc: Global,
    stage: FrameStage,
    entries: Vec<Entry>,
}

// Written out, so that callers need not prove each part's drop.
impl Drop for OpenFrame {
    fn drop(self) {
        let OpenFrame {
            alloc: _,
            stage: _,
            entries: _,
        } = self;
    }
}

impl Model for OpenFrame {
    ghost use Rattle.desk_frames.specs.Frame.{FrameState, Stands};

    ghost Value = { FrameState };

    ghost view = { λ f. record { stage = f.stage; entries = f.entries.items } };

    ghost invariant = { λ f. Stands f.stage f.entries.items };
}

/// The length that a frame's first four bytes tell.
fn length_announced(bytes: &[u8]) -> usize
    requires { 4 ≤ length bytes.now }
    ensures { result ≡ announced_length bytes.now }
{
    u32::from_be_bytes([bytes[0], bytes[1], bytes[2], bytes[3]]) as usize
}

/// The stage after a frame's length.
fn stage_after_length(announced: usize) -> FrameStage
    ensures { result ≡ stage_after_length announced }
{
    if HEAD_BYTES <= announced && announced <= FRAME_BYTES {
        FrameStage::Start { announced }
    } else {
        FrameStage::Stopped
    }
}

/// Goes on after a packet's start or an entry: with the next entry, or after the packet, which it gives.
fn go_on(
    alloc: Global,
    announced: usize,
    left: usize,
    start: PacketStart,
    more: u32,
    entries: &mut Vec<Entry>,
) -> (FrameStage, Option<Packet>)
    requires { IsOpen announced left start entries.old.items more }
    ensures after { AfterPart announced start entries.old.items result.1 result.0 entries.new.items }
    // Bytes that are left over are reported with the frame's last byte.
    ensures stage { result.0 ≡ stage_after_part announced left start more result.1 }
{
    if more > 0 {
        if left == 0 {
            return (FrameStage::Stopped, None);
        }
        let stage = FrameStage::Entries {
            announced,
            left,
            start,
            more,
        };
        return (stage, None);
    }
    if left > 0 {
        return (FrameStage::Doomed { left }, None);
    }
    match packet_of(start, mem::replace(entries, Vec::new(alloc))) {
        Some(packet) => (FrameStage::Length, Some(packet)),
        None => (FrameStage::Stopped, None),
    }
}

fn log_in(alloc: Global, packet: Packet) -> Vec<Entry>
    ensures { result.items ≡ log_in packet }
{
    match packet.into_message() {
        Message::DoViewChange { log, .. } => log.into_vec(),
        Message::StartView { log, .. } => log.into_vec(),
        Message::NewState { entries, .. } => entries.into_vec(),
        _ => Vec::new(alloc),
    }
}

impl OpenFrame {
    /// A frame of which no byte has come. It allocates nothing.
    pub(crate) fn new(alloc: Global) -> OpenFrame
        ensures { result ≡ record { stage = stages.Length; entries = [] } }
    {
        OpenFrame {
            alloc,
            stage: FrameStage::Length,
            entries: Vec::new(alloc),
        }
    }

    pub(crate) fn stage(&self) -> FrameStage
        ensures value { result ≡ self.now.stage }
        ensures stands { Stands result self.now.entries }
    {
        self.stage
    }

    /// What its stage and its entries keep.
    pub(crate) fn stands(&self)
        ensures { Stands self.now.stage self.now.entries }
    {
        let _stage = self.stage;
    }

    pub(crate) fn count(&self) -> usize
        ensures { result ≡ length self.now.entries }
    {
        self.entries.as_slice().len()
    }

    /// Takes what a packet begins with, where it is there.
    fn take_start(&mut self, announced: usize, bytes: &[u8]) -> Option<(usize, Option<Packet>)>
        requires stage { self.old.stage ≡ stages.Start announced }
        requires some { 0 < length bytes.now }
        ensures { Stepped self.old bytes.now result self.new }
    {
        match front_start(front_of(bytes, announced)) {
            Ok((start, count)) => {
                let (stage, packet) = go_on(
                    self.alloc,
                    announced,
                    announced - count,
                    start,
                    start.count,
                    &mut self.entries,
                );
                self.stage = stage;
                Some((count, packet))
            }
            Err(Lack::NoSpelling) => {
                self.stage = FrameStage::Stopped;
                Some((bytes.len(), None))
            }
            Err(Lack::Needs) => {
                if bytes.len() < announced {
                    return None;
                }
                self.stage = FrameStage::Stopped;
                Some((announced, None))
            }
        }
    }

    /// Takes the next entry of a packet, where it is there.
    fn take_entry(
        &mut self,
        announced: usize,
        left: usize,
        start: PacketStart,
        more: u32,
        bytes: &[u8],
    ) -> Result<Option<(usize, Option<Packet>)>, WantOfMemory>
        requires stage { self.old.stage ≡ stages.Entries announced left start more }
        requires some { 0 < length bytes.now }
        ensures ok { IfOk result (λ step. Stepped self.old bytes.now step self.new) }
        ensures err { OnErr result (self.new ≡ self.old) }
    {
        let frame = front_of(bytes, left);
        match front_entry(self.alloc, start.head.version, frame)? {
            Ok((entry, count)) => {
                self.entries.push(entry)?;
                let (stage, packet) = go_on(
                    self.alloc,
                    announced,
                    left - count,
                    start,
                    more - 1,
                    &mut self.entries,
                );
                self.stage = stage;
                Ok(Some((count, packet)))
            }
            Err(Lack::NoSpelling) => {
                self.stage = FrameStage::Stopped;
                Ok(Some((bytes.len(), None)))
            }
            Err(Lack::Needs) => {
                if bytes.len() < left {
                    return Ok(None);
                }
                self.stage = FrameStage::Stopped;
                Ok(Some((left, None)))
            }
        }
    }

    /// Takes the length of a frame, where it is there.
    fn take_length(&mut self, bytes: &[u8]) -> Option<(usize, Option<Packet>)>
        requires stage { self.old.stage ≡ stages.Length }
        ensures { Stepped self.old bytes.now result self.new }
    {
        if bytes.len() < 4 {
            return None;
        }
        self.stage = stage_after_length(length_announced(bytes));
        Some((4, None))
    }

    /// Takes bytes of a frame that no packet begins.
    fn pass(&mut self, left: usize, bytes: &[u8]) -> Option<(usize, Option<Packet>)>
        requires stage { self.old.stage ≡ stages.Doomed left }
        requires some { 0 < length bytes.now }
        ensures { Stepped self.old bytes.now result self.new }
    {
        self.stage = if bytes.len() < left {
            FrameStage::Doomed {
                left: left - bytes.len(),
            }
        } else {
            FrameStage::Stopped
        };
        Some((bytes.len(), None))
    }

    /// Takes bytes that are read no more.
    fn pass_all(&mut self, bytes: &[u8]) -> Option<(usize, Option<Packet>)>
        requires stage { self.old.stage ≡ stages.Stopped }
        requires some { 0 < length bytes.now }
        ensures { Stepped self.old bytes.now result self.new }
    {
        Some((bytes.len(), None))
    }

    /// Takes what comes next of a frame, its length, what its packet begins with, or an entry. It gives how many bytes
    /// that has, and the packet that is whole with it; or `None` where more bytes are needed.
    pub(crate) fn step(
        &mut self,
        bytes: &[u8],
    ) -> Result<Option<(usize, Option<Packet>)>, WantOfMemory>
        ensures ok { IfOk result (λ step. Stepped self.old bytes.now step self.new) }
        ensures err { OnErr result (self.new ≡ self.old) }
        // Memory is asked for an entry alone.
        ensures awaited { OnErr result (IsAwaited self.old.stage) }
    {
        let stage = self.stage();
        if bytes.is_empty() {
            return Ok(None);
        }
        match stage {
            FrameStage::Length => Ok(self.take_length(bytes)),
            FrameStage::Start { announced } => Ok(self.take_start(announced, bytes)),
            FrameStage::Entries {
                announced,
                left,
                start,
                more,
            } => self.take_entry(announced, left, start, more, bytes),
            FrameStage::Doomed { left } => Ok(self.pass(left, bytes)),
            FrameStage::Stopped => Ok(self.pass_all(bytes)),
        }
    }

    /// Takes the entries of a packet back.
    pub(crate) fn take_back(&mut self, packet: Packet)
        ensures { self.new.entries ≡ log_in packet }
    {
        self.stage = FrameStage::Stopped;
        drop(mem::replace(&mut self.entries, log_in(self.alloc, packet)));
    }

    /// Goes back to a stage with so many entries.
    pub(crate) fn go_back(&mut self, stage: FrameStage, count: usize)
        requires count { count ≤ length self.old.entries }
        requires stands { Stands stage (take count self.old.entries) }
        ensures { self.new ≡ record { stage = stage; entries = take count self.old.entries } }
    {
        self.entries.truncate(count);
        self.stage = stage;
    }
}
