//! A node's answers to a stream of packets.

ghost use Rattle.std.specs.Prelude.{◌≡◌, [], OnOk, IfErr, IsTrue};
ghost use Rattle.std.specs.Io.KnownBytes.{Appends, IsAtEnd};
ghost use Rattle.sqlite.specs.Held.{state};
ghost use Rattle.sqlite.specs.State.{HasCleanDisk};
ghost use Rattle.desk_types.specs.declared.refusal.Refusal.TheVariants as refusals;
ghost use Rattle.desk_frames.specs.Received.{HasReceived};
ghost use Rattle.desk_frames.specs.Stream.{Open};
ghost use Rattle.desk_node.specs.NodeValue.{IsSameNode};
ghost use Rattle.desk_saved.specs.Saving.{KeepsFile};
ghost use Rattle.desk_types.specs.Refusal.{HasStored};
ghost use Rattle.desk_answer.specs.AnswerFile.{LeavesFile, HasFollowed};
ghost use Rattle.desk_answer.specs.AnswerStream.{HasSent, HasEndedBy};

mod sending;
mod steps;

use crate::stream::steps::answer_packets;
use desk_codec::laws::spellings;
use desk_frames::{FrameReader, read_packets};
use desk_node::Node;
use desk_saved::SavedState;
use desk_types::Refusal;
use sqlite::Alter;
use std::alloc::Global;
use std::io::{Read, Write};

/// Answers the packets that a reader of frames gives, to the end of the stream.
fn answer_frames<R: Read, W: Write, S: Alter>(
    alloc: Global,
    reader: &mut R,
    writer: &mut W,
    node: &mut Node,
    file: &mut SavedState<S>,
    frames: &mut FrameReader,
) -> Result<(), Refusal>
    requires last { file.old.last ≡ node.old.saved }
    requires start { frames.old ≡ record { standing = Open []; waiting = []; reads = 0 } }
    ensures end { OnOk result (IsAtEnd (R.remaining reader.new)) }
    ensures ok { OnOk result (HasReceived (R.remaining reader.old) (R.remaining reader.new)
        (HasSent (Appends (W.contents writer.old) (W.contents writer.new)) node.old node.new) []) }
    ensures err { IfErr result (λ r. HasEndedBy S.Store r (R.remaining reader.old) (R.remaining reader.new)
        (W.contents writer.old) (W.contents writer.new) node.old node.new file.old file.new) }
    ensures same { IsSameNode node.old node.new }
    ensures file { HasFollowed S.Store file.old file.new node.new.saved result }
{
    spellings();
    'pieces: loop {
        match read_packets(reader, frames)? {
            Some(packets) => answer_packets(alloc, writer, node, file, packets)?,
            None => return Ok(()),
        }
    }
}

/// Answers the packets of a stream, as a node does, to the stream's end. For each packet the node steps, its state is
/// saved, and then the frames of what it sends are written, without their receivers, and the writer is flushed: nothing
/// is sent whose state is not saved.
///
/// It ends early where memory is refused (`WantOfMemory`), where the state cannot be saved (`StoreFault`, or
/// `NodeStopped` where the file is closed already), at bytes that no frame begins with (`FrameFault`), at a read that
/// fails, an end inside a frame, and after 4,294,967,295 reads (`ReadFault`), and at a write that fails or takes no
/// byte (`WriteFault`).
pub fn answer_stream<R: Read, W: Write, S: Alter>(
    alloc: Global,
    reader: &mut R,
    writer: &mut W,
    node: &mut Node,
    file: &mut SavedState<S>,
) -> Result<(), Refusal>
    requires last { file.old.last ≡ node.old.saved }
    // It read to the end, answered the packets of the whole stream, and wrote exactly what the node sends.
    ensures end { OnOk result (IsAtEnd (R.remaining reader.new)) }
    ensures ok { OnOk result (HasReceived (R.remaining reader.old) (R.remaining reader.new)
        (HasSent (Appends (W.contents writer.old) (W.contents writer.new)) node.old node.new) []) }
    // Else it tells how far it came: of a step whose state is not known to be saved nothing was sent.
    ensures err { IfErr result (λ r. HasEndedBy S.Store r (R.remaining reader.old) (R.remaining reader.new)
        (W.contents writer.old) (W.contents writer.new) node.old node.new file.old file.new) }
    ensures same_node { IsSameNode node.old node.new }
    ensures same_owner { file.new.owner ≡ file.old.owner }
    ensures clean { HasCleanDisk (state S.Store file.new.connection)
        → HasCleanDisk (state S.Store file.old.connection) }
    ensures closed { IfErr result (λ r. r ≡ refusals.NodeStopped → IsTrue file.old.stopped) }
    ensures stopped { IfErr result (λ r. r ≡ refusals.StoreFault → IsTrue file.new.stopped) }
    // But for a fault of the store, the node's state is saved: the rows are those of it, and a crash leaves them alone.
    ensures running { HasStored result → file.new.stopped ≡ file.old.stopped }
    ensures last { HasStored result → file.new.last ≡ node.new.saved }
    ensures rows { HasStored result → KeepsFile S.Store file.old file.new }
    ensures preserved { HasStored result → LeavesFile S.Store file.old file.new (λ s. s ≡ node.new.saved) }
{
    let mut frames = FrameReader::new(alloc)?;
    answer_frames(alloc, reader, writer, node, file, &mut frames)
}
