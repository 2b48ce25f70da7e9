//! What a step sends, to a writer.

ghost use Rattle.std.specs.Prelude.{map, OnOk, OnErr, IfErr};
ghost use Rattle.std.specs.Io.KnownBytes.{Appends};
ghost use Rattle.desk_types.specs.declared.refusal.Refusal.TheVariants as refusals;
ghost use Rattle.desk_frames.specs.Stream.{frames_spelling};
ghost use Rattle.desk_output.specs.Prefixes.{AppendsPrefix};
ghost use Rattle.desk_types.specs.Refusal.{IsWritingFault};

use desk_frames::write_packet;
use desk_output::flush;
use desk_types::{Packet, Refusal};
use std::alloc::Global;
use std::io::Write;

/// Writes the frames of packets, without their receivers.
fn write_packets<W: Write>(
    alloc: Global,
    writer: &mut W,
    packets: &[(u8, Packet)],
) -> Result<(), Refusal>
    ensures ok { OnOk result (Appends (W.contents writer.old) (W.contents writer.new)
        (frames_spelling (map (λ sent. sent.1) packets.now))) }
    ensures err { OnErr result (AppendsPrefix (W.contents writer.old) (W.contents writer.new)
        (frames_spelling (map (λ sent. sent.1) packets.now))) }
    ensures fault { IfErr result IsWritingFault }
{
    for sent in packets {
        if let Err(fault) = write_packet(alloc, writer, &sent.1) {
            return Err(fault.refusal);
        }
    }
    Ok(())
}

/// Sends packets: their frames are written, and the writer is flushed.
pub(crate) fn send<W: Write>(
    alloc: Global,
    writer: &mut W,
    packets: &[(u8, Packet)],
) -> Result<(), Refusal>
    ensures ok { OnOk result (Appends (W.contents writer.old) (W.contents writer.new)
        (frames_spelling (map (λ sent. sent.1) packets.now))) }
    ensures err { OnErr result (AppendsPrefix (W.contents writer.old) (W.contents writer.new)
        (frames_spelling (map (λ sent. sent.1) packets.now))) }
    ensures fault { IfErr result IsWritingFault }
{
    write_packets(alloc, writer, packets)?;
    flush(writer)
}
