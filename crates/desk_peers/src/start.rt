//! What a stream begins with.

ghost use Rattle.std.specs.Prelude.{◌≡◌, ◌≤◌, ◌⊎◌, ◌++◌, ℕ, false, List, length, [], None, IfOk, IfErr, IfSome, OnOk};
ghost use Rattle.std.specs.Int.{w32, from_be_bytes};
ghost use Rattle.std.specs.Io.KnownBytes.{Consumes, IsAtEnd};
ghost use Rattle.desk_types.specs.declared.refusal.Refusal.TheVariants as refusals;
ghost use Rattle.desk_frames.specs.Stream.{BeginsNone, Holds};
ghost use Rattle.desk_peers.specs.Headers.{header_mark, header_spelling, is_untold, FitsHeader};
ghost use Rattle.desk_peers.specs.Incoming.{HasFilled, FailsToFill, BeginsUnder, IsNoBeginning, HasNoBeginning};
ghost use Rattle.desk_peers.specs.declared.header.TheConstants.{MARK_BYTES};

use crate::header::{
    EpochHeader, EpochPlaces, FIRST_HEADER, HEADER_BYTES, MARK_BYTES, mark_of, written_header,
};
use desk_codec::laws::spellings;
use desk_frames::FrameReader;
use desk_output::ReadCount;
use desk_types::Refusal;
use std::alloc::Global;
use std::io::Read;

/// What a stream begins with: its header, and bytes that were read after it, which are at most four.
#[derive(Drop)]
pub(crate) struct StreamStart {
    pub(crate) header: EpochHeader,
    pub(crate) bytes: Vec<u8>,
}

/// Reads on until so many bytes are there, or to the end of the stream. Refused are want of memory, by `WantOfMemory`,
/// and a read that fails, by `ReadFault`.
fn read_up_to<I: Read>(reader: &mut I, bytes: &mut Vec<u8>, count: usize) -> Result<(), Refusal>
    requires { length bytes.old.items ≤ count }
    ensures ok { OnOk result
        (HasFilled (I.remaining reader.old) (I.remaining reader.new) bytes.old.items bytes.new.items count) }
    ensures err { IfErr result (λ r.
        FailsToFill r (I.remaining reader.old) (I.remaining reader.new) bytes.old.items count) }
{
    let mut reads = ReadCount::new();
    let mut room = [0u8; 1];
    while bytes.len() < count {
        if reads.read_piece(reader, &mut room)? == 0 {
            return Ok(());
        }
        bytes.push(room[0])?;
    }
    Ok(())
}

/// Reads the rest of a header, whose mark was read. It is `FrameFault` where it has no purpose, or tells one that is
/// untold, and `ReadFault` where it is not whole.
fn read_header<I: Read>(
    places: EpochPlaces,
    reader: &mut I,
    mark: Vec<u8>,
) -> Result<EpochHeader, Refusal>
    requires length { length mark.items ≡ MARK_BYTES }
    requires mark { from_be_bytes w32 mark.items ≡ header_mark places.places }
    ensures ok { IfOk result (λ h. (more : List ℕ) × Consumes (I.remaining reader.old) (I.remaining reader.new) more
        × (mark.items ++ more ≡ header_spelling places.places h) × (is_untold places.places h ≡ false)
        × FitsHeader h) }
    ensures err { IfErr result (λ r. (more : List ℕ)
        × Consumes (I.remaining reader.old) (I.remaining reader.new) more
        × IsNoBeginning places.places r (mark.items ++ more)) }
{
    spellings();
    let mut bytes = mark;
    read_up_to(reader, &mut bytes, HEADER_BYTES)?;
    if bytes.len() < HEADER_BYTES {
        return Err(Refusal::ReadFault);
    }
    match written_header(places, bytes.as_slice()) {
        Some(header) => Ok(header),
        None => Err(Refusal::FrameFault),
    }
}

/// Reads a stream's header, or its first four bytes where they are those of a frame; `None` where it has no byte.
/// Refused are want of memory, by `WantOfMemory`, a header that is none or of other places, by `FrameFault`, and a read
/// that fails or an end before that, by `ReadFault`.
pub(crate) fn read_start<I: Read>(
    alloc: Global,
    places: EpochPlaces,
    reader: &mut I,
) -> Result<Option<StreamStart>, Refusal>
    ensures none { IfOk result (λ start. start ≡ None →
        Consumes (I.remaining reader.old) (I.remaining reader.new) [] × IsAtEnd (I.remaining reader.new)) }
    ensures some { IfOk result (λ start. IfSome start (λ s.
        BeginsUnder places.places (I.remaining reader.old) (I.remaining reader.new) s.header s.bytes.items)) }
    ensures err { IfErr result (λ r. HasNoBeginning places.places r (I.remaining reader.old) (I.remaining reader.new)) }
{
    spellings();
    let mut bytes = Vec::new(alloc);
    read_up_to(reader, &mut bytes, MARK_BYTES)?;
    if bytes.is_empty() {
        return Ok(None);
    }
    if bytes.len() < MARK_BYTES {
        return Err(Refusal::ReadFault);
    }
    if mark_of(bytes.as_slice()) == places.mark() {
        let header = read_header(places, reader, bytes)?;
        return Ok(Some(StreamStart {
            header,
            bytes: Vec::new(alloc),
        }));
    }
    if !places.is_untold(FIRST_HEADER) {
        return Err(Refusal::FrameFault);
    }
    Ok(Some(StreamStart {
        header: FIRST_HEADER,
        bytes,
    }))
}

/// A reader of frames to which the first bytes of one were fed. Refused are want of memory, by `WantOfMemory`, and
/// bytes that no frame begins with, by `FrameFault`.
pub(crate) fn start_frames(alloc: Global, bytes: &[u8]) -> Result<FrameReader, Refusal>
    requires { length bytes.now ≤ MARK_BYTES }
    ensures standing { IfOk result (λ r. Holds r.standing bytes.now) }
    ensures waiting { IfOk result (λ r. r.waiting ≡ []) }
    ensures err { IfErr result (λ r. (r ≡ refusals.WantOfMemory)
        ⊎ ((r ≡ refusals.FrameFault) × BeginsNone bytes.now)) }
{
    spellings();
    let mut frames = FrameReader::new(alloc)?;
    match frames.feed(bytes) {
        // (four bytes are no whole frame)
        Ok(packets) => {
            drop(packets);
            Ok(frames)
        }
        Err(fault) => Err(fault.refusal),
    }
}
