//! Headers of connections, and their bytes.

ghost use Rattle.std.specs.Prelude.{◌≡◌, false, length, take, None, OnOk, OnErr, IfSome};
ghost use Rattle.std.specs.Int.{w32, w64, from_be_bytes};
ghost use Rattle.std.specs.Io.KnownBytes.{Appends};
ghost use Rattle.desk_output.specs.Prefixes.{AppendsPrefix};
ghost use Rattle.desk_peers.specs.Headers.{header_mark, header_of, header_bytes, header_spelling, is_first};
ghost use Rattle.desk_peers.specs.Headers.{is_untold, purpose_number, purpose_of};
ghost use Rattle.desk_peers.specs.Headers.{BeginsNoHeader, FitsHeader, FitsPlaces};
ghost use Rattle.desk_peers.specs.declared.header.TheConstants.{HEADER_BYTES, MARK_BYTES};

use desk_output::write_text;
use desk_types::limits::LOG_ENTRIES;
use desk_types::{EpochPacket, Purpose, Refusal};
use std::io::Write;

/// The number that a header begins with, in four bytes, where an epoch has `LOG_ENTRIES` places. No frame is as long.
pub const HEADER_MARK: u32 = 0xffff_ff03;
/// What is added to another number of places for the number that a header begins with. No frame is as long.
pub const PLACES_MARK: u32 = 0xfffe_0000;
/// The bytes of the mark.
pub const MARK_BYTES: usize = 4;
/// The bytes of a header: its mark, the number of its purpose, and its epoch.
pub const HEADER_BYTES: usize = 13;
/// The number of `Purpose::Step`.
pub const STEP: u8 = 0;
/// The number of `Purpose::Ask`.
pub const ASK: u8 = 1;
/// The number of `Purpose::Tell`.
pub const TELL: u8 = 2;

/// How many places an epoch has, in entries, at most `LOG_ENTRIES`: all nodes of a group have it alike. The mark of a
/// header tells it, so that a node takes no connection of one whose epochs end at another place.
#[derive(Clone, Copy)]
pub struct EpochPlaces {
    pub places: u64,
    pub ghost fits: { FitsPlaces places },
}

/// What a connection between nodes is for: all of its packets are of this epoch, counted from 0, and for this purpose.
#[derive(Clone, Copy, Debug, PartialEq, Eq)]
pub struct EpochHeader {
    pub epoch: u64,
    pub purpose: Purpose,
}

/// The header of the first epoch's steps.
pub(crate) const FIRST_HEADER: EpochHeader = EpochHeader {
    epoch: 0,
    purpose: Purpose::Step,
};

impl EpochHeader {
    /// The header of the connection that is to carry a packet.
    pub fn of_packet(packet: &EpochPacket) -> EpochHeader
        ensures { result ≡ header_of packet.now }
    {
        EpochHeader {
            epoch: packet.epoch,
            purpose: packet.purpose,
        }
    }

    /// Whether it is that of the first epoch's steps.
    pub fn is_first(self) -> bool
        ensures { result ≡ is_first self }
    {
        self.epoch == 0 && self.purpose == Purpose::Step
    }
}

impl EpochPlaces {
    /// The number that a header begins with.
    #[tactic(auto, unfolding(crate::specs::Headers::header_mark))]
    pub fn mark(self) -> u32
        ensures { result ≡ header_mark self.places }
    {
        if self.places == LOG_ENTRIES {
            return HEADER_MARK;
        }
        PLACES_MARK + self.places as u32
    }

    /// Whether a connection does not tell this header.
    pub(crate) fn is_untold(self, header: EpochHeader) -> bool
        ensures { result ≡ is_untold self.places header }
    {
        self.places == LOG_ENTRIES && header.is_first()
    }
}

fn purpose_number(purpose: Purpose) -> u8
    ensures { result ≡ purpose_number purpose }
{
    match purpose {
        Purpose::Step => STEP,
        Purpose::Ask => ASK,
        Purpose::Tell => TELL,
    }
}

/// The purpose of a number.
fn purpose_of(number: u8) -> Option<Purpose>
    ensures { result ≡ purpose_of number }
{
    match number {
        STEP => Some(Purpose::Step),
        ASK => Some(Purpose::Ask),
        TELL => Some(Purpose::Tell),
        _ => None,
    }
}

/// Writes a connection's header, which is nothing where it is untold. Where writing fails, that is `WriteFault`, and a
/// prefix of the header is written.
pub(crate) fn write_header<W: Write>(
    connection: &mut W,
    places: EpochPlaces,
    header: EpochHeader,
) -> Result<(), Refusal>
    ensures ok { OnOk result
        (Appends (W.contents connection.old) (W.contents connection.new) (header_spelling places.places header)) }
    ensures err { OnErr result
        (AppendsPrefix (W.contents connection.old) (W.contents connection.new) (header_spelling places.places header)) }
{
    if places.is_untold(header) {
        return Ok(());
    }
    let mark = places.mark().to_be_bytes();
    let epoch = header.epoch.to_be_bytes();
    let bytes = [
        mark[0],
        mark[1],
        mark[2],
        mark[3],
        purpose_number(header.purpose),
        epoch[0],
        epoch[1],
        epoch[2],
        epoch[3],
        epoch[4],
        epoch[5],
        epoch[6],
        epoch[7],
    ];
    write_text(connection, &bytes)
}

/// The number that these four bytes spell.
pub(crate) fn mark_of(bytes: &[u8]) -> u32
    requires { length bytes.now ≡ MARK_BYTES }
    ensures { result ≡ from_be_bytes w32 bytes.now }
{
    u32::from_be_bytes([bytes[0], bytes[1], bytes[2], bytes[3]])
}

/// The epoch that these eight bytes spell.
fn epoch_of(bytes: &[u8]) -> u64
    requires { length bytes.now ≡ 8 }
    ensures { result ≡ from_be_bytes w64 bytes.now }
{
    u64::from_be_bytes([
        bytes[0], bytes[1], bytes[2], bytes[3], bytes[4], bytes[5], bytes[6], bytes[7],
    ])
}

/// The header that these bytes are, which begin with the mark.
pub(crate) fn written_header(places: EpochPlaces, bytes: &[u8]) -> Option<EpochHeader>
    requires length { length bytes.now ≡ HEADER_BYTES }
    requires mark { from_be_bytes w32 (take MARK_BYTES bytes.now) ≡ header_mark places.places }
    ensures some { IfSome result (λ h. (bytes.now ≡ header_spelling places.places h)
        × (is_untold places.places h ≡ false) × FitsHeader h) }
    ensures none { result ≡ None → BeginsNoHeader places.places bytes.now }
{
    let (_, rest) = bytes.split_at(MARK_BYTES);
    let purpose = purpose_of(rest[0])?;
    let (_, number) = rest.split_at(1);
    let header = EpochHeader {
        epoch: epoch_of(number),
        purpose,
    };
    if places.is_untold(header) {
        return None;
    }
    Some(header)
}
