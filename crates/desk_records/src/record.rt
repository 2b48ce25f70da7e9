//! One record.

ghost use Rattle.std.specs.Prelude.{◌≡◌, ◌≤◌, ◌+◌, true, length, take, drop, OnOk};
ghost use Rattle.desk_key.specs.declared.hmac.TheConstants.{TAG_BYTES};
ghost use Rattle.desk_records.specs.declared.record.TheConstants.{RECORD_BYTES, LENGTH_BYTES};
ghost use Rattle.desk_records.specs.Records.{is_right, payload_length, record_bytes};

use desk_key::{HmacKey, TAG_BYTES, are_same_tags};
use std::alloc::AllocError;

/// The most bytes that a record carries.
pub const RECORD_BYTES: usize = 65_536;

/// The bytes of a record before what it carries: those of its length.
pub(crate) const LENGTH_BYTES: usize = 4;

/// The bytes of a record beside what it carries.
pub(crate) const OTHER_BYTES: usize = LENGTH_BYTES + TAG_BYTES;

/// The room for one record, in bytes.
pub const ROOM_BYTES: usize = RECORD_BYTES + OTHER_BYTES;

/// How many bytes a record carries, by the length with which it begins.
pub(crate) fn payload_length(bytes: &[u8]) -> usize
    requires { LENGTH_BYTES ≤ length bytes.now }
    ensures { result ≡ payload_length bytes.now }
{
    let mut announced = [0; LENGTH_BYTES];
    announced.copy_from_slice(&bytes[..LENGTH_BYTES]);
    u32::from_be_bytes(announced) as usize
}

/// The tag that stands after so many bytes of a record.
fn tag_after(bytes: &[u8], front: usize) -> [u8; 32]
    requires { front + TAG_BYTES ≤ length bytes.now }
    ensures { result ≡ take TAG_BYTES (drop front bytes.now) }
{
    let mut tag = [0; TAG_BYTES];
    tag.copy_from_slice(&bytes[front..front + TAG_BYTES]);
    tag
}

/// Whether the bytes begin with the right record of a count. True is the answer for such a record alone.
pub(crate) fn is_right(key: &HmacKey, count: u64, bytes: &[u8]) -> bool
    requires { LENGTH_BYTES ≤ length bytes.now }
    ensures { result ≡ true → is_right key.now.block.value count bytes.now ≡ true }
{
    let carried = payload_length(bytes);
    if carried == 0 || carried > RECORD_BYTES || bytes.len() < carried + OTHER_BYTES {
        return false;
    }
    let front = carried + LENGTH_BYTES;
    let tag = key.tag_of_two(&count.to_be_bytes(), &bytes[..front]);
    are_same_tags(&tag_after(bytes, front), &tag)
}

/// Puts the record of a count into a room, in place of what stood there. Where memory is refused the room has a part of
/// it.
pub(crate) fn seal(
    key: &HmacKey,
    count: u64,
    payload: &[u8],
    room: &mut Vec<u8>,
) -> Result<(), AllocError>
    requires { length payload.now ≤ RECORD_BYTES }
    ensures { OnOk result (room.new.items ≡ record_bytes key.now.block.value count payload.now) }
{
    room.clear();
    room.extend_from_slice(&(payload.len() as u32).to_be_bytes())?;
    room.extend_from_slice(payload)?;
    let tag = key.tag_of_two(&count.to_be_bytes(), room.as_slice());
    room.extend_from_slice(&tag)
}
