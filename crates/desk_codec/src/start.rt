//! What a packet begins with, up to its entries.

ghost use Rattle.std.specs.Prelude.{◌≡◌, ◌||◌};
ghost use Rattle.std.specs.Int.{w32};
ghost use Rattle.desk_codec.specs.Fronts.{GivesFront};
ghost use Rattle.desk_codec.specs.Starts.{has_first_number, has_second_number, has_entry_count, lone_entries};
ghost use Rattle.desk_codec.specs.Starts.{is_first_number, is_entry_count, tells_new_place, front_head, front_start};
ghost use Rattle.desk_codec.specs.Starts.{front_first_number, front_second_number, front_entry_count, FrontStart};

use crate::fault::Lack;
use crate::front::{front_byte, front_u32, front_u64};
use crate::kind::is_message_kind;
use crate::range::{
    has_entry_count, has_first_number, has_second_number, is_entry_count, is_first_number,
    lone_entries,
};
use crate::version::{is_place_in, is_version};
use desk_types::limits::LAST_VIEW;

/// What a packet begins with: the version of its spelling, 1 or 2; its kind's number, 1 to 8; the node that it is from;
/// and the view, at most `LAST_VIEW`.
#[derive(Clone, Copy)]
pub struct PacketHead {
    pub version: u8,
    pub kind: u8,
    pub from: u8,
    pub view: u64,
}

/// What stands before a packet's entries: its head; the first and the second number after it, 0 where its kind has
/// none; and how many entries it has.
#[derive(Clone, Copy)]
pub struct PacketStart {
    pub head: PacketHead,
    pub first: u64,
    pub second: u64,
    pub count: u32,
}

#[tactic(auto, unfolding(crate::specs::Starts::front_head))]
fn read_head(bytes: &[u8]) -> Result<(PacketHead, &[u8]), Lack>
    ensures { GivesFront (λ x. (x.0, x.1.now)) result (front_head bytes.now) }
{
    let (version, rest) = front_byte(bytes)?;
    if !is_version(version) {
        return Err(Lack::NoSpelling);
    }
    let (kind, rest) = front_byte(rest)?;
    if !is_message_kind(kind) {
        return Err(Lack::NoSpelling);
    }
    let (from, rest) = front_byte(rest)?;
    let (view, rest) = front_u64(rest)?;
    if view > LAST_VIEW {
        return Err(Lack::NoSpelling);
    }
    let head = PacketHead {
        version,
        kind,
        from,
        view,
    };
    Ok((head, rest))
}

/// The number after the head, where packets of this kind have one.
#[tactic(auto, unfolding(crate::specs::Starts::front_first_number))]
fn front_first_number(head: PacketHead, bytes: &[u8]) -> Result<(u64, &[u8]), Lack>
    ensures { GivesFront (λ x. (x.0, x.1.now)) result (front_first_number head bytes.now) }
{
    if !has_first_number(head.kind) {
        return Ok((0, bytes));
    }
    let (first, rest) = front_u64(bytes)?;
    if is_first_number(head, first) {
        Ok((first, rest))
    } else {
        Err(Lack::NoSpelling)
    }
}

/// The number after that.
#[tactic(auto, unfolding(crate::specs::Starts::front_second_number))]
fn front_second_number(head: PacketHead, bytes: &[u8]) -> Result<(u64, &[u8]), Lack>
    ensures { GivesFront (λ x. (x.0, x.1.now)) result (front_second_number head bytes.now) }
{
    if !has_second_number(head.kind) {
        return Ok((0, bytes));
    }
    let (second, rest) = front_u64(bytes)?;
    if is_place_in(head.version, second) {
        Ok((second, rest))
    } else {
        Err(Lack::NoSpelling)
    }
}

/// How many entries there are, which packets with a log tell.
#[tactic(auto, unfolding(crate::specs::Starts::front_entry_count))]
fn front_entry_count(
    head: PacketHead,
    first: u64,
    second: u64,
    bytes: &[u8],
) -> Result<(u32, &[u8]), Lack>
    ensures { GivesFront (λ x. (x.0, x.1.now)) result (front_entry_count head first second bytes.now) }
{
    if !has_entry_count(head.kind) {
        return Ok((lone_entries(head.kind), bytes));
    }
    let (count, rest) = front_u32(bytes)?;
    if is_entry_count(head, first, second, count) {
        Ok((count, rest))
    } else {
        Err(Lack::NoSpelling)
    }
}

#[tactic(auto, unfolding(crate::specs::Starts::front_start))]
fn read_start(bytes: &[u8]) -> Result<(PacketStart, &[u8]), Lack>
    ensures { GivesFront (λ x. (x.0, x.1.now)) result (front_start bytes.now) }
{
    let (head, rest) = read_head(bytes)?;
    let (first, rest) = front_first_number(head, rest)?;
    let (second, rest) = front_second_number(head, rest)?;
    let (count, rest) = front_entry_count(head, first, second, rest)?;
    let start = PacketStart {
        head,
        first,
        second,
        count,
    };
    Ok((start, rest))
}

/// What stands before a packet's entries, and how many bytes it has, 11 to 31; or whether more bytes are needed, or no
/// packet begins so. The ranges are tested field by field, so a fault is reported with its field's last byte.
pub fn front_start(bytes: &[u8]) -> Result<(PacketStart, usize), Lack>
    ensures { FrontStart bytes.now result }
{
    let (start, rest) = read_start(bytes)?;
    Ok((start, bytes.len() - rest.len()))
}
