//! Packets whose bytes are all there.

ghost use Rattle.std.specs.Prelude.{◌≡◌, ◌≤◌, ◌∷◌, ◌||◌, ◌⊎◌, [], length, drop, IfOk, IfErr};
ghost use Rattle.std.specs.List.{list_any};
ghost use Rattle.desk_types.specs.declared.packet.Message.{Message};
ghost use Rattle.desk_types.specs.declared.refusal.Refusal.TheVariants as refusals;
ghost use Rattle.desk_codec.specs.Packets.{rebuilt, PacketOf, WholePacket};
ghost use Rattle.desk_codec.specs.Ranges.{FitsEntries};
ghost use Rattle.desk_codec.specs.Spelling.{SpellsPacket};
ghost use Rattle.desk_codec.specs.Starts.{FitsKind, tells_new_place};
ghost use Rattle.desk_codec.specs.Version.{is_new_entry};

use crate::entry::front_entry;
use crate::fault::FrameFault;
use crate::kind::{
    COMMIT, DO_VIEW_CHANGE, GET_STATE, PREPARE, PREPARE_OK, START_VIEW, START_VIEW_CHANGE,
};
use crate::range::needs_two_at;
use crate::start::{PacketStart, front_start};
use crate::version::{has_new_verb, version_by};
use desk_types::{Entry, Items, Message, Packet, Refusal, WantOfMemory};
use std::alloc::Global;

fn only_entry(entries: Vec<Entry>) -> Entry
    requires { length entries.items ≡ 1 }
    ensures { entries.items ≡ result ∷ [] }
{
    let mut entries = entries;
    match entries.pop() {
        Some(entry) => entry,
        None => unreachable!(),
    }
}

/// The message of the start, with its entries.
#[tactic(auto, unfolding(crate::specs::Packets::rebuilt))]
fn message_of(start: PacketStart, entries: Vec<Entry>) -> Message
    requires made { FitsKind start }
    requires count { length entries.items ≡ start.count }
    ensures { result ≡ rebuilt start entries.items }
{
    let from = start.head.from;
    let view = start.head.view;
    match start.head.kind {
        PREPARE => Message::Prepare {
            from,
            view,
            place: start.first,
            commit: start.second,
            entry: only_entry(entries),
        },
        PREPARE_OK => Message::PrepareOk {
            from,
            view,
            place: start.first,
        },
        COMMIT => Message::Commit {
            from,
            view,
            commit: start.first,
        },
        START_VIEW_CHANGE => Message::StartViewChange { from, view },
        DO_VIEW_CHANGE => Message::DoViewChange {
            from,
            view,
            normal: start.first,
            commit: start.second,
            log: Items::from_vec(entries),
        },
        START_VIEW => Message::StartView {
            from,
            view,
            commit: start.first,
            log: Items::from_vec(entries),
        },
        GET_STATE => Message::GetState {
            from,
            view,
            base: start.first,
        },
        _ => Message::NewState {
            from,
            view,
            base: start.first,
            commit: start.second,
            entries: Items::from_vec(entries),
        },
    }
}

/// Whether the start or the entries need version 2.
fn needs_two(start: PacketStart, entries: &[Entry]) -> bool
    ensures { result ≡ (tells_new_place start || list_any is_new_entry entries.now) }
{
    needs_two_at(start) || has_new_verb(entries)
}

/// The packet of a start and its entries, as many as the start tells. `None` where they need another version than the
/// start's, or the packet is out of its ranges.
pub fn packet_of(start: PacketStart, entries: Vec<Entry>) -> Option<Packet>
    requires made { FitsKind start }
    requires fit { FitsEntries entries.items }
    requires count { length entries.items ≡ start.count }
    ensures { PacketOf start entries.items result }
{
    if start.head.version != version_by(needs_two(start, entries.as_slice())) {
        return None;
    }
    let message = message_of(start, entries);
    if message.is_in_range() {
        Some(Packet::new(message))
    } else {
        drop(message);
        None
    }
}

/// The bytes from a place on.
fn after(bytes: &[u8], at: usize) -> &[u8]
    requires { at ≤ length bytes.now }
    ensures { result.now ≡ drop at bytes.now }
{
    let (_, rest) = bytes.split_at(at);
    rest
}

/// The packet that the bytes spell, all of them.
fn whole_packet(alloc: Global, bytes: &[u8]) -> Result<Option<Packet>, WantOfMemory>
    ensures { IfOk result (WholePacket bytes.now) }
{
    let (start, count) = match front_start(bytes) {
        Ok(found) => found,
        Err(_) => return Ok(None),
    };
    let mut entries = Vec::new(alloc);
    let mut at = count;
    let mut more = start.count;
    while more > 0 {
        match front_entry(alloc, start.head.version, after(bytes, at))? {
            Ok((entry, size)) => {
                entries.push(entry)?;
                at += size;
                more -= 1;
            }
            Err(_) => return Ok(None),
        }
    }
    if at < bytes.len() {
        return Ok(None);
    }
    Ok(packet_of(start, entries))
}

/// The packet that the bytes after a frame's length spell, all of them. Refused are bytes that are no spelling, by
/// `FrameFault`, and want of memory, by `WantOfMemory`.
pub fn get_packet(alloc: Global, bytes: &[u8]) -> Result<Packet, FrameFault>
    // What is read is spelled so.
    ensures found { IfOk result (λ m. SpellsPacket m bytes.now) }
    // Bytes are refused only where they spell no packet.
    ensures refused { IfErr result (λ e. (e.refusal ≡ refusals.WantOfMemory)
        ⊎ ((e.refusal ≡ refusals.FrameFault) × ((m : Message) → SpellsPacket m bytes.now → ⊥))) }
{
    match whole_packet(alloc, bytes) {
        Ok(Some(packet)) => Ok(packet),
        Ok(None) => Err(FrameFault {
            refusal: Refusal::FrameFault,
        }),
        Err(WantOfMemory) => Err(FrameFault {
            refusal: Refusal::WantOfMemory,
        }),
    }
}
