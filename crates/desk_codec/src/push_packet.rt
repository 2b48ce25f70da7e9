//! Putting entries, logs and packets last. Where memory is refused, a part of the spelling stands last.
#![tactic(auto, using(crate::proofs::Growing::grows_rules))]

ghost use Rattle.std.specs.Prelude.{◌≡◌, ◌++◌, ◌≤◌, ◌+◌, length, take, drop, OnOk, OnErr};
ghost use Rattle.std.specs.List.{flat_map};
ghost use Rattle.std.specs.Int.{w16, to_be_bytes};
ghost use Rattle.desk_types.specs.Packet.{IsInRange};
ghost use Rattle.desk_codec.specs.Growing.{Grows};
ghost use Rattle.desk_codec.specs.Ranges.{FitsCommand, FitsEntry, FitsEntries, FitsNode, FitsParts, FitsMessage};
ghost use Rattle.desk_codec.specs.Spelling.{long, body_spelling, sized, entry_spelling, log_spelling, head};
ghost use Rattle.desk_codec.specs.Spelling.{spelling_in, packet_spelling};

use crate::kind::MessageKind;
use crate::push::{push_bytes, push_u64};
use crate::push_body::push_body;
use crate::version::version_of;
use desk_types::limits::LOG_ENTRIES;
use desk_types::{Command, Entry, Items, Message, Packet, WantOfMemory};

/// Writes a number over the two bytes at a place.
fn write_u16(out: &mut Vec<u8>, at: usize, number: u16)
    requires { at + 2 ≤ length out.old.items }
    ensures { out.new.items ≡ take at out.old.items ++ (to_be_bytes w16 number ++ drop (at + 2) out.old.items) }
{
    out.as_mut_slice()[at..at + 2].copy_from_slice(&number.to_be_bytes());
}

/// The spelling of a command after its length, which is known once the command is put.
fn push_sized_body(out: &mut Vec<u8>, command: &Command) -> Result<(), WantOfMemory>
    ensures spelling { OnOk result (out.new.items ≡ out.old.items ++ sized (body_spelling command.now)) }
    ensures fits { OnOk result (FitsCommand command.now) }
    ensures err { OnErr result (Grows out.old.items out.new.items) }
{
    let at = out.len();
    push_bytes(out, &[0, 0])?;
    push_body(out, command)?;
    let count = out.len() - at - 2;
    write_u16(out, at, count as u16);
    Ok(())
}

#[tactic(auto, using(crate::proofs::Growing::grows_rules), unfolding(crate::specs::Spelling::entry_spelling))]
pub(crate) fn push_entry(out: &mut Vec<u8>, entry: &Entry) -> Result<(), WantOfMemory>
    ensures spelling { OnOk result (out.new.items ≡ out.old.items ++ entry_spelling entry.now) }
    ensures fits { OnOk result (FitsEntry entry.now) }
    ensures err { OnErr result (Grows out.old.items out.new.items) }
{
    push_bytes(out, &entry.client.get().to_be_bytes())?;
    push_bytes(out, &entry.number.get().to_be_bytes())?;
    push_sized_body(out, &entry.command)
}

/// The spellings of entries, one after the other.
fn push_entries(out: &mut Vec<u8>, entries: &[Entry]) -> Result<(), WantOfMemory>
    ensures spelling { OnOk result (out.new.items ≡ out.old.items ++ flat_map entry_spelling entries.now) }
    ensures fits { OnOk result (FitsEntries entries.now) }
    ensures err { OnErr result (Grows out.old.items out.new.items) }
{
    for entry in entries {
        push_entry(out, entry)?;
    }
    Ok(())
}

#[tactic(auto, using(crate::proofs::Growing::grows_rules), unfolding(crate::specs::Spelling::log_spelling))]
fn push_log(out: &mut Vec<u8>, log: &Items<Entry>) -> Result<(), WantOfMemory>
    requires { length log.now ≤ LOG_ENTRIES }
    ensures spelling { OnOk result (out.new.items ≡ out.old.items ++ log_spelling log.now) }
    ensures fits { OnOk result (FitsEntries log.now) }
    ensures err { OnErr result (Grows out.old.items out.new.items) }
{
    let entries = log.as_slice();
    push_bytes(out, &(entries.len() as u32).to_be_bytes())?;
    push_entries(out, entries)
}

/// What a packet begins with: the version, the kind, the node that it is from, and the view.
fn push_head(
    out: &mut Vec<u8>,
    version: u8,
    kind: MessageKind,
    from: u8,
    view: u64,
) -> Result<(), WantOfMemory>
    ensures spelling { OnOk result (out.new.items ≡ out.old.items ++ head version kind from view) }
    ensures fits { OnOk result (FitsNode from) }
    ensures err { OnErr result (Grows out.old.items out.new.items) }
{
    push_bytes(out, &[version, kind.number(), from])?;
    push_bytes(out, &view.to_be_bytes())
}

/// A head and one number.
fn push_number(
    out: &mut Vec<u8>,
    version: u8,
    kind: MessageKind,
    from: u8,
    view: u64,
    number: u64,
) -> Result<(), WantOfMemory>
    ensures spelling { OnOk result (out.new.items ≡ out.old.items ++ (head version kind from view ++ long number)) }
    ensures fits { OnOk result (FitsNode from) }
    ensures err { OnErr result (Grows out.old.items out.new.items) }
{
    push_head(out, version, kind, from, view)?;
    push_u64(out, number)
}

/// A head and two numbers.
fn push_numbers(
    out: &mut Vec<u8>,
    version: u8,
    kind: MessageKind,
    from: u8,
    view: u64,
    numbers: (u64, u64),
) -> Result<(), WantOfMemory>
    ensures spelling { OnOk result (out.new.items
        ≡ out.old.items ++ (head version kind from view ++ (long numbers.0 ++ long numbers.1))) }
    ensures fits { OnOk result (FitsNode from) }
    ensures err { OnErr result (Grows out.old.items out.new.items) }
{
    push_head(out, version, kind, from, view)?;
    push_u64(out, numbers.0)?;
    push_u64(out, numbers.1)
}

/// The spelling of a message whose first byte is this version.
#[tactic(auto, using(crate::proofs::Growing::grows_rules), unfolding(crate::specs::Spelling::spelling_in))]
fn push_message(out: &mut Vec<u8>, version: u8, message: &Message) -> Result<(), WantOfMemory>
    requires { IsInRange message.now }
    ensures spelling { OnOk result (out.new.items ≡ out.old.items ++ spelling_in version message.now) }
    ensures fits { OnOk result (FitsParts message.now) }
    ensures err { OnErr result (Grows out.old.items out.new.items) }
{
    match message {
        Message::Prepare {
            from,
            view,
            place,
            commit,
            entry,
        } => {
            push_numbers(
                out,
                version,
                MessageKind::Prepare,
                *from,
                *view,
                (*place, *commit),
            )?;
            push_entry(out, entry)
        }
        Message::PrepareOk { from, view, place } => push_number(
            out,
            version,
            MessageKind::PrepareOk,
            *from,
            *view,
            *place,
        ),
        Message::Commit { from, view, commit } => push_number(
            out,
            version,
            MessageKind::Commit,
            *from,
            *view,
            *commit,
        ),
        Message::StartViewChange { from, view } => push_head(
            out,
            version,
            MessageKind::StartViewChange,
            *from,
            *view,
        ),
        Message::DoViewChange {
            from,
            view,
            normal,
            commit,
            log,
        } => {
            push_numbers(
                out,
                version,
                MessageKind::DoViewChange,
                *from,
                *view,
                (*normal, *commit),
            )?;
            push_log(out, log)
        }
        Message::StartView {
            from,
            view,
            commit,
            log,
        } => {
            push_number(out, version, MessageKind::StartView, *from, *view, *commit)?;
            push_log(out, log)
        }
        Message::GetState { from, view, base } => push_number(
            out,
            version,
            MessageKind::GetState,
            *from,
            *view,
            *base,
        ),
        Message::NewState {
            from,
            view,
            base,
            commit,
            entries,
        } => {
            push_numbers(
                out,
                version,
                MessageKind::NewState,
                *from,
                *view,
                (*base, *commit),
            )?;
            push_log(out, entries)
        }
    }
}

#[tactic(auto, using(crate::proofs::Growing::grows_rules), unfolding(crate::specs::Spelling::packet_spelling))]
pub(crate) fn push_packet(out: &mut Vec<u8>, packet: &Packet) -> Result<(), WantOfMemory>
    ensures spelling { OnOk result (out.new.items ≡ out.old.items ++ packet_spelling packet.now) }
    ensures fits { OnOk result (FitsMessage packet.now) }
    ensures err { OnErr result (Grows out.old.items out.new.items) }
{
    let message = packet.message();
    push_message(out, version_of(message), message)
}
