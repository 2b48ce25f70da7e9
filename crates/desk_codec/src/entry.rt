//! Readers of entries.

ghost use Rattle.std.specs.Prelude.{◌≡◌, ◌≤◌, ◌+◌, ◌++◌, ◌⊎◌, IfOk, IfErr, List, ℕ, length, take, drop};
ghost use Rattle.desk_types.specs.declared.command.Entry.{Entry};
ghost use Rattle.desk_types.specs.declared.refusal.Refusal.TheVariants as refusals;
ghost use Rattle.desk_codec.specs.declared.TheConstants.{ENTRY_HEAD_BYTES};
ghost use Rattle.desk_codec.specs.Entries.{front_entry_head, is_entry_in, FrontEntry};
ghost use Rattle.desk_codec.specs.Fronts.{GivesFront};
ghost use Rattle.desk_codec.specs.Spelling.{SpellsEntry};

use crate::ENTRY_HEAD_BYTES;
use crate::body::get_body;
use crate::fault::{FrameFault, Lack};
use desk_types::limits::BODY_BYTES;
use desk_types::{ClientId, Command, Entry, Refusal, RequestNumber, WantOfMemory};
use std::alloc::Global;

/// What stands before an entry's body: its client, its number, and how many bytes the body has.
#[derive(Clone, Copy)]
struct EntryHead {
    client: ClientId,
    number: RequestNumber,
    body: usize,
}

/// An entry's head, which is one field: a fault in it is reported with its last byte.
#[tactic(auto, unfolding(crate::specs::Entries::front_entry_head))]
fn read_entry_head(bytes: &[u8]) -> Result<EntryHead, Lack>
    ensures { GivesFront (λ head. head) result (front_entry_head bytes.now) }
{
    if bytes.len() < ENTRY_HEAD_BYTES {
        return Err(Lack::Needs);
    }
    let client = ClientId::new(u64::from_be_bytes([
        bytes[0], bytes[1], bytes[2], bytes[3], bytes[4], bytes[5], bytes[6], bytes[7],
    ]));
    let number = RequestNumber::new(u64::from_be_bytes([
        bytes[8], bytes[9], bytes[10], bytes[11], bytes[12], bytes[13], bytes[14], bytes[15],
    ]));
    let body = u16::from_be_bytes([bytes[16], bytes[17]]) as usize;
    match (client, number) {
        (Some(client), Some(number)) if 1 <= body && body <= BODY_BYTES => Ok(EntryHead {
            client,
            number,
            body,
        }),
        _ => Err(Lack::NoSpelling),
    }
}

/// The body after an entry's head.
fn body_in(bytes: &[u8], count: usize) -> &[u8]
    requires { ENTRY_HEAD_BYTES + count ≤ length bytes.now }
    ensures { result.now ≡ take count (drop ENTRY_HEAD_BYTES bytes.now) }
{
    let (_, rest) = bytes.split_at(ENTRY_HEAD_BYTES);
    let (body, _) = rest.split_at(count);
    body
}

/// Whether a packet of this version can have an entry.
fn is_entry_in(version: u8, entry: &Entry) -> bool
    ensures { result ≡ is_entry_in version entry.now }
{
    match &entry.command {
        Command::StandBy { .. } => version == 2,
        Command::StandDown { .. } => version == 2,
        Command::Replace { .. } => version == 2,
        _ => true,
    }
}

/// The entry that the bytes begin with, where a packet of this version, 1 or 2, can have it, and how many bytes it has,
/// at most 1,042; or whether more bytes are needed, or no such entry begins so. Err only where memory is refused, which
/// says nothing of the bytes.
pub fn front_entry(
    alloc: Global,
    version: u8,
    bytes: &[u8],
) -> Result<Result<(Entry, usize), Lack>, WantOfMemory>
    ensures { IfOk result (FrontEntry version bytes.now) }
{
    let head = match read_entry_head(bytes) {
        Ok(head) => head,
        Err(lack) => return Ok(Err(lack)),
    };
    let count = ENTRY_HEAD_BYTES + head.body;
    if bytes.len() < count {
        return Ok(Err(Lack::Needs));
    }
    match get_body(alloc, body_in(bytes, head.body)) {
        Ok(command) => {
            let entry = Entry {
                client: head.client,
                number: head.number,
                command,
            };
            if is_entry_in(version, &entry) {
                Ok(Ok((entry, count)))
            } else {
                drop(entry);
                Ok(Err(Lack::NoSpelling))
            }
        }
        Err(fault) => {
            fault.refusal.unless_of_memory()?;
            Ok(Err(Lack::NoSpelling))
        }
    }
}

/// The entry that a prefix of the bytes spells, and the length of that prefix. Refused are bytes that begin with no
/// spelling, by `FrameFault`, and want of memory, by `WantOfMemory`.
pub fn get_entry(alloc: Global, bytes: &[u8]) -> Result<(Entry, usize), FrameFault>
    ensures within { IfOk result (λ x. x.1 ≤ length bytes.now) }
    // What is read is spelled so.
    ensures found { IfOk result (λ x. SpellsEntry x.0 (take x.1 bytes.now)) }
    // Bytes are refused only where no prefix spells an entry.
    ensures refused { IfErr result (λ e. (e.refusal ≡ refusals.WantOfMemory) ⊎ ((e.refusal ≡ refusals.FrameFault)
        × ((entry : Entry) (x rest : List ℕ) → SpellsEntry entry x → bytes.now ≡ x ++ rest → ⊥))) }
{
    match front_entry(alloc, 2, bytes) {
        Ok(Ok(found)) => Ok(found),
        Ok(Err(_)) => Err(FrameFault {
            refusal: Refusal::FrameFault,
        }),
        Err(WantOfMemory) => Err(FrameFault {
            refusal: Refusal::WantOfMemory,
        }),
    }
}
