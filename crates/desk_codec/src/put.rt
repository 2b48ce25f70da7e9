//! Appending the spellings of values.
#![tactic(auto, using(crate::proofs::Growing::grows_back))]

ghost use Rattle.std.specs.Prelude.{◌≡◌, ◌++◌, OnOk, OnErr};
ghost use Rattle.desk_codec.specs.Ranges.{FitsCommand, FitsEntry, FitsMessage};
ghost use Rattle.desk_codec.specs.Spelling.{body_spelling, entry_spelling, packet_spelling};

use crate::push_body::push_body;
use crate::push_packet::{push_entry, push_packet};
use desk_types::{Command, Entry, Packet, WantOfMemory};

/// Appends the spelling of a command, or nothing where the allocator refuses memory.
pub fn put_body(command: &Command, out: &mut Vec<u8>) -> Result<(), WantOfMemory>
    ensures ok { OnOk result (out.new.items ≡ out.old.items ++ body_spelling command.now) }
    ensures fits { OnOk result (FitsCommand command.now) }
    ensures err { OnErr result (out.new.items ≡ out.old.items) }
{
    let before = out.len();
    match push_body(out, command) {
        Ok(()) => Ok(()),
        Err(want) => {
            out.truncate(before);
            Err(want)
        }
    }
}

/// Appends the spelling of an entry, or nothing where the allocator refuses memory.
pub fn put_entry(entry: &Entry, out: &mut Vec<u8>) -> Result<(), WantOfMemory>
    ensures ok { OnOk result (out.new.items ≡ out.old.items ++ entry_spelling entry.now) }
    ensures fits { OnOk result (FitsEntry entry.now) }
    ensures err { OnErr result (out.new.items ≡ out.old.items) }
{
    let before = out.len();
    match push_entry(out, entry) {
        Ok(()) => Ok(()),
        Err(want) => {
            out.truncate(before);
            Err(want)
        }
    }
}

/// Appends the spelling of a packet, which stands after a frame's length, or nothing where the allocator refuses
/// memory.
pub fn put_packet(packet: &Packet, out: &mut Vec<u8>) -> Result<(), WantOfMemory>
    ensures ok { OnOk result (out.new.items ≡ out.old.items ++ packet_spelling packet.now) }
    ensures fits { OnOk result (FitsMessage packet.now) }
    ensures err { OnErr result (out.new.items ≡ out.old.items) }
{
    let before = out.len();
    match push_packet(out, packet) {
        Ok(()) => Ok(()),
        Err(want) => {
            out.truncate(before);
            Err(want)
        }
    }
}
