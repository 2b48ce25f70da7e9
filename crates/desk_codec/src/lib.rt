//! The spellings of commands, entries and packets: one for each value.
#![tactic(auto)]

mod body;
mod entry;
mod fault;
mod field;
mod front;
mod identifier;
pub mod kind;
pub mod laws;
mod packet;
mod push;
mod push_body;
mod push_packet;
mod put;
mod range;
mod start;
mod text;
mod version;

pub use body::get_body;
pub use entry::{front_entry, get_entry};
pub use fault::{FrameFault, Lack};
pub use packet::{get_packet, packet_of};
pub use put::{put_body, put_entry, put_packet};
pub use start::{PacketHead, PacketStart, front_start};
pub use version::has_new_verb;

/// The bytes that every packet begins with: the version, the kind, the node that it is from, and the view.
pub const HEAD_BYTES: usize = 11;
/// The bytes that every entry begins with, before its body: its client, its number, and the length of its body.
pub const ENTRY_HEAD_BYTES: usize = 18;
