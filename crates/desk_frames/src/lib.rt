//! Frames on a stream: packets are read from it in any pieces, and written to it.
#![tactic(auto)]

mod cutter;
mod frame;
mod front;
mod input;
pub mod laws;
mod output;
mod reader;

pub use input::read_packets;
pub use output::{WriteFault, write_packet};
pub use reader::FrameReader;
