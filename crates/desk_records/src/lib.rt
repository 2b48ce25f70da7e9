//! Records, by which bytes go over a connection after a handshake: each has a count and a tag, so that what comes out
//! is what a holder of the key put in, in order. A reader opens them and a writer seals into them; both are streams of
//! bytes.
#![tactic(auto)]

pub mod laws;
mod opened;
mod record;
mod sealed;

pub use opened::Opened;
pub use record::{RECORD_BYTES, ROOM_BYTES};
pub use sealed::Sealed;
