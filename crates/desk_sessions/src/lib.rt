//! Sessions: what clients ask, answered through a line to a node's keeper and a reader of its published board. A
//! command's answer is read off the client's row on a board that goes on from what the keeper reported, and a show asks
//! the keeper nothing.
#![tactic(auto)]

mod browsers;
pub mod laws;
mod line;
mod serve;
mod session;
mod wire;
mod words;

pub use desk_lines::{Gate, NoGate};
pub use line::Line;
pub use serve::serve_session;
pub use session::Session;
pub use wire::Wire;
pub use words::KeeperWords;
