//! The document arena: two lists in one block of memory that is made once.
//!
//! A [`DocArena`] holds a list of nodes, in order, and a list of the bytes of texts, where a newly pushed text stands
//! in front of the earlier ones. Nodes lie from the front of the block on, and the texts are its end, so a push is
//! [`Full`] exactly where the two would meet. Only [`DocArena::with_capacity`] takes memory.
#![tactic(auto)]

mod arena;
mod block;
mod error;
mod node;
mod places;
mod text;

pub use arena::{DocArena, MAX_CAPACITY, Mark};
pub use error::{Full, WantOfMemory};
pub use node::{NODE_BYTES, Node, NodeId};
pub use text::Text;
