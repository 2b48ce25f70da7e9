//! Nodes on the network of their host: each with its keeper's thread, and with the threads at its ports, for the other
//! nodes and for its ticks.
#![tactic(auto)]

mod catching_up;
mod group;
mod keeping;
pub mod laws;
mod node;
mod past_stores;
mod serving;
mod watched_store;
mod watched_stores;

pub use group::serve_group;
pub use keeping::{NodeEnd, QueuedPackets};
pub use node::NodeEpochs;
pub use past_stores::PastStores;
pub use serving::serve_node;
