//! The stores of a node over epochs: each epoch's state is saved in one of its own. What an epoch's end leaves in them,
//! and how the node starts again with them. It knows no database: who opens the stores is a trait.
#![tactic(auto)]

mod ended_stores;
mod epoch_stores;
mod memory_stores;
mod node_stores;
mod opened_epoch;

pub use ended_stores::EndedStores;
pub use epoch_stores::EpochStores;
pub use memory_stores::MemoryStores;
pub use node_stores::{NodeStores, reported_state};
pub use opened_epoch::OpenedEpoch;
