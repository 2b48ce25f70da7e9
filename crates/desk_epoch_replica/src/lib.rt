//! A member of a group that goes on over epochs, with its stores: what items make of it, what they send and answer, and
//! what is saved of it. It is what a keeper does its items to, and knows no threads and no database.
#![tactic(auto)]

mod beginning;
mod deferring_replica;
mod epoch_member;
mod epoch_replica;
mod heard;
mod item;
mod keeping;
pub mod limits;
mod meeting;
mod outgoing;
mod replica_step;
mod retrying;
mod sending;
mod ticking;

pub use deferring_replica::DeferringReplica;
pub use epoch_replica::EpochReplica;
pub use item::EpochItem;
pub use replica_step::{EpochAnswer, ReplicaStep};
