//! What a node does in one process, where its files, its memory or the devices of a session fail.

mod devices;
mod keepers;
mod keeping;
mod memory;
mod near;
mod opening;
mod queues;
mod store;
mod turns;
