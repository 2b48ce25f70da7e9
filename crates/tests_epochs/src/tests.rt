//! Worked examples of nodes over epochs, in which an epoch ends after two entries.

mod beginnings;
mod epochs;
mod headers;
mod keepers;
mod keeping;
mod memory;
mod memory_stores;
mod opening;
mod replicas;
mod stores;
