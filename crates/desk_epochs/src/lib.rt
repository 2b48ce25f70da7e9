//! What a desk commits over epochs, each of which is a group of nodes that begins with an empty log.
#![tactic(auto)]

pub mod laws;
