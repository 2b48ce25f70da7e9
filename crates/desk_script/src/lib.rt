//! Scripts of a group of nodes, over any input and output: the events that its lines are, and the text of what each
//! event gave.
#![tactic(auto)]

mod input;
mod world;

pub use world::{WorldFault, world_lines};
