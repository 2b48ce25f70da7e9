//! What is printed of the nodes of a group: a line a node, and whether a majority is level.
#![tactic(auto)]

mod answers;
mod printing;

pub use answers::{NodeAnswer, greatest_place, is_majority_level};
pub use printing::{status_of, write_status};
