//! Groups of nodes, and what is true of all of them.
#![tactic(auto)]

mod event_output;
mod laws;
mod report;
mod world;
mod world_event;

pub use event_output::EventOutput;
pub use laws::{agreement, never_stuck, only_requested};
pub use report::{WorldReport, run};
pub use world_event::WorldEvent;
