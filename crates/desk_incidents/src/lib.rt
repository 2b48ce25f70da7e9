//! Incidents with their calls and their links, and the verbs that change them.
#![tactic(auto)]

mod call_table;
mod calls;
mod end_sets;
mod incident;
mod incidents;
mod link_table;
mod links;
mod lookup;
mod merge;
mod opening;
mod rows;
mod shown;
mod states;

pub use incident::{HasCall, Incident, Linked};
pub use incidents::Incidents;
pub use merge::PreparedMerge;
pub use opening::{NewIncident, new_id};
