//! The dispatch board: incidents with their calls and their links, units with the incidents that they are committed to,
//! and the latest reply of each client, which the entries of a log change one after another.
#![tactic(auto)]

mod board;
mod incident_verbs;
pub mod laws;
mod listed;
mod perform;
mod replay;
mod row;
mod show;
mod tables;
mod unit_verbs;

pub use board::Board;
pub use desk_incidents::{HasCall, Incident, Linked};
pub use desk_units::{Unit, UnitPair};
pub use row::{PlacedRequest, Row};
