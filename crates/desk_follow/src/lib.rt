//! Lines that are sent to a group of nodes: each goes to one node after another, until its final reply has come; the
//! nodes of a group at their ports, and what each answers; and the place that a reply tells.
#![tactic(auto)]

mod asking;
mod course;
mod follow;
mod group_nodes;
mod laws;
mod node_stream;
mod nodes;
mod place;
mod try_log;

pub use asking::{ask_nodes, ask_twice};
pub use course::{Course, course_of};
pub use follow::{Follower, follow_lines};
pub use group_nodes::GroupNodes;
pub use laws::{board_place, table};
pub use nodes::{NoReply, NodeReply, Nodes};
pub use place::{number_before, number_of_digits, shown_place};
pub use try_log::TryLog;
