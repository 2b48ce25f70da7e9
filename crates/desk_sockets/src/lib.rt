//! The commands that need sockets of the host and no files: the lines that are sent to a node or to the primary of a
//! group, how the nodes of a group are, all nodes of a group in one process, the ports of nodes, and what is printed of
//! them to standard error.
#![tactic(auto)]

mod cluster;
mod faults;
mod ports;
mod send;
mod status;

pub use cluster::run_group;
pub use faults::served_status;
pub use ports::{bind_node, open_group};
pub use send::{SendRun, send_input};
pub use status::{StatusRun, show_status};
