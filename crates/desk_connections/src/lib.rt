//! The ports of a node, and threads of their own for what connects there, for its packets to the other nodes, for its
//! ticks, and for the standard input, whose end is the node's.
#![tactic(auto)]

mod connections;
mod doors;
mod ends;
mod limits;
mod links;
mod ports;
mod runtime;
mod starting;
mod ticks;

pub use connections::{LimitedReads, serve_ends, take_ends};
pub use doors::WatchedDoor;
pub use ends::{EndFlag, end_with_input};
pub use links::PeerAddress;
pub use ports::{GroupSetup, NodeKeys, NodePorts, NodeSetup, PortRefused, bind_group};
pub use runtime::NodeRuntime;
pub use starting::{start_link, start_peer, start_session, start_timer};
