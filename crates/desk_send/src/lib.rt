//! Lines sent to a node: each goes out as it stands, and the reply line that the node gives to it is printed as it
//! comes.
#![tactic(auto)]

mod connection;
mod fault;
mod reply;
mod request;
mod send;

pub use connection::{NodeConnection, exchange_line};
pub use fault::NodeFault;
pub use reply::REPLY_BYTES;
pub use send::send_lines;
