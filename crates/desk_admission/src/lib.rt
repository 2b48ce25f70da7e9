//! The handshake by which both ends of a connection show that they hold the key, over any streams. The end that was
//! dialled admits the other by it; both come to have the keys of the records that go over the connection then.
#![tactic(auto)]

mod address;
mod admission;
mod endpoint;
mod exchange;
mod initiator;
mod streams;

pub use address::{
    CLIENT_CONNECT_MILLISECONDS, GroupAddress, Hosts, LOOPBACK, NODE_CONNECT_MILLISECONDS,
    connect_within,
};
pub use admission::{AdmittedEnd, accept};
pub use endpoint::{CLIENT, Endpoint, HELLO_BYTES, NONCE_BYTES, Role};
pub use exchange::{MESSAGE_READS, NotAdmitted, RecordKeys};
pub use initiator::initiate;
pub use streams::{AdmittedStream, KeyedPort, admit, dial, drawn_nonce};
