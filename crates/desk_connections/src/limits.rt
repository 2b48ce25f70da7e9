//! For how long connections may be silent, and how long they are used.

/// A peer's connection without a key that brought nothing for so many seconds is closed. Its writer connects anew.
pub(crate) const PEER_SECONDS: u64 = 10;

/// The same of a connection with a key, sooner: that of a host that is gone keeps its thread for so long, and a node
/// that is back waits for it no longer.
pub(crate) const KEYED_PEER_SECONDS: u64 = 3;

/// A session that brought nothing for so many seconds is ended, and makes room for another.
pub(crate) const SESSION_SECONDS: u64 = 300;

/// So long is waited after the host refused a connection, for want of descriptors mostly.
pub(crate) const PAUSE_MILLISECONDS: u64 = 20;

/// The other end of a connection with a key may be silent for so many seconds at a time before it has shown that it
/// holds that.
pub(crate) const PROOF_SECONDS: u64 = 1;

/// So long a connection with a key may take no byte, in seconds.
pub(crate) const WRITE_SECONDS: u64 = 2;

/// A connection to a peer with a key is used for so many seconds, and then made anew: over a link that was cut the old
/// one goes on as late again as the cut took, since each try waits twice as long as the one before.
pub(crate) const LINK_SECONDS: u64 = 10;

/// One that carried nothing for so many seconds is made anew as well: the peer is about to close it, and what is
/// written then is lost.
pub(crate) const IDLE_LINK_SECONDS: u64 = 2;

/// After a try to connect that failed no other is made for so many milliseconds, and packets are lost meanwhile. So
/// those that waited during the try, of views long gone, are not what a peer that is back gets first.
pub(crate) const REST_MILLISECONDS: u64 = 100;
