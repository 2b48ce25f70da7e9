//! What a node asks of the host that it runs on.

use std::net::{Net, TcpListener, TcpStream};
use std::random::RandomSource;
use std::rt::Clock;
use std::sync::Wait;
use std::thread::Threads;

/// What the threads of a node ask of the runtime of their host: sockets, threads, waiting, a clock and random bytes,
/// by a handle of which each has a copy.
pub trait NodeRuntime: Net<Listener = TcpListener, Stream = TcpStream>
    + Threads
    + Wait
    + Clock
    + RandomSource
    + Drop
    + Copy
    + Send
    + Sync
    + 'static {}

impl<
    R: Net<Listener = TcpListener, Stream = TcpStream>
        + Threads
        + Wait
        + Clock
        + RandomSource
        + Drop
        + Copy
        + Send
        + Sync
        + 'static,
> NodeRuntime for R {}
