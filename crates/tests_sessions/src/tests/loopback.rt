//! A connection on loopback whose both ends are in this process, and what a client does at one of them.

use super::gate::Flag;
use super::lines::{SECOND, SECOND_REPLIES, last_place};
use desk_send::{NodeConnection, send_lines};
use std::alloc::Global;
use std::io;
use std::io::BufReader;
use std::net::{Net, Shutdown, TcpListener, TcpStream};

/// The two ends of a connection.
#[derive(Drop)]
pub(super) struct Loopback {
    pub(super) client: TcpStream,
    /// What the node accepted.
    pub(super) served: TcpStream,
}

impl Loopback {
    /// A new connection to a port that the host picks. It is accepted here, since a client's connect does not wait for
    /// that.
    pub(super) fn open<R: Net<Listener = TcpListener, Stream = TcpStream>>(
        rt: &R,
    ) -> io::Result<Loopback> {
        let listener = TcpListener::bind(rt, ("127.0.0.1", 0u16))?;
        let client = TcpStream::connect(rt, listener.local_addr()?)?;
        let (served, _) = listener.accept()?;
        client.set_nodelay(true)?;
        served.set_nodelay(true)?;
        Ok(Loopback { client, served })
    }
}

/// Sends the second session's lines as `desk send` does: the place that its show told, where each reply came.
fn send_second(alloc: Global, stream: &TcpStream) -> Option<u64> {
    let reader = BufReader::new(alloc, stream).ok()?;
    let connection = NodeConnection::new(alloc, reader, stream);
    let (mut input, mut output) = (SECOND.as_bytes(), Vec::new(alloc));
    let (connection, outcome) = send_lines(alloc, &mut input, &mut output, connection);
    drop(connection);
    if outcome.is_ok() && output.as_slice() == SECOND_REPLIES.as_bytes() {
        last_place(output.as_slice())
    } else {
        None
    }
}

/// The same, with the end of the lines told to the node, and the flag raised after that with the place.
pub(super) fn send_and_raise(alloc: Global, stream: &TcpStream, flag: &Flag) {
    let place = send_second(alloc, stream);
    let _ = stream.shutdown(Shutdown::Write);
    flag.raise(place);
}
