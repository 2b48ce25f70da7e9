//! Connections that come to a node.

ghost use Rattle.std.specs.Prelude.{◌≡◌, ◌⊎◌, IfSome, IsSomeAnd, Some};
ghost use Rattle.desk_connections.specs.Admitted.{HasPutOwnOnly, HasShownKey, HasShownKeyOr};
ghost use Rattle.desk_mailbox.specs.Ends.{put_by};
ghost use Rattle.desk_peers.specs.Incoming.{HasPutOnlyOf};

use crate::doors::{NotedInput, WatchedDoor};
use crate::limits::{
    KEYED_PEER_SECONDS, PAUSE_MILLISECONDS, PEER_SECONDS, PROOF_SECONDS, SESSION_SECONDS,
    WRITE_SECONDS,
};
use crate::links::why_not_admitted;
use desk_admission::{AdmittedStream, KeyedPort, NONCE_BYTES, admit, drawn_nonce};
use desk_eido::want_of_memory_line;
use desk_events::Why;
use desk_mailbox::{Item, Sender};
use desk_output::write_text;
use desk_peers::{EpochPlaces, take_packets};
use desk_published::{BoardName, BoardReader};
use desk_sessions::{NoGate, Session, Wire, serve_session};
use desk_types::Refusal;
use std::alloc::Global;
use std::io::{Read, Write};
use std::net::{TcpListener, TcpStream};
use std::random::RandomSource;
use std::rt::Clock;
use std::sync::Wait;
use std::thread;
use std::time::Duration;

/// A connection whose reads can be limited.
pub trait LimitedReads {
    /// Has each read wait for so many seconds at most. False where the host can not do that.
    fn limit_reads(&self, seconds: u64) -> bool;
}

impl LimitedReads for TcpStream {
    fn limit_reads(&self, seconds: u64) -> bool {
        self.set_read_timeout(Some(Duration::from_secs(seconds)))
            .is_ok()
    }
}

/// The nonce for a connection that came to a port with a key, which is limited for the handshake. None at a port
/// without one, and where the host draws no nonce or sets no limit.
fn nonce_for<R: RandomSource>(
    rt: &R,
    door: &WatchedDoor,
    stream: &TcpStream,
) -> Option<[u8; NONCE_BYTES]> {
    if door.keyed.is_none() {
        return None;
    }
    let nonce = drawn_nonce(rt).ok()?;
    stream
        .set_write_timeout(Some(Duration::from_secs(WRITE_SECONDS)))
        .ok()?;
    if !stream.limit_reads(PROOF_SECONDS) {
        return None;
    }
    Some(nonce)
}

/// Whether a session ended at the first line of a browser: by a fault of reading, where no read failed.
fn is_of_browser<I: Read>(input: &NotedInput<I>, outcome: &Result<(), Refusal>) -> bool {
    !input.has_failed && matches!(outcome, Err(Refusal::ReadFault))
}

/// Serves one session. Where there is no memory for it, that is announced.
fn serve_lines<B: BoardName, I: Read + Drop, O: Write, R: Wait>(
    rt: &R,
    alloc: Global,
    door: &WatchedDoor,
    input: I,
    output: &mut O,
    wire: Wire<B>,
    reader: BoardReader<B>,
) -> (Wire<B>, BoardReader<B>) {
    match Session::new(alloc, wire, reader) {
        Ok(session) => {
            let mut input = NotedInput::new(input);
            let (session, outcome) = serve_session(rt, alloc, &mut input, output, session, &NoGate);
            if is_of_browser(&input, &outcome) {
                door.announce_refused(rt, Why::Browser);
            }
            drop(outcome);
            let Session {
                line,
                reader,
                arena: _arena,
            } = session;
            (line, reader)
        }
        Err(parts) => {
            let _ = write_text(output, want_of_memory_line().as_bytes());
            parts
        }
    }
}

/// Serves a connection to a port with a key as one session.
fn serve_admitted<B: BoardName, I: Read + Drop, O: Write + Drop, R: Wait>(
    rt: &R,
    alloc: Global,
    door: &WatchedDoor,
    stream: AdmittedStream<I, O>,
    wire: Wire<B>,
    reader: BoardReader<B>,
) -> (Wire<B>, BoardReader<B>) {
    let (input, mut output) = stream.into_ends();
    serve_lines(rt, alloc, door, input, &mut output, wire, reader)
}

/// Serves a connection to a port with a key as one session, where its other end shows that it holds the key.
fn serve_keyed<B: BoardName, I: Read + Drop, O: Write + Drop, L: LimitedReads, R: Wait>(
    rt: &R,
    alloc: Global,
    door: &WatchedDoor,
    ends: (I, O),
    limits: &L,
    keyed: &KeyedPort,
    nonce: &[u8; NONCE_BYTES],
    parts: (Wire<B>, BoardReader<B>),
) -> (Wire<B>, BoardReader<B>)
    // Where no hello for this port and its proof came, nothing is asked.
    ensures { HasShownKey keyed.now nonce.now (I.remaining ends.0) ⊎ (result ≡ parts) }
{
    let stream = match admit(alloc, ends.0, ends.1, keyed, nonce) {
        Ok(stream) => stream,
        Err(fault) => {
            door.announce_refused(rt, why_not_admitted(fault));
            return parts;
        }
    };
    if !limits.limit_reads(SESSION_SECONDS) {
        return parts;
    }
    let (wire, reader) = parts;
    serve_admitted(rt, alloc, door, stream, wire, reader)
}

/// Serves who came to a port by one session, once he is admitted where the port has a key, and gives back what serves
/// the next one. The nonce is drawn for the connection; without one nobody is admitted at a port with a key.
pub fn serve_ends<B: BoardName, I: Read + Drop, O: Write + Drop, L: LimitedReads, R: Wait>(
    rt: &R,
    alloc: Global,
    door: &WatchedDoor,
    ends: (I, O),
    limits: &L,
    nonce: Option<[u8; NONCE_BYTES]>,
    parts: (Wire<B>, BoardReader<B>),
) -> (Wire<B>, BoardReader<B>)
    // Where the port has a key, and it was not shown, nothing is asked.
    ensures { IfSome door.now.keyed (λ k. HasShownKeyOr (result ≡ parts) k nonce (I.remaining ends.0)) }
{
    let Some(keyed) = &door.keyed else {
        let _ = limits.limit_reads(SESSION_SECONDS);
        let (input, mut output) = ends;
        let (wire, reader) = parts;
        return serve_lines(rt, alloc, door, input, &mut output, wire, reader);
    };
    match nonce {
        Some(nonce) => serve_keyed(rt, alloc, door, ends, limits, keyed, &nonce, parts),
        None => {
            door.announce_refused(rt, Why::Handshake);
            parts
        }
    }
}

/// Serves a connection as one session. Then the connection is closed.
fn serve_stream<B: BoardName, R: Wait + RandomSource>(
    rt: &R,
    alloc: Global,
    stream: &TcpStream,
    door: &WatchedDoor,
    parts: (Wire<B>, BoardReader<B>),
) -> (Wire<B>, BoardReader<B>) {
    // each reply goes out at once; where the host can not do that, it goes out late
    let _ = stream.set_nodelay(true);
    let nonce = nonce_for(rt, door, stream);
    serve_ends(rt, alloc, door, (stream, stream), stream, nonce, parts)
}

/// Serves one session after the other, as they come to the port.
pub(crate) fn serve_sessions<B: BoardName, R: Wait + Clock + RandomSource>(
    rt: &R,
    alloc: Global,
    listener: &TcpListener,
    door: &WatchedDoor,
    wire: Wire<B>,
    reader: BoardReader<B>,
) {
    let mut parts = (wire, reader);
    for stream in listener.incoming() {
        match stream {
            Ok(stream) => parts = serve_stream(rt, alloc, &stream, door, parts),
            Err(_) => thread::sleep(rt, Duration::from_millis(PAUSE_MILLISECONDS)),
        }
    }
}

/// Announces that who connected was refused, where bytes came that are no packet.
fn announce_no_packet<R: Wait>(rt: &R, door: &WatchedDoor, outcome: &Result<(), Refusal>) {
    if matches!(outcome, Err(Refusal::FrameFault)) {
        door.announce_refused(rt, Why::Packet);
    }
}

/// Takes the packets of a peer that was admitted, which name it as their sender.
fn take_admitted<I: Read + Drop, O: Write + Drop, R: Wait>(
    rt: &R,
    alloc: Global,
    places: EpochPlaces,
    door: &WatchedDoor,
    stream: AdmittedStream<I, O>,
    sender: Sender<Item>,
) -> Sender<Item>
    ensures { HasPutOnlyOf (Some stream.from) (put_by sender) (put_by result) }
{
    let from = stream.from_node();
    let (mut input, output) = stream.into_ends();
    let (sender, outcome) = take_packets(rt, door, alloc, places, Some(from), &mut input, sender);
    announce_no_packet(rt, door, &outcome);
    drop(outcome);
    drop(output);
    sender
}

/// Takes the packets of a connection to a port with a key, where its other end shows that it holds the key.
fn take_keyed<I: Read + Drop, O: Write + Drop, L: LimitedReads, R: Wait>(
    rt: &R,
    alloc: Global,
    places: EpochPlaces,
    door: &WatchedDoor,
    ends: (I, O),
    limits: &L,
    keyed: &KeyedPort,
    nonce: &[u8; NONCE_BYTES],
    sender: Sender<Item>,
) -> Sender<Item>
    // Where no hello for this port and its proof came, nothing is put; else packets alone that come from who dialled.
    ensures { HasPutOwnOnly keyed.now nonce.now (I.remaining ends.0) (put_by sender) (put_by result)
        ⊎ (result ≡ sender) }
{
    let admitted = match admit(alloc, ends.0, ends.1, keyed, nonce) {
        Ok(admitted) => admitted,
        Err(fault) => {
            door.announce_refused(rt, why_not_admitted(fault));
            return sender;
        }
    };
    if !limits.limit_reads(KEYED_PEER_SECONDS) {
        return sender;
    }
    take_admitted(rt, alloc, places, door, admitted, sender)
}

/// Takes the packets of who came to a port, once he is admitted where the port has a key, and gives back what takes
/// those of the next one. The nonce is drawn for the connection; without one nobody is admitted at a port with a key.
/// It ends at the first bytes that neither a header of these places nor a frame begins with.
pub fn take_ends<I: Read + Drop, O: Write + Drop, L: LimitedReads, R: Wait>(
    rt: &R,
    alloc: Global,
    places: EpochPlaces,
    door: &WatchedDoor,
    ends: (I, O),
    limits: &L,
    nonce: Option<[u8; NONCE_BYTES]>,
    sender: Sender<Item>,
) -> Sender<Item>
    // Where the port has a key, and it was not shown, nothing is put; else packets alone that come from who showed it.
    ensures { IfSome door.now.keyed (λ k. IsSomeAnd nonce (λ n.
        HasPutOwnOnly k n (I.remaining ends.0) (put_by sender) (put_by result)) ⊎ (result ≡ sender)) }
{
    let Some(keyed) = &door.keyed else {
        let _ = limits.limit_reads(PEER_SECONDS);
        let (mut input, _output) = ends;
        let (sender, outcome) = take_packets(rt, door, alloc, places, None, &mut input, sender);
        announce_no_packet(rt, door, &outcome);
        return sender;
    };
    match nonce {
        Some(nonce) => take_keyed(rt, alloc, places, door, ends, limits, keyed, &nonce, sender),
        None => {
            door.announce_refused(rt, Why::Handshake);
            sender
        }
    }
}

/// Takes the packets of one peer after the other, as they connect to the port.
pub(crate) fn take_connections<R: Wait + Clock + RandomSource>(
    rt: &R,
    alloc: Global,
    places: EpochPlaces,
    listener: &TcpListener,
    door: &WatchedDoor,
    sender: Sender<Item>,
) {
    let mut sender = sender;
    for stream in listener.incoming() {
        match stream {
            Ok(stream) => {
                let nonce = nonce_for(rt, door, &stream);
                let ends = (&stream, &stream);
                sender = take_ends(rt, alloc, places, door, ends, &stream, nonce, sender);
            }
            Err(_) => thread::sleep(rt, Duration::from_millis(PAUSE_MILLISECONDS)),
        }
    }
}
