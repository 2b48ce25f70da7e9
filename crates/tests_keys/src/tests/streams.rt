//! Connections after a handshake, both ends of each: an end runs over what the other sent in an earlier run.

use super::piece;
use desk_admission::{CLIENT, Endpoint, KeyedPort, admit, dial};
use desk_key::Key;
use std::alloc::Global;
use std::io::{Read, Write};
use tests_streams::{Sink, Source};

/// What the end that dials says after the handshake, and what the other one says.
const LINE: &[u8] = b"a line\n";

const REPLY: &[u8] = b"a reply\n";

/// The nonces of the end that dials and of the other one.
const DIALS: &[u8; 32] = &[1; 32];

const ACCEPTS: &[u8; 32] = &[2; 32];

/// A port as an end knows it: the digit that its key has 64 times, and what the handshake calls it.
#[derive(Clone, Copy)]
pub struct Port {
    pub digit: u8,
    pub endpoint: Endpoint,
}

/// What an end sent. Where the handshake was made there, who dialled, and what came after it.
#[derive(Drop)]
pub struct Ended {
    pub sent: Vec<u8>,
    pub heard: Option<(u8, Vec<u8>)>,
}

impl Ended {
    /// Whether just this came from there.
    pub fn has_heard(&self, from: u8, bytes: &[u8]) -> bool {
        match &self.heard {
            Some(heard) => heard.0 == from && heard.1.as_slice() == bytes,
            None => false,
        }
    }
}

/// Says something, and reads what comes, to its end or to a fault.
fn exchanged<I: Read, O: Write>(
    alloc: Global,
    input: &mut I,
    output: &mut O,
    says: &[u8],
) -> Vec<u8> {
    let mut heard = Vec::new(alloc);
    let mut room = [0; 50];
    if output.write_all(says).is_err() || output.flush().is_err() {
        return heard;
    }
    for _ in 0..100 {
        match input.read(&mut room) {
            Ok(0) => return heard,
            Ok(count) if heard.extend_from_slice(&room[..count]).is_ok() => {}
            _ => return heard,
        }
    }
    heard
}

/// What comes to the end that is dialled, where it is admitted.
fn heard_by_port(
    alloc: Global,
    port: &Port,
    nonce: &[u8; 32],
    comes: &[u8],
    output: &mut Sink,
) -> Option<(u8, Vec<u8>)> {
    let key = Key::from_text(&[port.digit; 64]).ok()?;
    let keyed = KeyedPort {
        key,
        endpoint: port.endpoint,
    };
    let stream = admit(alloc, Source::whole(comes), output, &keyed, nonce).ok()?;
    let from = stream.from_node();
    let (mut input, mut output) = stream.into_ends();
    Some((from, exchanged(alloc, &mut input, &mut output, REPLY)))
}

/// The end that is dialled, where this comes.
pub fn admitted(alloc: Global, port: &Port, nonce: &[u8; 32], comes: &[u8]) -> Ended {
    let mut output = Sink::whole(Vec::new(alloc));
    let heard = heard_by_port(alloc, port, nonce, comes, &mut output);
    let Sink { bytes, .. } = output;
    Ended { sent: bytes, heard }
}

/// What comes to the end that dials, where the other one shows that it holds the key.
fn heard_by_caller(
    alloc: Global,
    port: &Port,
    from: u8,
    comes: &[u8],
    output: &mut Sink,
) -> Option<(u8, Vec<u8>)> {
    let key = Key::from_text(&[port.digit; 64]).ok()?;
    let keyed = KeyedPort {
        key,
        endpoint: port.endpoint,
    };
    let ends = dial(alloc, Source::whole(comes), output, &keyed, from, DIALS).ok()?;
    let (mut input, mut output) = ends;
    Some((from, exchanged(alloc, &mut input, &mut output, LINE)))
}

/// The end that dials, where this comes.
pub fn dialled(alloc: Global, port: &Port, from: u8, comes: &[u8]) -> Ended {
    let mut output = Sink::whole(Vec::new(alloc));
    let heard = heard_by_caller(alloc, port, from, comes, &mut output);
    let Sink { bytes, .. } = output;
    Ended { sent: bytes, heard }
}

/// Both ends of a connection.
#[derive(Drop)]
pub struct Talk {
    pub caller: Ended,
    pub port: Ended,
}

/// What both ends say and hear: the port as who dials knows it, and as it is.
pub fn talked(alloc: Global, knows: &Port, from: u8, is: &Port) -> Talk {
    let hello = dialled(alloc, knows, from, b"");
    let challenge = admitted(alloc, is, ACCEPTS, hello.sent.as_slice());
    let line = dialled(alloc, knows, from, challenge.sent.as_slice());
    let port = admitted(alloc, is, ACCEPTS, line.sent.as_slice());
    Talk {
        caller: dialled(alloc, knows, from, port.sent.as_slice()),
        port,
    }
}

/// The port of node 1 of three for the others.
fn peers() -> Endpoint {
    Endpoint::of_peers(1, 3, 45_001, b"desk.example")
}

/// One whose key has a digit.
fn of_digit(digit: u8, endpoint: Endpoint) -> Port {
    Port { digit, endpoint }
}

/// Ports, with who dials.
fn callers() -> [(Port, u8); 3] {
    [
        (of_digit(b'7', peers()), 0),
        (of_digit(b'a', peers()), 2),
        (of_digit(b'7', Endpoint::of_sessions(45_011)), CLIENT),
    ]
}

/// Whether both ends hear what the other says.
pub fn do_talk(alloc: Global, port: &Port, from: u8) -> bool {
    let talk = talked(alloc, port, from, port);
    talk.port.has_heard(from, LINE) && talk.caller.has_heard(from, REPLY)
}

#[test]
fn who_holds_the_key_is_heard(rt: HostRuntime) {
    for (index, row) in callers().iter().enumerate() {
        assert!(rt; do_talk(rt.alloc(), &row.0, row.1), "{index}");
    }
}

/// Who dials the port of node 1 of three, whose key has the digit 7, with what it knows of that; and how many bytes it
/// is sent: those of the challenge where it has another key, else none.
fn strangers() -> [(Port, u8, usize); 9] {
    let sessions = Endpoint::of_sessions(45_001);
    [
        (of_digit(b'8', peers()), 0, 64),
        (of_digit(b'7', sessions), CLIENT, 0),
        (of_digit(b'7', peers()), CLIENT, 0),
        (of_digit(b'7', peers()), 1, 0),
        (of_digit(b'7', peers()), 3, 0),
        (
            of_digit(b'7', Endpoint::of_peers(1, 3, 45_002, b"desk.example")),
            0,
            0,
        ),
        (
            of_digit(b'7', Endpoint::of_peers(2, 3, 45_001, b"desk.example")),
            0,
            0,
        ),
        (
            of_digit(b'7', Endpoint::of_peers(1, 5, 45_001, b"desk.example")),
            0,
            0,
        ),
        (
            of_digit(b'7', Endpoint::of_peers(1, 3, 45_001, b"other.example")),
            0,
            0,
        ),
    ]
}

#[test]
fn strangers_hear_nothing_and_are_not_heard(rt: HostRuntime) {
    for (index, row) in strangers().iter().enumerate() {
        let talk = talked(rt.alloc(), &row.0, row.1, &of_digit(b'7', peers()));
        assert!(rt;
            talk.port.heard.is_none() && talk.port.sent.len() == row.2,
            "{index}"
        );
        assert!(rt;
            talk.caller.heard.is_none() && talk.caller.sent.len() == 80,
            "{index}"
        );
    }
}

/// After how many bytes of 112 of the handshake and 43 of a record a stream is cut, and whether its end is admitted.
const CUTS: &[(usize, bool)] = &[
    (0, false),
    (79, false),
    (80, false),
    (111, false),
    (112, true),
    (113, true),
    (154, true),
];

#[test]
fn half_a_stream_gives_nothing(rt: HostRuntime) {
    let port = of_digit(b'7', peers());
    let challenge = admitted(
        rt.alloc(),
        &port,
        ACCEPTS,
        dialled(rt.alloc(), &port, 0, b"").sent.as_slice(),
    );
    let line = dialled(rt.alloc(), &port, 0, challenge.sent.as_slice());
    assert!(rt; line.sent.len() == 155);
    for (length, is_admitted) in CUTS {
        let ended = admitted(
            rt.alloc(),
            &port,
            ACCEPTS,
            piece(line.sent.as_slice(), 0, *length),
        );
        assert!(rt; ended.heard.is_some() == *is_admitted, "{length}");
        assert!(rt; !is_admitted || ended.has_heard(0, b""), "{length}");
    }
}

#[test]
fn a_recorded_stream_is_not_heard_again(rt: HostRuntime) {
    let port = of_digit(b'7', peers());
    let hello = dialled(rt.alloc(), &port, 0, b"");
    let challenge = admitted(rt.alloc(), &port, ACCEPTS, hello.sent.as_slice());
    let line = dialled(rt.alloc(), &port, 0, challenge.sent.as_slice());
    assert!(rt; admitted(rt.alloc(), &port, ACCEPTS, line.sent.as_slice()).has_heard(0, LINE));
    let again = admitted(rt.alloc(), &port, &[3; 32], line.sent.as_slice());
    assert!(rt; again.heard.is_none() && again.sent.len() == 64);
}

#[test]
fn what_an_end_sent_is_not_heard_by_it(rt: HostRuntime) {
    let port = of_digit(b'7', peers());
    let hello = dialled(rt.alloc(), &port, 0, b"");
    assert!(rt;
        dialled(rt.alloc(), &port, 0, hello.sent.as_slice())
            .heard
            .is_none()
    );
    let challenge = admitted(rt.alloc(), &port, ACCEPTS, hello.sent.as_slice());
    assert!(rt;
        admitted(rt.alloc(), &port, ACCEPTS, challenge.sent.as_slice())
            .heard
            .is_none()
    );
}
