//! Where memory is refused. These tests are for runs in which one allocation fails; in any other run they say no more
//! than the rest.

use super::streams::{Port, do_talk};
use desk_admission::{CLIENT, Endpoint};
use desk_key::HmacKey;
use desk_records::{Opened, Sealed};
use std::alloc::Global;
use std::io::{Read, Write};
use tests_streams::{Sink, Source};

/// The room of a writer that no refusal reaches.
const ROOM_BYTES: usize = 400;

/// Writes a payload, and again where memory is refused, by which nothing was written.
fn is_written_at_last(sealed: &mut Sealed<&mut Sink>, payload: &[u8]) -> bool {
    sealed.write(payload).is_ok() || sealed.write(payload).is_ok()
}

/// Whether two payloads are sealed, at last.
fn are_sealed_at_last(alloc: Global, sink: &mut Sink) -> bool {
    match Sealed::new(alloc, sink, HmacKey::new(&[5; 32])) {
        Ok(mut sealed) => {
            is_written_at_last(&mut sealed, b"one") && is_written_at_last(&mut sealed, b"second")
        }
        Err(_) => false,
    }
}

/// Whether two payloads are sealed where the writer's own room is there: at the second call where the first was refused
/// memory, by which nothing was written.
fn are_sealed(alloc: Global) -> bool {
    let Ok(bytes) = Vec::with_capacity(alloc, ROOM_BYTES) else {
        return true;
    };
    let mut sink = Sink::whole(bytes);
    if are_sealed_at_last(alloc, &mut sink) {
        return sink.bytes.len() == 81;
    }
    sink.bytes.is_empty() && are_sealed_at_last(alloc, &mut sink) && sink.bytes.len() == 81
}

#[test]
fn records_are_sealed_or_not_begun(rt: HostRuntime) {
    assert!(rt; are_sealed(rt.alloc()));
}

/// What a reader is given to read.
const NOTHING: &[u8] = b"";

/// Whether a reader of records is made, or refused memory, and made then.
fn is_opened(alloc: Global) -> bool {
    for _ in 0..2 {
        if let Ok(mut opened) = Opened::new(alloc, Source::whole(NOTHING), HmacKey::new(&[5; 32])) {
            let mut room = [0; 10];
            return opened.read(&mut room).is_ok();
        }
    }
    false
}

#[test]
fn a_reader_is_made_or_not(rt: HostRuntime) {
    assert!(rt; is_opened(rt.alloc()));
}

/// Whether both ends of a connection hear each other, at the second try where the first was refused memory.
fn do_talk_at_last(alloc: Global, port: &Port) -> bool {
    do_talk(alloc, port, CLIENT) || do_talk(alloc, port, CLIENT)
}

#[test]
fn a_handshake_is_made_or_not(rt: HostRuntime) {
    let port = Port {
        digit: b'7',
        endpoint: Endpoint::of_sessions(45_011),
    };
    assert!(rt; do_talk_at_last(rt.alloc(), &port));
}
