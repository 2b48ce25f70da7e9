//! Handshakes, honest and not.

use super::talking::{End, Transcript, accepted, handshake, initiated};
use super::{piece, turned};
use desk_admission::{CLIENT, Endpoint, NotAdmitted};
use std::alloc::{AllocError, Global};
use std::test::Fail;

const DIALS: End = End { key: 7, nonce: 1 };

const ACCEPTS: End = End { key: 7, nonce: 2 };

/// The port of node 1 of three for the others.
fn peers() -> Endpoint {
    Endpoint::of_peers(1, 3, 45_001, b"desk.example")
}

/// An honest handshake of node 0 with node 1.
fn honest(alloc: Global) -> Transcript {
    handshake(alloc, DIALS, ACCEPTS, &peers(), 0)
}

/// The endpoints of the tests, with who dials.
fn endpoints() -> [(Endpoint, u8); 3] {
    [
        (peers(), 0),
        (peers(), 2),
        (Endpoint::of_sessions(45_011), CLIENT),
    ]
}

/// Whether both ends come to have keys, and one key for each direction.
fn do_agree(alloc: Global, endpoint: &Endpoint, from: u8) -> bool {
    let said = handshake(alloc, DIALS, ACCEPTS, endpoint, from);
    let accepts = accepted(
        alloc,
        ACCEPTS,
        endpoint,
        said.dialled.as_slice(),
        usize::MAX,
    );
    let dials = initiated(alloc, DIALS, endpoint, from, said.answered.as_slice());
    match (&accepts.outcome, &dials.outcome) {
        (Ok(accepts), Ok(dials)) => {
            let toward_acceptor = accepts.receiving.tag_of_two(b"a", b"b");
            let toward_initiator = accepts.sending.tag_of_two(b"a", b"b");
            dials.sending.tag_of_two(b"a", b"b") == toward_acceptor
                && dials.receiving.tag_of_two(b"a", b"b") == toward_initiator
                && toward_acceptor != toward_initiator
        }
        _ => false,
    }
}

#[test]
fn both_ends_agree(rt: HostRuntime) {
    for (index, row) in endpoints().iter().enumerate() {
        assert!(rt; do_agree(rt.alloc(), &row.0, row.1), "{index}");
    }
}

/// What an acceptor sends to a hello of which a byte is another: nothing, but where it is of the nonce, or where
/// another node may dial too.
fn sent_to_changed(place: usize, bit: u32) -> usize {
    let is_node_2 = place == 10 && bit == 1;
    if place < 48 && !is_node_2 { 0 } else { 64 }
}

/// Whether the end that is dialled admits nobody where a bit of what comes is turned.
fn is_refused(alloc: Global, said: &Transcript, place: usize, bit: u32) -> bool {
    let Ok(bytes) = turned(alloc, said.dialled.as_slice(), place, bit) else {
        return false;
    };
    let spoken = accepted(alloc, ACCEPTS, &peers(), bytes.as_slice(), usize::MAX);
    let sent = sent_to_changed(place, bit);
    let fault = if sent == 0 {
        NotAdmitted::OtherEndpoint
    } else {
        NotAdmitted::NoProof
    };
    spoken.failed(fault, sent)
}

#[test]
fn no_bit_of_a_hello_or_proof_may_be_another(rt: HostRuntime) {
    let said = honest(rt.alloc());
    for place in 0..112 {
        for bit in 0..8 {
            assert!(rt; is_refused(rt.alloc(), &said, place, bit), "{place} {bit}");
        }
    }
}

/// Whether the end that dials keeps its proof where a bit of the challenge is turned.
fn is_preserved(alloc: Global, said: &Transcript, place: usize, bit: u32) -> bool {
    match turned(alloc, said.answered.as_slice(), place, bit) {
        Ok(bytes) => initiated(alloc, DIALS, &peers(), 0, bytes.as_slice()).failed(
            NotAdmitted::NoProof,
            80,
        ),
        Err(_) => false,
    }
}

#[test]
fn no_bit_of_a_challenge_may_be_another(rt: HostRuntime) {
    let said = honest(rt.alloc());
    for place in 0..64 {
        for bit in 0..8 {
            assert!(rt;
                is_preserved(rt.alloc(), &said, place, bit),
                "{place} {bit}"
            );
        }
    }
}

/// Whether what comes, cut after so many bytes, admits nobody.
fn is_cut(alloc: Global, said: &Transcript, length: usize) -> bool {
    let comes = piece(said.dialled.as_slice(), 0, length);
    let sent = if length < 80 { 0 } else { 64 };
    accepted(alloc, ACCEPTS, &peers(), comes, usize::MAX).failed(NotAdmitted::Broken, sent)
}

#[test]
fn no_part_of_a_hello_and_proof_will_do(rt: HostRuntime) {
    let said = honest(rt.alloc());
    for length in 0..112 {
        assert!(rt; is_cut(rt.alloc(), &said, length), "{length}");
    }
}

/// Endpoints that are not that of a hello, each by one thing.
fn others() -> [Endpoint; 6] {
    [
        Endpoint::of_peers(2, 3, 45_001, b"desk.example"),
        Endpoint::of_peers(1, 5, 45_001, b"desk.example"),
        Endpoint::of_peers(1, 3, 45_002, b"desk.example"),
        Endpoint::of_peers(1, 3, 45_001, b"other.example"),
        Endpoint::of_peers(0, 3, 45_001, b"desk.example"),
        Endpoint::of_sessions(45_001),
    ]
}

#[test]
fn a_hello_for_another_endpoint_gets_no_byte(rt: HostRuntime) {
    let said = honest(rt.alloc());
    for (index, endpoint) in others().iter().enumerate() {
        let spoken = accepted(
            rt.alloc(),
            ACCEPTS,
            endpoint,
            said.dialled.as_slice(),
            usize::MAX,
        );
        assert!(rt; spoken.failed(NotAdmitted::OtherEndpoint, 0), "{index}");
    }
}

/// Who dials node 1 of three, and what is sent to that: a client, a node of a greater group and the node itself get
/// nothing.
const DIALLERS: &[(u8, usize)] = &[(0, 64), (2, 64), (1, 0), (3, 0), (4, 0), (CLIENT, 0)];

#[test]
fn a_node_alone_dials_a_node(rt: HostRuntime) {
    for (from, sent) in DIALLERS {
        let hello = initiated(rt.alloc(), DIALS, &peers(), *from, &[]);
        let spoken = accepted(
            rt.alloc(),
            ACCEPTS,
            &peers(),
            hello.sent.as_slice(),
            usize::MAX,
        );
        assert!(rt; spoken.sent.len() == *sent, "{from}");
    }
}

/// Ends of which one has another key, or another nonce than the one that a recorded handshake was made with.
const STRANGERS: &[End] = &[
    End { key: 8, nonce: 2 },
    End { key: 7, nonce: 3 },
    End { key: 0, nonce: 2 },
];

#[test]
fn a_recorded_handshake_and_another_key_admit_nobody(rt: HostRuntime) {
    let said = honest(rt.alloc());
    for (index, end) in STRANGERS.iter().enumerate() {
        let spoken = accepted(
            rt.alloc(),
            *end,
            &peers(),
            said.dialled.as_slice(),
            usize::MAX,
        );
        assert!(rt; spoken.failed(NotAdmitted::NoProof, 64), "{index}");
    }
}

/// What comes where an end's own proof is sent back to it: the hello, and the proof of the challenge.
fn reflected(alloc: Global, said: &Transcript) -> Result<Vec<u8>, AllocError> {
    let mut bytes = Vec::new(alloc);
    bytes.extend_from_slice(piece(said.dialled.as_slice(), 0, 80))?;
    bytes.extend_from_slice(piece(said.answered.as_slice(), 32, 64))?;
    Ok(bytes)
}

#[test]
fn a_proof_that_is_sent_back_is_none(rt: HostRuntime) -> Result<(), Fail> {
    let said = honest(rt.alloc());
    let bytes = reflected(rt.alloc(), &said)?;
    let accepts = accepted(rt.alloc(), ACCEPTS, &peers(), bytes.as_slice(), usize::MAX);
    assert!(rt; accepts.failed(NotAdmitted::NoProof, 64));
    let dials = initiated(
        rt.alloc(),
        DIALS,
        &peers(),
        0,
        piece(said.dialled.as_slice(), 0, 64),
    );
    assert!(rt; dials.failed(NotAdmitted::NoProof, 80));
    Ok(())
}

/// How many bytes each read brings, and whether the end is admitted: each message may take eight reads.
const PACES: &[(usize, bool)] = &[(1, false), (9, false), (10, true), (79, true)];

#[test]
fn each_message_comes_in_eight_reads(rt: HostRuntime) {
    let said = honest(rt.alloc());
    for (most, is_admitted) in PACES {
        let spoken = accepted(
            rt.alloc(),
            ACCEPTS,
            &peers(),
            said.dialled.as_slice(),
            *most,
        );
        assert!(rt; spoken.outcome.is_ok() == *is_admitted, "{most}");
    }
}
