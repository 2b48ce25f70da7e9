//! Both ends of a handshake, each over what the other sent in an earlier run: what an end sends is a function of its
//! key, its nonce and what it has read.

use desk_admission::{Endpoint, NotAdmitted, RecordKeys, accept, initiate};
use desk_key::HmacKey;
use std::alloc::Global;
use tests_streams::{Sink, Source};

/// An end: its key and its nonce.
#[derive(Clone, Copy)]
pub struct End {
    pub key: u8,
    pub nonce: u8,
}

/// What an end sent, and what came of the handshake there.
#[derive(Drop)]
pub struct Spoken {
    pub sent: Vec<u8>,
    pub outcome: Result<RecordKeys, NotAdmitted>,
}

impl Spoken {
    /// Whether the handshake came to nothing there by this fault, after so many bytes were sent.
    pub fn failed(&self, fault: NotAdmitted, sent: usize) -> bool {
        match &self.outcome {
            Ok(_) => false,
            Err(reported) => *reported == fault && self.sent.len() == sent,
        }
    }
}

/// The end that is dialled, where this comes, so many bytes at a time.
pub fn accepted(alloc: Global, end: End, endpoint: &Endpoint, comes: &[u8], most: usize) -> Spoken {
    let mut input = Source::in_pieces(comes, most);
    let mut output = Sink::whole(Vec::new(alloc));
    let key = HmacKey::new(&[end.key; 32]);
    let outcome = match accept(&mut input, &mut output, &key, endpoint, &[end.nonce; 32]) {
        Ok(admitted) => Ok(admitted.into_keys()),
        Err(fault) => Err(fault),
    };
    let Sink { bytes, .. } = output;
    Spoken {
        sent: bytes,
        outcome,
    }
}

/// The end that dials, where this comes.
pub fn initiated(alloc: Global, end: End, endpoint: &Endpoint, from: u8, comes: &[u8]) -> Spoken {
    let mut input = Source::whole(comes);
    let mut output = Sink::whole(Vec::new(alloc));
    let key = HmacKey::new(&[end.key; 32]);
    let outcome = initiate(
        &mut input,
        &mut output,
        &key,
        endpoint,
        from,
        &[end.nonce; 32],
    );
    let Sink { bytes, .. } = output;
    Spoken {
        sent: bytes,
        outcome,
    }
}

/// What both ends of a handshake send.
#[derive(Drop)]
pub struct Transcript {
    /// The hello and the proof, of 112 bytes.
    pub dialled: Vec<u8>,
    /// The challenge, of 64 bytes.
    pub answered: Vec<u8>,
}

/// The handshake of an end that dials with one that is dialled.
pub fn handshake(
    alloc: Global,
    dials: End,
    accepts: End,
    endpoint: &Endpoint,
    from: u8,
) -> Transcript {
    let hello = initiated(alloc, dials, endpoint, from, &[]);
    let challenge = accepted(alloc, accepts, endpoint, hello.sent.as_slice(), usize::MAX);
    let Spoken { sent, .. } = challenge;
    let proof = initiated(alloc, dials, endpoint, from, sent.as_slice());
    let Spoken { sent: dialled, .. } = proof;
    Transcript {
        dialled,
        answered: sent,
    }
}
