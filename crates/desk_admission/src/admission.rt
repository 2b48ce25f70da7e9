//! The end that was dialled.

ghost use Rattle.std.specs.Prelude.{◌≡◌, ◌⊎◌, ◌++◌, true, IfOk, OnErr};
ghost use Rattle.std.specs.Io.KnownBytes.{Appends, Consumes, Keeps};
ghost use Rattle.desk_admission.specs.Handshake.{named_in, IsHelloFor, HasChallenged, challenge_bytes, initiator_proof};
ghost use Rattle.desk_admission.specs.Handshake.{toward_acceptor, toward_initiator};

use crate::endpoint::{Endpoint, HELLO_BYTES};
use crate::exchange::{
    NotAdmitted, RecordKeys, acceptor_keys, challenge, initiator_proof, receive, send,
};
use desk_key::{HmacKey, TAG_BYTES, are_same_tags};
use std::io::{Read, Write};
use std::snapshot::Snapshot;

/// Where in a hello the number of the end that dials stands.
pub(crate) const FROM_BYTE: usize = 10;

/// An end that was admitted: what it sent, which is a hello and the proof of it under the key. Only `accept` makes one.
pub struct AdmittedEnd {
    hello: [u8; 80],
    nonce: [u8; 32],
    proof: [u8; 32],
    keys: RecordKeys,
    /// The key as a contract sees it, of which no byte of memory has anything.
    key: Snapshot<HmacKey>,
    ghost proved: { proof ≡ initiator_proof key.value.block.value hello nonce },
    ghost receives: { keys.receiving.block.value ≡ toward_acceptor key.value.block.value hello nonce },
    ghost sends: { keys.sending.block.value ≡ toward_initiator key.value.block.value hello nonce },
}

// Written out, so that callers need not prove each part's drop.
impl Drop for AdmittedEnd {
    fn drop(self) {
        let AdmittedEnd {
            hello: _,
            nonce: _,
            proof: _,
            keys: _,
            key: _,
        } = self;
    }
}

/// The number that a hello names as who dials.
fn named_in(hello: &[u8; 80]) -> u8
    ensures { result ≡ named_in hello.now }
{
    hello[FROM_BYTE]
}

impl AdmittedEnd {
    /// The number of the end that dialled: of another node, or 255 of a client.
    pub fn from_node(&self) -> u8
        ensures { result ≡ named_in self.now.hello }
    {
        named_in(&self.hello)
    }

    /// The keys of the records that follow.
    pub fn into_keys(self) -> RecordKeys
        ensures receiving { result.receiving.block.value
            ≡ toward_acceptor self.key.value.block.value self.hello self.nonce }
        ensures sending { result.sending.block.value
            ≡ toward_initiator self.key.value.block.value self.hello self.nonce }
    {
        let AdmittedEnd {
            hello: _,
            nonce: _,
            proof: _,
            keys,
            key: _,
        } = self;
        keys
    }
}

/// Whether two hellos are the same.
fn are_same_hellos(one: &[u8; 80], other: &[u8; 80]) -> bool
    ensures same { result ≡ true → one.now ≡ other.now }
{
    one.as_slice() == other.as_slice()
}

/// The nonce with which a hello ends.
fn nonce_of(hello: &[u8; 80]) -> [u8; 32] {
    let mut nonce = [0; 32];
    nonce.copy_from_slice(&hello[48..]);
    nonce
}

/// Whether a hello is for this endpoint.
fn is_for(endpoint: &Endpoint, hello: &[u8; 80]) -> bool
    ensures { result ≡ true → IsHelloFor endpoint.now hello.now }
{
    let from = named_in(hello);
    if !endpoint.may_dial(from) {
        return false;
    }
    are_same_hellos(hello, &endpoint.hello(from, &nonce_of(hello)))
}

/// Reads a hello for this endpoint.
fn read_hello<I: Read>(input: &mut I, endpoint: &Endpoint) -> Result<[u8; 80], NotAdmitted>
    ensures read { IfOk result (λ hello. Consumes (I.remaining input.old) (I.remaining input.new) hello) }
    ensures endpoint { IfOk result (λ hello. IsHelloFor endpoint.now hello) }
{
    let mut hello = [0; HELLO_BYTES];
    receive(input, &mut hello)?;
    if !is_for(endpoint, &hello) {
        return Err(NotAdmitted::OtherEndpoint);
    }
    Ok(hello)
}

/// Reads the proof of the end that dials.
fn read_proof<I: Read>(
    input: &mut I,
    key: &HmacKey,
    hello: &[u8; 80],
    nonce: &[u8; 32],
) -> Result<[u8; 32], NotAdmitted>
    ensures read { IfOk result (λ proof. Consumes (I.remaining input.old) (I.remaining input.new) proof) }
    ensures right { IfOk result (λ proof. proof ≡ initiator_proof key.now.block.value hello.now nonce.now) }
{
    let mut proof = [0; TAG_BYTES];
    receive(input, &mut proof)?;
    if !are_same_tags(&proof, &initiator_proof(key, hello, nonce)) {
        return Err(NotAdmitted::NoProof);
    }
    Ok(proof)
}

/// Admits an end that shows that it holds the key: reads its hello, sends the challenge, which is the nonce and the own
/// proof, and reads the other's proof. The nonce was never used before. A hello for another endpoint gets no byte.
pub fn accept<I: Read, O: Write>(
    input: &mut I,
    output: &mut O,
    key: &HmacKey,
    endpoint: &Endpoint,
    nonce: &[u8; 32],
) -> Result<AdmittedEnd, NotAdmitted>
    // Who is admitted sent a hello for this endpoint, and its proof, which an `AdmittedEnd` has as its fact.
    ensures read { IfOk result (λ a. Consumes (I.remaining input.old) (I.remaining input.new) (a.hello ++ a.proof)) }
    ensures hello { IfOk result (λ a. IsHelloFor endpoint.now a.hello) }
    ensures key { IfOk result (λ a. a.key.value.block.value ≡ key.now.block.value) }
    ensures nonce { IfOk result (λ a. a.nonce ≡ nonce.now) }
    // It was sent the challenge, and nothing else.
    ensures sent { IfOk result (λ a. Appends (O.contents output.old) (O.contents output.new)
        (challenge_bytes key.now.block.value a.hello nonce.now)) }
    // Who is not admitted was sent nothing, or a prefix of the challenge to a hello for this endpoint.
    ensures err { OnErr result (Keeps (O.contents output.old) (O.contents output.new)
        ⊎ HasChallenged key.now.block.value endpoint.now nonce.now (I.remaining input.old)
        (O.contents output.old) (O.contents output.new)) }
{
    let hello = match read_hello(input, endpoint) {
        Ok(hello) => hello,
        Err(fault) => return Err(fault),
    };
    if let Err(fault) = send(output, &challenge(key, &hello, nonce)) {
        return Err(fault);
    }
    let proof = match read_proof(input, key, &hello, nonce) {
        Ok(proof) => proof,
        Err(fault) => return Err(fault),
    };
    Ok(AdmittedEnd {
        keys: acceptor_keys(key, &hello, nonce),
        hello,
        nonce: *nonce,
        proof,
        key: Snapshot::of(key),
    })
}
