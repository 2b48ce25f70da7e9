//! The end that dials.

ghost use Rattle.std.specs.Prelude.{◌≡◌, ◌⊎◌, true, IfOk, OnErr, take};
ghost use Rattle.std.specs.Io.KnownBytes.{Consumes};
ghost use Rattle.desk_output.specs.Prefixes.{AppendsPrefix};
ghost use Rattle.desk_admission.specs.Handshake.{hello_bytes, challenge_bytes, HasProved, HasAnswered};

use crate::endpoint::Endpoint;
use crate::exchange::{
    NotAdmitted, RecordKeys, challenge, initiator_keys, initiator_proof, receive, send,
};
use desk_key::HmacKey;
use std::io::{Read, Write};

/// The nonce with which a challenge begins.
fn nonce_of(challenge: &[u8; 64]) -> [u8; 32]
    ensures { result ≡ take 32 challenge.now }
{
    let mut nonce = [0; 32];
    nonce.copy_from_slice(&challenge[..32]);
    nonce
}

/// Whether two challenges are the same. It looks at every byte, whatever the others are.
fn are_same_challenges(one: &[u8; 64], other: &[u8; 64]) -> bool
    ensures { result ≡ true → one.now ≡ other.now }
{
    let mut same = true;
    for i in 0..64 {
        same &= one[i] == other[i];
    }
    same
}

/// Reads the challenge to a hello, and gives its nonce.
fn read_challenge<I: Read>(
    input: &mut I,
    key: &HmacKey,
    hello: &[u8; 80],
) -> Result<[u8; 32], NotAdmitted>
    ensures { IfOk result (λ nonce. Consumes (I.remaining input.old) (I.remaining input.new)
        (challenge_bytes key.now.block.value hello.now nonce)) }
{
    let mut read = [0; 64];
    receive(input, &mut read)?;
    let nonce = nonce_of(&read);
    if !are_same_challenges(&read, &challenge(key, hello, &nonce)) {
        return Err(NotAdmitted::NoProof);
    }
    Ok(nonce)
}

/// Shows the endpoint that this end holds the key, once the endpoint has shown that it does. `from` is the number of
/// this node, or 255 of a client. The nonce was never used before.
pub fn initiate<I: Read, O: Write>(
    input: &mut I,
    output: &mut O,
    key: &HmacKey,
    endpoint: &Endpoint,
    from: u8,
    nonce: &[u8; 32],
) -> Result<RecordKeys, NotAdmitted>
    // What answered sent the challenge to just this hello; it was sent the hello and the proof, and nothing else.
    ensures ok { IfOk result (λ keys. HasProved key.now.block.value (hello_bytes endpoint.now from nonce.now)
        (I.remaining input.old) (I.remaining input.new) (O.contents output.old) (O.contents output.new)
        keys.receiving.block.value keys.sending.block.value) }
    // What did not was sent a prefix of the hello, or, after its challenge alone, one of the hello and the proof.
    ensures err { OnErr result (
        AppendsPrefix (O.contents output.old) (O.contents output.new) (hello_bytes endpoint.now from nonce.now)
        ⊎ HasAnswered key.now.block.value (hello_bytes endpoint.now from nonce.now)
        (I.remaining input.old) (I.remaining input.new) (O.contents output.old) (O.contents output.new)) }
{
    let hello = endpoint.hello(from, nonce);
    if let Err(fault) = send(output, &hello) {
        return Err(fault);
    }
    let other = match read_challenge(input, key, &hello) {
        Ok(nonce) => nonce,
        Err(fault) => return Err(fault),
    };
    if let Err(fault) = send(output, &initiator_proof(key, &hello, &other)) {
        return Err(fault);
    }
    Ok(initiator_keys(key, &hello, &other))
}
