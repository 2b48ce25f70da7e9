//! What both ends of a handshake send, receive and compute.

ghost use Rattle.std.specs.Prelude.{◌≡◌, ◌++◌, ◌∷◌, [], length, OnOk, OnErr, IfErr};
ghost use Rattle.std.specs.Io.KnownBytes.{Appends, Consumes};
ghost use Rattle.desk_output.specs.Prefixes.{AppendsPrefix};
ghost use Rattle.desk_key.specs.Hmac.{tag_under};
ghost use Rattle.desk_admission.specs.Handshake.{acceptor_proof, initiator_proof, challenge_bytes};
ghost use Rattle.desk_admission.specs.Handshake.{toward_acceptor, toward_initiator};

use desk_key::HmacKey;
use desk_output::{flush, write_text};
use std::io::{Read, Write};

/// So often the other end is read for each of its messages, and no more: where a read has a limit of a second, each
/// message has one of eight.
pub const MESSAGE_READS: u32 = 8;

/// Why a handshake came to nothing.
#[derive(Clone, Copy, Debug, PartialEq, Eq)]
pub enum NotAdmitted {
    /// A read or a write failed, the stream ended, or the other end took too many reads for a message.
    Broken,
    /// The hello is none of this version, or for another port, node or desk, or from who may not dial here.
    OtherEndpoint,
    /// The other end does not show that it holds the key.
    NoProof,
}

/// The keys of the records that this end receives and of those that it sends.
pub struct RecordKeys {
    pub receiving: HmacKey,
    pub sending: HmacKey,
}

// Written out, so that callers need not prove each part's drop.
impl Drop for RecordKeys {
    fn drop(self) {
        let RecordKeys {
            receiving: _,
            sending: _,
        } = self;
    }
}

impl RecordKeys {
    /// The key of what this end receives, and that of what it sends.
    pub(crate) fn into_both(self) -> (HmacKey, HmacKey)
        ensures receiving { result.0 ≡ self.receiving }
        ensures sending { result.1 ≡ self.sending }
    {
        let RecordKeys { receiving, sending } = self;
        (receiving, sending)
    }
}

/// Fills the room by what the other end sends.
pub(crate) fn receive<I: Read>(input: &mut I, room: &mut [u8]) -> Result<(), NotAdmitted>
    ensures bytes { OnOk result (Consumes (I.remaining input.old) (I.remaining input.new) room.new) }
    ensures room { length room.new ≡ length room.old }
{
    let mut at = 0;
    for _ in 0..MESSAGE_READS {
        if at >= room.len() {
            return Ok(());
        }
        match input.read(&mut room[at..]) {
            Ok(0) => return Err(NotAdmitted::Broken),
            Ok(count) => at += count,
            Err(_) => return Err(NotAdmitted::Broken),
        }
    }
    if at >= room.len() {
        Ok(())
    } else {
        Err(NotAdmitted::Broken)
    }
}

/// Sends bytes to the other end, at once. Where that fails a prefix of them is sent.
pub(crate) fn send<O: Write>(output: &mut O, bytes: &[u8]) -> Result<(), NotAdmitted>
    ensures ok { OnOk result (Appends (O.contents output.old) (O.contents output.new) bytes.now) }
    ensures err { OnErr result (AppendsPrefix (O.contents output.old) (O.contents output.new) bytes.now) }
{
    if write_text(output, bytes).is_err() || flush(output).is_err() {
        return Err(NotAdmitted::Broken);
    }
    Ok(())
}

/// The proof of the end that was dialled, of this hello and its own nonce.
fn acceptor_proof(key: &HmacKey, hello: &[u8; 80], nonce: &[u8; 32]) -> [u8; 32]
    ensures { result ≡ acceptor_proof key.now.block.value hello.now nonce.now }
{
    key.tag_of_three(&[1], hello, nonce)
}

/// The proof of the end that dials.
pub(crate) fn initiator_proof(key: &HmacKey, hello: &[u8; 80], nonce: &[u8; 32]) -> [u8; 32]
    ensures { result ≡ initiator_proof key.now.block.value hello.now nonce.now }
{
    key.tag_of_three(&[2], hello, nonce)
}

/// The challenge to a hello: the nonce of the end that was dialled, and its proof.
pub(crate) fn challenge(key: &HmacKey, hello: &[u8; 80], nonce: &[u8; 32]) -> [u8; 64]
    ensures { result ≡ challenge_bytes key.now.block.value hello.now nonce.now }
{
    let proof = acceptor_proof(key, hello, nonce);
    let mut challenge = [0; 64];
    challenge[..32].copy_from_slice(nonce);
    challenge[32..].copy_from_slice(&proof);
    challenge
}

/// The keys of the end that was dialled.
pub(crate) fn acceptor_keys(key: &HmacKey, hello: &[u8; 80], nonce: &[u8; 32]) -> RecordKeys
    ensures receiving { result.receiving.block.value ≡ toward_acceptor key.now.block.value hello.now nonce.now }
    ensures sending { result.sending.block.value ≡ toward_initiator key.now.block.value hello.now nonce.now }
{
    RecordKeys {
        receiving: HmacKey::new(&key.tag_of_three(&[3], hello, nonce)),
        sending: HmacKey::new(&key.tag_of_three(&[4], hello, nonce)),
    }
}

/// The keys of the end that dials.
pub(crate) fn initiator_keys(key: &HmacKey, hello: &[u8; 80], nonce: &[u8; 32]) -> RecordKeys
    ensures receiving { result.receiving.block.value ≡ toward_initiator key.now.block.value hello.now nonce.now }
    ensures sending { result.sending.block.value ≡ toward_acceptor key.now.block.value hello.now nonce.now }
{
    RecordKeys {
        receiving: HmacKey::new(&key.tag_of_three(&[4], hello, nonce)),
        sending: HmacKey::new(&key.tag_of_three(&[3], hello, nonce)),
    }
}
