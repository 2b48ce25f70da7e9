//! Connections after a handshake, whose bytes go as records.

ghost use Rattle.std.specs.Prelude.{◌≡◌, [], IfOk, slice_range, take};
ghost use Rattle.desk_key.specs.Hmac.{key_block};
ghost use Rattle.desk_records.specs.Streams.{opened_bytes};
ghost use Rattle.desk_admission.specs.Handshake.{hello_bytes};
ghost use Rattle.desk_admission.specs.Streams.{HasSentChallenge, IsAdmitted, IsChallenged, SealsToward};

use crate::admission::{AdmittedEnd, accept};
use crate::endpoint::{Endpoint, NONCE_BYTES};
use crate::exchange::{NotAdmitted, RecordKeys};
use crate::initiator::initiate;
use desk_key::Key;
use desk_records::{Opened, Sealed};
use std::alloc::Global;
use std::io::{Read, Write};
use std::random::RandomSource;
use std::snapshot::Snapshot;

/// A port whose users hold a key, and what the handshake calls it.
pub struct KeyedPort {
    pub key: Key,
    pub endpoint: Endpoint,
}

// Written out, so that callers need not prove each part's drop.
impl Drop for KeyedPort {
    fn drop(self) {
        let KeyedPort {
            key: _,
            endpoint: _,
        } = self;
    }
}

impl KeyedPort {
    /// The same once more.
    pub fn copy(&self) -> KeyedPort
        ensures { result ≡ self.now }
    {
        KeyedPort {
            key: self.key.copy(),
            endpoint: self.endpoint,
        }
    }
}

/// A nonce that the host draws. Err where it has none.
pub fn drawn_nonce<R: RandomSource>(rt: &R) -> Result<[u8; NONCE_BYTES], NotAdmitted> {
    let mut nonce = [0; NONCE_BYTES];
    match rt.fill_bytes(&mut nonce) {
        Ok(()) => Ok(nonce),
        Err(_) => Err(NotAdmitted::Broken),
    }
}

/// A connection whose other end was admitted: what it sends from there on, and what it is sent, both by records. Only
/// `admit` makes one.
pub struct AdmittedStream<I: Read, O: Write> {
    input: Opened<I>,
    output: Sealed<O>,
    /// The number of the end that dialled.
    from: u8,
    /// Who was admitted, as a contract sees it, of which no byte of memory has anything.
    end: Snapshot<AdmittedEnd>,
}

// Written out, so that callers need not prove each part's drop.
impl<I: Read + Drop, O: Write + Drop> Drop for AdmittedStream<I, O> {
    fn drop(self) {
        let AdmittedStream {
            input: _,
            output: _,
            from: _,
            end: _,
        } = self;
    }
}

impl<I: Read, O: Write> AdmittedStream<I, O> {
    /// The number of the end that dialled: of another node, or 255 of a client.
    pub fn from_node(&self) -> u8
        ensures { result ≡ self.now.from }
    {
        self.from
    }

    /// Both directions.
    pub fn into_ends(self) -> (Opened<I>, Sealed<O>)
        ensures input { result.0 ≡ self.input }
        ensures output { result.1 ≡ self.output }
    {
        let AdmittedStream {
            input,
            output,
            from: _,
            end: _,
        } = self;
        (input, output)
    }
}

/// Opens what comes and seals what goes, by keys of their own. Err where memory is refused.
fn over_records<I: Read + Drop, O: Write + Drop>(
    alloc: Global,
    input: I,
    output: O,
    keys: RecordKeys,
) -> Result<(Opened<I>, Sealed<O>), NotAdmitted>
    ensures opened { IfOk result (λ ends.
        opened_bytes ends.0.key.block.value ends.0.count (slice_range ends.0.room.items ends.0.from ends.0.until)
        (take ends.0.held ends.0.room.items) (I.remaining ends.0.inner)
        ≡ opened_bytes keys.receiving.block.value 0 [] [] (I.remaining input)) }
    ensures sealed { IfOk result (λ ends. ends.1.key.block.value ≡ keys.sending.block.value) }
    ensures inner { IfOk result (λ ends. ends.1.inner ≡ output) }
{
    let (receiving, sending) = keys.into_both();
    let Ok(opened) = Opened::new(alloc, input, receiving) else {
        return Err(NotAdmitted::Broken);
    };
    let Ok(sealed) = Sealed::new(alloc, output, sending) else {
        return Err(NotAdmitted::Broken);
    };
    Ok((opened, sealed))
}

/// Admits the end that dialled a port, where it shows that it holds the key. The nonce was never used before.
pub fn admit<I: Read + Drop, O: Write + Drop>(
    alloc: Global,
    input: I,
    output: O,
    port: &KeyedPort,
    nonce: &[u8; 32],
) -> Result<AdmittedStream<I, O>, NotAdmitted>
    // Who is admitted sent a hello for this port, and its proof; what is read of it then was carried by right records.
    ensures admitted { IfOk result (λ s. IsAdmitted (key_block port.now.key.bytes) port.now.endpoint nonce.now s.from
        (I.remaining input) (opened_bytes s.input.key.block.value s.input.count
        (slice_range s.input.room.items s.input.from s.input.until) (take s.input.held s.input.room.items)
        (I.remaining s.input.inner))) }
    // It was sent the challenge to its hello before the first record, and nothing else. What is written then goes as
    // records, by the key of this connection and direction.
    ensures sent { IfOk result (λ s. HasSentChallenge (key_block port.now.key.bytes) port.now.endpoint nonce.now
        (I.remaining input) (O.contents output) (O.contents s.output.inner) s.output.key.block.value) }
{
    let (mut input, mut output) = (input, output);
    let key = port.key.for_tags();
    let end = accept(&mut input, &mut output, &key, &port.endpoint, nonce)?;
    let first = Snapshot::of(&end);
    let from = end.from_node();
    let (input, output) = over_records(alloc, input, output, end.into_keys())?;
    Ok(AdmittedStream {
        input,
        output,
        from,
        end: first,
    })
}

/// Shows a port that was dialled that this end holds the key, once the port has shown that it does. `from` is the
/// number of this node, or 255 of a client. The nonce was never used before.
pub fn dial<I: Read + Drop, O: Write + Drop>(
    alloc: Global,
    input: I,
    output: O,
    port: &KeyedPort,
    from: u8,
    nonce: &[u8; 32],
) -> Result<(Opened<I>, Sealed<O>), NotAdmitted>
    // The port sent the challenge to just this hello; what is read of it then was carried by right records. It was sent
    // the hello and the proof before the first record, and nothing else. What is written then goes as records, by the
    // key of this connection and direction.
    ensures challenged { IfOk result (λ ends. IsChallenged (key_block port.now.key.bytes)
        (hello_bytes port.now.endpoint from nonce.now) (I.remaining input)
        (opened_bytes ends.0.key.block.value ends.0.count (slice_range ends.0.room.items ends.0.from ends.0.until)
        (take ends.0.held ends.0.room.items) (I.remaining ends.0.inner))
        (O.contents output) (O.contents ends.1.inner) ends.1.key.block.value) }
    // What is written then goes as records, by a key that comes of the same hello.
    ensures sealed { IfOk result (λ ends. SealsToward (key_block port.now.key.bytes)
        (hello_bytes port.now.endpoint from nonce.now) ends.1.key.block.value) }
{
    let (mut input, mut output) = (input, output);
    let key = port.key.for_tags();
    let keys = initiate(&mut input, &mut output, &key, &port.endpoint, from, nonce)?;
    let (input, output) = over_records(alloc, input, output, keys)?;
    Ok((input, output))
}
