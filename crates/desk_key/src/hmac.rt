//! HMAC (RFC 2104) with SHA-256.

ghost use Rattle.std.specs.Prelude.{◌≡◌, ◌++◌, ◌-◌, ◌≤◌, ◌↔◌, IsTrue, length, replicate};
ghost use Rattle.sha2.specs.Hashers.{Holds256};
ghost use Rattle.desk_key.specs.Holding.{Holds256-prop};
ghost use Rattle.desk_key.specs.Hmac.{key_block, padded_block, tag_under, hmac_sha256};

use sha2::{Digest, Sha256};
use std::snapshot::Snapshot;

/// The bytes of a tag.
pub const TAG_BYTES: usize = 32;

/// What each byte of a key's block is combined with, for the inner digest and for the outer one.
const INNER_PAD: u8 = 0x36;

const OUTER_PAD: u8 = 0x5c;

/// The bytes as a block, filled up by zeros.
fn fill_block(bytes: &[u8]) -> [u8; 64]
    requires { length bytes.now ≤ 64 }
    ensures { result ≡ bytes.now ++ replicate (64 - length bytes.now) 0 }
{
    let mut block = [0; 64];
    block[..bytes.len()].copy_from_slice(bytes);
    block
}

/// A key as a block.
fn block_of(key: &[u8]) -> [u8; 64]
    ensures { result ≡ key_block key.now }
{
    if key.len() > 64 {
        let digest = Sha256::digest(key);
        fill_block(&digest)
    } else {
        fill_block(key)
    }
}

/// A block, each byte of it combined with a pad.
fn pad_block(block: &[u8; 64], pad: u8) -> [u8; 64]
    ensures { result ≡ padded_block pad block.now }
{
    let mut padded = [0; 64];
    for i in 0..64 {
        padded[i] = block[i] ^ pad;
    }
    padded
}

/// The same hasher once more.
fn copy(hasher: &Sha256) -> Sha256
    ensures { result ≡ hasher.now }
{
    match hasher.clone() {
        Ok(same) => same,
        Err(_) => unreachable!(),
    }
}

/// A key for tags. Its block is combined with both pads and hashed once; a tag goes on from there.
pub struct HmacKey {
    inner: Sha256,
    outer: Sha256,
    /// The key as a block, which a contract sees, and no byte of memory has.
    pub block: Snapshot<[u8; 64]>,
    ghost begins: { Holds256 inner (padded_block 0x36 block.value) } by { Holds256-prop _ _ },
    ghost ends: { Holds256 outer (padded_block 0x5c block.value) } by { Holds256-prop _ _ },
}

// Written out, so that callers need not prove each part's drop.
impl Drop for HmacKey {
    fn drop(self) {
        let HmacKey {
            inner: _,
            outer: _,
            block: _,
        } = self;
    }
}

impl HmacKey {
    /// The key of these bytes, of any length; one of more than 64 bytes is as good as its digest.
    pub fn new(key: &[u8]) -> HmacKey
        ensures { result.block.value ≡ key_block key.now }
    {
        let block = block_of(key);
        let mut inner = Sha256::new();
        inner.update(pad_block(&block, INNER_PAD));
        let mut outer = Sha256::new();
        outer.update(pad_block(&block, OUTER_PAD));
        HmacKey {
            inner,
            outer,
            block: Snapshot::of(&block),
        }
    }

    /// The tag of a message of two parts, the second after the first.
    pub fn tag_of_two(&self, first: &[u8], second: &[u8]) -> [u8; 32]
        ensures { result ≡ tag_under self.now.block.value (first.now ++ second.now) }
    {
        let mut inner = copy(&self.inner);
        inner.update(first);
        inner.update(second);
        let mut outer = copy(&self.outer);
        outer.update(inner.finalize());
        outer.finalize()
    }

    /// The tag of a message of three parts, each after the one before.
    pub fn tag_of_three(&self, first: &[u8], second: &[u8], third: &[u8]) -> [u8; 32]
        ensures { result ≡ tag_under self.now.block.value (first.now ++ second.now ++ third.now) }
    {
        let mut inner = copy(&self.inner);
        inner.update(first);
        inner.update(second);
        inner.update(third);
        let mut outer = copy(&self.outer);
        outer.update(inner.finalize());
        outer.finalize()
    }
}

/// The tag of a message under a key of any length.
pub fn hmac_sha256(key: &[u8], message: &[u8]) -> [u8; 32]
    ensures { result ≡ hmac_sha256 key.now message.now }
{
    let block = block_of(key);
    let mut inner = Sha256::new();
    inner.update(pad_block(&block, INNER_PAD));
    inner.update(message);
    let mut outer = Sha256::new();
    outer.update(pad_block(&block, OUTER_PAD));
    outer.update(inner.finalize());
    outer.finalize()
}

/// Whether two tags are the same. It looks at every byte, whatever the others are.
pub fn are_same_tags(one: &[u8; 32], other: &[u8; 32]) -> bool
    ensures { IsTrue result ↔ (one.now ≡ other.now) }
{
    let mut same = true;
    for i in 0..32 {
        same &= one[i] == other[i];
    }
    same
}
