//! Keys, handshakes and records, over streams in memory.

mod handshakes;
mod memory;
mod records;
mod streams;
mod talking;
mod texts;
mod vectors;

use std::alloc::{AllocError, Global};

/// The bytes once more.
fn copied(alloc: Global, bytes: &[u8]) -> Result<Vec<u8>, AllocError> {
    let mut copy = Vec::new(alloc);
    copy.extend_from_slice(bytes)?;
    Ok(copy)
}

/// The bytes with a bit of one of them turned.
fn turned(alloc: Global, bytes: &[u8], place: usize, bit: u32) -> Result<Vec<u8>, AllocError> {
    let mut copy = copied(alloc, bytes)?;
    if let Some(byte) = copy.get_mut(place) {
        *byte ^= 1 << (bit % 8);
    }
    Ok(copy)
}

/// The bytes from one place to another, as far as they are there.
fn piece(bytes: &[u8], from: usize, to: usize) -> &[u8] {
    let (before, _) = bytes.split_at(to.min(bytes.len()));
    let (_, piece) = before.split_at(from.min(before.len()));
    piece
}
