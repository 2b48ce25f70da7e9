//! The seed with which boards hash.

use desk_types::HashSeed;
use std::random::RandomSource;

/// A seed that no client can know. Where the host gives no random bytes, it is that of 0.
pub(crate) fn drawn_seed<R: RandomSource>(rt: &R) -> HashSeed {
    let mut bytes = [0; 8];
    match rt.fill_bytes(&mut bytes) {
        Ok(()) => HashSeed::new(u64::from_le_bytes(bytes)),
        Err(_) => HashSeed::new(0),
    }
}
