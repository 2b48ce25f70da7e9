//! What hashes begin with.

ghost use Rattle.std.specs.Prelude.{◌≡◌};
ghost use Rattle.std.specs.Hash as fed;
ghost use Rattle.std.specs.Hash.FoldHasher as folding;
ghost use Rattle.std.specs.List.{fold};

use std::fmt;
use std::fmt::{Debug, Formatter};
use std::hash::{BuildHasher, FoldHasher, Hasher};

/// What the hashes of an index begin with. Where it is of a number that those can't know who choose the keys, they
/// can't choose keys of one hash, with which an index is slow.
#[derive(Clone, Copy)]
pub struct HashSeed {
    first: FoldHasher,
}

impl HashSeed {
    /// The seed of a number: all hashes are of its eight bytes, and then of the key.
    pub fn new(number: u64) -> HashSeed
        ensures { result.first ≡ fold folding.write folding.initial (fed.u64 number) }
    {
        let mut first = FoldHasher::default();
        first.write_u64(number);
        HashSeed { first }
    }
}

impl BuildHasher for HashSeed {
    type Hasher = FoldHasher;

    ghost build_hasher = { λ seed. seed.first };

    fn build_hasher(&self) -> FoldHasher {
        self.first
    }
}

// A seed is not to be revealed.
impl Debug for HashSeed {
    fn fmt<W: fmt::Write>(&self, f: &mut Formatter<W>) -> fmt::Result {
        f.write_str("HashSeed")
    }
}
