//! The seed with which the boards of a run hash.

use desk_options::{Options, options};
use desk_types::HashSeed;
use std::alloc::Global;
use std::hash::{BuildHasher, Hasher};

// The words of each subcommand whose nodes have boards.
const COMMANDS: &[&[&str]] = &[
    &["replay", "--domain", "desk.example"],
    &["world", "--nodes", "3", "--domain", "desk.example"],
    &[
        "answer",
        "--node",
        "1",
        "--nodes",
        "3",
        "--domain",
        "desk.example",
        "--file",
        "node.db",
    ],
    &[
        "serve",
        "--node",
        "1",
        "--nodes",
        "3",
        "--domain",
        "desk.example",
        "--port",
        "4000",
        "--file",
        "node.db",
    ],
    &[
        "cluster",
        "--nodes",
        "5",
        "--domain",
        "desk.example",
        "--port",
        "4000",
    ],
];

/// What the hashes of a seed begin with.
fn begun_hash(seed: HashSeed) -> u64 {
    seed.build_hasher().finish()
}

/// What the hashes of the boards of these options begin with, or nothing where they make no board.
fn hash_of(options: &Options) -> Option<u64> {
    match options {
        Options::Replay(options) => Some(begun_hash(options.domain.seed())),
        Options::World(options) => Some(begun_hash(options.domain.seed())),
        Options::Answer(options) => Some(begun_hash(options.owner.domain.seed())),
        Options::Serve(options) => Some(begun_hash(options.owner.domain.seed())),
        Options::Cluster(options) => Some(begun_hash(options.domain.seed())),
        Options::Send(_) => None,
        Options::Status(_) => None,
        Options::Page(_) => None,
        Options::Log(_) => None,
        Options::Version => None,
    }
}

/// The same of what words ask for, with this seed.
fn seeded_hash(alloc: Global, words: &[&str], seed: HashSeed) -> Option<u64> {
    match options(alloc, words) {
        Ok(mut options) => {
            options.set_seed(seed);
            let hash = hash_of(&options);
            drop(options);
            hash
        }
        Err(_) => None,
    }
}

/// The first of the subcommands whose boards hash with another seed than this.
fn first_unseeded(alloc: Global, seed: HashSeed) -> Option<&'static str> {
    for words in COMMANDS {
        if seeded_hash(alloc, words, seed) != Some(begun_hash(seed)) {
            return Some(words[0]);
        }
    }
    None
}

#[test]
fn each_subcommands_boards_hash_with_the_seed(rt: HostRuntime) {
    assert!(rt; first_unseeded(rt.alloc(), HashSeed::new(7)) == None);
}
