//! Nodes, and how they lie in the block.
ghost use Rattle.std.specs.Prelude.{◌≡◌, ℕ, ◌+◌, ◌^◌, ◌<◌, ◌≤◌, ◌++◌, length, take, drop, slice_index};
ghost use Rattle.desk_arena.specs.Nodes.{word_of, word_bytes, words_bytes};

use crate::block::Block;
use std::alloc::Global;

/// How many bytes a node takes.
pub const NODE_BYTES: usize = 32;

/// Eight words, without meaning to the arena.
#[derive(Clone, Copy, Debug, PartialEq, Eq)]
pub struct Node {
    pub words: [u32; 8],
}

/// A node of an arena, by its place in the list of nodes.
#[derive(Clone, Copy, Debug, PartialEq, Eq)]
pub struct NodeId {
    /// How many nodes stand before it.
    pub index: u32,
}

#[tactic(auto, unfolding(crate::specs::Nodes::word_of))]
fn word_at(bytes: &[u8], at: usize) -> u32
    requires { at + 4 ≤ length bytes.now }
    ensures { result ≡ word_of (take 4 (drop at bytes.now)) }
{
    u32::from_le_bytes([bytes[at], bytes[at + 1], bytes[at + 2], bytes[at + 3]])
}

#[tactic(auto, unfolding(crate::specs::Nodes::word_bytes))]
fn word_bytes(word: u32) -> [u8; 4]
    ensures bytes { result ≡ word_bytes word }
    ensures len { length (word_bytes word) ≡ 4 }
{
    word.to_le_bytes()
}

// Of an array that is passed by value a caller knows no more than the last two clauses say.
fn write_words(words: &[u32; 8], block: &mut Block<Global>, at: usize)
    requires { at + NODE_BYTES ≤ length block.old }
    ensures bytes { block.new ≡ take at block.old ++ words_bytes words.now ++ drop (at + NODE_BYTES) block.old }
    ensures len { length block.new ≡ length block.old }
    ensures words { length words.now ≡ 8 }
    ensures fit { (i : ℕ) → slice_index words.now i < 2 ^ 32 }
{
    // So that the places are known to fit a `usize`.
    prove!(block.len() >= at + NODE_BYTES);
    for (i, word) in words.iter().enumerate() {
        let bytes = word_bytes(*word);
        block.write(at + 4 * i, &bytes);
    }
}

impl Node {
    ghost use Rattle.desk_arena.specs.Nodes.{node_of, node_bytes};

    /// The node that lies at that place.
    pub(crate) fn read(bytes: &[u8], at: usize) -> Node
        requires { at + NODE_BYTES ≤ length bytes.now }
        ensures { result ≡ node_of (drop at bytes.now) }
    {
        Node {
            words: [
                word_at(bytes, at),
                word_at(bytes, at + 4),
                word_at(bytes, at + 8),
                word_at(bytes, at + 12),
                word_at(bytes, at + 16),
                word_at(bytes, at + 20),
                word_at(bytes, at + 24),
                word_at(bytes, at + 28),
            ],
        }
    }

    /// Lays the node at that place.
    pub(crate) fn write(self, block: &mut Block<Global>, at: usize)
        requires { at + NODE_BYTES ≤ length block.old }
        ensures bytes { block.new ≡ take at block.old ++ node_bytes self ++ drop (at + NODE_BYTES) block.old }
        ensures len { length block.new ≡ length block.old }
        ensures words { length self.words ≡ 8 }
        ensures fit { (i : ℕ) → slice_index self.words i < 2 ^ 32 }
    {
        write_words(&self.words, block, at);
    }
}
