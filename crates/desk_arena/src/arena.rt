//! The arena.
ghost use Rattle.std.specs.Prelude.{◌≡◌, ◌+◌, ◌<◌, ◌≤◌, ◌↔◌, length, slice_get, Some};
ghost use Rattle.std.specs.Prelude.{IsTrue, IfOk, OnOk, OnErr, IsErr};
ghost use Rattle.desk_arena.specs.Contents.{empty_contents, used_bytes, IsWithinCapacity, room};
ghost use Rattle.desk_arena.specs.Contents.{with_node, with_text, oldest_part, HoldsNode, HoldsText, text_at};

use crate::block::Block;
use crate::error::{Full, WantOfMemory};
use crate::node::{NODE_BYTES, Node, NodeId};
use crate::text::Text;
use std::alloc::Global;
use std::marker::Model;

/// The greatest capacity of an arena, in bytes.
pub const MAX_CAPACITY: u32 = 16_777_216;

/// How long the two lists of an arena were.
#[derive(Clone, Copy, Debug, PartialEq, Eq)]
pub struct Mark {
    /// The count of nodes.
    pub nodes: u32,
    /// The count of text bytes.
    pub texts: u32,
}

/// A list of nodes, in order, and a list of the bytes of texts, the newest text in front.
///
/// Each node takes 32 bytes, and a text its own bytes. Together they never take more than the capacity.
///
/// An arena is one block of memory, which is freed when it is dropped.
pub struct DocArena {
    block: Block<Global>,
    // How many nodes lie at the front of the block.
    nodes: usize,
    // How many bytes of texts lie at its end.
    texts: usize,
}

// Written out, so that callers need not prove each part's drop.
impl Drop for DocArena {
    fn drop(self) {
        let DocArena {
            block: _,
            nodes: _,
            texts: _,
        } = self;
    }
}

impl Model for DocArena {
    ghost use Rattle.std.specs.Prelude.{◌+◌, ◌*◌, ◌≤◌, length};
    ghost use Rattle.desk_arena.specs.Contents.{Contents};

    ghost Value = { Contents };

    ghost use Rattle.desk_arena.specs.InBlock.{contents};
    ghost use Rattle.desk_arena.specs.declared.arena.TheConstants.{MAX_CAPACITY};
    ghost use Rattle.desk_arena.specs.declared.node.TheConstants.{NODE_BYTES};

    ghost view = { contents };

    ghost invariant = { λ a. (NODE_BYTES * a.nodes + a.texts ≤ length a.block) × (length a.block ≤ MAX_CAPACITY) };
}

impl DocArena {
    /// An arena with nothing in it, of that capacity in bytes.
    ///
    /// It takes all its memory here: no other call takes any.
    pub fn with_capacity(alloc: Global, bytes: u32) -> Result<DocArena, WantOfMemory>
        requires { bytes ≤ MAX_CAPACITY }
        ensures { IfOk result (λ arena. arena ≡ empty_contents bytes) }
    {
        Ok(DocArena {
            block: Block::new(alloc, bytes as usize)?,
            nodes: 0,
            texts: 0,
        })
    }

    /// The capacity, in bytes.
    pub fn capacity(&self) -> u32
        ensures capacity { result ≡ self.now.capacity }
        ensures limit { self.now.capacity ≤ MAX_CAPACITY }
    {
        self.block.len() as u32
    }

    /// The bytes that are taken.
    pub fn used(&self) -> u32
        ensures used { result ≡ used_bytes self.now }
        ensures within { IsWithinCapacity self.now }
    {
        (NODE_BYTES * self.nodes + self.texts) as u32
    }

    /// The bytes that are left.
    fn free(&self) -> usize
        ensures { result ≡ room self.now }
    {
        self.block.len() - (NODE_BYTES * self.nodes + self.texts)
    }

    /// Whether the node is there.
    pub fn holds_node(&self, id: NodeId) -> bool
        ensures { IsTrue result ↔ HoldsNode self.now id }
    {
        (id.index as usize) < self.nodes
    }

    /// The node of that place.
    pub fn node(&self, id: NodeId) -> Node
        requires { HoldsNode self.now id }
        ensures { slice_get self.now.nodes id.index ≡ Some result }
    {
        Node::read(self.block.as_slice(), NODE_BYTES * id.index as usize)
    }

    /// Puts a node at the end of the nodes.
    ///
    /// The answer is `Full` exactly where 32 bytes more would pass the capacity, and then nothing changes.
    pub fn push_node(&mut self, node: Node) -> Result<NodeId, Full>
        ensures id { IfOk result (λ id. id.index ≡ length self.old.nodes) }
        ensures pushed { OnOk result (self.new ≡ with_node self.old node) }
        ensures full { IsErr result ↔ (room self.old < NODE_BYTES) }
        ensures err { OnErr result (self.new ≡ self.old) }
        ensures within { IsWithinCapacity self.new }
    {
        if self.free() < NODE_BYTES {
            return Err(Full);
        }
        let index = self.nodes as u32;
        node.write(&mut self.block, NODE_BYTES * self.nodes);
        self.nodes += 1;
        Ok(NodeId { index })
    }

    /// Whether all bytes of the text are there.
    pub fn holds_text(&self, text: Text) -> bool
        ensures { IsTrue result ↔ HoldsText self.now text }
    {
        text.len <= text.from_end && text.from_end as usize <= self.texts
    }

    /// The bytes of the text as the list is now, without a copy.
    pub fn text(&self, text: Text) -> &[u8]
        requires { HoldsText self.now text }
        ensures { result.now ≡ text_at self.now text }
    {
        let start = self.block.len() - text.from_end as usize;
        &self.block.as_slice()[start..start + text.len as usize]
    }

    /// Puts a text in front of the others.
    ///
    /// The answer is `Full` exactly where its bytes would pass the capacity, and then nothing changes.
    pub fn push_text(&mut self, bytes: &[u8]) -> Result<Text, Full>
        ensures len { IfOk result (λ text. text.len ≡ length bytes.now) }
        ensures from_end { IfOk result (λ text. text.from_end ≡ length bytes.now + length self.old.texts) }
        ensures pushed { OnOk result (self.new ≡ with_text self.old bytes.now) }
        ensures full { IsErr result ↔ (room self.old < length bytes.now) }
        ensures err { OnErr result (self.new ≡ self.old) }
        ensures within { IsWithinCapacity self.new }
    {
        if self.free() < bytes.len() {
            return Err(Full);
        }
        let texts = self.texts + bytes.len();
        self.block.write(self.block.len() - texts, bytes);
        self.texts = texts;
        Ok(Text {
            len: bytes.len() as u32,
            from_end: texts as u32,
        })
    }

    /// How long the two lists are.
    pub fn mark(&self) -> Mark
        ensures nodes { result.nodes ≡ length self.now.nodes }
        ensures texts { result.texts ≡ length self.now.texts }
    {
        Mark {
            nodes: self.nodes as u32,
            texts: self.texts as u32,
        }
    }

    /// Keeps the oldest of each list, as many as the mark says and no more than are there.
    pub fn rewind(&mut self, mark: Mark)
        ensures preserved { self.new ≡ oldest_part self.old mark }
        ensures within { IsWithinCapacity self.new }
    {
        self.nodes = self.nodes.min(mark.nodes as usize);
        self.texts = self.texts.min(mark.texts as usize);
    }

    /// Empties both lists.
    pub fn reset(&mut self)
        ensures emptied { self.new ≡ empty_contents self.old.capacity }
        ensures within { IsWithinCapacity self.new }
    {
        self.nodes = 0;
        self.texts = 0;
    }
}
