//! A node's place in its group.

ghost use Rattle.std.specs.Prelude.{◌≡◌, ◌<◌};
ghost use Rattle.desk_log.specs.Change.{leads};
ghost use Rattle.desk_log.specs.Quorum.{primary, is_from_primary, faults};

use crate::saved::Saved;
use std::alloc::Global;

/// Node `id` of a group of `n` nodes, which are numbered from 0, and the allocator of what it sends.
#[derive(Clone, Copy)]
pub struct GroupNode {
    pub id: u8,
    pub n: u8,
    pub alloc: Global,
}

impl GroupNode {
    /// Which node is the primary of a view: the views go round the nodes by their numbers.
    pub fn primary(self, view: u64) -> u8
        requires { 0 < self.n }
        ensures value { result ≡ primary self.n view }
        ensures within { result < self.n }
    {
        (view % self.n as u64) as u8
    }

    /// Whether a packet of a view comes from the view's primary, which is another node.
    pub fn is_from_primary(self, from: u8, view: u64) -> bool
        requires { self.id < self.n }
        ensures { result ≡ is_from_primary self.id self.n from view }
    {
        let primary = self.primary(view);
        from == primary && self.id != primary
    }

    /// Whether the node with this saved state is the normal primary of its view.
    pub fn leads(self, saved: &Saved) -> bool
        requires { self.id < self.n }
        ensures { result ≡ leads self.id self.n saved.now }
    {
        saved.is_normal() && self.id == self.primary(saved.view())
    }

    /// How many nodes may fail, so that the others are still more than half of the group.
    pub fn faults(self) -> u8
        requires { 0 < self.n }
        ensures value { result ≡ faults self.n }
        ensures within { result < self.n }
    {
        (self.n - 1) / 2
    }
}
