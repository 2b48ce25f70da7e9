//! What a node has come to.

ghost use Rattle.std.specs.Prelude.{All};
ghost use Rattle.desk_mailbox.specs.Ends.{SendsTo};

use super::ends::{NodeEnds, gather_ends};
use super::lines::REQUESTS;
use desk_log::StateStore;
use desk_threads::{BoardName, KeeperGuard, OwnedNode, SavedNode, gather};
use std::sync::Wait;

/// A node that has ended.
#[derive(Drop)]
pub(super) struct EndedNode {
    preserved: OwnedNode,
    /// All that was put was done or is left, and all that readers saw is published.
    is_whole: bool,
}

impl EndedNode {
    /// No item was refused, and each request is committed, the same in the log of the other.
    pub(super) fn agrees(&self, other: &EndedNode) -> bool {
        let saved = self.preserved.node().saved();
        self.is_whole
            && self.preserved.refused() == 0
            && saved.commit() == REQUESTS
            && saved
                .log()
                .front_of(other.preserved.node().saved().log(), REQUESTS)
    }
}

/// The end of a node, with all its senders and sessions.
pub(super) fn settle<B: BoardName, S: StateStore + Drop, R: Wait + Drop>(
    rt: &R,
    guard: KeeperGuard<B, SavedNode<S>, R>,
    ends: NodeEnds<B>,
) -> EndedNode
    requires { All (SendsTo guard.keeper.value.taker) ends.senders.items }
{
    let (gathered, is_whole) = gather_ends(rt, gather(guard.into_keeper()), ends);
    let (preserved, store) = gathered.end(rt).into_parts();
    drop(store);
    EndedNode {
        preserved,
        is_whole,
    }
}
