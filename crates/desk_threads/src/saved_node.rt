//! A node with the store of its state.

ghost use Rattle.std.specs.Prelude.{◌≡◌};

use crate::owned_node::OwnedNode;
use desk_log::StateStore;
use desk_mailbox::Item;
use desk_replica::{ItemStep, Replica, SavedReplica};
use desk_types::{Entry, Refusal, WantOfMemory};
use std::alloc::Global;

/// A node, and what its state is saved to. It has one log, and no past ones.
#[derive(Drop)]
pub struct SavedNode<S> {
    pub(crate) owned: OwnedNode,
    pub(crate) store: S,
}

impl<S: StateStore> Replica for SavedNode<S> {
    ghost use Rattle.desk_threads.specs.SavedNodes.{SavedNodeDoes, SavedNodeFollows, SavedNodeRefuses};
    ghost use Rattle.desk_threads.specs.SavedNodes.{saved_node_still, saved_node_further};

    ghost does = { SavedNodeDoes };

    ghost refuses = { SavedNodeRefuses };

    ghost follows = { SavedNodeFollows };

    fn do_item(&mut self, alloc: Global, item: Item) -> Result<ItemStep, WantOfMemory> {
        self.owned.do_item(alloc, item)
    }

    fn count_refused(&mut self) {
        self.owned.count_refused();
    }

    ghost follows_still = { saved_node_still };

    ghost follows_further = { saved_node_further };
}

impl<S: StateStore> SavedReplica for SavedNode<S> {
    ghost use Rattle.desk_threads.specs.SavedNodes.{node_saving, no_past_counts, node_saved_last, node_saved_same};
    ghost use Rattle.desk_threads.specs.SavedNodes.{node_refused_saved, node_followed_on, node_saved_on};
    ghost use Rattle.desk_threads.specs.SavedNodes.{node_failed_on, node_forgets, node_followed_keeps};
    ghost use Rattle.desk_threads.specs.SavedNodes.{node_begins, node_prepares, node_saved_keeps};

    ghost saving = { node_saving S.StateStore };

    fn past_len(&self) -> u64 {
        0
    }

    fn reported(&self) -> &[Entry] {
        &self.owned.node().saved().log().entries()[..0]
    }

    fn committed(&self) -> &[Entry] {
        let saved = self.owned.node().saved();
        // What is committed stands in the log.
        prove!(saved.commit() <= saved.log().len());
        &saved.log().entries()[..saved.commit() as usize]
    }

    fn save(&mut self, known: u64) -> Result<(), Refusal> {
        let SavedNode { owned, store } = self;
        store.save_state(owned.node().saved(), known)
    }

    // Nothing is reported to a node of one log.
    fn forget_reported(&mut self) {}

    // Nor has it a next epoch.
    fn begin_next(&mut self) -> Result<Option<ItemStep>, Refusal> {
        Ok(None)
    }

    fn prepare(&mut self) -> Result<(), Refusal> {
        Ok(())
    }

    ghost past_counts = { λ r past none. no_past_counts past none };

    ghost saved_last = { λ old new saves. node_saved_last _ old new saves };

    ghost saved_same = { λ old new saves. node_saved_same _ old new saves };

    ghost refused_saved = { λ old new refused is. node_refused_saved S.last S.stopped old new refused is };

    ghost followed_on = { λ old new follows. node_followed_on _ old new follows };

    ghost saved_on = { λ old new saves. node_saved_on _ old new saves };

    ghost failed_on = { λ old new fails. node_failed_on _ old new fails };

    ghost forgotten_on = { λ old new same. node_forgets _ S.preserved_still old new same };

    ghost begun_on = { λ old new packets begins. node_begins _ old new begins };

    ghost prepared_on = { λ old new same. node_prepares _ S.preserved_still old new same };

    ghost followed_keeps = { λ old new follows. node_followed_keeps S.keeps S.preserved_still old new follows };

    ghost saved_keeps = { λ old new saves. node_saved_keeps _ old new saves };

    ghost keeps_further = { λ old mid new first last. S.preserved_further old.store mid.store new.store first last };
}

impl<S> SavedNode<S> {
    /// The node as the items so far left it, and its store.
    pub fn into_parts(self) -> (OwnedNode, S)
        ensures owned { result.0 ≡ self.owned }
        ensures store { result.1 ≡ self.store }
    {
        let SavedNode { owned, store } = self;
        (owned, store)
    }
}
