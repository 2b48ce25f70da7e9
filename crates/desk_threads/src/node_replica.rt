//! A node as what a keeper does its items to.

use crate::owned_node::OwnedNode;
use desk_mailbox::Item;
use desk_replica::{ItemStep, Replica};
use desk_types::WantOfMemory;
use std::alloc::Global;

impl Replica for OwnedNode {
    ghost use Rattle.desk_threads.specs.NodeReplica.{NodeDoes, NodeFollows, NodeRefuses};
    ghost use Rattle.desk_threads.specs.NodeInOrder.{node_still, node_further};

    ghost does = { NodeDoes };

    ghost refuses = { NodeRefuses };

    ghost follows = { NodeFollows };

    fn do_item(&mut self, alloc: Global, item: Item) -> Result<ItemStep, WantOfMemory> {
        match self.act(alloc, item) {
            Ok(step) => Ok(ItemStep::of_node(step)),
            Err(refused) => Err(refused),
        }
    }

    #[tactic(auto, using(crate::proofs::ReplicaItems::node_refused))]
    fn count_refused(&mut self) {
        self.refuse();
    }

    ghost follows_still = { node_still };

    ghost follows_further = { node_further };
}
