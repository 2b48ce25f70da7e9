//! The thread of a node's keeper.

ghost use Rattle.std.specs.Prelude.{◌≡◌, ◌<◌, false, map, IfOk, OnOk, IfErr};
ghost use Rattle.desk_types.specs.Group.{IsGroup};
ghost use Rattle.desk_types.specs.Lists.{others_below};
ghost use Rattle.desk_replica.specs.Endings.{IsEndingRefusal};
ghost use Rattle.desk_network.specs.Ends.{HasRunningStore};

use crate::catching_up::CatchingUp;
use desk_epoch_replica::DeferringReplica;
use desk_epoch_stores::{EndedStores, EpochStores};
use desk_events::EventLog;
use desk_log::StateStore;
use desk_peers::{PeerQueue, PeerQueues, open_queues};
use desk_published::BoardName;
use desk_threads::{Keeper, KeeperGuard, Out, TURN_ITEMS};
use desk_types::{EpochPacket, Refusal, WantOfMemory};
use std::alloc::Global;
use std::sync::Wait;
use std::thread;
use std::thread::{Promise, PromisedHandle, Threads};
use std::time::Clock;

/// What comes back of a node that has ended.
#[derive(Drop)]
pub struct NodeEnd<T, S> {
    /// What its states were saved to. They are to be closed.
    pub stores: EndedStores<T, S>,
    /// Ok after a stop, else what ended the node: `StoreFault`, or `NodeStopped` where another node acts in its place.
    pub outcome: Result<(), Refusal>,
}

/// Hands packets to the queues to the other nodes. A queue that is full loses its packet; what is put into the queue to
/// a node is some of the packets that go to it, in order.
pub struct QueuedPackets<W: Wait + Drop> {
    queues: PeerQueues<W>,
    /// Sees each packet before it is put.
    catching_up: CatchingUp<W>,
}

// Written out, so that callers need not prove each part's drop.
impl<W: Wait + Drop> Drop for QueuedPackets<W> {
    fn drop(self) {
        let QueuedPackets {
            queues: _,
            catching_up: _,
        } = self;
    }
}

impl<W: Wait + Clock + Drop> Out for QueuedPackets<W> {
    ghost use Rattle.desk_network.specs.Queued.{HasQueued};
    ghost use Rattle.desk_network.specs.QueuedInOrder.{queued_none, queued_then};

    ghost takes = { λ old packets new. HasQueued old.queues packets new.queues };

    fn hand(&mut self, to: u8, packet: EpochPacket) {
        self.catching_up.see(&packet);
        let _ = self.queues.put(to, packet);
    }

    ghost takes_none = { λ out. queued_none _ };

    ghost takes_then = { λ old mid new first last one more. queued_then _ _ _ _ _ one more };
}

/// A keeper's thread ends by no other refusal than what its keeper ends by, and not well where its store has failed.
#[derive(Clone, Copy)]
pub(crate) struct EndsByKeeper;

impl<T, S: StateStore> Promise<NodeEnd<T, S>> for EndsByKeeper {
    ghost use Rattle.std.specs.Prelude.{OnOk, IfErr};
    ghost use Rattle.desk_replica.specs.Endings.{IsEndingRefusal};
    ghost use Rattle.desk_network.specs.Ends.{HasRunningStore};

    ghost kept_by = { λ p end. IfErr end.outcome IsEndingRefusal
        × OnOk end.outcome (HasRunningStore S.StateStore end.stores) };
}

/// The thread of a node's keeper.
pub(crate) type KeeperThread<T, S> = PromisedHandle<NodeEnd<T, S>, EndsByKeeper>;

/// Runs the keeper to its end.
fn keep<B: BoardName, T: EpochStores + Drop, R: Wait + Clock + Drop>(
    rt: &R,
    guard: KeeperGuard<B, DeferringReplica<T>, R>,
    out: QueuedPackets<R>,
) -> NodeEnd<T, T::Store>
    requires running { guard.keeper.value.stopped ≡ false }
    ensures fault { IfErr result.outcome IsEndingRefusal }
    ensures running { OnOk result.outcome (HasRunningStore T.Store.StateStore result.stores) }
{
    let mut out = out;
    let (keeper, outcome) = guard.into_keeper().run_turns(rt, TURN_ITEMS, &mut out);
    let (taker, replica) = keeper.end(rt);
    drop(taker);
    NodeEnd {
        stores: replica.into_replica().into_stores(),
        outcome,
    }
}

/// Opens the queues to the other nodes, and starts the keeper's thread, which puts its packets there. It gives the
/// thread, and the ends at which the packets are taken.
pub(crate) fn start_keeper<
    B: BoardName + Send + Sync + 'static,
    T: EpochStores + Drop + Send + 'static,
    R: Threads + Wait + Clock + Drop + Copy + Send + Sync + 'static,
>(
    rt: &R,
    alloc: Global,
    id: u8,
    n: u8,
    keeper: Keeper<B, DeferringReplica<T>>,
    log: EventLog,
) -> Result<(KeeperThread<T, T::Store>, Vec<PeerQueue>), WantOfMemory>
where
    T::Store: Send + 'static,
    requires group { IsGroup n }
    requires id { id < n }
    requires running { keeper.stopped ≡ false }
    ensures nodes { IfOk result (λ both. map (λ q. q.node) both.1.items ≡ others_below id n) }
{
    let handle = *rt;
    let catching_up = CatchingUp::new(handle, log);
    let guard = KeeperGuard::new(alloc, keeper, handle)?;
    let Ok((queues, takers)) = open_queues(handle, alloc, id, n) else {
        drop(guard);
        return Err(WantOfMemory);
    };
    let out = QueuedPackets {
        queues,
        catching_up,
    };
    match thread::spawn_with(rt, EndsByKeeper, move || keep(&handle, guard, out)) {
        Ok(thread) => Ok((thread, takers)),
        Err(refused) => {
            drop(refused);
            Err(WantOfMemory)
        }
    }
}
