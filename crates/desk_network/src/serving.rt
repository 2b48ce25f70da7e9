//! A node that serves until the standard input ends.

ghost use Rattle.std.specs.Prelude.{◌≡◌, ◌<◌, IfErr, IfOk, IsSome, OnOk};
ghost use Rattle.desk_types.specs.Group.{IsGroup};
ghost use Rattle.desk_epoch_replica.specs.Refusals.{IsStartRefusal};
ghost use Rattle.desk_network.specs.Ends.{HasRunningStore, IsServingEnd};
ghost use Rattle.desk_network.specs.Unwatched.{unwatched, unwatched_refusal};
ghost use Rattle.desk_types.specs.declared.refusal.Refusal.TheVariants as refusals;

use crate::keeping::{KeeperThread, NodeEnd};
use crate::node::{NodeEpochs, NodeStart, start_node};
use crate::past_stores::{PastStores, start_reader};
use crate::watched_store::WatchedStore;
use crate::watched_stores::WatchedStores;
use desk_connections::{EndFlag, NodeRuntime, NodeSetup, end_with_input};
use desk_epoch_opening::RefusedOpening;
use desk_epoch_stores::{EndedStores, EpochStores};
use desk_log::StateStore;
use desk_output::{flush, write_text};
use desk_types::{Refusal, WantOfMemory};
use std::alloc::Global;
use std::io::{Input, Write};

/// One flag, by which a node is asked to end.
struct EndFlags {
    /// For who serves.
    own: EndFlag,
    /// For the node's timer.
    timer: EndFlag,
    /// For who reads the standard input.
    input: EndFlag,
}

impl EndFlags {
    fn new(alloc: Global) -> Result<EndFlags, WantOfMemory> {
        let own = EndFlag::new(alloc)?;
        let timer = own.share()?;
        let input = own.share()?;
        Ok(EndFlags { own, timer, input })
    }
}

/// A node that was started.
struct ServedNode<T, S: StateStore> {
    keeper: KeeperThread<T, S>,
    /// Whether `ready` was written.
    reported: Result<(), Refusal>,
}

/// Writes that all ports are bound.
pub(crate) fn write_ready<W: Write>(writer: &mut W) -> Result<(), Refusal>
    ensures { IfErr result (λ r. r ≡ refusals.WriteFault) }
{
    write_text(writer, b"ready\n")?;
    flush(writer)
}

/// Starts the node whose states these stores hold, and writes that it is ready. Where that can't be written, it is to
/// end.
fn start_serving<T: EpochStores + Drop + Send + 'static, R: NodeRuntime + Input, W: Write>(
    rt: &R,
    alloc: Global,
    writer: &mut W,
    setup: NodeSetup,
    epochs: NodeEpochs,
    stores: T,
) -> Result<ServedNode<T, T::Store>, RefusedOpening<T>>
where
    T::Store: Send + 'static,
    R::Reader: Send,
    requires group { IsGroup setup.owner.n }
    requires id { setup.owner.id < setup.owner.n }
    ensures refused { IfErr result (λ refused. IsStartRefusal refused.refusal) }
    ensures back { IfErr result (λ refused. refused.refusal ≡ refusals.WrongFile → IsSome refused.stores) }
    ensures reported { IfOk result (λ served. IfErr served.reported (λ r. r ≡ refusals.WriteFault)) }
{
    let EndFlags { own, timer, input } = EndFlags::new(alloc)?;
    let NodeSetup {
        owner,
        address,
        ports,
        log,
    } = setup;
    let start = NodeStart {
        owner,
        address,
        ports,
        epochs,
        stores,
        ends: timer,
        log,
    };
    let keeper = start_node(rt, alloc, start)?;
    end_with_input(rt, input)?;
    let reported = write_ready(writer);
    if reported.is_err() {
        own.set();
    }
    Ok(ServedNode { keeper, reported })
}

/// The stores that were watched.
fn unwatched<T, S, Q: Drop, R: Drop>(
    watched: EndedStores<WatchedStores<T, Q, R>, WatchedStore<S, R>>,
) -> EndedStores<T, S>
    ensures { result ≡ unwatched watched }
{
    let EndedStores {
        stores,
        epoch,
        current,
        next,
    } = watched;
    let next = match next {
        Some(next) => Some(next.into_store()),
        None => None,
    };
    EndedStores {
        stores: stores.into_stores(),
        epoch,
        current: current.into_store(),
        next,
    }
}

/// The refusal of a node whose stores were to be watched.
fn unwatched_refusal<T, Q: Drop, R: Drop>(
    refused: RefusedOpening<WatchedStores<T, Q, R>>,
) -> RefusedOpening<T>
    ensures { result ≡ unwatched_refusal refused }
{
    let RefusedOpening { refusal, stores } = refused;
    let stores = match stores {
        Some(stores) => Some(stores.into_stores()),
        None => None,
    };
    RefusedOpening { refusal, stores }
}

/// Serves as the node whose states are saved by what these stores open, until the standard input ends, a store fails or
/// the node is replaced; `ready` is written once the node serves. What opens past stores does so in a thread of its
/// own; the keeper opens them itself where the host refuses that. It ends by `StoreFault` where a store fails, by
/// `NodeStopped` where another node acts in its place, and by `WriteFault` where `ready` could not be written. Err is a
/// node that was not started: by `WantOfMemory`, by `StoreFault` where a store fails, by `WrongFile` where one is
/// missing or another node's, and by `NodeStopped` where another node acts in its place.
pub fn serve_node<
    T: EpochStores + Drop + Send + 'static,
    P: PastStores<T> + Drop + Send + 'static,
    R: NodeRuntime + Input,
    W: Write,
>(
    rt: &R,
    alloc: Global,
    writer: &mut W,
    setup: NodeSetup,
    epochs: NodeEpochs,
    stores: T,
    past: P,
) -> Result<NodeEnd<T, T::Store>, RefusedOpening<T>>
where
    T::Store: Send + 'static,
    R::Reader: Send,
    requires group { IsGroup setup.owner.n }
    requires id { setup.owner.id < setup.owner.n }
    ensures fault { IfOk result (λ end. IfErr end.outcome IsServingEnd) }
    // It ends well with a store that has not failed.
    ensures running { IfOk result (λ end. OnOk end.outcome (HasRunningStore T.Store.StateStore end.stores)) }
    ensures refused { IfErr result (λ refused. IsStartRefusal refused.refusal) }
    // What opens the stores tells which of them is missing or another node's.
    ensures back { IfErr result (λ refused. refused.refusal ≡ refusals.WrongFile → IsSome refused.stores) }
{
    let Ok(log) = setup.log.share() else {
        drop(setup);
        return Err(RefusedOpening::with(Refusal::WantOfMemory, stores));
    };
    let reader = start_reader::<T, P, R>(rt, alloc, past).ok();
    let watched = WatchedStores::new(stores, reader, *rt, log, setup.owner.n);
    match start_serving(rt, alloc, writer, setup, epochs, watched) {
        Ok(ServedNode { keeper, reported }) => {
            let NodeEnd { stores, outcome } = keeper.join(rt);
            Ok(NodeEnd {
                stores: unwatched(stores),
                outcome: outcome.and(reported),
            })
        }
        Err(refused) => Err(unwatched_refusal(refused)),
    }
}
