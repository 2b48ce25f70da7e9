//! All nodes of a group in one process, with their states in memory.

ghost use Rattle.std.specs.Prelude.{◌≡◌, ◌<◌, ◌≤◌, IfErr};
ghost use Rattle.desk_types.specs.Group.{IsGroup};
ghost use Rattle.desk_types.specs.declared.limits.TheConstants.{LOG_ENTRIES};
ghost use Rattle.desk_network.specs.Ends.{IsServingEnd};

use crate::keeping::{KeeperThread, NodeEnd};
use crate::node::{NodeEpochs, NodeStart, start_node};
use crate::serving::write_ready;
use desk_admission::GroupAddress;
use desk_connections::{EndFlag, GroupSetup, NodePorts, NodeRuntime, end_with_input};
use desk_epoch_opening::RefusedOpening;
use desk_epoch_stores::MemoryStores;
use desk_events::EventLog;
use desk_log::MemoryStore;
use desk_types::{Owner, Refusal};
use std::alloc::Global;
use std::io::{Input, Write};
use std::thread::Threads;

/// The thread of the keeper of a node whose states are in memory.
type NodeThread = KeeperThread<MemoryStores, MemoryStore>;

/// Why a node with its states in memory is not started: there is no file that may be wrong.
fn memory_refusal(refusal: Refusal) -> Refusal
    ensures kind { IsServingEnd result }
{
    match &refusal {
        Refusal::WantOfMemory => Refusal::WantOfMemory,
        _ => Refusal::StoreFault,
    }
}

/// Starts a node that has done nothing, with its states in memory.
fn start_new<R: NodeRuntime>(
    rt: &R,
    alloc: Global,
    owner: Owner,
    first: u16,
    ports: NodePorts,
    epochs: NodeEpochs,
    ends: &EndFlag,
) -> Result<NodeThread, Refusal>
    requires group { IsGroup owner.n }
    requires id { owner.id < owner.n }
    ensures refused { IfErr result IsServingEnd }
{
    let ends = ends.share()?;
    let start = NodeStart {
        owner,
        address: GroupAddress::of_loopback(first),
        ports,
        epochs,
        stores: MemoryStores::new(alloc),
        ends,
        log: EventLog::none(),
    };
    match start_node(rt, alloc, start) {
        Ok(thread) => Ok(thread),
        Err(RefusedOpening { refusal, stores }) => {
            drop(stores);
            Err(memory_refusal(refusal))
        }
    }
}

/// Starts all nodes of a group, each with its ports, which are in their order.
fn start_nodes<R: NodeRuntime>(
    rt: &R,
    alloc: Global,
    setup: GroupSetup,
    epochs: NodeEpochs,
    ends: &EndFlag,
) -> Result<Vec<NodeThread>, Refusal>
    requires group { IsGroup setup.nodes }
    ensures refused { IfErr result IsServingEnd }
{
    let GroupSetup {
        nodes,
        domain,
        first,
        mut ports,
    } = setup;
    ports.reverse();
    let mut keepers = Vec::new(alloc);
    for id in 0..nodes {
        let Some(own) = ports.pop() else {
            return Err(Refusal::WantOfMemory);
        };
        let owner = Owner {
            id,
            n: nodes,
            domain: domain.copy()?,
        };
        keepers.push(start_new(rt, alloc, owner, first, own, epochs, ends)?)?;
    }
    Ok(keepers)
}

/// Waits for the end of all nodes, and answers the fault that was there before, or else the first of a node.
fn join_nodes<R: Threads>(
    rt: &R,
    keepers: Vec<NodeThread>,
    reported: Result<(), Refusal>,
) -> Result<(), Refusal>
    requires reported { IfErr reported IsServingEnd }
    ensures fault { IfErr result IsServingEnd }
{
    let mut outcome = reported;
    for keeper in keepers {
        let NodeEnd {
            stores,
            outcome: ended,
        } = keeper.join(rt);
        drop(stores);
        if outcome.is_ok() {
            outcome = ended;
        }
    }
    outcome
}

/// Serves as all nodes of a group, whose epochs have so many places, in entries, 1 to 65,536, until the standard input
/// ends; `ready` is written once all serve. It ends by the first fault of a node: `WantOfMemory`, `StoreFault` of its
/// store in memory, or `NodeStopped` where another node acts in its place; and by `WriteFault` where `ready` could not
/// be written.
pub fn serve_group<R: NodeRuntime + Input, W: Write>(
    rt: &R,
    alloc: Global,
    writer: &mut W,
    setup: GroupSetup,
    places: u64,
) -> Result<(), Refusal>
where
    R::Reader: Send,
    requires group { IsGroup setup.nodes }
    requires least { 1 ≤ places }
    requires most { places ≤ LOG_ENTRIES }
    ensures fault { IfErr result IsServingEnd }
{
    let ends = EndFlag::new(alloc)?;
    let input = ends.share()?;
    let epochs = NodeEpochs { places, token: 0 };
    let keepers = start_nodes(rt, alloc, setup, epochs, &ends)?;
    end_with_input(rt, input)?;
    let reported = write_ready(writer);
    if reported.is_err() {
        ends.set();
    }
    join_nodes(rt, keepers, reported)
}
