//! The threads around a node's keeper. Each goes on by itself: those at a port as long as the process, the others to
//! the end of the keeper.

ghost use Rattle.std.specs.Prelude.{◌≡◌};

use crate::connections::{serve_sessions, take_connections};
use crate::doors::WatchedDoor;
use crate::ends::EndFlag;
use crate::links::{PeerAddress, send_to};
use crate::ports::NodePorts;
use crate::runtime::NodeRuntime;
use crate::ticks::tick;
use desk_events::{Door, EventLog};
use desk_mailbox::{Item, Sender};
use desk_peers::{EpochPlaces, PeerQueue};
use desk_published::{BoardName, BoardReader};
use desk_sessions::Wire;
use desk_types::WantOfMemory;
use std::alloc::Global;
use std::net::TcpListener;
use std::thread;
use std::thread::{JoinHandle, SpawnError};

/// A thread that goes on by itself, or the refusal of its start.
fn detach<T: Drop, F: Drop>(
    thread: Result<JoinHandle<T>, SpawnError<F>>,
) -> Result<(), WantOfMemory> {
    match thread {
        Ok(handle) => {
            drop(handle);
            Ok(())
        }
        Err(error) => {
            drop(error);
            Err(WantOfMemory)
        }
    }
}

/// The same port once more, for another thread.
fn shared(listener: &TcpListener) -> Result<TcpListener, WantOfMemory> {
    match listener.try_clone() {
        Ok(mine) => Ok(mine),
        Err(_) => Err(WantOfMemory),
    }
}

/// The door of a node's port for sessions, which announces to the log who is refused there.
fn sessions_door(ports: &NodePorts, log: EventLog) -> WatchedDoor
    ensures { result.keyed ≡ ports.now.sessions.keyed }
{
    WatchedDoor::new(ports.sessions.copied_key(), log, Door::Sessions)
}

/// The door of a node's port for peers, which announces to the log who is refused there.
fn peers_door(ports: &NodePorts, log: EventLog) -> WatchedDoor
    ensures { result.keyed ≡ ports.now.peers.keyed }
{
    WatchedDoor::new(ports.peers.copied_key(), log, Door::Peers)
}

/// Starts a thread that serves clients at the node's port for sessions, one after the other. Err where the host refuses
/// the thread, or the port once more: then nothing was accepted, and the wire and the reader are let go.
pub fn start_session<B: BoardName + Send + Sync + 'static, R: NodeRuntime>(
    rt: &R,
    alloc: Global,
    ports: &NodePorts,
    wire: Wire<B>,
    reader: BoardReader<B>,
    log: EventLog,
) -> Result<(), WantOfMemory> {
    let handle = *rt;
    let Ok(listener) = shared(&ports.sessions.listener) else {
        drop(wire);
        drop(reader);
        drop(log);
        return Err(WantOfMemory);
    };
    let door = sessions_door(ports, log);
    detach(thread::spawn(
        rt,
        move || serve_sessions(&handle, alloc, &listener, &door, wire, reader),
    ))
}

/// Starts a thread that takes the packets of peers at the node's port for these, of one after the other; a connection
/// that brings nothing for ten seconds is closed, and after a key for three. Err where the host refuses the thread, or
/// the port once more: then nothing was accepted, and the sender is let go.
pub fn start_peer<R: NodeRuntime>(
    rt: &R,
    alloc: Global,
    places: EpochPlaces,
    ports: &NodePorts,
    sender: Sender<Item>,
    log: EventLog,
) -> Result<(), WantOfMemory> {
    let handle = *rt;
    let listener = shared(&ports.peers.listener)?;
    let door = peers_door(ports, log);
    detach(thread::spawn(
        rt,
        move || take_connections(&handle, alloc, places, &listener, &door, sender),
    ))
}

/// Starts a thread that sends the packets of a queue to a peer's port, which it connects to anew after each failure.
/// Err where the host refuses the thread: then nothing was sent, and what is put into the queue is lost.
pub fn start_link<R: NodeRuntime>(
    rt: &R,
    alloc: Global,
    places: EpochPlaces,
    address: PeerAddress,
    queue: PeerQueue,
    log: EventLog,
) -> Result<(), WantOfMemory> {
    let handle = *rt;
    detach(thread::spawn(
        rt,
        move || send_to(&handle, alloc, places, queue, address, log),
    ))
}

/// Starts a thread that puts a tick every 20 milliseconds, and a stop once the node is to end. Err where the host
/// refuses the thread: then nothing was put, and the sender is let go.
pub fn start_timer<R: NodeRuntime>(
    rt: &R,
    ends: EndFlag,
    sender: Sender<Item>,
) -> Result<(), WantOfMemory> {
    let handle = *rt;
    detach(thread::spawn(rt, move || tick(&handle, &ends, sender)))
}
