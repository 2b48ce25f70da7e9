//! A node and its threads.

ghost use Rattle.std.specs.Prelude.{◌≡◌, ◌<◌, ◌≤◌, ◌+◌, ◌^◌, IfOk, IfErr, IfSome, IsSome};
ghost use Rattle.std.specs.Prelude.{string_bytes};
ghost use Rattle.desk_connections.specs.Ports.{port_key, IsPeersEndpoint};
ghost use Rattle.desk_admission.specs.Hosts.{host_of};
ghost use Rattle.desk_types.specs.Group.{IsGroup};
ghost use Rattle.desk_types.specs.declared.limits.TheConstants.{LOG_ENTRIES};
ghost use Rattle.desk_types.specs.declared.refusal.Refusal.TheVariants as refusals;
ghost use Rattle.desk_epoch_replica.specs.Refusals.{IsStartRefusal};

use crate::keeping::{KeeperThread, start_keeper};
use desk_admission::{Endpoint, GroupAddress, KeyedPort};
use desk_connections::{
    EndFlag, NodePorts, NodeRuntime, PeerAddress, start_link, start_peer, start_session,
    start_timer,
};
use desk_epoch_opening::{RefusedOpening, open_epochs};
use desk_epoch_stores::EpochStores;
use desk_events::EventLog;
use desk_mailbox::{Item, Sender};
use desk_peers::{EpochPlaces, PeerQueue};
use desk_published::{BoardName, NewHistory};
use desk_sessions::{KeeperWords, Wire};
use desk_threads::{PEERS, SessionEnds};
use desk_types::{Domain, Owner, WantOfMemory, peer_port};
use std::alloc::Global;
use std::marker::Brand;

/// The epochs of a node.
#[derive(Clone, Copy)]
pub struct NodeEpochs {
    /// How many places one has, in entries, 1 to 65,536.
    pub places: u64,
    /// The token of the node, which is 0 where it began with its group.
    pub token: u64,
    pub ghost least: { 1 ≤ places },
    pub ghost most: { places ≤ LOG_ENTRIES },
}

/// What a node starts with.
pub(crate) struct NodeStart<T> {
    pub(crate) owner: Owner,
    /// How the other nodes are reached.
    pub(crate) address: GroupAddress,
    pub(crate) ports: NodePorts,
    pub(crate) epochs: NodeEpochs,
    /// Opens what holds its states.
    pub(crate) stores: T,
    pub(crate) ends: EndFlag,
    /// Where its events are announced.
    pub(crate) log: EventLog,
}

/// Starts the threads that serve sessions.
fn start_sessions<B: BoardName + Send + Sync + 'static, R: NodeRuntime>(
    rt: &R,
    alloc: Global,
    ports: &NodePorts,
    senders: &mut Vec<Sender<Item>>,
    sessions: Vec<SessionEnds<B>>,
    log: &EventLog,
) -> Result<(), WantOfMemory> {
    for SessionEnds { words, reader } in sessions {
        let Some(sender) = senders.pop() else {
            return Err(WantOfMemory);
        };
        let wire = Wire {
            sender,
            words: KeeperWords::new(words),
        };
        start_session(rt, alloc, ports, wire, reader, log.share()?)?;
    }
    Ok(())
}

/// Starts the threads around a keeper: sessions, peers and the timer.
fn start_around<B: BoardName + Send + Sync + 'static, R: NodeRuntime>(
    rt: &R,
    alloc: Global,
    places: EpochPlaces,
    ports: &NodePorts,
    mut senders: Vec<Sender<Item>>,
    sessions: Vec<SessionEnds<B>>,
    ends: EndFlag,
    log: &EventLog,
) -> Result<(), WantOfMemory> {
    // the first senders are the sessions', in their order
    senders.reverse();
    start_sessions(rt, alloc, ports, &mut senders, sessions, log)?;
    for _ in 0..PEERS {
        let Some(sender) = senders.pop() else {
            return Err(WantOfMemory);
        };
        start_peer(rt, alloc, places, ports, sender, log.share()?)?;
    }
    let Some(timer) = senders.pop() else {
        return Err(WantOfMemory);
    };
    start_timer(rt, ends, timer)
}

/// What a node needs to reach the others.
#[derive(Drop)]
struct Dialler {
    address: GroupAddress,
    /// Its own number.
    from: u8,
    nodes: u8,
    domain: Domain,
}

impl Dialler {
    /// What the owner's node needs to reach the others of a group with this address. Err where memory is refused.
    fn new(address: GroupAddress, owner: &Owner) -> Result<Dialler, WantOfMemory>
        ensures address { IfOk result (λ d. d.address ≡ address) }
        ensures from { IfOk result (λ d. d.from ≡ owner.now.id) }
        ensures group { IfOk result (λ d. (d.nodes ≡ owner.now.n) × (d.domain ≡ owner.now.domain)) }
    {
        Ok(Dialler {
            address,
            from: owner.id,
            nodes: owner.n,
            domain: owner.domain.copy()?,
        })
    }

    /// Where another node takes packets.
    fn peer(&self, alloc: Global, node: u8) -> Result<PeerAddress, WantOfMemory>
        ensures host { IfOk result (λ peer.
            string_bytes peer.host ≡ host_of self.now.address.hosts.text node) }
        ensures port { self.now.address.first + node < 2 ^ 16 →
            IfOk result (λ peer. peer.port ≡ self.now.address.first + node) }
        // Where the group has a key, the node is dialled by that,
        ensures key { IfOk result (λ peer. port_key peer.keyed ≡ self.now.address.key) }
        // and by a proof that holds for no other node, port or group.
        ensures keyed { IfOk result (λ peer. IfSome peer.keyed (λ keyed.
            IsPeersEndpoint node self.now.nodes self.now.domain peer.port keyed.endpoint)) }
        ensures from { IfOk result (λ peer. peer.from ≡ self.now.from) }
    {
        let port = peer_port(self.address.first, node);
        let domain = self.domain.as_text().as_bytes();
        let keyed = match &self.address.key {
            Some(key) => Some(KeyedPort {
                key: key.copy(),
                endpoint: Endpoint::of_peers(node, self.nodes, port, domain),
            }),
            None => None,
        };
        Ok(PeerAddress {
            host: String::from_str(alloc, self.address.hosts.of_node(node))?,
            port,
            keyed,
            from: self.from,
        })
    }
}

/// Starts the threads that send packets to the other nodes.
fn start_links<R: NodeRuntime>(
    rt: &R,
    alloc: Global,
    places: EpochPlaces,
    dialler: &Dialler,
    queues: Vec<PeerQueue>,
    log: &EventLog,
) -> Result<(), WantOfMemory> {
    for queue in queues {
        let peer = dialler.peer(alloc, queue.node)?;
        start_link(rt, alloc, places, peer, queue, log.share()?)?;
    }
    Ok(())
}

/// Starts a node whose published board has this name, and gives the thread of its keeper. Once the flag is set it ends.
fn start_named<
    B: BoardName + Send + Sync + 'static,
    T: EpochStores + Drop + Send + 'static,
    R: NodeRuntime,
>(
    rt: &R,
    alloc: Global,
    history: NewHistory,
    start: NodeStart<T>,
) -> Result<KeeperThread<T, T::Store>, RefusedOpening<T>>
where
    T::Store: Send + 'static,
    requires book { history.seen.book ≡ B.book }
    requires domain { start.owner.domain ≡ B.domain }
    requires group { IsGroup start.owner.n }
    requires id { start.owner.id < start.owner.n }
    ensures refused { IfErr result (λ refused. IsStartRefusal refused.refusal) }
    ensures back { IfErr result (λ refused. refused.refusal ≡ refusals.WrongFile → IsSome refused.stores) }
{
    let NodeStart {
        owner,
        address,
        ports,
        epochs,
        stores,
        ends,
        log,
    } = start;
    let (id, n) = (owner.id, owner.n);
    let places = EpochPlaces {
        places: epochs.places,
    };
    let dialler = Dialler::new(address, &owner)?;
    let of_keeper = log.share()?;
    let (keeper, senders, sessions) = open_epochs::<B, T, R>(
        rt,
        alloc,
        history,
        owner,
        epochs.token,
        epochs.places,
        stores,
    )?;
    // where a thread around it can't be started, its senders go, and it ends
    let (thread, takers) = start_keeper(rt, alloc, id, n, keeper, of_keeper)?;
    start_links(rt, alloc, places, &dialler, takers, &log)?;
    start_around(rt, alloc, places, &ports, senders, sessions, ends, &log)?;
    Ok(thread)
}

/// Starts a node, and gives the thread of its keeper. Once the flag is set it ends. Err is as `open_epochs` says.
pub(crate) fn start_node<T: EpochStores + Drop + Send + 'static, R: NodeRuntime>(
    rt: &R,
    alloc: Global,
    start: NodeStart<T>,
) -> Result<KeeperThread<T, T::Store>, RefusedOpening<T>>
where
    T::Store: Send + 'static,
    requires group { IsGroup start.owner.n }
    requires id { start.owner.id < start.owner.n }
    ensures refused { IfErr result (λ refused. IsStartRefusal refused.refusal) }
    ensures back { IfErr result (λ refused. refused.refusal ≡ refusals.WrongFile → IsSome refused.stores) }
{
    start_named::<Brand, T, R>(rt, alloc, NewHistory::new(), start)
}
