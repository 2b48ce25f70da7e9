//! The ports of nodes.

ghost use Rattle.std.specs.Prelude.{◌≡◌, ◌+◌, ◌<◌, ◌≤◌, ◌^◌, ◌++◌, ◌∷◌, [], length, IfSome, IfOk, IfErr};
ghost use Rattle.desk_types.specs.declared.limits.TheConstants.{SESSION_PORTS};
ghost use Rattle.desk_connections.specs.Ports.{port_key, BindsPortsOf, HasPortsOf, IsPortOf, IsPortOfGroup};
ghost use Rattle.desk_connections.specs.Ports.{ArePortsFrom, RefusesOneOf};
ghost use Rattle.desk_connections.specs.declared.ports.PortRefused.TheVariants as refusals;

use desk_admission::{Endpoint, GroupAddress, KeyedPort, LOOPBACK};
use desk_events::EventLog;
use desk_key::Key;
use desk_types::{Domain, Owner, WantOfMemory, peer_port, session_port};
use std::alloc::Global;
use std::io;
use std::io::ErrorKind;
use std::net::{Net, TcpListener, TcpStream};
use std::snapshot::Snapshot;

/// Why a node has not got its ports.
#[derive(Drop)]
pub enum PortRefused {
    /// Another program listens at the port.
    InUse(u16),
    /// The host refuses the port for another reason.
    NotBound(u16),
    WantOfMemory,
}

impl From<WantOfMemory> for PortRefused {
    fn from(_: WantOfMemory) -> PortRefused {
        PortRefused::WantOfMemory
    }
}

/// A port that is listened at.
#[derive(Drop)]
pub(crate) struct BoundPort {
    pub(crate) listener: TcpListener,
    /// The key of who is let in there, where it has one.
    pub(crate) keyed: Option<KeyedPort>,
    /// The number with which it was bound, as its caller says it.
    pub(crate) port: Snapshot<u16>,
}

impl BoundPort {
    /// The key of who is let in there, once more.
    pub(crate) fn copied_key(&self) -> Option<KeyedPort>
        ensures { result ≡ self.now.keyed }
    {
        match &self.keyed {
            Some(keyed) => Some(keyed.copy()),
            None => None,
        }
    }

    /// The same port, with a key where there is one.
    fn with_key(self, key: Option<Key>, endpoint: Endpoint) -> BoundPort
        ensures port { result.port ≡ self.port }
        ensures keyed { port_key result.keyed ≡ key }
        ensures endpoint { IfSome result.keyed (λ k. k.endpoint ≡ endpoint) }
    {
        let BoundPort {
            listener,
            keyed: _,
            port,
        } = self;
        BoundPort {
            listener,
            keyed: match key {
                Some(key) => Some(KeyedPort { key, endpoint }),
                None => None,
            },
            port,
        }
    }
}

/// The keys of a node's ports: of other nodes, and of clients. One that has none lets in whoever connects.
#[derive(Drop)]
pub struct NodeKeys {
    pub peers: Option<Key>,
    pub sessions: Option<Key>,
}

/// The two ports at which a node listens.
pub struct NodePorts {
    pub(crate) peers: BoundPort,
    pub(crate) sessions: BoundPort,
}

// Written out, so that callers need not prove each part's drop.
impl Drop for NodePorts {
    fn drop(self) {
        let NodePorts {
            peers: _,
            sessions: _,
        } = self;
    }
}

/// Why the port was not bound.
fn refused(port: u16, error: &io::Error) -> PortRefused
    ensures { RefusesOneOf (λ p. p ≡ port) result }
{
    match error.kind() {
        ErrorKind::AddrInUse => PortRefused::InUse(port),
        ErrorKind::OutOfMemory => PortRefused::WantOfMemory,
        _ => PortRefused::NotBound(port),
    }
}

/// Listens at a port of a host, without a key.
fn bind<R: Net<Listener = TcpListener, Stream = TcpStream>>(
    rt: &R,
    host: &str,
    port: u16,
) -> Result<BoundPort, PortRefused>
    ensures ok { IfOk result (λ bound. bound.port.value ≡ port) }
    ensures err { IfErr result (RefusesOneOf (λ p. p ≡ port)) }
{
    match TcpListener::bind(rt, (host, port)) {
        Ok(listener) => Ok(BoundPort {
            listener,
            keyed: None,
            port: Snapshot::of(&port),
        }),
        Err(error) => Err(refused(port, &error)),
    }
}

impl NodePorts {
    /// Binds both ports of a node on its host, that for the other nodes first, or tells the first that is refused. They
    /// have no key. The contract names the ports by their numbers; that the host was called with these, and listens
    /// there, no clause says.
    pub fn bind<R: Net<Listener = TcpListener, Stream = TcpStream>>(
        rt: &R,
        host: &str,
        first: u16,
        id: u8,
    ) -> Result<NodePorts, PortRefused>
        ensures ok { first + id + SESSION_PORTS < 2 ^ 16 → IfOk result (HasPortsOf first id) }
        ensures err { first + id + SESSION_PORTS < 2 ^ 16 → IfErr result (RefusesOneOf (IsPortOf first id)) }
    {
        Ok(NodePorts {
            peers: bind(rt, host, peer_port(first, id))?,
            sessions: bind(rt, host, session_port(first, id))?,
        })
    }

    /// The same ports, with the keys of who is let in there: of other nodes, and of clients.
    pub fn with_keys(self, owner: &Owner, first: u16, keys: NodeKeys) -> NodePorts
        // They are the same ports, and each lets in holders of its key alone where it is given one.
        ensures ports { (result.peers.port ≡ self.peers.port) × (result.sessions.port ≡ self.sessions.port) }
        ensures peers { port_key result.peers.keyed ≡ keys.peers }
        ensures sessions { port_key result.sessions.keyed ≡ keys.sessions }
        // A proof for one of them holds for no other port and no other node.
        ensures bound { first + owner.now.id + SESSION_PORTS < 2 ^ 16 → BindsPortsOf first owner.now result }
    {
        let NodePorts { peers, sessions } = self;
        let NodeKeys {
            peers: of_peers,
            sessions: of_sessions,
        } = keys;
        let port = peer_port(first, owner.id);
        let domain = owner.domain.as_text().as_bytes();
        let of_port = Endpoint::of_peers(owner.id, owner.n, port, domain);
        let peers = peers.with_key(of_peers, of_port);
        let of_port = Endpoint::of_sessions(session_port(first, owner.id));
        let sessions = sessions.with_key(of_sessions, of_port);
        NodePorts { peers, sessions }
    }
}

/// The ports of some nodes, with those of one more at the end.
fn with_ports(all: Vec<NodePorts>, ports: NodePorts) -> Result<Vec<NodePorts>, PortRefused>
    ensures ok { IfOk result (λ more. more.items ≡ all.items ++ ports ∷ []) }
    ensures err { IfErr result (λ refused. refused ≡ refusals.WantOfMemory) }
{
    let mut all = all;
    if all.push(ports).is_err() {
        return Err(PortRefused::WantOfMemory);
    }
    Ok(all)
}

/// Binds the ports of all nodes of a group, node by node, or tells the first that is refused.
pub fn bind_group<R: Net<Listener = TcpListener, Stream = TcpStream>>(
    rt: &R,
    alloc: Global,
    first: u16,
    n: u8,
) -> Result<Vec<NodePorts>, PortRefused>
    ensures count { IfOk result (λ all. length all.items ≡ n) }
    // They stand in the order of the nodes.
    ensures order { first + n + SESSION_PORTS ≤ 2 ^ 16 → IfOk result (λ all. ArePortsFrom first 0 all.items) }
    ensures err { first + n + SESSION_PORTS ≤ 2 ^ 16 → IfErr result (RefusesOneOf (IsPortOfGroup first n)) }
{
    let mut all = Vec::new(alloc);
    for id in 0..n {
        let ports = NodePorts::bind(rt, LOOPBACK, first, id)?;
        all = with_ports(all, ports)?;
    }
    Ok(all)
}

/// A node that is to be served.
#[derive(Drop)]
pub struct NodeSetup {
    pub owner: Owner,
    /// How the other nodes are reached.
    pub address: GroupAddress,
    pub ports: NodePorts,
    /// Where its events are announced.
    pub log: EventLog,
}

impl NodeSetup {
    /// The node of this owner, in a group with this address, which tells its events there.
    pub fn new(owner: Owner, address: GroupAddress, ports: NodePorts, log: EventLog) -> NodeSetup
        ensures owner { result.owner ≡ owner }
        ensures address { result.address ≡ address }
        ensures ports { result.ports ≡ ports }
        ensures log { result.log ≡ log }
    {
        NodeSetup {
            owner,
            address,
            ports,
            log,
        }
    }
}

/// A group whose nodes are to be served, all of it.
#[derive(Drop)]
pub struct GroupSetup {
    /// How many nodes it has.
    pub nodes: u8,
    pub domain: Domain,
    /// Its first port.
    pub first: u16,
    /// The ports of its nodes, in their order.
    pub ports: Vec<NodePorts>,
}
