//! The program of a dispatch desk: `desk replay --domain D` answers the documents of its standard input,
//! `desk world --nodes N --domain D` runs a group of nodes through the events there, and
//! `desk answer --node I --nodes N --domain D --file F` answers the packets there as one node, whose state a file
//! keeps. On the network of its host `desk serve` runs one node over its files, `desk cluster` all nodes of a group in
//! memory, `desk send` sends documents to a node, `desk status` tells how the nodes of a group are, and `desk page`
//! serves the live page of a group to browsers. `desk log --file F` prints what a node's files have committed.
#![tactic(auto)]

mod keys;
mod past;

ghost use Rattle.std.specs.Prelude.{◌≡◌, ◌≤◌, ◌<◌, ◌+◌, ◌^◌, IfOk, IfErr, IfSome, is_some};
ghost use Rattle.desk_types.specs.Group.{IsGroup};
ghost use Rattle.desk_types.specs.declared.limits.TheConstants.{SESSION_PORTS};
ghost use Rattle.desk_connections.specs.Ports.{port_key, BindsPortsOf};
ghost use Rattle.desk_options.specs.Host.{FitsEpoch};
ghost use Rattle.desk_output.specs.declared.printing.TheConstants.{FAILED};

use crate::keys::{FileKey, copied_key, node_keys};
use crate::past::PastEpochs;
use desk_admission::{GroupAddress, Hosts};
use desk_connections::{NodeKeys, NodePorts, NodeSetup};
use desk_epoch_files::{EndedFiles, EpochFiles, HostDatabases, NamedDatabases};
use desk_epoch_opening::RefusedOpening;
use desk_events::{Event, EventThread, start_log};
use desk_file::{answer_file, log_file, read_given_key};
use desk_network::{NodeEnd, NodeEpochs, serve_node};
use desk_options::{HostRun, PageOptions, SendOptions, ServeOptions, StatusOptions};
use desk_output::refusal_status;
use desk_page_host::{PageRun, serve_page};
use desk_program::run_given;
use desk_sockets::{SendRun, StatusRun, bind_node, run_group, send_input, show_status};
use desk_types::{Owner, Refusal, WantOfMemory, peer_port, session_port};
use std::io::Input;
use std::net::{Net, TcpListener, TcpStream};
use std::process::ExitCode;
use std::random::RandomSource;
use std::rt::Clock;
use std::sync::Wait;
use std::thread::Threads;

/// A node whose ports are bound.
struct BoundNode {
    owner: Owner,
    /// How the other nodes are reached.
    address: GroupAddress,
    ports: NodePorts,
    /// Where it tells its events.
    events: EventThread,
    /// How many places its epochs have, in entries, 1 to 65,536.
    places: u64,
    /// The token that is named for it, where one is.
    member: Option<u64>,
    /// The name of its first file.
    file: String,
    /// Whether a first file that is full gets a second one, where it has none.
    next: bool,
}

/// Starts the log of a node where it is to have one, and tells its ports there; or tells the standard error that it is
/// refused, and gives the exit status.
fn node_log<R: Threads + Wait + Clock + Drop + Copy + Send + Sync + 'static>(
    host: &HostRuntime,
    rt: &R,
    owner: &Owner,
    first: u16,
    is_wanted: bool,
) -> Result<EventThread, u8>
    ensures { IfErr result (λ status. status ≡ FAILED) }
{
    if !is_wanted {
        return Ok(EventThread::none());
    }
    match start_log(rt, host.alloc(), owner.id, host.stderr()) {
        Ok(thread) => {
            let (peers, sessions) = (peer_port(first, owner.id), session_port(first, owner.id));
            thread.log().announce(rt, Event::Ports { peers, sessions });
            Ok(thread)
        }
        Err(_) => Err(refusal_status(&mut host.stderr(), &Refusal::WantOfMemory)),
    }
}

/// Binds the ports of a node with the keys that were read for them, or tells the standard error what is refused, and
/// gives the exit status.
fn bound_with_keys<R: Threads + Wait + Clock + Drop + Copy + Send + Sync + 'static>(
    host: &HostRuntime,
    rt: &R,
    options: ServeOptions,
    peers: FileKey,
    sessions: FileKey,
) -> Result<BoundNode, u8>
    requires peers { peers.name.value ≡ options.key }
    requires sessions { sessions.name.value ≡ options.client_key }
    requires places { FitsEpoch options.epoch_places }
    ensures owner { IfOk result (λ node. node.owner ≡ options.owner) }
    ensures port { IfOk result (λ node. node.address.first ≡ options.port) }
    ensures hosts { IfOk result (λ node. node.address.hosts.text ≡ options.hosts) }
    // Each port has the key of its file, and the others are dialled by that of the nodes' port.
    ensures peers { IfOk result (λ node. port_key node.ports.peers.keyed ≡ peers.key) }
    ensures dials { IfOk result (λ node. node.address.key ≡ peers.key) }
    ensures sessions { IfOk result (λ node. port_key node.ports.sessions.keyed ≡ sessions.key) }
    ensures bound { options.port + options.owner.id + SESSION_PORTS < 2 ^ 16 →
        IfOk result (λ node. BindsPortsOf options.port options.owner node.ports) }
    ensures places { IfOk result (λ node. node.places ≡ options.epoch_places) }
    ensures member { IfOk result (λ node. node.member ≡ options.member) }
    ensures err { IfErr result (λ status. status ≡ FAILED) }
{
    let ServeOptions {
        owner,
        port,
        file,
        hosts,
        log,
        next,
        epoch_places: places,
        member,
        ..
    } = options;
    let keys = NodeKeys {
        peers: peers.into_key(),
        sessions: sessions.into_key(),
    };
    let hosts = Hosts::new(hosts);
    let ports = match bind_node(host, hosts.of_node(owner.id), port, owner.id) {
        Ok(ports) => ports,
        Err(status) => return Err(status),
    };
    let address = GroupAddress {
        first: port,
        hosts,
        key: copied_key(&keys.peers),
    };
    let ports = ports.with_keys(&owner, port, keys);
    match node_log(host, rt, &owner, port, log) {
        Ok(events) => Ok(BoundNode {
            owner,
            address,
            ports,
            events,
            places,
            member,
            file,
            next,
        }),
        Err(status) => Err(status),
    }
}

/// Reads the keys of a node, and binds its ports, or tells the standard error what is refused, and gives the exit
/// status. No port is bound where a key is refused.
fn bound_node<R: Threads + Wait + Clock + Drop + Copy + Send + Sync + 'static>(
    host: &HostRuntime,
    rt: &R,
    options: ServeOptions,
) -> Result<BoundNode, u8>
    requires places { FitsEpoch options.epoch_places }
    ensures owner { IfOk result (λ node. node.owner ≡ options.owner) }
    ensures port { IfOk result (λ node. node.address.first ≡ options.port) }
    ensures hosts { IfOk result (λ node. node.address.hosts.text ≡ options.hosts) }
    // The nodes' port has the key by which the others are dialled. Each port has one where a file is named for it.
    ensures peers { IfOk result (λ node. port_key node.ports.peers.keyed ≡ node.address.key) }
    ensures dials { IfOk result (λ node. is_some node.address.key ≡ is_some options.key) }
    ensures sessions { IfOk result (λ node.
        is_some (port_key node.ports.sessions.keyed) ≡ is_some options.client_key) }
    // A proof for one of them holds for no other port and no other node.
    ensures bound { options.port + options.owner.id + SESSION_PORTS < 2 ^ 16 →
        IfOk result (λ node. BindsPortsOf options.port options.owner node.ports) }
    ensures places { IfOk result (λ node. node.places ≡ options.epoch_places) }
    ensures member { IfOk result (λ node. node.member ≡ options.member) }
    ensures err { IfErr result (λ status. status ≡ FAILED) }
{
    match node_keys(host, &options) {
        Ok((peers, sessions)) => bound_with_keys(host, rt, options, peers, sessions),
        Err(status) => Err(status),
    }
}

/// The epochs of a node of such places, over its files, with its token: the one that is named, where one is, and else
/// the one that its first file preserves. Err is a refusal by that file, as `EpochFiles::start_member` answers it.
fn started_epochs<D: NamedDatabases>(
    files: &mut EpochFiles<D>,
    places: u64,
    member: Option<u64>,
) -> Result<NodeEpochs, Refusal>
    requires { FitsEpoch places }
    ensures places { IfOk result (λ epochs. epochs.places ≡ places) }
    ensures member { IfSome member (λ token. IfOk result (λ epochs. epochs.token ≡ token)) }
{
    match files.start_member(member) {
        Ok(token) => Ok(NodeEpochs { places, token }),
        Err(refusal) => Err(refusal),
    }
}

/// Tells why a node was not started, its events first, and gives the exit status.
fn unstarted_status<D: NamedDatabases + Drop, R: Wait + Clock>(
    host: &HostRuntime,
    rt: &R,
    events: EventThread,
    refused: RefusedOpening<EpochFiles<D>>,
) -> u8
    ensures { result ≡ FAILED }
{
    let RefusedOpening { refusal, stores } = refused;
    // A copy of what refuses an opening takes no memory.
    let announced = match refusal.copy() {
        Ok(copy) => copy,
        Err(refused) => Refusal::from(refused),
    };
    events.end(rt, &Err(announced));
    match &stores {
        Some(files) => files.refusal_status(&mut host.stderr(), &refusal),
        None => refusal_status(&mut host.stderr(), &refusal),
    }
}

/// Serves as a node over its files, which these databases are in, until the standard input ends; tells the standard
/// error what ended that, where it was a fault, and gives the exit status. No file is made before its ports are bound.
/// It is written for any databases: a proof about files goes over all parts of their store, and so `main` alone names
/// those.
fn serve_bound<
    D: NamedDatabases + Drop + Copy + Send + 'static,
    R: Net<Listener = TcpListener, Stream = TcpStream>
        + Threads
        + Wait
        + Clock
        + RandomSource
        + Input
        + Drop
        + Copy
        + Send
        + Sync
        + 'static,
>(host: &HostRuntime, rt: &R, node: BoundNode, databases: D) -> u8
where
    D::Pages: Send + 'static,
    R::Reader: Send,
    requires group { IsGroup node.owner.n }
    requires id { node.owner.id < node.owner.n }
    requires places { FitsEpoch node.places }
    ensures status { result ≤ FAILED }
{
    let BoundNode {
        owner,
        address,
        ports,
        events,
        places,
        member,
        file,
        next,
    } = node;
    let past = PastEpochs::new(host.alloc(), databases, file.as_str(), &owner);
    let (Ok(of_files), Ok(log), Ok(past)) = (owner.copy(), events.log().share(), past) else {
        return unstarted_status::<D, R>(host, rt, events, RefusedOpening::from(WantOfMemory));
    };
    let mut files = EpochFiles::new(host.alloc(), databases, file, of_files, places, next);
    let epochs = match started_epochs(&mut files, places, member) {
        Ok(epochs) => epochs,
        Err(refusal) => {
            let refused = RefusedOpening::with(refusal, files);
            return unstarted_status(host, rt, events, refused);
        }
    };
    let setup = NodeSetup::new(owner, address, ports, log);
    match serve_node(
        rt,
        host.alloc(),
        &mut host.stdout(),
        setup,
        epochs,
        files,
        past,
    ) {
        Ok(NodeEnd { stores, outcome }) => {
            let ended = EndedFiles::of_node(stores, outcome);
            events.end(rt, &ended.end.outcome);
            ended.status(&mut host.stderr())
        }
        Err(refused) => unstarted_status(host, rt, events, refused),
    }
}

/// Sends the standard input to nodes, after a handshake where a key is named.
fn send_keyed(host: &HostRuntime, options: SendOptions) -> u8
    ensures { result ≤ FAILED }
{
    match read_given_key(host, &options.key) {
        Ok(key) => send_input(host, SendRun { options, key }),
        Err(status) => status,
    }
}

/// Tells how the nodes of a group are, after a handshake where a key is named.
fn show_keyed(host: &HostRuntime, options: StatusOptions) -> u8
    ensures { result ≤ FAILED }
{
    match read_given_key(host, &options.key) {
        Ok(key) => show_status(host, StatusRun { options, key }),
        Err(status) => status,
    }
}

/// Serves the page of a group, whose nodes are asked after a handshake where a key is named.
fn serve_keyed_page<
    R: Net<Listener = TcpListener, Stream = TcpStream>
        + Threads
        + Wait
        + Clock
        + RandomSource
        + Drop
        + Copy
        + Send
        + Sync
        + 'static,
>(host: &HostRuntime, rt: &R, options: PageOptions) -> u8
    ensures { result ≤ FAILED }
{
    match read_given_key(host, &options.key) {
        Ok(key) => serve_page(host, rt, PageRun { options, key }),
        Err(status) => status,
    }
}

fn main(rt: HostRuntime) -> ExitCode {
    let status = match run_given(&rt) {
        Ok(status) => status,
        Err(HostRun::Answer(options)) => answer_file(&rt, options),
        Err(HostRun::Log(options)) => log_file(&rt, options),
        Err(HostRun::Send(options)) => send_keyed(&rt, options),
        Err(HostRun::Status(options)) => show_keyed(&rt, options),
        Err(HostRun::Cluster(options)) => run_group(&rt, &rt, options),
        Err(HostRun::Page(options)) => serve_keyed_page(&rt, &rt, options),
        Err(HostRun::Serve(options)) => match bound_node(&rt, &rt, options) {
            Ok(node) => serve_bound(&rt, &rt, node, HostDatabases { rt }),
            Err(status) => status,
        },
    };
    ExitCode::from(status)
}
