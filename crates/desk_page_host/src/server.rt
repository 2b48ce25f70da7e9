//! The page's server.

ghost use Rattle.std.specs.Prelude.{◌≡◌, ◌≤◌, ℕ, IfOk, is_some};
ghost use Rattle.desk_admission.specs.Hosts.{host_of};
ghost use Rattle.desk_output.specs.declared.printing.TheConstants.{FAILED};
ghost use Rattle.desk_types.specs.Group.{IsGroupSize};

use crate::browsers::serve_browsers;
use crate::reader::read_boards;
use crate::watcher::watch_nodes;
use desk_admission::{GroupAddress, Hosts, LOOPBACK};
use desk_connections::NodeRuntime;
use desk_follow::{Follower, GroupNodes};
use desk_key::Key;
use desk_options::PageOptions;
use desk_output::LinePart::{Number, Text};
use desk_output::{flush, outcome_status, refusal_status, refusal_status_with, write_text};
use desk_page::{PageService, SharedPage};
use desk_types::{Refusal, WantOfMemory};
use std::alloc::Global;
use std::hash::{BuildHasher, Hasher, RandomState};
use std::io::{self, ErrorKind, Input};
use std::net::{Net, TcpListener, TcpStream};
use std::random::RandomSource;
use std::rt::Clock;
use std::sync::atomic::AtomicU8;
use std::sync::{Arc, Wait};
use std::thread;
use std::thread::{JoinHandle, SpawnError, Threads};

/// How many threads serve browsers.
const WORKERS: usize = 128;

/// For how long the reader asks nodes for a place or a board, in seconds.
const READ_SECONDS: u16 = 1;

/// What the threads share.
pub(crate) type SharedFollowers<R> = Arc<SharedPage<Follower<GroupNodes<R>>>, Global>;

/// The node that reported the greatest place last.
pub(crate) type BestNode = Arc<AtomicU8, Global>;

/// A thread that goes on by itself, or the refusal of its start.
fn detach<T: Drop, F: Drop>(
    thread: Result<JoinHandle<T>, SpawnError<F>>,
) -> Result<(), WantOfMemory> {
    match thread {
        Ok(handle) => {
            drop(handle);
            Ok(())
        }
        Err(error) => {
            drop(error);
            Err(WantOfMemory)
        }
    }
}

/// A run of `desk page`: what the words ask for, and the key by which nodes are asked.
#[derive(Drop)]
pub struct PageRun {
    pub options: PageOptions,
    /// The key of the file that the words name, where they name one.
    pub key: Option<Key>,
    ghost given: { is_some key ≡ is_some options.key },
}

/// The group whose page is served.
#[derive(Drop)]
struct PageGroup {
    address: GroupAddress,
    nodes: u8,
    /// For how long a command is asked again, in seconds.
    seconds: u16,
    ghost few: { IsGroupSize nodes },
}

/// The group whose page a run serves.
fn page_group(run: PageRun) -> PageGroup
    ensures first { result.address.first ≡ run.options.port }
    ensures hosts { result.address.hosts.text ≡ run.options.hosts }
    // Its nodes are asked by a key exactly where one is named.
    ensures key { is_some result.address.key ≡ is_some run.options.key }
    ensures nodes { result.nodes ≡ run.options.nodes }
{
    let PageRun { options, key } = run;
    let PageOptions {
        nodes,
        port,
        seconds,
        hosts,
        ..
    } = options;
    PageGroup {
        address: GroupAddress {
            first: port,
            hosts: Hosts::new(hosts),
            key,
        },
        nodes,
        seconds,
    }
}

/// Who asks the nodes of a group, each line for so many seconds.
fn follower<R: NodeRuntime>(
    rt: &R,
    alloc: Global,
    group: &PageGroup,
    seconds: u16,
) -> Result<Follower<GroupNodes<R>>, WantOfMemory>
    ensures first { IfOk result (λ f. f.nodes.address.first ≡ group.now.address.first) }
    ensures hosts { IfOk result (λ f. (node : ℕ) →
        host_of f.nodes.address.hosts.text node ≡ host_of group.now.address.hosts.text node) }
    ensures key { IfOk result (λ f. f.nodes.address.key ≡ group.now.address.key) }
{
    let asked = GroupNodes::new(*rt, alloc, group.address.copy(alloc)?, group.nodes, seconds)?;
    Ok(Follower::new(asked, group.nodes))
}

/// Starts the thread that reads the board.
fn start_reader<R: NodeRuntime>(
    rt: &R,
    alloc: Global,
    group: &PageGroup,
    shared: SharedFollowers<R>,
    best: BestNode,
) -> Result<(), WantOfMemory> {
    let handle = *rt;
    let reader = follower(rt, alloc, group, READ_SECONDS)?;
    detach(thread::spawn(
        rt,
        move || read_boards(&handle, alloc, &shared, &best, reader),
    ))
}

/// Starts the thread that watches the nodes.
fn start_watcher<R: NodeRuntime>(
    rt: &R,
    alloc: Global,
    group: &PageGroup,
    shared: SharedFollowers<R>,
    best: BestNode,
) -> Result<(), WantOfMemory> {
    let handle = *rt;
    let (address, nodes) = (group.address.copy(alloc)?, group.nodes);
    detach(thread::spawn(
        rt,
        move || watch_nodes(&handle, alloc, &address, nodes, &shared, &best),
    ))
}

/// Starts a thread that serves browsers at a port.
fn start_worker<R: NodeRuntime>(
    rt: &R,
    alloc: Global,
    keys: RandomState,
    run: u64,
    listener: &TcpListener,
    shared: SharedFollowers<R>,
) -> Result<(), WantOfMemory> {
    let handle = *rt;
    let Ok(mine) = listener.try_clone() else {
        return Err(WantOfMemory);
    };
    let service = PageService::new(handle, alloc, run, shared);
    detach(thread::spawn(
        rt,
        move || serve_browsers(&handle, alloc, keys, &mine, service),
    ))
}

/// The same, once more for another thread.
fn again<T>(shared: &Arc<T, Global>) -> Result<Arc<T, Global>, WantOfMemory> {
    match Arc::try_clone(shared) {
        Ok(more) => Ok(more),
        Err(_) => Err(WantOfMemory),
    }
}

/// The number of this run of the server: 53 random bits, and not 0.
fn drawn_run(keys: &RandomState) -> u64 {
    (keys.build_hasher().finish() >> 11).max(1)
}

/// What the threads share: no board yet, and two followers for commands.
fn shared_page<R: NodeRuntime>(
    rt: &R,
    alloc: Global,
    group: &PageGroup,
) -> Result<SharedFollowers<R>, WantOfMemory> {
    let first = follower(rt, alloc, group, group.seconds)?;
    let second = follower(rt, alloc, group, group.seconds)?;
    match Arc::new(alloc, SharedPage::new(first, second)) {
        Ok(shared) => Ok(shared),
        Err(_) => Err(WantOfMemory),
    }
}

/// Starts all threads.
fn start<R: NodeRuntime>(
    rt: &R,
    alloc: Global,
    keys: RandomState,
    group: &PageGroup,
    listener: &TcpListener,
) -> Result<(), WantOfMemory> {
    let shared = shared_page(rt, alloc, group)?;
    let Ok(best) = Arc::new(alloc, AtomicU8::new(0)) else {
        return Err(WantOfMemory);
    };
    start_reader(rt, alloc, group, again(&shared)?, again(&best)?)?;
    start_watcher(rt, alloc, group, again(&shared)?, best)?;
    let run = drawn_run(&keys);
    for _worker in 0..WORKERS {
        start_worker(rt, alloc, keys, run, listener, again(&shared)?)?;
    }
    Ok(())
}

/// Tells that the server is ready, and waits for the end of the standard input.
fn wait_for_end(host: &HostRuntime) -> Result<(), Refusal> {
    let mut output = host.stdout();
    write_text(&mut output, b"ready\n")?;
    flush(&mut output)?;
    // the input may end by a fault too
    let _ = io::copy(&mut host.reader(), &mut io::sink());
    Ok(())
}

/// What is printed of a port that is refused, after its number.
fn why_refused(error: &io::Error) -> &'static str {
    match error.kind() {
        ErrorKind::AddrInUse => " is in use\n",
        _ => " can not be bound\n",
    }
}

/// Tells the standard error that the port for browsers is refused, and answers the exit status.
fn refused_port_status(host: &HostRuntime, port: u16, error: &io::Error) -> u8
    ensures status { result ≤ FAILED }
{
    let why = why_refused(error);
    let more = [Text("desk: port "), Number(port as u64), Text(why)];
    refusal_status_with(&mut host.stderr(), &Refusal::ReadFault, &more)
}

/// Serves the page of a group at a port of this host until the standard input ends. Tells `ready` once the threads are
/// started, and answers the exit status. No node need be up. The runtime has the threads, the network and the clock of
/// the host.
pub fn serve_page<
    R: Net<Listener = TcpListener, Stream = TcpStream>
        + Threads
        + Wait
        + Clock
        + RandomSource
        + Drop
        + Copy
        + Send
        + Sync
        + 'static,
>(host: &HostRuntime, rt: &R, run: PageRun) -> u8
    ensures status { result ≤ FAILED }
{
    let listen = run.options.listen;
    let listener = match TcpListener::bind(rt, (LOOPBACK, listen)) {
        Ok(listener) => listener,
        Err(error) => return refused_port_status(host, listen, &error),
    };
    let Ok(keys) = RandomState::new(host) else {
        return refusal_status(&mut host.stderr(), &Refusal::ReadFault);
    };
    if start(rt, host.alloc(), keys, &page_group(run), &listener).is_err() {
        return refusal_status(&mut host.stderr(), &Refusal::WantOfMemory);
    }
    outcome_status(&mut host.stderr(), &wait_for_end(host))
}
