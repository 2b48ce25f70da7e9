//! Connections to the other nodes.

ghost use Rattle.std.specs.Prelude.{◌≡◌, Some, MatchResult, IfOk};
ghost use Rattle.desk_connections.specs.Links.{ConnectsTo, IsLinkNews, IsSealedTo, why_of};
ghost use Rattle.desk_connections.specs.declared.links.LinkState.TheVariants as states;

use crate::limits::{
    IDLE_LINK_SECONDS, LINK_SECONDS, PROOF_SECONDS, REST_MILLISECONDS, WRITE_SECONDS,
};
use desk_admission::{
    KeyedPort, NODE_CONNECT_MILLISECONDS, NotAdmitted, connect_within, dial, drawn_nonce,
};
use desk_events::{Event, EventLog, Why};
use desk_peers::{Connect, EpochPlaces, PeerQueue, send_packets};
use desk_records::Sealed;
use std::alloc::Global;
use std::io;
use std::net::{Net, TcpStream};
use std::random::RandomSource;
use std::rt::Clock;
use std::sync::Wait;
use std::time::{Duration, Instant};

/// Where a peer listens.
#[derive(Drop)]
pub struct PeerAddress {
    /// Its host, by address or name.
    pub host: String,
    pub port: u16,
    /// Its key, where it has one.
    pub keyed: Option<KeyedPort>,
    /// The number of the node that dials.
    pub from: u8,
}

/// How a link is.
#[derive(Clone, Copy, PartialEq, Eq)]
enum LinkState {
    Up,
    Down(Why),
}

/// What is announced of the link to a peer.
pub(crate) struct LinkNews {
    log: EventLog,
    /// The peer's number.
    to: u8,
    /// What was announced of the link last, where anything was.
    announced: Option<LinkState>,
    /// Whether a write to the connection failed, which is announced at the next try to connect: there is none at the
    /// end of the node.
    was_broken: bool,
}

// Written out, so that callers need not prove each part's drop.
impl Drop for LinkNews {
    fn drop(self) {
        let LinkNews {
            log: _,
            to: _,
            announced: _,
            was_broken: _,
        } = self;
    }
}

impl LinkNews {
    pub(crate) fn new(log: EventLog, to: u8) -> LinkNews {
        LinkNews {
            log,
            to,
            announced: None,
            was_broken: false,
        }
    }

    /// What is to be announced of a link that is so, where it was not announced so last.
    fn news(&mut self, state: LinkState) -> Option<Event>
        ensures news { IsLinkNews self.old.announced self.old.to state result }
        ensures announced { self.new.announced ≡ Some state }
    {
        if self.announced == Some(state) {
            return None;
        }
        self.announced = Some(state);
        Some(match state {
            LinkState::Up => Event::LinkUp { to: self.to },
            LinkState::Down(why) => Event::LinkDown { to: self.to, why },
        })
    }

    /// Announces how the link is, where it was not announced so last.
    fn announce<R: Wait>(&mut self, rt: &R, state: LinkState)
        ensures { self.new.announced ≡ Some state }
    {
        if let Some(event) = self.news(state) {
            self.log.announce(rt, event);
        }
    }

    /// Notes that a write to the connection failed.
    fn note_broken(&mut self) {
        self.was_broken = true;
    }

    /// Tells what a try to connect came to, and gives the connection.
    fn announce_tried<R: Wait, T>(&mut self, rt: &R, tried: Result<T, Why>) -> Option<T>
        // What was announced last is what the try came to.
        ensures { MatchResult tried (λ _. self.new.announced ≡ Some states.Up)
            (λ w. self.new.announced ≡ Some (states.Down w)) }
    {
        if self.was_broken {
            self.was_broken = false;
            self.announce(rt, LinkState::Down(Why::Broken));
        }
        match tried {
            Ok(connection) => {
                self.announce(rt, LinkState::Up);
                Some(connection)
            }
            Err(why) => {
                self.announce(rt, LinkState::Down(why));
                None
            }
        }
    }
}

/// Why who dials a port, or is dialled, is refused.
pub(crate) fn why_not_admitted(fault: NotAdmitted) -> Why
    ensures { result ≡ why_of fault }
{
    match fault {
        NotAdmitted::Broken => Why::Handshake,
        NotAdmitted::OtherEndpoint => Why::Endpoint,
        NotAdmitted::NoProof => Why::Key,
    }
}

/// A peer without a key, and what connects to it.
#[derive(Drop)]
pub(crate) struct OpenPeer<R: Drop> {
    pub(crate) rt: R,
    pub(crate) host: String,
    pub(crate) port: u16,
    pub(crate) news: LinkNews,
}

/// A new connection to a peer, on which each packet goes out at once.
fn open<R: Net<Stream = TcpStream>>(rt: &R, host: &str, port: u16) -> io::Result<TcpStream> {
    let stream = connect_within(rt, host, port, NODE_CONNECT_MILLISECONDS)?;
    stream.set_nodelay(true)?;
    Ok(stream)
}

impl<R: Net<Stream = TcpStream> + Wait + Drop> Connect for OpenPeer<R> {
    type Connection = TcpStream;

    fn connect(&mut self) -> Option<TcpStream> {
        let tried = match open(&self.rt, self.host.as_str(), self.port) {
            Ok(stream) => Ok(stream),
            Err(_) => Err(Why::Connect),
        };
        self.news.announce_tried(&self.rt, tried)
    }

    // A peer without a key is on this host, to which no link is cut.
    fn keeps(&mut self) -> bool {
        true
    }

    // One that is held is closed where a write failed, or at the end of the node.
    fn close(&mut self, connection: TcpStream) {
        drop(connection);
        self.news.note_broken();
    }
}

/// When a connection was made, and when it was last used.
#[derive(Clone, Copy)]
struct Age {
    made: Instant,
    used: Instant,
}

/// The age of a connection that is used now. None where the host tells no time, or the connection was used for long
/// enough, or not used for too long.
fn age_now<R: Clock>(rt: &R, age: Option<Age>) -> Option<Age> {
    let now = Instant::now(rt).ok()?;
    let Some(Age { made, used }) = age else {
        return Some(Age {
            made: now,
            used: now,
        });
    };
    if now.duration_since(made) >= Duration::from_secs(LINK_SECONDS)
        || now.duration_since(used) >= Duration::from_secs(IDLE_LINK_SECONDS)
    {
        return None;
    }
    Some(Age { made, used: now })
}

/// Whether a try to connect failed a moment ago. Not where the host tells no time.
fn is_resting<R: Clock>(rt: &R, failed: &Option<Instant>) -> bool {
    match failed {
        Some(failed) => match failed.elapsed(rt) {
            Ok(passed) => passed < Duration::from_millis(REST_MILLISECONDS),
            Err(_) => false,
        },
        None => false,
    }
}

/// A peer with a key, and what connects to it.
pub(crate) struct KeyedPeer<R> {
    pub(crate) rt: R,
    pub(crate) alloc: Global,
    pub(crate) host: String,
    pub(crate) keyed: KeyedPort,
    pub(crate) from: u8,
    /// That of the connection that is open, where it is known.
    age: Option<Age>,
    /// When the last try to connect failed, if it did.
    failed: Option<Instant>,
    pub(crate) news: LinkNews,
}

// Written out, so that callers need not prove each part's drop.
impl<R: Drop> Drop for KeyedPeer<R> {
    fn drop(self) {
        let KeyedPeer {
            rt: _,
            alloc: _,
            host: _,
            keyed: _,
            from: _,
            age: _,
            failed: _,
            news: _,
        } = self;
    }
}

impl<R: Net<Stream = TcpStream> + RandomSource> KeyedPeer<R> {
    /// A new connection, before its handshake: what comes of it, and what goes to it.
    fn reach(&self) -> io::Result<(TcpStream, TcpStream)> {
        let stream = open(&self.rt, self.host.as_str(), self.keyed.endpoint.port)?;
        stream.set_read_timeout(Some(Duration::from_secs(PROOF_SECONDS)))?;
        stream.set_write_timeout(Some(Duration::from_secs(WRITE_SECONDS)))?;
        let input = stream.try_clone()?;
        Ok((input, stream))
    }

    /// A new connection, after a handshake.
    fn open(&self) -> Result<Sealed<TcpStream>, Why>
        // Packets go on it as records, by a key that comes of the handshake.
        ensures { IfOk result (λ sealed. IsSealedTo self.now.keyed self.now.from sealed.key.block.value) }
    {
        let Ok((input, stream)) = self.reach() else {
            return Err(Why::Connect);
        };
        let nonce = match drawn_nonce(&self.rt) {
            Ok(nonce) => nonce,
            Err(fault) => return Err(why_not_admitted(fault)),
        };
        match dial(self.alloc, input, stream, &self.keyed, self.from, &nonce) {
            Ok((opened, sealed)) => {
                drop(opened);
                Ok(sealed)
            }
            Err(fault) => Err(why_not_admitted(fault)),
        }
    }
}

impl<R: Net<Stream = TcpStream> + RandomSource + Clock + Wait + Drop> Connect for KeyedPeer<R> {
    type Connection = Sealed<TcpStream>;

    fn connect(&mut self) -> Option<Sealed<TcpStream>> {
        if is_resting(&self.rt, &self.failed) {
            return None;
        }
        self.age = age_now(&self.rt, None);
        let tried = self.open();
        self.failed = match &tried {
            Ok(_) => None,
            Err(_) => Instant::now(&self.rt).ok(),
        };
        self.news.announce_tried(&self.rt, tried)
    }

    fn keeps(&mut self) -> bool {
        self.age = age_now(&self.rt, self.age);
        self.age.is_some()
    }

    // One that was used for long enough, or not for too long, has no age any more, and is made anew.
    fn close(&mut self, connection: Sealed<TcpStream>) {
        drop(connection);
        if self.age.is_some() {
            self.news.note_broken();
        }
    }
}

/// Sends the packets of a queue, as long as there is somebody who puts them.
fn send_queue<R: Wait, C: Connect + Drop>(
    rt: &R,
    alloc: Global,
    places: EpochPlaces,
    queue: PeerQueue,
    connector: C,
) {
    let (queue, connector) = send_packets(rt, alloc, places, queue, connector);
    drop(queue);
    drop(connector);
}

/// What connects to a peer: after a handshake, where it has a key.
enum PeerConnector<R: Drop> {
    Open(OpenPeer<R>),
    Keyed(KeyedPeer<R>),
}

/// What connects to the peer at an address.
fn connector_to<R: Drop>(
    rt: R,
    alloc: Global,
    address: PeerAddress,
    news: LinkNews,
) -> PeerConnector<R>
    ensures { ConnectsTo address result }
{
    let PeerAddress {
        host,
        port,
        keyed,
        from,
    } = address;
    match keyed {
        None => PeerConnector::Open(OpenPeer {
            rt,
            host,
            port,
            news,
        }),
        Some(keyed) => PeerConnector::Keyed(KeyedPeer {
            rt,
            alloc,
            host,
            keyed,
            from,
            age: None,
            failed: None,
            news,
        }),
    }
}

/// Sends the packets of a queue to a peer, after a handshake where that has a key.
pub(crate) fn send_to<R: Net<Stream = TcpStream> + RandomSource + Clock + Wait + Drop + Copy>(
    rt: &R,
    alloc: Global,
    places: EpochPlaces,
    queue: PeerQueue,
    address: PeerAddress,
    log: EventLog,
) {
    let news = LinkNews::new(log, queue.node);
    match connector_to(*rt, alloc, address, news) {
        PeerConnector::Open(peer) => send_queue(rt, alloc, places, queue, peer),
        PeerConnector::Keyed(peer) => send_queue(rt, alloc, places, queue, peer),
    }
}
