//! How the nodes of a group are reached.

ghost use Rattle.std.specs.Prelude.{◌≡◌, ℕ, IfOk, slice_get};
ghost use Rattle.desk_admission.specs.Hosts.{named_hosts, host_of, or_loopback};

use desk_key::Key;
use desk_types::WantOfMemory;
use std::alloc::Global;
use std::io;
use std::io::ErrorKind;
use std::net::{Net, TcpStream, ToSocketAddrs};
use std::time::Duration;

/// The address of this host at which it is reached by itself alone.
pub const LOOPBACK: &str = "127.0.0.1";

/// For so many milliseconds an address may take no connection that a node makes to it.
pub const NODE_CONNECT_MILLISECONDS: u64 = 500;

/// For so many milliseconds an address may take no connection that a client makes to it.
pub const CLIENT_CONNECT_MILLISECONDS: u64 = 1000;

/// The host of each node of a group, by address or name. One that has none is on `LOOPBACK`.
pub struct Hosts {
    /// The hosts in the order of the nodes, with commas between.
    text: Option<String>,
}

// Written out, so that callers need not prove each part's drop.
impl Drop for Hosts {
    fn drop(self) {
        let Hosts { text: _ } = self;
    }
}

/// The host of a node among those of a text, which names them in the order of the nodes, with commas between.
fn host_in(hosts: &str, node: u8) -> &str
    ensures { result.now ≡ or_loopback (slice_get (named_hosts hosts.now) node) }
{
    match hosts.split(',').nth(node as usize) {
        Some(host) => host,
        None => LOOPBACK,
    }
}

impl Hosts {
    /// The hosts of a text, which names them in the order of the nodes, with commas between.
    pub fn new(text: Option<String>) -> Hosts
        ensures { result.text ≡ text }
    {
        Hosts { text }
    }

    /// The host of a node: of those that are given that at its place, else `LOOPBACK`.
    pub fn of_node(&self, node: u8) -> &str
        ensures { result.now ≡ host_of self.now.text node }
    {
        match &self.text {
            Some(text) => host_in(text.as_str(), node),
            None => LOOPBACK,
        }
    }

    /// The same hosts once more. Err where memory is refused.
    pub fn copy(&self, alloc: Global) -> Result<Hosts, WantOfMemory>
        ensures hosts { IfOk result (λ h. (node : ℕ) → host_of h.text node ≡ host_of self.now.text node) }
    {
        match &self.text {
            Some(text) => {
                let copy = String::from_str(alloc, text.as_str())?;
                Ok(Hosts { text: Some(copy) })
            }
            None => Ok(Hosts { text: None }),
        }
    }
}

/// How the nodes of a group are reached: its first port, their hosts, and the key of the ports that are dialled, where
/// they have one.
pub struct GroupAddress {
    pub first: u16,
    pub hosts: Hosts,
    pub key: Option<Key>,
}

// Written out, so that callers need not prove each part's drop.
impl Drop for GroupAddress {
    fn drop(self) {
        let GroupAddress {
            first: _,
            hosts: _,
            key: _,
        } = self;
    }
}

impl GroupAddress {
    /// A group on this host, whose ports have no key.
    pub fn of_loopback(first: u16) -> GroupAddress
        ensures first { result.first ≡ first }
    {
        GroupAddress {
            first,
            hosts: Hosts::new(None),
            key: None,
        }
    }

    /// The same once more. Err where memory is refused.
    pub fn copy(&self, alloc: Global) -> Result<GroupAddress, WantOfMemory>
        ensures first { IfOk result (λ a. a.first ≡ self.now.first) }
        ensures hosts { IfOk result (λ a. (node : ℕ) →
            host_of a.hosts.text node ≡ host_of self.now.hosts.text node) }
        ensures key { IfOk result (λ a. a.key ≡ self.now.key) }
    {
        Ok(GroupAddress {
            first: self.first,
            hosts: self.hosts.copy(alloc)?,
            key: match &self.key {
                Some(key) => Some(key.copy()),
                None => None,
            },
        })
    }
}

/// A new connection to a port of a host: to the first of its addresses that takes it within so many milliseconds. Each
/// address may take as long; Err is why the last one took none.
pub fn connect_within<R: Net<Stream = TcpStream>>(
    rt: &R,
    host: &str,
    port: u16,
    milliseconds: u64,
) -> io::Result<TcpStream> {
    let limit = Duration::from_millis(milliseconds);
    let mut last = io::Error::from(ErrorKind::InvalidInput);
    for address in (host, port).to_socket_addrs(rt)? {
        match TcpStream::connect_timeout(rt, &address, limit) {
            Ok(stream) => return Ok(stream),
            Err(error) => last = error,
        }
    }
    Err(last)
}
