//! Which hosts may be given.

ghost use Rattle.std.specs.Prelude.{◌≡◌, true, false, length, All, IfNone, OnOk};
ghost use Rattle.std.specs.List.{list_all};
ghost use Rattle.desk_options.specs.Hosts.{hosts_in, IsOfHost, IsHostText, IsLoopbackText, AreHosts};
ghost use Rattle.desk_options.specs.Hosts.{is_of_zeros, spells_zeros, without_scope, AreAllowed};
ghost use Rattle.desk_options.specs.Hosts.{IsSentToAllowed, HasAllowedHosts};

use crate::command_line::{FollowOptions, OptionsFault};
use crate::host::HostRun;
use std::alloc::Global;
use std::net::IpAddr;

/// Whether an address is that of no host, `0.0.0.0` or `::`, in the bytes of IPv6 too.
fn is_of_no_host(address: &IpAddr) -> bool
    ensures { result ≡ false → IsOfHost address.now }
{
    address.to_canonical().is_unspecified()
}

/// Whether all bytes are of a text that may spell zeros.
fn are_of_zeros(bytes: &[u8]) -> bool
    ensures { result ≡ list_all is_of_zeros bytes.now }
{
    bytes
        .iter()
        .all(|b| matches!(*b, b'0' | b'.' | b'x' | b'X'))
}

/// Whether the host would read a text, which is no address, as `0.0.0.0`: it spells only zeros.
fn spells_zeros(text: &str) -> bool
    ensures { result ≡ spells_zeros text.now }
{
    let text = text.as_bytes();
    text.starts_with(b"0") && are_of_zeros(text)
}

/// The text without the scope that an address may end with, as in `fe80::1%eth0`.
fn without_scope(text: &str) -> &str
    ensures { result.now ≡ without_scope text.now }
{
    match text.split_once('%') {
        Some((address, _)) => address,
        None => text,
    }
}

/// Whether a text can be a host: it is not empty, and no address that is none of a host.
fn is_host(text: &str) -> bool
    ensures { result ≡ true → IsHostText text.now }
{
    match without_scope(text).parse::<IpAddr>() {
        Ok(address) => !is_of_no_host(&address),
        Err(_) => !text.is_empty() && !spells_zeros(text),
    }
}

/// Whether a text is an address of this host alone.
fn is_loopback(text: &str) -> bool
    ensures { result ≡ true → IsLoopbackText text.now }
{
    match text.parse::<IpAddr>() {
        Ok(address) => address.is_loopback(),
        Err(_) => false,
    }
}

/// Whether each part of a text can be a host.
fn are_hosts(hosts: &str) -> bool
    ensures { result ≡ true → All IsHostText (hosts_in hosts.now) }
{
    hosts.split(',').all(|host| is_host(host))
}

/// Whether each part of a text is an address of this host alone.
fn are_loopback(hosts: &str) -> bool
    ensures { result ≡ true → All IsLoopbackText (hosts_in hosts.now) }
{
    hosts.split(',').all(|host| is_loopback(host))
}

/// Whether a text has as many parts as there are nodes.
fn are_as_many(hosts: &str, nodes: u8) -> bool
    ensures { result ≡ true → length (hosts_in hosts.now) ≡ nodes }
{
    hosts.split(',').count() == nodes as usize
}

/// Whether there is a key, or each part of a text is an address of this host alone.
fn are_reached_by_holders(hosts: &str, has_key: bool) -> bool
    ensures { result ≡ true → has_key ≡ false → All IsLoopbackText (hosts_in hosts.now) }
{
    if has_key {
        return true;
    }
    are_loopback(hosts)
}

/// Why hosts may not be given, if they may not.
fn hosts_fault(hosts: &str, nodes: u8, has_key: bool) -> Option<&'static str>
    ensures { IfNone result
        (AreHosts has_key (hosts_in hosts.now) × (length (hosts_in hosts.now) ≡ nodes)) }
{
    if !are_hosts(hosts) {
        return Some("desk: a host must not be empty, 0.0.0.0 or ::\n");
    }
    if !are_reached_by_holders(hosts, has_key) {
        return Some("desk: a host that is not loopback needs a key\n");
    }
    if !are_as_many(hosts, nodes) {
        return Some("desk: hosts must be as many as nodes\n");
    }
    None
}

/// Refuses hosts that are not as many as nodes, and each that may not be given.
fn check_hosts(
    alloc: Global,
    hosts: &Option<String>,
    nodes: u8,
    has_key: bool,
) -> Result<(), OptionsFault>
    ensures { OnOk result (AreAllowed has_key nodes hosts.now) }
{
    let Some(hosts) = hosts else {
        return Ok(());
    };
    match hosts_fault(hosts.as_str(), nodes, has_key) {
        Some(text) => Err(OptionsFault::refused(alloc, text)),
        None => Ok(()),
    }
}

/// Refuses the host of a node or the hosts of a group that lines are sent to.
fn check_sent_to(
    alloc: Global,
    group: &Option<FollowOptions>,
    host: &Option<String>,
    hosts: &Option<String>,
    has_key: bool,
) -> Result<(), OptionsFault>
    ensures { OnOk result (IsSentToAllowed has_key group.now host.now hosts.now) }
{
    let Some(group) = group else {
        if hosts.is_some() {
            return Err(OptionsFault::refused(alloc, "desk: hosts need a number of nodes\n"));
        }
        return check_hosts(alloc, host, 1, has_key);
    };
    if host.is_some() {
        return Err(OptionsFault::refused(alloc, "desk: with nodes give hosts, not a host\n"));
    }
    check_hosts(alloc, hosts, group.nodes, has_key)
}

/// Refuses a run whose hosts may not be given: they are as many as nodes, none is empty or, in any spelling, `0.0.0.0`
/// or `::`, and without a key each is an address on loopback. A single host goes by the same.
pub fn check_hosts_of(alloc: Global, run: &HostRun) -> Result<(), OptionsFault>
    ensures { OnOk result (HasAllowedHosts run.now) }
{
    match run {
        HostRun::Serve(options) => {
            check_hosts(
                alloc,
                &options.hosts,
                options.owner.n,
                options.key.is_some(),
            )
        }
        HostRun::Send(options) => check_sent_to(
            alloc,
            &options.group,
            &options.host,
            &options.hosts,
            options.key.is_some(),
        ),
        HostRun::Status(options) => {
            check_hosts(alloc, &options.hosts, options.nodes, options.key.is_some())
        }
        HostRun::Page(options) => {
            check_hosts(alloc, &options.hosts, options.nodes, options.key.is_some())
        }
        HostRun::Answer(_) | HostRun::Cluster(_) | HostRun::Log(_) => Ok(()),
    }
}
