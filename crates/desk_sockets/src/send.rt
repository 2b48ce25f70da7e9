//! The lines that are sent to a node, or to the primary of a group.

ghost use Rattle.std.specs.Prelude.{◌≡◌, ◌≤◌, false, is_some, IfOk, IfErr, IfSome, IsOk};
ghost use Rattle.std.specs.Io.KnownBytes.{IsAtEnd};
ghost use Rattle.desk_types.specs.declared.refusal.Refusal.TheVariants as refusals;
ghost use Rattle.desk_output.specs.Printing.{PrintsFirst};
ghost use Rattle.desk_output.specs.declared.printing.TheConstants.{DONE, FAILED};
ghost use Rattle.desk_follow.specs.Streams.{IsSealedUnder};
ghost use Rattle.desk_follow.specs.Tries.{Answered};
ghost use Rattle.desk_sockets.specs.Followed.{IsAnswered};

use crate::faults::{followed_status, no_node_status, no_proof_status, sent_status};
use desk_admission::{
    CLIENT, CLIENT_CONNECT_MILLISECONDS, Endpoint, GroupAddress, Hosts, KeyedPort, LOOPBACK,
    connect_within, dial, drawn_nonce,
};
use desk_follow::{Follower, GroupNodes, Nodes, follow_lines};
use desk_key::Key;
use desk_options::{FollowOptions, SendOptions};
use desk_output::{CountedInput, print_unread, refusal_status};
use desk_records::{Opened, Sealed};
use desk_send::{NodeConnection, send_lines};
use desk_types::{Refusal, WantOfMemory};
use std::alloc::Global;
use std::io::{self, BufReader, Read, Write};
use std::net::TcpStream;
use std::time::Duration;

/// For so many seconds a node with a key may be silent before it has shown that it holds it.
const PROOF_SECONDS: u64 = 8;

/// A run of `desk send`: what the words ask for, and the key by which.
#[derive(Drop)]
pub struct SendRun {
    pub options: SendOptions,
    /// The key of the file that the words name, where they name one.
    pub key: Option<Key>,
    ghost given: { is_some key ≡ is_some options.key },
}

/// Sends the lines of the input over both directions of a connection, writes the reply to each as it comes, and answers
/// the exit status.
fn lines_status<I: Read, O: Write, E: Write, B: Read + Drop, W: Write + Drop>(
    alloc: Global,
    port: u16,
    ends: (B, W),
    input: &mut CountedInput<I>,
    output: &mut O,
    errors: &mut E,
) -> u8
    ensures status { result ≤ FAILED }
    // It ends with 0 only where the input was read to its end.
    ensures end { result ≡ DONE → IsAtEnd (I.remaining input.new.input) }
{
    let (reader, writer) = ends;
    let Ok(reader) = BufReader::new(alloc, reader) else {
        return refusal_status(errors, &Refusal::WantOfMemory);
    };
    let connection = NodeConnection::new(alloc, reader, writer);
    let (connection, outcome) = send_lines(alloc, input, output, connection);
    let is_broken = connection.is_broken();
    drop(connection);
    let status = sent_status(errors, port, is_broken, &outcome);
    print_unread(errors, input);
    status
}

/// Sends the lines of the input to the node that a connection was to be made to, as they are, writes its reply to each
/// as it comes, and answers the exit status.
fn connected_status<I: Read, O: Write, E: Write>(
    alloc: Global,
    options: &SendOptions,
    connected: io::Result<TcpStream>,
    input: &mut CountedInput<I>,
    output: &mut O,
    errors: &mut E,
) -> u8
    // Where a key is named, no line goes without a handshake.
    requires bare { is_some options.now.key ≡ false }
    ensures status { result ≤ FAILED }
    // It ends with 0 only where the connection was made, and the input was read to its end.
    ensures done { result ≡ DONE → IsOk connected }
    ensures end { result ≡ DONE → IsAtEnd (I.remaining input.new.input) }
    ensures printed { IfErr connected
        (λ _. PrintsFirst (E.contents errors.old) (E.contents errors.new) refusals.ReadFault) }
{
    let stream = match connected {
        Ok(stream) => stream,
        Err(_) => return no_node_status(errors, options.port),
    };
    // each line goes out at once; where the host can not do that, it goes out late
    let _ = stream.set_nodelay(true);
    let ends = (&stream, &stream);
    lines_status(alloc, options.port, ends, input, output, errors)
}

/// Both directions to the node that a connection was made to, once that has shown that it holds the key. Else it tells
/// the standard error why there are none, and gives the exit status.
fn proved_ends<'a>(
    rt: &HostRuntime,
    host: &str,
    port: u16,
    stream: &'a TcpStream,
    key: Key,
) -> Result<(Opened<&'a TcpStream>, Sealed<&'a TcpStream>), u8>
    // What is written goes as records, by a key that comes of a handshake under just this one.
    ensures sealed { IfOk result (λ ends. IsSealedUnder key port ends.1.key.block.value) }
    ensures fault { IfErr result (λ status. status ≡ FAILED) }
{
    // each line goes out at once; where the host can not do that, it goes out late
    let _ = stream.set_nodelay(true);
    let _ = stream.set_read_timeout(Some(Duration::from_secs(PROOF_SECONDS)));
    let Ok(nonce) = drawn_nonce(rt) else {
        return Err(refusal_status(&mut rt.stderr(), &Refusal::ReadFault));
    };
    let keyed = KeyedPort {
        key,
        endpoint: Endpoint::of_sessions(port),
    };
    match dial(rt.alloc(), stream, stream, &keyed, CLIENT, &nonce) {
        Ok((opened, sealed)) => {
            let _ = stream.set_read_timeout(None);
            Ok((opened, sealed))
        }
        Err(_) => Err(no_proof_status(&mut rt.stderr(), host, port)),
    }
}

/// Sends the lines of the standard input by records alone, to the node that has shown that it holds the key, and
/// answers the exit status.
fn sealed_status(rt: &HostRuntime, port: u16, ends: (Opened<&TcpStream>, Sealed<&TcpStream>)) -> u8
    ensures status { result ≤ FAILED }
{
    let mut input = CountedInput::new(rt.stdin());
    lines_status(
        rt.alloc(),
        port,
        ends,
        &mut input,
        &mut rt.stdout(),
        &mut rt.stderr(),
    )
}

/// Sends the lines of the standard input to the node that a connection was made to, once that has shown that it holds
/// the key, and answers the exit status.
fn proved_status(rt: &HostRuntime, host: &str, port: u16, stream: &TcpStream, key: Key) -> u8
    ensures status { result ≤ FAILED }
{
    match proved_ends(rt, host, port, stream, key) {
        Ok(ends) => sealed_status(rt, port, ends),
        Err(status) => status,
    }
}

/// Sends the lines of the standard input to a node whose port for sessions has a key, and answers the exit status.
fn keyed_status(rt: &HostRuntime, host: &str, port: u16, key: Key) -> u8
    ensures status { result ≤ FAILED }
{
    match connect_within(rt, host, port, CLIENT_CONNECT_MILLISECONDS) {
        Ok(stream) => proved_status(rt, host, port, &stream, key),
        Err(_) => no_node_status(&mut rt.stderr(), port),
    }
}

/// Sends the lines of the input to the nodes of a group, each until its final reply has come, writes that reply, and
/// answers the exit status.
fn followed_lines_status<I: Read, O: Write, E: Write, N: Nodes + Drop>(
    alloc: Global,
    options: &SendOptions,
    follower: Follower<N>,
    input: &mut CountedInput<I>,
    output: &mut O,
    errors: &mut E,
) -> u8
    // Nodes are asked by a key exactly where one is named.
    requires keyed { N.has_key follower.nodes ≡ is_some options.now.key }
    ensures status { result ≤ FAILED }
    // It ends with 0 only where the input was read to its end.
    ensures end { result ≡ DONE → IsAtEnd (I.remaining input.new.input) }
    // Then each line that is not skipped was asked of nodes until its final reply came, one after the other, each after
    // a handshake where they have a key, and exactly those replies were written.
    ensures answered { result ≡ DONE → IfSome (I.remaining input.old.input) (λ text. IsAnswered
        (λ f line reply g. Answered f.count (N.has_key f.nodes) (N.tries f.nodes) f.node line reply
        (N.tries g.nodes) g.node)
        follower (O.contents output.old) text (O.contents output.new)) }
{
    let (follower, outcome) = follow_lines(alloc, input, output, follower);
    let (nodes, is_late) = (follower.count, follower.is_late);
    drop(follower);
    let status = followed_status(errors, options.port, nodes, is_late, &outcome);
    print_unread(errors, input);
    status
}

/// Who follows the primary of a group with this address. Err where memory is refused.
fn group_follower(
    rt: &HostRuntime,
    address: GroupAddress,
    group: &FollowOptions,
) -> Result<Follower<GroupNodes<HostRuntime>>, WantOfMemory>
    ensures address { IfOk result (λ f. f.nodes.address ≡ address) }
    ensures count { IfOk result (λ f. f.count ≡ group.now.nodes) }
{
    let nodes = GroupNodes::new(*rt, rt.alloc(), address, group.nodes, group.seconds)?;
    Ok(Follower::new(nodes, group.nodes))
}

/// Sends the lines of the standard input to the primary of a group, whichever node that is, and answers the exit
/// status.
fn follow_input(rt: &HostRuntime, run: SendRun, group: FollowOptions) -> u8
    ensures status { result ≤ FAILED }
{
    let SendRun { mut options, key } = run;
    let address = GroupAddress {
        first: options.port,
        hosts: Hosts::new(options.hosts.take()),
        key,
    };
    let Ok(follower) = group_follower(rt, address, &group) else {
        return refusal_status(&mut rt.stderr(), &Refusal::WantOfMemory);
    };
    let mut input = CountedInput::new(rt.stdin());
    followed_lines_status(
        rt.alloc(),
        &options,
        follower,
        &mut input,
        &mut rt.stdout(),
        &mut rt.stderr(),
    )
}

/// Sends the lines of the standard input to the node whose sessions come to the port, or to the primary of the group
/// whose first port it is, writes the reply to each as it comes, and answers the exit status.
pub fn send_input(rt: &HostRuntime, run: SendRun) -> u8
    ensures status { result ≤ FAILED }
{
    let SendRun { mut options, key } = run;
    if let Some(group) = options.group.take() {
        return follow_input(rt, SendRun { options, key }, group);
    }
    let host = match &options.host {
        Some(host) => host.as_str(),
        None => LOOPBACK,
    };
    if let Some(key) = key {
        return keyed_status(rt, host, options.port, key);
    }
    let connected = TcpStream::connect(rt, (host, options.port));
    let mut input = CountedInput::new(rt.stdin());
    connected_status(
        rt.alloc(),
        &options,
        connected,
        &mut input,
        &mut rt.stdout(),
        &mut rt.stderr(),
    )
}
