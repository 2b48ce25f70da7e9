//! A connection to a node's sessions.

ghost use Rattle.std.specs.Prelude.{◌≡◌, ◌+◌, ◌<◌, ◌^◌, ℕ, List, IfOk, IfErr, IfSome, IsSome, IsNone, OnOk, None};
ghost use Rattle.std.specs.Prelude.{true, false, is_some, string_bytes};
ghost use Rattle.desk_admission.specs.Hosts.{host_of};
ghost use Rattle.desk_lines.specs.Holding.{HoldsLine};
ghost use Rattle.desk_types.specs.declared.limits.TheConstants.{SESSION_PORTS};
ghost use Rattle.desk_send.specs.Replies.{IsReplyLine};
ghost use Rattle.desk_follow.specs.declared.nodes.NoReply.TheVariants as faults;
ghost use Rattle.desk_follow.specs.Streams.{IsSealedUnder, IsSealedFor, CarriesReply};
ghost use Rattle.desk_follow.specs.Tries.{RepliesOver, BreaksOver, GrowsByTry, came_of};

use crate::nodes::NoReply;
use crate::try_log::TryLog;
use desk_admission::{
    CLIENT, CLIENT_CONNECT_MILLISECONDS, Endpoint, GroupAddress, KeyedPort, connect_within, dial,
    drawn_nonce,
};
use desk_key::Key;
use desk_lines::LineBuffer;
use desk_records::{Opened, Sealed};
use desk_send::{NodeFault, exchange_line};
use desk_types::session_port;
use std::alloc::Global;
use std::io;
use std::io::{BufRead, BufReader, ErrorKind, Read, Write};
use std::marker::Model;
use std::net::{Net, TcpStream};
use std::random::RandomSource;
use std::time::Duration;

/// For how long a node may be silent that a line was sent to, in seconds.
const SILENT_SECONDS: u64 = 3;

/// A connection to a node: both directions as they are.
#[derive(Drop)]
pub(crate) struct NodeStream<I: Read, O: Write> {
    /// The node that was dialled.
    node: u8,
    input: I,
    output: O,
    /// Both directions after a handshake, where the node's port has a key: lines go by these alone then.
    keyed: Option<KeyedStream<I, O>>,
}

/// Both directions of a connection after a handshake. A contract sees what records carry, where it is known.
#[derive(Drop)]
pub(crate) struct KeyedStream<I: Read, O: Write> {
    input: Opened<I>,
    output: Sealed<O>,
}

impl<I: Read, O: Write> Model for KeyedStream<I, O> {
    ghost use Rattle.std.specs.Prelude.{slice_range, take};
    ghost use Rattle.desk_records.specs.Streams.{opened_bytes, sealed_bytes};
    ghost use Rattle.desk_follow.specs.Streams.{RecordTraffic};

    ghost Value = { RecordTraffic };

    ghost view = { λ k. record {
      sealing = k.output.key.block.value;
      sent = sealed_bytes k.output.key.block.value (O.contents k.output.first.value) (O.contents k.output.inner);
      left = opened_bytes k.input.key.block.value k.input.count
          (slice_range k.input.room.items k.input.from k.input.until) (take k.input.held k.input.room.items)
          (I.remaining k.input.inner);
    } };
}

/// Where the sessions of a node are reached.
#[derive(Drop)]
struct NodeAddress<'a> {
    node: u8,
    host: &'a str,
    port: u16,
}

/// Where the sessions of a node of a group are reached.
fn node_address<'a>(address: &'a GroupAddress, node: u8) -> NodeAddress<'a>
    ensures node { result.node ≡ node }
    ensures host { result.host.now ≡ host_of address.now.hosts.text node }
    ensures port { address.now.first + node + SESSION_PORTS < 2 ^ 16 →
        result.port ≡ address.now.first + node + SESSION_PORTS }
{
    NodeAddress {
        node,
        host: address.hosts.of_node(node),
        port: session_port(address.first, node),
    }
}

/// A new connection to a port, on which each line goes out at once.
fn connected<R: Net<Stream = TcpStream>>(rt: &R, host: &str, port: u16) -> io::Result<TcpStream> {
    let silent = Duration::from_secs(SILENT_SECONDS);
    let stream = connect_within(rt, host, port, CLIENT_CONNECT_MILLISECONDS)?;
    stream.set_read_timeout(Some(silent))?;
    stream.set_write_timeout(Some(silent))?;
    stream.set_nodelay(true)?;
    Ok(stream)
}

/// Both directions of a connection after its handshake, as a client.
fn proved<R: RandomSource>(
    rt: &R,
    alloc: Global,
    stream: &TcpStream,
    key: &Key,
    port: u16,
) -> Option<KeyedStream<TcpStream, TcpStream>>
    // What is written goes as records by a key that comes of a handshake under just this one.
    ensures sealed { IfSome result (λ keyed. IsSealedUnder key.now port keyed.sealing) }
{
    let input = stream.try_clone().ok()?;
    let output = stream.try_clone().ok()?;
    let nonce = drawn_nonce(rt).ok()?;
    let keyed = KeyedPort {
        key: key.copy(),
        endpoint: Endpoint::of_sessions(port),
    };
    match dial(alloc, input, output, &keyed, CLIENT, &nonce) {
        Ok((input, output)) => Some(KeyedStream { input, output }),
        Err(_) => None,
    }
}

/// A new connection to the node at an address. None where it takes none, or does not show that it holds the key.
fn dialled<R: Net<Stream = TcpStream> + RandomSource>(
    rt: &R,
    alloc: Global,
    address: &NodeAddress<'_>,
    key: &Option<Key>,
) -> Option<NodeStream<TcpStream, TcpStream>>
    ensures node { IfSome result (λ stream. stream.node ≡ address.now.node) }
    // Where there is a key, nothing goes on without the handshake.
    ensures keyed { IfSome result (λ stream. is_some stream.keyed ≡ is_some key.now) }
    ensures sealed { IfSome result (λ stream. IsSealedFor key.now address.now.port stream.keyed) }
{
    let stream = connected(rt, address.host, address.port).ok()?;
    let keyed = match key {
        None => None,
        Some(key) => Some(proved(rt, alloc, &stream, key, address.port)?),
    };
    Some(NodeStream {
        node: address.node,
        input: stream.try_clone().ok()?,
        output: stream,
        keyed,
    })
}

/// A new connection to a node of a group. None where it takes none, or does not show that it holds the key.
pub(crate) fn open_stream<R: Net<Stream = TcpStream> + RandomSource>(
    rt: &R,
    alloc: Global,
    address: &GroupAddress,
    node: u8,
) -> Option<NodeStream<TcpStream, TcpStream>>
    ensures node { IfSome result (λ stream. stream.node ≡ node) }
    ensures keyed { IfSome result (λ stream. is_some stream.keyed ≡ is_some address.now.key) }
    // The handshake is with the node's port, under the key of the address.
    ensures sealed { address.now.first + node + SESSION_PORTS < 2 ^ 16 → IfSome result (λ stream.
        IsSealedFor address.now.key (address.now.first + node + SESSION_PORTS) stream.keyed) }
{
    dialled(rt, alloc, &node_address(address, node), &address.key)
}

/// Whether neither a byte nor the end has come on a connection on which no reply is awaited.
fn is_quiet(stream: &TcpStream) -> bool {
    if stream.set_nonblocking(true).is_err() {
        return false;
    }
    let came = stream.peek(&mut [0]);
    if stream.set_nonblocking(false).is_err() {
        return false;
    }
    match came {
        Ok(_) => false,
        Err(error) => error.kind() == ErrorKind::WouldBlock,
    }
}

/// The reply that a node gives to a line, over what reads the node's bytes and what takes those for it.
fn reply_over<B: BufRead + Drop, W: Write>(
    alloc: Global,
    reader: B,
    writer: &mut W,
    line: &LineBuffer,
) -> Result<String, NoReply>
    // This line alone was sent, once, and the reply is the next line that came.
    ensures ok { IfOk result (λ reply. (text : List ℕ) → HoldsLine line.now text →
        RepliesOver (W.contents writer.old) (W.contents writer.new) (B.remaining reader) text (string_bytes reply)) }
    // Where the node is reported to have given none, none came.
    ensures broken { IfErr result (λ fault. (text : List ℕ) → HoldsLine line.now text → fault ≡ faults.Broken →
        BreaksOver (W.contents writer.old) (W.contents writer.new) (B.remaining reader) text) }
{
    let mut reader = reader;
    match exchange_line(alloc, &mut reader, writer, line) {
        Ok(reply) => Ok(reply),
        Err(NodeFault::WantOfMemory) => Err(NoReply::WantOfMemory),
        Err(NodeFault::Broken) => Err(NoReply::Broken),
    }
}

/// The same, over what gives the node's bytes.
fn reply_on<I: Read + Drop, O: Write>(
    alloc: Global,
    input: I,
    output: &mut O,
    line: &LineBuffer,
) -> Result<String, NoReply>
    ensures ok { IfOk result (λ reply. (text : List ℕ) → HoldsLine line.now text →
        RepliesOver (O.contents output.old) (O.contents output.new) (I.remaining input) text (string_bytes reply)) }
    ensures broken { IfErr result (λ fault. (text : List ℕ) → HoldsLine line.now text → fault ≡ faults.Broken →
        BreaksOver (O.contents output.old) (O.contents output.new) (I.remaining input) text) }
{
    match BufReader::new(alloc, input) {
        Ok(reader) => reply_over(alloc, reader, output, line),
        Err(_) => Err(NoReply::WantOfMemory),
    }
}

/// The same of the node with this number, which is noted as one try.
fn noted_reply<I: Read + Drop, O: Write>(
    alloc: Global,
    input: I,
    output: &mut O,
    node: u8,
    is_keyed: bool,
    line: &LineBuffer,
    tries: &mut TryLog,
) -> Result<String, NoReply>
    ensures ok { IfOk result (λ reply. (text : List ℕ) → HoldsLine line.now text →
        RepliesOver (O.contents output.old) (O.contents output.new) (I.remaining input) text (string_bytes reply)) }
    ensures broken { IfErr result (λ fault. (text : List ℕ) → HoldsLine line.now text → fault ≡ faults.Broken →
        BreaksOver (O.contents output.old) (O.contents output.new) (I.remaining input) text) }
    ensures tried { (text : List ℕ) → HoldsLine line.now text →
        GrowsByTry tries.old tries.new node is_keyed text (came_of result) }
{
    let reply = reply_on(alloc, input, output, line);
    tries.note(node, is_keyed, line, reply)
}

impl<I: Read + Drop, O: Write + Drop> KeyedStream<I, O> {
    /// The reply of the node to a line, which is noted as one try after a handshake.
    fn reply(
        &mut self,
        alloc: Global,
        node: u8,
        line: &LineBuffer,
        tries: &mut TryLog,
    ) -> Result<String, NoReply>
        ensures whole { IfOk result (λ reply. (text : List ℕ) → HoldsLine line.now text →
            IsReplyLine (string_bytes reply)) }
        // The line was carried out by records, and the reply is what they carried in next.
        ensures ok { IfOk result (λ reply. (text : List ℕ) → HoldsLine line.now text →
            RepliesOver self.old.sent self.new.sent self.old.left text (string_bytes reply)) }
        ensures tried { (text : List ℕ) → HoldsLine line.now text →
            GrowsByTry tries.old tries.new node true text (came_of result) }
    {
        noted_reply(
            alloc,
            &mut self.input,
            &mut self.output,
            node,
            true,
            line,
            tries,
        )
    }
}

impl NodeStream<TcpStream, TcpStream> {
    /// Whether a line may be sent to this node on the connection: it leads there, with a handshake exactly where its
    /// port has a key, and has not ended since the last reply. So no line is lost on one whose node was started again.
    pub(crate) fn leads_to(&self, node: u8, key: &Option<Key>) -> bool
        ensures node { result ≡ true → self.now.node ≡ node }
        ensures keyed { result ≡ true → is_some self.now.keyed ≡ is_some key.now }
    {
        self.node == node && self.keyed.is_some() == key.is_some() && is_quiet(&self.input)
    }
}

impl<I: Read + Drop, O: Write + Drop> NodeStream<I, O> {
    /// The reply that the node gives to a line, which is noted as one try. Without one a late reply on the connection
    /// would pass for that to the next line.
    pub(crate) fn exchange(
        &mut self,
        alloc: Global,
        line: &LineBuffer,
        tries: &mut TryLog,
    ) -> Result<String, NoReply>
        ensures whole { IfOk result (λ reply. (text : List ℕ) → HoldsLine line.now text →
            IsReplyLine (string_bytes reply)) }
        // After a handshake the line was carried out by records, and the reply is what they carried in next.
        ensures keyed { IfOk result (λ reply. (text : List ℕ) → HoldsLine line.now text →
            CarriesReply self.old.keyed self.new.keyed text (string_bytes reply)) }
        // Nothing went out beside them.
        ensures alone { IsSome self.old.keyed → O.contents self.new.output ≡ O.contents self.old.output }
        // Without one both went over the connection as it is.
        ensures bare { IsNone self.old.keyed → IfOk result (λ reply. (text : List ℕ) → HoldsLine line.now text →
            RepliesOver (O.contents self.old.output) (O.contents self.new.output) (I.remaining self.old.input) text
            (string_bytes reply)) }
        ensures tried { (text : List ℕ) → HoldsLine line.now text →
            GrowsByTry tries.old tries.new self.old.node (is_some self.old.keyed) text (came_of result) }
    {
        match &mut self.keyed {
            None => noted_reply(
                alloc,
                &mut self.input,
                &mut self.output,
                self.node,
                false,
                line,
                tries,
            ),
            Some(keyed) => keyed.reply(alloc, self.node, line, tries),
        }
    }

    /// The reply that the node gives to a line, which is noted as one try. The connection comes back with a reply
    /// alone, and is closed without one: a late reply on it would pass for that to the next line.
    pub(crate) fn reply(
        self,
        alloc: Global,
        line: &LineBuffer,
        tries: &mut TryLog,
    ) -> (Option<NodeStream<I, O>>, Result<String, NoReply>)
        ensures whole { IfOk result.1 (λ reply. (text : List ℕ) → HoldsLine line.now text →
            IsReplyLine (string_bytes reply)) }
        ensures keyed { IfOk result.1 (λ reply. IfSome result.0 (λ stream. (text : List ℕ) →
            HoldsLine line.now text → CarriesReply self.keyed stream.keyed text (string_bytes reply))) }
        ensures bare { IsNone self.keyed → IfOk result.1 (λ reply. IfSome result.0 (λ stream. (text : List ℕ) →
            HoldsLine line.now text → RepliesOver (O.contents self.output) (O.contents stream.output)
            (I.remaining self.input) text (string_bytes reply))) }
        ensures back { OnOk result.1 (IsSome result.0) }
        ensures tried { (text : List ℕ) → HoldsLine line.now text →
            GrowsByTry tries.old tries.new self.node (is_some self.keyed) text (came_of result.1) }
        ensures closed { IfErr result.1 (λ _. result.0 ≡ None) }
    {
        let mut stream = self;
        match stream.exchange(alloc, line, tries) {
            Ok(reply) => (Some(stream), Ok(reply)),
            Err(fault) => (None, Err(fault)),
        }
    }
}
