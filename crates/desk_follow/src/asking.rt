//! What the nodes of a group answer that are asked for their boards.

ghost use Rattle.std.specs.Prelude.{◌≡◌, length, Ok, IfOk, IfSome, IsNone, is_some};
ghost use Rattle.desk_lines.specs.Holding.{HoldsLine};
ghost use Rattle.desk_status.specs.declared.answers.NodeAnswer.{NodeAnswer};
ghost use Rattle.desk_status.specs.declared.answers.NodeAnswer.TheVariants as node_answers;
ghost use Rattle.desk_follow.specs.Streams.{CarriesPlace, RepliesPlace, AnswersShow, reported_place};

use crate::node_stream::{NodeStream, open_stream};
use crate::nodes::NoReply;
use crate::place::shown_place;
use crate::try_log::TryLog;
use desk_admission::GroupAddress;
use desk_lines::LineBuffer;
use desk_status::NodeAnswer;
use desk_types::WantOfMemory;
use desk_types::limits::LINE_BYTES;
use std::alloc::Global;
use std::io::{Read, Write};
use std::net::{Net, TcpStream};
use std::random::RandomSource;
use std::rt::Clock;
use std::time::Instant;

/// The line that asks a node for its board. A show needs a session, and leaves no trace of it.
const SHOW: &[u8] = b"{\"do\":\"show\",\"session\":1}";

/// A buffer that holds the line which asks a node for its board.
fn show_line(alloc: Global) -> Result<LineBuffer, WantOfMemory>
    ensures { IfOk result (λ line. HoldsLine line SHOW.now) }
{
    let mut bytes = Vec::with_capacity(alloc, LINE_BYTES)?;
    bytes.extend_from_slice(SHOW)?;
    Ok(LineBuffer {
        bytes,
        is_long: false,
    })
}

/// The place of the board that a node shows on a connection, which is noted as one try. None where it shows no board.
fn place_on<I: Read + Drop, O: Write + Drop>(
    alloc: Global,
    stream: &mut NodeStream<I, O>,
    tries: &mut TryLog,
) -> Result<Option<u64>, WantOfMemory>
    // After a handshake the show was carried out by records, and they carried in the reply that tells the place.
    ensures keyed { IfOk result (λ shown. IfSome shown
        (CarriesPlace stream.old.keyed stream.new.keyed SHOW.now)) }
    // Without one both went over the connection as it is.
    ensures bare { IsNone stream.old.keyed → IfOk result (λ shown. IfSome shown
        (RepliesPlace (O.contents stream.old.output) (O.contents stream.new.output) (I.remaining stream.old.input)
        SHOW.now)) }
    ensures tried { IfOk result (λ shown. IfSome shown
        (AnswersShow tries.old tries.new stream.old.node (is_some stream.old.keyed) SHOW.now)) }
{
    let line = show_line(alloc)?;
    match stream.exchange(alloc, &line, tries) {
        Ok(reply) => Ok(shown_place(reply.as_bytes())),
        Err(NoReply::WantOfMemory) => Err(WantOfMemory),
        Err(NoReply::Broken) => Ok(None),
    }
}

/// What a node answers. It is down where it takes no connection, does not show that it holds the key of the address, or
/// is silent for three seconds.
fn ask_node<R: Net<Stream = TcpStream> + Clock + RandomSource>(
    rt: &R,
    alloc: Global,
    address: &GroupAddress,
    node: u8,
    tries: &mut TryLog,
) -> Result<NodeAnswer, WantOfMemory>
    // One that is up was asked after a handshake exactly where the group has a key.
    ensures tried { IfOk result (λ answer. IfSome (reported_place answer)
        (AnswersShow tries.old tries.new node (is_some address.now.key) SHOW.now)) }
{
    let Ok(began) = Instant::now(rt) else {
        return Ok(NodeAnswer::Down);
    };
    let Some(mut stream) = open_stream(rt, alloc, address, node) else {
        return Ok(NodeAnswer::Down);
    };
    let Some(place) = place_on(alloc, &mut stream, tries)? else {
        return Ok(NodeAnswer::Down);
    };
    match began.elapsed(rt) {
        Ok(passed) => Ok(NodeAnswer::Up {
            place,
            milliseconds: u64::try_from(passed.as_millis()).unwrap_or(u64::MAX),
        }),
        Err(_) => Ok(NodeAnswer::Down),
    }
}

/// What each node of a group with this address answers, one after the other: a node that is silent holds up those
/// after it for three seconds. Err where memory is refused.
pub fn ask_nodes<R: Net<Stream = TcpStream> + Clock + RandomSource>(
    rt: &R,
    alloc: Global,
    address: &GroupAddress,
    nodes: u8,
) -> Result<Vec<NodeAnswer>, WantOfMemory>
    ensures { IfOk result (λ answers. length answers.items ≡ nodes) }
{
    let mut tries = TryLog::new();
    let mut answers = Vec::new(alloc);
    for node in 0..nodes {
        let answer = ask_node(rt, alloc, address, node, &mut tries)?;
        answers.push(answer)?;
    }
    Ok(answers)
}

/// What a node answers that is asked once more if it was up. One that was down is taken for that.
fn ask_again<R: Net<Stream = TcpStream> + Clock + RandomSource>(
    rt: &R,
    alloc: Global,
    address: &GroupAddress,
    node: u8,
    seen: &NodeAnswer,
    tries: &mut TryLog,
) -> Result<NodeAnswer, WantOfMemory>
    ensures down { seen.now ≡ node_answers.Down → result ≡ Ok node_answers.Down }
    ensures tried { IfOk result (λ answer. IfSome (reported_place answer)
        (AnswersShow tries.old tries.new node (is_some address.now.key) SHOW.now)) }
{
    match seen {
        NodeAnswer::Down => Ok(NodeAnswer::Down),
        NodeAnswer::Up { .. } => ask_node(rt, alloc, address, node, tries),
    }
}

/// What each node of a group answers. Those that are up are asked once more, for their places to be of one time: one
/// that is silent holds up those after it.
pub fn ask_twice<R: Net<Stream = TcpStream> + Clock + RandomSource>(
    rt: &R,
    alloc: Global,
    address: &GroupAddress,
    nodes: u8,
) -> Result<Vec<NodeAnswer>, WantOfMemory>
    ensures { IfOk result (λ answers. length answers.items ≡ nodes) }
{
    let seen = ask_nodes(rt, alloc, address, nodes)?;
    let mut tries = TryLog::new();
    let mut answers = Vec::new(alloc);
    for node in 0..nodes {
        let last = match seen.get(node as usize) {
            Some(seen) => ask_again(rt, alloc, address, node, seen, &mut tries)?,
            None => NodeAnswer::Down,
        };
        answers.push(last)?;
    }
    Ok(answers)
}
