//! A connection to a node.

ghost use Rattle.std.specs.Prelude.{◌≡◌, ℕ, List, IfOk, IfErr, OnOk, OnErr, false, string_bytes};
ghost use Rattle.std.specs.Io.KnownBytes.{Appends, Consumes};
ghost use Rattle.desk_output.specs.Prefixes.{AppendsPrefix};
ghost use Rattle.desk_lines.specs.Holding.{HoldsLine};
ghost use Rattle.desk_send.specs.Replies.{IsReplyLine, ReadsNone};
ghost use Rattle.desk_send.specs.Exchanges.{request};

use crate::fault::NodeFault;
use crate::reply::read_reply;
use crate::request::{request_bytes, send_bytes};
use desk_lines::{Handler, LineBuffer, ReplyText};
use desk_types::Refusal;
use std::alloc::Global;
use std::io::{BufRead, Write};
use std::marker::Model;

/// Sends the line that has come to a node, and reads the reply to it. Where there is none, no further line is to be
/// sent: what comes next may belong to this one. Err where memory is refused, and where the node takes no bytes or
/// gives no reply line.
pub fn exchange_line<B: BufRead, W: Write>(
    alloc: Global,
    reader: &mut B,
    writer: &mut W,
    line: &LineBuffer,
) -> Result<String, NodeFault>
    // The request went out, and the next line that the node gave is the reply.
    ensures asked { OnOk result ((text : List ℕ) → HoldsLine line.now text →
        Appends (W.contents writer.old) (W.contents writer.new) (request text)) }
    ensures reported { IfOk result (λ reply.
        Consumes (B.remaining reader.old) (B.remaining reader.new) (string_bytes reply)
        × IsReplyLine (string_bytes reply)) }
    // Or a prefix of it went out, and no reply line came.
    ensures part { OnErr result ((text : List ℕ) → HoldsLine line.now text →
        AppendsPrefix (W.contents writer.old) (W.contents writer.new) (request text)) }
    ensures none { IfErr result (λ fault. ReadsNone fault (B.remaining reader.old) (B.remaining reader.new)) }
{
    let request = request_bytes(alloc, line)?;
    send_bytes(writer, request.as_slice())?;
    read_reply(alloc, reader)
}

/// A connection to a node that answers lines: what reads the node's bytes, and what writes to it. A contract sees the
/// bytes that were sent and those that the node will give, where they are known.
pub struct NodeConnection<B: BufRead, W: Write> {
    alloc: Global,
    reader: B,
    writer: W,
    is_broken: bool,
}

// Written out, so that callers need not prove each part's drop.
impl<B: BufRead + Drop, W: Write + Drop> Drop for NodeConnection<B, W> {
    fn drop(self) {
        let NodeConnection {
            alloc: _,
            reader: _,
            writer: _,
            is_broken: _,
        } = self;
    }
}

impl<B: BufRead, W: Write> Model for NodeConnection<B, W> {
    ghost use Rattle.desk_send.specs.Exchanges.{Traffic};

    ghost Value = { Traffic };

    ghost view = { λ c. record {
      sent = W.contents c.writer;
      left = B.remaining c.reader;
      is_broken = c.is_broken;
    } };
}

impl<B: BufRead, W: Write> NodeConnection<B, W> {
    ghost use Rattle.desk_send.specs.Exchanges.{Traffic, Exchanged, FailsExchange};

    /// A connection over which nothing was sent.
    pub fn new(alloc: Global, reader: B, writer: W) -> NodeConnection<B, W>
        ensures sent { result.sent ≡ W.contents writer }
        ensures left { result.left ≡ B.remaining reader }
        ensures whole { result.is_broken ≡ false }
    {
        NodeConnection {
            alloc,
            reader,
            writer,
            is_broken: false,
        }
    }

    /// Whether the node could not be written to, or gave no reply line.
    pub fn is_broken(&self) -> bool
        ensures { result ≡ self.now.is_broken }
    {
        self.is_broken
    }

    /// Sends the line that has come, and reads the reply to it.
    fn exchange(&mut self, line: &LineBuffer) -> Result<String, NodeFault>
        ensures ok { IfOk result (λ reply. (text : List ℕ) → HoldsLine line.now text →
            Exchanged self.old text (string_bytes reply) self.new) }
        ensures err { IfErr result (λ fault. (text : List ℕ) → HoldsLine line.now text →
            FailsExchange self.old text fault self.new) }
    {
        exchange_line(self.alloc, &mut self.reader, &mut self.writer, line)
    }
}

/// The node answers a line by the reply line that it gives next.
///
/// It gives up for want of memory (`WantOfMemory`), and where the node can't be written to, or ends before its reply,
/// or where the reply line is no UTF-8 or has more than [`REPLY_BYTES`](crate::REPLY_BYTES) bytes (`ReadFault`, and the
/// connection is broken). No further line is to be sent then: what comes next may belong to an earlier one.
impl<B: BufRead, W: Write> Handler for NodeConnection<B, W> {
    ghost use Rattle.desk_send.specs.Exchanges.{Exchanged, GivesUp};

    ghost answers = { λ c line reply after. Exchanged c line reply after };

    ghost gives_up = { λ c line refusal after. GivesUp c line refusal after };

    ghost preserved = { λ _. tt };

    fn answer(self, line: &LineBuffer) -> (NodeConnection<B, W>, Result<ReplyText, Refusal>) {
        let mut connection = self;
        match connection.exchange(line) {
            Ok(reply) => (connection, Ok(ReplyText::Line(reply))),
            Err(NodeFault::WantOfMemory) => (connection, Err(Refusal::WantOfMemory)),
            Err(NodeFault::Broken) => {
                connection.is_broken = true;
                (connection, Err(Refusal::ReadFault))
            }
        }
    }
}
