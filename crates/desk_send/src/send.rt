//! Lines that are sent to a node.

ghost use Rattle.std.specs.Prelude.{OnOk, IfErr, IfSome};
ghost use Rattle.std.specs.Io.KnownBytes.{IsAtEnd};
ghost use Rattle.desk_types.specs.Refusal.{IsStreamFault};
ghost use Rattle.desk_lines.specs.Lines.{lines_of};
ghost use Rattle.desk_send.specs.Exchanges.{Sent, SentInPart};

use crate::connection::NodeConnection;
use desk_lines::{NoGate, serve_lines};
use desk_types::Refusal;
use std::alloc::Global;
use std::io::{BufRead, Read, Write};

/// Sends the lines of an input to a node, one after the other, and writes the reply line to each before the next is
/// sent, until the input is at its end.
///
/// A line within 65,536 bytes of spaces, tabs and carriage returns alone is skipped, and a last line without a newline
/// counts. Of a longer line the node is sent the first 65,536 bytes and a space, for it to refuse. The output is
/// flushed after the lines of each read, so that no reply waits for input.
///
/// It ends where memory is refused (`WantOfMemory`); at a read of the input that fails, after 4,294,967,295 reads of
/// it, and where the node fails, of which the connection tells (`ReadFault`); and at a write to the output that fails
/// or takes no byte (`WriteFault`).
pub fn send_lines<I: Read, O: Write, B: BufRead, W: Write>(
    alloc: Global,
    input: &mut I,
    output: &mut O,
    connection: NodeConnection<B, W>,
) -> (NodeConnection<B, W>, Result<(), Refusal>)
    ensures end { OnOk result.1 (IsAtEnd (I.remaining input.new)) }
    // The lines that are not skipped were sent, and exactly the replies to them were written.
    ensures ok { OnOk result.1 (IfSome (I.remaining input.old) (λ text.
        Sent connection (O.contents output.old) (lines_of text) result.0 (O.contents output.new))) }
    // That was so for the first of them. The node may have failed at the next, and whole replies were written unless a
    // write failed.
    ensures err { IfErr result.1 (λ r. IfSome (I.remaining input.old) (λ text.
        SentInPart r connection (O.contents output.old) (lines_of text) result.0 (O.contents output.new))) }
    ensures fault { IfErr result.1 IsStreamFault }
{
    serve_lines(alloc, input, output, connection, &NoGate)
}
