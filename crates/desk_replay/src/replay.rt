//! A replay: document lines in, reply lines out, on one log.

ghost use Rattle.std.specs.Prelude.{◌≢◌, IfSome, IfErr, OnOk, OnErr, MatchResult};
ghost use Rattle.std.specs.Io.KnownBytes.{Appends, IsAtEnd};
ghost use Rattle.desk_types.specs.declared.refusal.Refusal.TheVariants as refusals;
ghost use Rattle.desk_output.specs.Prefixes.{AppendsPrefix};
ghost use Rattle.desk_types.specs.Refusal.{IsStreamFault};
ghost use Rattle.desk_lines.specs.FailedCalls.{NoneFailed, IsStreamsFault, IsWant};
ghost use Rattle.desk_replay.specs.Replay.{replay_text, AppendsReplies};

use crate::logged_board::LoggedBoard;
use desk_lines::{Handler, LineBuffer, NoGate, ReadPieces, ReplyText, WriteTexts, serve_streams};
use desk_types::{Domain, Refusal};
use std::alloc::Global;
use std::marker::Model;

/// A log with its board, after a pointer: a handler is handed from line to line, and a board is large. A contract sees
/// the log under the desk's domain.
struct ReplayHandler {
    board: Box<LoggedBoard>,
}

// Written out, so that callers need not prove each part's drop.
impl Drop for ReplayHandler {
    fn drop(self) {
        let ReplayHandler { board: _ } = self;
    }
}

impl Model for ReplayHandler {
    ghost use Rattle.desk_replay.specs.BoardLog.{BoardLog};

    ghost Value = { BoardLog };

    ghost view = { λ d. d.board.value };
}

impl Handler for ReplayHandler {
    ghost use Rattle.desk_replay.specs.Replay.{IsReply, LacksMemory};

    ghost answers = { λ b line text after. IsReply b line text after };

    ghost gives_up = { λ b line refusal after. LacksMemory b line refusal after };

    ghost preserved = { λ _. tt };

    fn answer(self, line: &LineBuffer) -> (ReplayHandler, Result<ReplyText, Refusal>) {
        let mut handler = self;
        match handler.board.reply(line) {
            Ok(text) => (handler, Ok(ReplyText::Line(text))),
            Err(_) => (handler, Err(Refusal::WantOfMemory)),
        }
    }
}

/// Answers the document lines of the reader with reply lines on the writer, in order, on an empty log under a domain.
///
/// A line within 65,536 bytes of spaces, tabs and carriage returns alone is skipped, and a last line without a newline
/// counts. A longer line is refused, and its rest is thrown away. A log has 65,536 entries, and the copy of a document
/// 65,536 bytes. The writer is flushed after the lines of each read, so that no reply waits for input.
///
/// It ends where memory is first refused (`WantOfMemory`), at a read that fails and after 4,294,967,295 reads
/// (`ReadFault`), and at a write that fails or takes no byte (`WriteFault`).
pub fn replay_lines<R: ReadPieces, W: WriteTexts>(
    alloc: Global,
    reader: &mut R,
    writer: &mut W,
    domain: Domain,
) -> Result<(), Refusal>
    // It read to the end, and wrote exactly the replies.
    ensures end { OnOk result (IsAtEnd (R.remaining reader.new)) }
    ensures ok { OnOk result (IfSome (R.remaining reader.old)
        (λ input. Appends (W.contents writer.old) (W.contents writer.new) (replay_text domain input))) }
    // What was written is a prefix of them.
    ensures err { OnErr result (IfSome (R.remaining reader.old)
        (λ input. AppendsPrefix (W.contents writer.old) (W.contents writer.new) (replay_text domain input))) }
    // It is whole reply lines, unless a write failed.
    ensures whole { IfErr result (λ r. r ≢ refusals.WriteFault → IfSome (R.remaining reader.old)
        (λ input. AppendsReplies (W.contents writer.old) (W.contents writer.new) domain input)) }
    ensures fault { IfErr result IsStreamFault }
    // The fault that is reported is that of the one call that failed, where one did.
    ensures calls { MatchResult result
        (λ _. NoneFailed (R.failed reader.old) (R.failed reader.new) (W.failed writer.old) (W.failed writer.new))
        (λ r. IsStreamsFault IsWant r
        (R.failed reader.old) (R.failed reader.new) (W.failed writer.old) (W.failed writer.new)) }
{
    let board = LoggedBoard::new(alloc, domain)?;
    let Ok(board) = Box::new(alloc, board) else {
        return Err(Refusal::WantOfMemory);
    };
    let (handler, outcome) = serve_streams(alloc, reader, writer, ReplayHandler { board }, &NoGate);
    drop(handler);
    outcome
}
