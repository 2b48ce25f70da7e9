//! An input that is answered line by line.

ghost use Rattle.std.specs.Prelude.{◌≡◌, ◌∷◌, ◌++◌, [], ℕ, List, OnOk, OnErr, IfErr, IfSome, MatchResult};
ghost use Rattle.std.specs.Io.KnownBytes.{IsAtEnd, Appends};
ghost use Rattle.desk_types.specs.declared.refusal.Refusal.TheVariants as refusals;
ghost use Rattle.desk_types.specs.Refusal.{IsStreamFault};
ghost use Rattle.desk_output.specs.Prefixes.{AppendsPrefix};
ghost use Rattle.desk_lines.specs.Lines.{lines_of, IsOneLine};
ghost use Rattle.desk_lines.specs.Holding.{HoldsLine};
ghost use Rattle.desk_lines.specs.ReplyTexts.{bytes_of};
ghost use Rattle.desk_lines.specs.Served.{Served, BreaksOff, Goes, Breaks};
ghost use Rattle.desk_lines.specs.FailedCalls.{count_after_failure, NoneFailed, IsWritersFault, IsStreamsFault};
ghost use Rattle.desk_lines.specs.FailedCalls.{GaveUp, IsWantOrHandlers};

use crate::buffer::LineBuffer;
use crate::handler::{Gate, Handler, ReplyText};
use crate::lines::split_at_first;
use crate::streams::{ReadPieces, WriteTexts};
use desk_eido::want_of_memory_line;
use desk_output::{READ_BYTES, ReadCount};
use desk_types::Refusal;
use std::alloc::Global;
use std::io::{Read, Write};

fn write_reply<W: WriteTexts>(writer: &mut W, reply: &ReplyText) -> Result<(), Refusal>
    ensures ok { OnOk result (Appends (W.contents writer.old) (W.contents writer.new) (bytes_of reply.now)) }
    ensures err { OnErr result (AppendsPrefix (W.contents writer.old) (W.contents writer.new) (bytes_of reply.now)) }
    ensures fault { IfErr result (λ r. r ≡ refusals.WriteFault) }
    ensures failed { MatchResult result (λ _. W.failed writer.new ≡ W.failed writer.old)
        (λ _. W.failed writer.new ≡ count_after_failure (W.failed writer.old)) }
{
    match reply {
        ReplyText::Line(text) => writer.write_text(text.as_bytes()),
        ReplyText::WantOfMemory => writer.write_text(want_of_memory_line().as_bytes()),
    }
}

/// The handler, and what has come of the next line.
struct Serving<D: Handler> {
    handler: D,
    line: LineBuffer,
}

impl<D: Handler> Serving<D> {
    /// The line is at its end.
    fn end_line<W: WriteTexts, G: Gate>(
        self,
        writer: &mut W,
        gate: &G,
    ) -> (Serving<D>, Result<(), Refusal>)
        ensures ok { OnOk result.1 ((line : List ℕ) → HoldsLine self.line line →
            Served D.answers self.handler (W.contents writer.old) (line ∷ [])
            result.0.handler (W.contents writer.new)) }
        ensures next { HoldsLine result.0.line [] }
        ensures err { IfErr result.1 (λ r. (line : List ℕ) → HoldsLine self.line line →
            BreaksOff D.answers D.gives_up r self.handler (W.contents writer.old) (line ∷ [])
            result.0.handler (W.contents writer.new)) }
        ensures fault { IfErr result.1 IsStreamFault }
        ensures calls { (line : List ℕ) → HoldsLine self.line line →
            MatchResult result.1 (λ _. W.failed writer.new ≡ W.failed writer.old)
            (λ r. IsWritersFault (GaveUp D.gives_up) r (W.failed writer.old) (W.failed writer.new)) }
        ensures preserved { D.preserved result.0.handler ≡ D.preserved self.handler }
    {
        let Serving { handler, mut line } = self;
        if line.is_skipped() {
            line.clear();
            return (Serving { handler, line }, Ok(()));
        }
        let (handler, reply) = handler.answer(&line);
        line.clear();
        match reply {
            Ok(reply) => {
                let written = write_reply(writer, &reply);
                gate.after_answer();
                (Serving { handler, line }, written)
            }
            Err(refusal) => (Serving { handler, line }, Err(refusal)),
        }
    }

    /// Takes the bytes of a line up to its newline.
    fn take_line<W: WriteTexts, G: Gate>(
        self,
        writer: &mut W,
        gate: &G,
        run: &[u8],
    ) -> (Serving<D>, Result<(), Refusal>)
        requires { IsOneLine run.now }
        ensures ok { OnOk result.1 ((line : List ℕ) → HoldsLine self.line line →
            Goes D.answers self.handler (W.contents writer.old) line (run.now ++ 10 ∷ [])
            result.0.line.bytes.items result.0.line.is_long result.0.handler (W.contents writer.new)) }
        ensures err { IfErr result.1 (λ r. (line : List ℕ) → HoldsLine self.line line →
            Breaks D.answers D.gives_up r self.handler (W.contents writer.old) line (run.now ++ 10 ∷ [])
            result.0.handler (W.contents writer.new)) }
        ensures fault { IfErr result.1 IsStreamFault }
        ensures calls { (line : List ℕ) → HoldsLine self.line line →
            MatchResult result.1 (λ _. W.failed writer.new ≡ W.failed writer.old)
            (λ r. IsWritersFault (GaveUp D.gives_up) r (W.failed writer.old) (W.failed writer.new)) }
        ensures preserved { D.preserved result.0.handler ≡ D.preserved self.handler }
    {
        let Serving { handler, mut line } = self;
        line.push_run(run);
        Serving { handler, line }.end_line(writer, gate)
    }

    /// Takes the next bytes of the input: in one run up to each newline, and in one after the last.
    fn take<W: WriteTexts, G: Gate>(
        self,
        writer: &mut W,
        gate: &G,
        bytes: &[u8],
    ) -> (Serving<D>, Result<(), Refusal>)
        ensures ok { OnOk result.1 ((line : List ℕ) → HoldsLine self.line line →
            Goes D.answers self.handler (W.contents writer.old) line bytes.now
            result.0.line.bytes.items result.0.line.is_long result.0.handler (W.contents writer.new)) }
        ensures err { IfErr result.1 (λ r. (line : List ℕ) → HoldsLine self.line line →
            Breaks D.answers D.gives_up r self.handler (W.contents writer.old) line bytes.now
            result.0.handler (W.contents writer.new)) }
        ensures fault { IfErr result.1 IsStreamFault }
        ensures calls { (line : List ℕ) → HoldsLine self.line line →
            MatchResult result.1 (λ _. W.failed writer.new ≡ W.failed writer.old)
            (λ r. IsWritersFault (GaveUp D.gives_up) r (W.failed writer.old) (W.failed writer.new)) }
        ensures preserved { D.preserved result.0.handler ≡ D.preserved self.handler }
    {
        let mut serving = self;
        let mut rest = bytes;
        'runs: while let Some((run, after)) = split_at_first(rest, b'\n') {
            let (back, outcome) = serving.take_line(writer, gate, run);
            serving = back;
            if let Err(refusal) = outcome {
                return (serving, Err(refusal));
            }
            rest = after;
        }
        serving.line.push_run(rest);
        (serving, Ok(()))
    }

    /// The handler, where no more lines come.
    fn into_desk(self) -> D
        ensures { result ≡ self.handler }
    {
        let Serving {
            handler,
            line: _line,
        } = self;
        handler
    }

    /// The input is at its end, and so is a line that has no newline.
    fn finish<W: WriteTexts, G: Gate>(self, writer: &mut W, gate: &G) -> (D, Result<(), Refusal>)
        ensures ok { OnOk result.1 ((line : List ℕ) → HoldsLine self.line line →
            Served D.answers self.handler (W.contents writer.old) (lines_of line)
            result.0 (W.contents writer.new)) }
        ensures err { IfErr result.1 (λ r. (line : List ℕ) → HoldsLine self.line line →
            BreaksOff D.answers D.gives_up r self.handler (W.contents writer.old) (lines_of line)
            result.0 (W.contents writer.new)) }
        ensures fault { IfErr result.1 IsStreamFault }
        ensures calls { (line : List ℕ) → HoldsLine self.line line →
            MatchResult result.1 (λ _. W.failed writer.new ≡ W.failed writer.old)
            (λ r. IsWritersFault (GaveUp D.gives_up) r (W.failed writer.old) (W.failed writer.new)) }
        ensures preserved { D.preserved result.0 ≡ D.preserved self.handler }
    {
        if self.line.bytes.is_empty() {
            return (self.into_desk(), writer.flush());
        }
        let (serving, written) = self.end_line(writer, gate);
        match written {
            Ok(()) => (serving.into_desk(), writer.flush()),
            Err(refusal) => (serving.into_desk(), Err(refusal)),
        }
    }
}

/// As `serve_lines`, over streams that may count their calls that fail: one call at most does, and it ends the run.
pub fn serve_streams<D: Handler, I: ReadPieces, O: WriteTexts, G: Gate>(
    alloc: Global,
    reader: &mut I,
    writer: &mut O,
    handler: D,
    gate: &G,
) -> (D, Result<(), Refusal>)
    ensures end { OnOk result.1 (IsAtEnd (I.remaining reader.new)) }
    // The handler answered the lines that are not skipped, and exactly its replies were written.
    ensures ok { OnOk result.1 (IfSome (I.remaining reader.old) (λ input.
        Served D.answers handler (O.contents writer.old) (lines_of input)
        result.0 (O.contents writer.new))) }
    // It answered the first of them. At most one more was asked, and whole lines were written unless a write failed.
    ensures err { IfErr result.1 (λ r. IfSome (I.remaining reader.old) (λ input.
        BreaksOff D.answers D.gives_up r handler (O.contents writer.old) (lines_of input)
        result.0 (O.contents writer.new))) }
    ensures fault { IfErr result.1 IsStreamFault }
    // The fault that is reported is that of the one call that failed, where one did.
    ensures calls { MatchResult result.1
        (λ _. NoneFailed (I.failed reader.old) (I.failed reader.new) (O.failed writer.old) (O.failed writer.new))
        (λ r. IsStreamsFault (IsWantOrHandlers D.gives_up) r
        (I.failed reader.old) (I.failed reader.new) (O.failed writer.old) (O.failed writer.new)) }
    // However it ends, the handler keeps what no answer changes.
    ensures preserved { D.preserved result.0 ≡ D.preserved handler }
{
    let line = match LineBuffer::new(alloc) {
        Ok(line) => line,
        Err(_) => return (handler, Err(Refusal::WantOfMemory)),
    };
    let mut serving = Serving { handler, line };
    let mut room = [0u8; READ_BYTES];
    let mut reads = ReadCount::new();
    loop {
        gate.before_read();
        match reader.read_piece(&mut reads, &mut room) {
            Ok(0) => return serving.finish(writer, gate),
            Ok(count) => {
                let (back, outcome) = serving.take(writer, gate, &room[..count]);
                serving = back;
                if let Err(refusal) = outcome {
                    return (serving.into_desk(), Err(refusal));
                }
            }
            Err(refusal) => return (serving.into_desk(), Err(refusal)),
        }
        if let Err(refusal) = writer.flush() {
            return (serving.into_desk(), Err(refusal));
        }
    }
}

/// Has a handler answer the lines of an input, until the reader is at its end, and writes the replies.
///
/// A line within 65,536 bytes of spaces, tabs and carriage returns alone is skipped, and a last line without a newline
/// counts. Of a longer line the rest is thrown away. The writer is flushed after the lines of each read, so that no
/// reply waits for input. The memory of a line is taken before the first read.
///
/// It ends as the handler does (`WantOfMemory`, `ReadFault` or `WriteFault`), where memory is refused (`WantOfMemory`),
/// at a read that fails and after 4,294,967,295 reads (`ReadFault`), and at a write that fails or takes no byte
/// (`WriteFault`).
pub fn serve_lines<D: Handler, I: Read, O: Write, G: Gate>(
    alloc: Global,
    reader: &mut I,
    writer: &mut O,
    handler: D,
    gate: &G,
) -> (D, Result<(), Refusal>)
    ensures end { OnOk result.1 (IsAtEnd (I.remaining reader.new)) }
    // The handler answered the lines that are not skipped, and exactly its replies were written.
    ensures ok { OnOk result.1 (IfSome (I.remaining reader.old) (λ input.
        Served D.answers handler (O.contents writer.old) (lines_of input)
        result.0 (O.contents writer.new))) }
    // It answered the first of them. At most one more was asked, and whole lines were written unless a write failed.
    ensures err { IfErr result.1 (λ r. IfSome (I.remaining reader.old) (λ input.
        BreaksOff D.answers D.gives_up r handler (O.contents writer.old) (lines_of input)
        result.0 (O.contents writer.new))) }
    ensures fault { IfErr result.1 IsStreamFault }
    // However it ends, the handler keeps what no answer changes.
    ensures preserved { D.preserved result.0 ≡ D.preserved handler }
{
    serve_streams(alloc, reader, writer, handler, gate)
}
