//! A session that is served over a reader and a writer.

ghost use Rattle.std.specs.Prelude.{◌≡◌, ℕ, List, OnOk, OnErr, IfErr, IfSome};
ghost use Rattle.std.specs.Io.KnownBytes.{IsAtEnd, Keeps};
ghost use Rattle.desk_types.specs.Refusal.{IsStreamFault};
ghost use Rattle.desk_lines.specs.Holding.{HoldsLine};
ghost use Rattle.desk_lines.specs.Lines.{lines_of, spoken};
ghost use Rattle.desk_lines.specs.ReplyTexts.{bytes_of};
ghost use Rattle.desk_lines.specs.Served.{Served, BreaksOff};
ghost use Rattle.desk_sessions.specs.Sessions.{session_standing};
ghost use Rattle.desk_sessions.specs.Lines.{AnswersLine, IsAnswerTo};
ghost use Rattle.desk_sessions.specs.Browsers.{AnswersOwnLine, EndsAtBrowserLine, IsBrowserFirst};

use crate::browsers::is_browser_line;
use crate::line::Line;
use crate::session::Session;
use desk_eido::reply_line;
use desk_lines::{Gate, Handler, LineBuffer, ReplyText, serve_lines};
use desk_published::BoardName;
use desk_types::{Outcome, Refusal};
use std::alloc::Global;
use std::io::{Read, Write};
use std::sync::Wait;

/// The reply line of an outcome, or that of want of memory.
fn reply_text(alloc: Global, outcome: &Outcome) -> ReplyText
    ensures { IsAnswerTo outcome.now (bytes_of result) }
{
    match reply_line(alloc, outcome) {
        Ok(text) => ReplyText::Line(text),
        Err(_) => ReplyText::WantOfMemory,
    }
}

/// Answers the line that has come.
fn reply<R: Wait, B: BoardName, L: Line<B>>(
    rt: &R,
    alloc: Global,
    session: Session<B, L>,
    line: &LineBuffer,
) -> (Session<B, L>, ReplyText)
    ensures answers { (text : List ℕ) → HoldsLine line.now text →
        AnswersLine B.domain
        (session_standing (L.exchanged session.line) session.reader.pass session.reader.failed_reads) text
        (bytes_of result.1)
        (session_standing (L.exchanged result.0.line) result.0.reader.pass result.0.reader.failed_reads) }
    ensures preserved { L.preserved result.0.line ≡ L.preserved session.line }
{
    let (session, read) = session.read(alloc, line);
    match read {
        Ok(ask) => {
            let (session, outcome) = session.answer(rt, ask);
            match outcome {
                Ok(outcome) => {
                    let text = reply_text(alloc, &outcome);
                    drop(outcome);
                    (session, text)
                }
                Err(_) => (session, ReplyText::WantOfMemory),
            }
        }
        Err(refusal) => {
            let outcome = Outcome::Document(refusal);
            let text = reply_text(alloc, &outcome);
            drop(outcome);
            (session, text)
        }
    }
}

/// A session, with what it waits by.
struct Waiting<'a, R: Wait, B: BoardName, L: Line<B>> {
    rt: &'a R,
    alloc: Global,
    session: Session<B, L>,
}

impl<'a, R: Wait, B: BoardName, L: Line<B>> Handler for Waiting<'a, R, B, L> {
    ghost use Rattle.desk_sessions.specs.Sessions.{session_standing};
    ghost use Rattle.desk_sessions.specs.Browsers.{AnswersOwnLine, EndsAtBrowserLine};

    ghost answers = { λ s line text t. AnswersOwnLine B.domain
        (session_standing (L.exchanged s.session.line) s.session.reader.pass s.session.reader.failed_reads) line text
        (session_standing (L.exchanged t.session.line) t.session.reader.pass t.session.reader.failed_reads) };

    ghost gives_up = { EndsAtBrowserLine };

    ghost Preserved = { L.Preserved };

    ghost preserved = { λ s. L.preserved s.session.line };

    fn answer(self, line: &LineBuffer) -> (Waiting<'a, R, B, L>, Result<ReplyText, Refusal>) {
        let Waiting { rt, alloc, session } = self;
        if is_browser_line(line) {
            return (Waiting { rt, alloc, session }, Err(Refusal::ReadFault));
        }
        let (session, text) = reply(rt, alloc, session, line);
        (Waiting { rt, alloc, session }, Ok(text))
    }
}

/// Serves a session until the reader is at its end.
///
/// A reply line is written for each line that is not skipped, and the writer is flushed after the lines of each read.
/// Want of memory at a line is the reply to it. It ends where there is no memory for the line that is coming
/// (`WantOfMemory`), at a read that fails and after 4,294,967,295 reads (`ReadFault`), and at a write that fails or
/// takes no byte (`WriteFault`). A command that was asked stays asked.
///
/// At a line with which a browser's connection begins, an HTTP request line or the front of a TLS handshake, it ends as
/// at a read that fails (`ReadFault`), and answers neither that line nor any after it.
pub fn serve_session<B: BoardName, L: Line<B>, I: Read, O: Write, G: Gate, R: Wait>(
    rt: &R,
    alloc: Global,
    reader: &mut I,
    writer: &mut O,
    session: Session<B, L>,
    gate: &G,
) -> (Session<B, L>, Result<(), Refusal>)
    // It read to the end, and wrote the line of one outcome for each line that is not skipped.
    ensures end { OnOk result.1 (IsAtEnd (I.remaining reader.new)) }
    ensures ok { OnOk result.1 (IfSome (I.remaining reader.old) (λ input.
        Served (AnswersOwnLine B.domain)
        (session_standing (L.exchanged session.line) session.reader.pass session.reader.failed_reads)
        (O.contents writer.old) (lines_of input)
        (session_standing (L.exchanged result.0.line) result.0.reader.pass result.0.reader.failed_reads)
        (O.contents writer.new))) }
    // It did so for the first lines; where a write failed, of the last of these a prefix alone.
    ensures err { IfErr result.1 (λ r. IfSome (I.remaining reader.old) (λ input.
        BreaksOff (AnswersOwnLine B.domain) EndsAtBrowserLine r
        (session_standing (L.exchanged session.line) session.reader.pass session.reader.failed_reads)
        (O.contents writer.old) (lines_of input)
        (session_standing (L.exchanged result.0.line) result.0.reader.pass result.0.reader.failed_reads)
        (O.contents writer.new))) }
    // Where the first line is one of a browser, it ends with nothing asked and nothing written.
    ensures browser_ends { OnOk result.1 (IfSome (I.remaining reader.old) (λ input.
        IsBrowserFirst (spoken (lines_of input)) → ⊥)) }
    ensures browser { OnErr result.1 (IfSome (I.remaining reader.old) (λ input.
        IsBrowserFirst (spoken (lines_of input)) →
        (result.0 ≡ session) × Keeps (O.contents writer.old) (O.contents writer.new))) }
    ensures fault { IfErr result.1 IsStreamFault }
    // However it ends, its line keeps what no request changes.
    ensures preserved { L.preserved result.0.line ≡ L.preserved session.line }
{
    let (waiting, outcome) = serve_lines(
        alloc,
        reader,
        writer,
        Waiting { rt, alloc, session },
        gate,
    );
    let Waiting {
        rt: _rt,
        alloc: _alloc,
        session,
    } = waiting;
    (session, outcome)
}
