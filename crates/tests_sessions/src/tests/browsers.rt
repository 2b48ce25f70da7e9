//! Lines with which a browser's connection begins, and lines that are like them, each before a document.

ghost use Rattle.std.specs.Prelude.{◌≡◌};

use desk_published::{BoardName, BoardReader, BoardWriter, NewHistory, Reported};
use desk_sessions::{Line, NoGate, Session, serve_session};
use desk_types::{Domain, Entry, Refusal, WantOfMemory};
use std::alloc::Global;
use std::marker::Brand;
use std::sync::Wait;
use std::test::Fail;

/// What stands before the document, and whether the session ends there.
const ROWS: &[(&str, bool)] = &[
    ("POST / HTTP/1.1\r", true),
    ("GET /?session=7 HTTP/1.1\r", true),
    ("OPTIONS / HTTP/1.1\r", true),
    ("patch / HTTP/1.1\r", true),
    ("M-SEARCH * HTTP/1.1", true),
    ("\r\nPOST / HTTP/1.0", true),
    ("PRI * HTTP/2.0\r", true),
    ("\u{16}\u{3}\u{1}", true),
    ("POST / http/1.1", false),
    ("POST /", false),
    (" POST / HTTP/1.1", false),
    ("\"POST / HTTP/1.1", false),
    ("{\"where\":\"a b HTTP/1.1\"}", false),
];

/// The document.
const DOCUMENT: &str =
    "\n{\"session\":7,\"number\":1,\"at\":\"2026-03-01T12:00:00Z\",\"do\":\"release\",\"unit\":\"E1\"}\n";

/// A line to a keeper that has ended, which notes that it is asked.
#[derive(Drop)]
struct NotedLine {
    is_asked: bool,
}

impl<B: BoardName> Line<B> for NotedLine {
    ghost use Rattle.std.specs.Prelude.{None};

    ghost exchanged = { λ l. None };

    ghost preserved = { λ _. tt };

    fn ask<R: Wait>(self, _rt: &R, entry: Entry) -> (NotedLine, Result<Reported<B>, Refusal>) {
        drop(self);
        drop(entry);
        (NotedLine { is_asked: true }, Err(Refusal::NodeStopped))
    }
}

/// Serves a session whose input is the document after a line: whether a request was asked, something was written, and
/// the input was read to its end.
fn serve<B: BoardName, R: Wait>(
    rt: &R,
    alloc: Global,
    reader: BoardReader<B>,
    line: &str,
) -> Result<(BoardReader<B>, (bool, bool, bool)), WantOfMemory> {
    let mut text = String::from_str(alloc, line)?;
    text.push_str(DOCUMENT)?;
    let (mut input, mut output) = (text.as_bytes(), Vec::new(alloc));
    let Ok(session) = Session::new(alloc, NotedLine { is_asked: false }, reader) else {
        return Err(WantOfMemory);
    };
    let (session, outcome) = serve_session(rt, alloc, &mut input, &mut output, session, &NoGate);
    let Session {
        line,
        reader,
        arena,
    } = session;
    drop(arena);
    Ok((reader, (line.is_asked, !output.is_empty(), outcome.is_ok())))
}

/// Whether a session ends, with nothing asked and nothing written, just where it should.
fn end_where_they_should<B: BoardName, R: Wait>(
    rt: &R,
    alloc: Global,
    reader: Result<BoardReader<B>, WantOfMemory>,
) -> Result<bool, WantOfMemory> {
    let mut reader = reader?;
    for (line, ends) in ROWS {
        let (back, found) = serve(rt, alloc, reader, line)?;
        if found != (!*ends, !*ends, !*ends) {
            return Ok(false);
        }
        reader = back;
    }
    Ok(true)
}

/// The same of sessions over a new board.
fn end_over_a_board<B: BoardName, R: Wait>(
    rt: &R,
    alloc: Global,
    history: NewHistory,
    domain: &Domain,
) -> Result<bool, WantOfMemory>
    requires book { history.seen.book ≡ B.book }
    requires domain { domain.now ≡ B.domain }
{
    let writer = BoardWriter::<B>::new(alloc, domain, history, 1)?;
    let ended = end_where_they_should(rt, alloc, writer.reader());
    writer.end(rt);
    ended
}

/// The same, in a domain.
fn end_in_a_domain<R: Wait>(rt: &R, alloc: Global) -> Result<bool, WantOfMemory> {
    let Ok(domain) = Domain::new(alloc, "desk.example") else {
        return Err(WantOfMemory);
    };
    end_over_a_board::<Brand, R>(rt, alloc, NewHistory::new(), &domain)
}

#[test]
fn sessions_of_browsers_end(rt: HostRuntime) -> Result<(), Fail> {
    assert!(rt; end_in_a_domain(&rt, rt.alloc()) == Ok(true));
    Ok(())
}
