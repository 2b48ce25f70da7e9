//! Documents on a board, and the lines that tell what came of them.

mod board;
mod documents;
mod generated;
mod line;
mod memory;
mod numbers;
mod plain;
mod replies;
mod seed;
mod streams;

ghost use Rattle.std.specs.Prelude.{◌≡◌, ◌≤◌, ◌+◌, IfSome};

use desk_arena::DocArena;
use desk_board::Board;
use desk_eido::{Ask, read_document, reply_line};
use desk_types::limits::LOG_ENTRIES;
use desk_types::{ClientId, Domain, Entry, Outcome, Refusal, Reply, RequestNumber, Show, Shown};
use std::alloc::Global;
use std::process::Abort;

/// The board of a desk before the first entry.
fn empty_board(alloc: Global) -> Option<Board> {
    let domain = Domain::new(alloc, "Desk.example").ok()?;
    Some(Board::new(alloc, domain))
}

/// What a document with these members asks for. They stand after those of client 7's request of a number at noon, and
/// in their place where they are the same.
fn asked(alloc: Global, number: u64, members: &str) -> Result<Ask, Refusal> {
    let line = format!(in alloc;
        "{{\"session\":7,\"number\":{number},\"at\":\"2026-03-01T12:00:00Z\",{members}}}"
    )?;
    match DocArena::with_capacity(alloc, 4_096) {
        Ok(mut arena) => read_document(alloc, line.as_bytes(), &mut arena),
        Err(_) => Err(Refusal::WantOfMemory),
    }
}

/// The entry of a command with these members.
fn entry_of(alloc: Global, number: u64, members: &str) -> Option<Entry> {
    match asked(alloc, number, members) {
        Ok(Ask::Command(entry)) => Some(entry),
        _ => None,
    }
}

/// The next place, while the log is not full.
fn next_place(board: &Board) -> Option<u64>
    ensures { IfSome result (λ place. (place ≡ board.now.count + 1) × (place ≤ LOG_ENTRIES)) }
{
    let count = board.len();
    if count >= LOG_ENTRIES {
        return None;
    }
    Some(count + 1)
}

/// The line that tells an outcome.
fn line_of(alloc: Global, outcome: Outcome) -> Option<String> {
    let line = reply_line(alloc, &outcome);
    drop(outcome);
    line.ok()
}

/// The line that tells the reply to an entry.
fn reply_text(alloc: Global, entry: &Entry, reply: Reply) -> Option<String> {
    let (client, number) = (entry.client, entry.number);
    line_of(
        alloc,
        Outcome::Command {
            client,
            number,
            reply,
        },
    )
}

/// Applies an entry at the next place, and gives the reply line.
fn applied(alloc: Global, board: &mut Board, entry: &Entry) -> Option<String> {
    let place = next_place(board)?;
    match board.apply(place, entry) {
        Ok(reply) => reply_text(alloc, entry, reply),
        Err(_) => None,
    }
}

/// The line that shows something to a client.
fn shown_text(alloc: Global, client: ClientId, shown: Shown) -> Option<String> {
    line_of(alloc, Outcome::Board { client, shown })
}

/// The reply line of a show.
fn shown(alloc: Global, board: &Board, show: &Show) -> Option<String> {
    match board.show(show) {
        Ok(shown) => shown_text(alloc, show.client, shown),
        Err(_) => None,
    }
}

/// The reply line of a document with these members, if memory for all is there. The number of a request is that of its
/// place, where the members do not say another.
fn reported(alloc: Global, board: &mut Board, members: &str) -> Option<String> {
    match asked(alloc, board.len().saturating_add(1), members) {
        Ok(Ask::Command(entry)) => {
            let line = applied(alloc, board, &entry);
            drop(entry);
            line
        }
        Ok(Ask::Show(show)) => {
            let line = shown(alloc, board, &show);
            drop(show);
            line
        }
        Err(_) => None,
    }
}

/// The place of a client's latest request and the line that tells its reply, or `none`.
fn latest_text(alloc: Global, board: &Board, client: u64) -> Option<String> {
    match board.last(ClientId::new(client)?) {
        Some((number, place, reply)) => {
            let line = reply_again(alloc, client, number, reply)?;
            format!(in alloc; "{place} {line}").ok()
        }
        None => String::from_str(alloc, "none\n").ok(),
    }
}

/// The line that tells a client's reply.
fn reply_again(alloc: Global, client: u64, number: RequestNumber, reply: &Reply) -> Option<String> {
    let client = ClientId::new(client)?;
    match reply.copy() {
        Ok(reply) => line_of(
            alloc,
            Outcome::Command {
                client,
                number,
                reply,
            },
        ),
        Err(_) => None,
    }
}

/// What comes of a row's beginning: of members their reply line, and of `latest of 7` that of client 7's latest
/// request.
fn answered(alloc: Global, board: &mut Board, asked: &str) -> Option<String> {
    match asked {
        "latest of 7" => latest_text(alloc, board, 7),
        "latest of 8" => latest_text(alloc, board, 8),
        "latest of 9" => latest_text(alloc, board, 9),
        members => reported(alloc, board, members),
    }
}

/// Whether a text is what these lines say, one after the other, without the spaces around each.
fn is_said(text: &str, lines: &str) -> bool {
    let mut rest = text.as_bytes();
    for line in lines.lines() {
        match rest.strip_prefix(line.trim().as_bytes()) {
            Some(after) => rest = after,
            None => return false,
        }
    }
    rest.is_empty()
}

/// Whether a text is a line that says this, with a newline.
fn is_line(text: Option<String>, wanted: &str) -> bool {
    match text {
        Some(text) => match text.as_str().strip_suffix("\n") {
            Some(line) => is_said(line, wanted),
            None => false,
        },
        None => false,
    }
}

/// What each row of a table begins with. A row goes on over several lines: in a document it breaks where JSON may have
/// spaces, and in what it gives anywhere.
const BULLET: &str = "\n- ";

/// The first row that gives something else, of rows one after another. A row is `MEMBERS gives REPLY`, or `latest of 7
/// gives PLACE REPLY`.
fn first_wrong<'a>(alloc: Global, board: &mut Board, rows: &'a str) -> Option<&'a str> {
    for row in rows.split(BULLET) {
        match row.split_once(" gives") {
            Some((asked, line)) if is_line(answered(alloc, board, asked), line) => {}
            None if row.is_empty() => {}
            _ => return Some(row),
        }
    }
    None
}

/// The same on this board.
fn first_wrong_on<'a>(alloc: Global, board: Option<Board>, rows: &'a str) -> Option<&'a str> {
    match board {
        Some(mut board) => {
            let row = first_wrong(alloc, &mut board, rows);
            drop(board);
            row
        }
        None => Some("no board"),
    }
}

/// Asserts that each row comes true on a board before the first entry.
fn assert_run(rt: &impl Abort, alloc: Global, rows: &str) {
    if let Some(row) = first_wrong_on(alloc, empty_board(alloc), rows) {
        assert!(rt; false, "{row}");
    }
}
