//! What a handler is asked.

ghost use Rattle.std.specs.Prelude.{◌≡◌, ◌++◌, ℕ, List, IfOk, decimal, option_map};
ghost use Rattle.desk_page.specs.Boards.{IsBoardOf, Writes, list_document, show_document};
ghost use Rattle.desk_page.specs.Reported.{place_shown};

use crate::board_line::{BoardLine, listed_line};
use crate::reported::place_in_reply;
use desk_lines::{Handler, NoGate, serve_lines};
use desk_types::Refusal;
use itoa::Buffer;
use std::alloc::{AllocError, Global};

/// Has a handler answer the lines of a text, and gives what it writes.
pub(crate) fn ask<D: Handler>(
    alloc: Global,
    handler: D,
    text: &[u8],
) -> (D, Result<Vec<u8>, Refusal>)
    ensures { IfOk result.1 (λ out. Writes D.answers handler text.now result.0 out.items) }
{
    let mut reader = text;
    let mut out = Vec::new(alloc);
    let (handler, outcome) = serve_lines(alloc, &mut reader, &mut out, handler, &NoGate);
    match outcome {
        Ok(()) => (handler, Ok(out)),
        Err(refusal) => (handler, Err(refusal)),
    }
}

/// A number between two texts.
fn with_number(
    alloc: Global,
    before: &[u8],
    number: u64,
    beyond: &[u8],
) -> Result<Vec<u8>, AllocError>
    ensures { IfOk result (λ text. text.items ≡ before.now ++ (decimal number ++ beyond.now)) }
{
    let mut digits = Buffer::new();
    let mut text = Vec::from_slice(alloc, before)?;
    text.extend_from_slice(digits.format(number).as_bytes())?;
    text.extend_from_slice(beyond)?;
    Ok(text)
}

fn list_document(alloc: Global, session: u64) -> Result<Vec<u8>, AllocError>
    ensures { IfOk result (λ text. text.items ≡ list_document session) }
{
    with_number(
        alloc,
        b"{\"do\":\"list\",\"session\":",
        session,
        b",\"state\":\"open\"}",
    )
}

fn show_document(alloc: Global, session: u64) -> Result<Vec<u8>, AllocError>
    ensures { IfOk result (λ text. text.items ≡ show_document session) }
{
    with_number(alloc, b"{\"do\":\"show\",\"session\":", session, b"}")
}

/// Asks a handler for all open incidents, in a session of this number. There is no board where it refuses that. Err
/// where it gives up, and where memory is refused.
pub fn read_board<D: Handler>(
    alloc: Global,
    handler: D,
    session: u64,
) -> (D, Result<Option<BoardLine<D>>, Refusal>)
    // The board is the line that the handler gave, and there is one wherever that tells the place of a list.
    ensures { IfOk result.1 (λ found. (reply : List ℕ)
        × Writes D.answers handler (list_document session) result.0 reply
        × IsBoardOf reply (option_map (λ line. (line.place, line.text)) found)) }
{
    let Ok(document) = list_document(alloc, session) else {
        return (handler, Err(Refusal::WantOfMemory));
    };
    let (handler, outcome) = ask(alloc, handler, document.as_slice());
    match outcome {
        Ok(reply) => (handler, listed_line(reply)),
        Err(refusal) => (handler, Err(refusal)),
    }
}

/// Asks a handler for the place of its board, in a session of this number. There is none where it refuses that.
pub fn read_place<D: Handler>(
    alloc: Global,
    handler: D,
    session: u64,
) -> (D, Result<Option<u64>, Refusal>)
    ensures { IfOk result.1 (λ place. (reply : List ℕ)
        × Writes D.answers handler (show_document session) result.0 reply × (place ≡ place_shown reply)) }
{
    let Ok(document) = show_document(alloc, session) else {
        return (handler, Err(Refusal::WantOfMemory));
    };
    let (handler, outcome) = ask(alloc, handler, document.as_slice());
    match outcome {
        Ok(reply) => (
            handler,
            Ok(place_in_reply(reply.as_slice(), b"\"ok\":\"board\",\"place\":")),
        ),
        Err(refusal) => (handler, Err(refusal)),
    }
}
