//! What the query of a request for a board says.

ghost use Rattle.std.specs.Prelude.{◌≡◌};
ghost use Rattle.desk_page.specs.Query.{number_after, is_run, place_in, place_asked};

use desk_follow::number_of_digits;
use desk_http::stripped;
use desk_lines::split_at_first;

/// The number that stands after a prefix, where the text is these two.
fn number_after(text: &[u8], prefix: &[u8]) -> Option<u64>
    ensures { result ≡ number_after prefix.now text.now }
{
    match stripped(text, prefix) {
        Some(digits) => number_of_digits(digits),
        None => None,
    }
}

/// Whether a part of a query names this run.
fn is_run(part: &[u8], run: u64) -> bool
    ensures { result ≡ is_run run part.now }
{
    match number_after(part, b"of=") {
        Some(number) => number == run,
        None => false,
    }
}

/// The place of the browser's board, where the second part names this run.
fn place_in(after: &[u8], of: &[u8], run: u64) -> Option<u64>
    ensures { result ≡ place_in run after.now of.now }
{
    if is_run(of, run) {
        number_after(after, b"after=")
    } else {
        None
    }
}

/// The place of the board that a browser has of this run, by a query `after=PLACE&of=RUN`.
#[tactic(auto, unfolding(crate::specs::Query::place_asked))]
pub(crate) fn place_asked(query: &[u8], run: u64) -> Option<u64>
    ensures { result ≡ place_asked run query.now }
{
    match split_at_first(query, b'&') {
        Some((after, of)) => place_in(after, of, run),
        None => None,
    }
}
