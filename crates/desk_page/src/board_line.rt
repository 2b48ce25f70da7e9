//! The line of a board.

ghost use Rattle.std.specs.Prelude.{◌≡◌, IfOk, IfSome, Some, option_map};
ghost use Rattle.desk_page.specs.Reported.{place_listed};
ghost use Rattle.desk_page.specs.Boards.{is_above, IsListed, IsNewer, IsBoardOf, newer_of};

use crate::reported::place_in_reply;
use bytes::Bytes;
use desk_lines::Handler;
use desk_types::Refusal;
use std::alloc::AllocError;
use std::marker::PhantomData;

/// A reply line that a handler gave to `list`, and its place. Only [`read_board`](crate::read_board) makes one.
pub struct BoardLine<D: Handler> {
    pub text: Bytes,
    pub place: u64,
    by: PhantomData<D>,
    ghost reported: { place_listed text ≡ Some place },
    ghost given: { ∥ IsListed D.answers text ∥₁ },
}

// Written out, so that callers need not prove each part's drop.
impl<D: Handler> Drop for BoardLine<D> {
    fn drop(self) {
        let BoardLine {
            text: _,
            place: _,
            by: _,
        } = self;
    }
}

/// Whether a place is above the other, where there is another.
pub(crate) fn is_above(after: Option<u64>, place: u64) -> bool
    ensures { result ≡ is_above after place }
{
    match after {
        Some(after) => after < place,
        None => true,
    }
}

impl<D: Handler> BoardLine<D> {
    /// The line, where it is of a place above the other.
    pub(crate) fn newer(&self, after: Option<u64>) -> Result<Option<Bytes>, AllocError>
        ensures newer { IfOk result (λ found. IfSome found (IsNewer D.answers after)) }
        ensures same { IfOk result (λ found. found ≡ newer_of after (Some (self.now.place, self.now.text))) }
    {
        if is_above(after, self.place) {
            return Ok(Some(self.text.clone()?));
        }
        Ok(None)
    }
}

/// The place of a list's reply line.
fn place_listed(reply: &[u8]) -> Option<u64>
    ensures { result ≡ place_listed reply.now }
{
    place_in_reply(reply, b"\"ok\":\"list\",\"place\":")
}

/// The line with its place, where it is that of a list.
pub(crate) fn listed_line<D: Handler>(reply: Vec<u8>) -> Result<Option<BoardLine<D>>, Refusal>
    requires { IsListed D.answers reply.items }
    ensures { IfOk result (λ found. IsBoardOf reply.items (option_map (λ line. (line.place, line.text)) found)) }
{
    let Some(place) = place_listed(reply.as_slice()) else {
        return Ok(None);
    };
    match Bytes::from_vec(reply) {
        Ok(text) => Ok(Some(BoardLine {
            text,
            place,
            by: PhantomData,
        })),
        Err(_) => Err(Refusal::WantOfMemory),
    }
}
