//! The board that was announced last.

ghost use Rattle.std.specs.Prelude.{◌≡◌, ◌≤◌, ◌∷◌, ◌++◌, [], true, false, IfOk, IfSome, IsSomeAnd, option_map};
ghost use Rattle.desk_page.specs.Boards.{IsListedPlace, IsNewer, is_next, last_of, newer_of, rises, reported_with};

use crate::board_line::{BoardLine, is_above};
use bytes::Bytes;
use desk_lines::Handler;
use http_server::Log;
use std::alloc::AllocError;

/// The board that was announced last. Of those that were announced, each was of a place above that of the one before
/// it.
pub(crate) struct Board<D: Handler> {
    latest: Option<BoardLine<D>>,
    reported: Log<u64, Bytes>,
    ghost rises: { rises reported.items ≡ true },
    ghost last: { last_of reported.items ≡ option_map (λ line. (line.place, line.text)) latest },
}

// Written out, so that callers need not prove each part's drop.
impl<D: Handler> Drop for Board<D> {
    fn drop(self) {
        let Board {
            latest: _,
            reported: _,
        } = self;
    }
}

impl<D: Handler> Board<D> {
    /// No board was announced.
    pub(crate) fn new() -> Board<D>
        ensures { result.reported.items ≡ [] }
    {
        Board {
            latest: None,
            reported: Log::new(),
        }
    }

    /// The place of the board that was announced last.
    pub(crate) fn place(&self) -> Option<u64>
        ensures latest { result ≡ option_map (λ line. line.place) self.now.latest }
        ensures listed { IfSome result (IsListedPlace D.answers) }
    {
        match &self.latest {
            Some(line) => Some(line.place),
            None => None,
        }
    }

    /// Announces a board, where it is of a place above that of the one before it. Answers whether it was announced.
    pub(crate) fn tell(&mut self, line: BoardLine<D>) -> bool
        ensures reported { result ≡ true →
            self.new.reported.items ≡ self.old.reported.items ++ (line.place, line.text) ∷ [] }
        ensures preserved { result ≡ false → self.new.reported.items ≡ self.old.reported.items }
        ensures next { result ≡ is_next self.old.reported.items line.place }
        ensures above { IsSomeAnd self.new.latest (λ latest. line.place ≤ latest.place) }
    {
        if !is_above(self.place(), line.place) {
            return false;
        }
        let reported = self.reported.and(&line.place, &line.text);
        *self = Board {
            latest: Some(line),
            reported,
        };
        true
    }

    /// Announces a board so. Gives the place of the board that is announced last then.
    pub(crate) fn publish(&mut self, line: BoardLine<D>) -> Option<u64>
        ensures listed { IfSome result (IsListedPlace D.answers) }
        ensures above { IsSomeAnd result (λ place. line.place ≤ place) }
        // It is announced where it is newer, and what was announced before stays.
        ensures reported { self.new.reported.items ≡ reported_with self.old.reported.items (line.place, line.text) }
    {
        self.tell(line);
        self.place()
    }

    /// The line of the board that was announced last, where it is of a place above the other.
    pub(crate) fn newer(&self, after: Option<u64>) -> Result<Option<Bytes>, AllocError>
        ensures newer { IfOk result (λ found. IfSome found (IsNewer D.answers after)) }
        // It is the board that was announced last, and no board before it.
        ensures last { IfOk result (λ found. found ≡ newer_of after (last_of self.now.reported.items)) }
    {
        match &self.latest {
            Some(line) => line.newer(after),
            None => Ok(None),
        }
    }
}
