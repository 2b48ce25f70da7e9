//! What a keeper tells the client of a request.

ghost use Rattle.std.specs.Prelude.{◌≡◌, true};
ghost use Rattle.desk_published.specs.Reported.{stands};

use crate::board_name::BoardName;
use crate::history::HistoryPrefix;
use desk_types::{ClientId, Refusal, RequestNumber};

/// What is said of a request.
#[derive(Drop)]
pub enum ReportedWord {
    /// It is one of the first so many entries that are published.
    Published(u64),
    /// It was refused, which says nothing of what is published.
    Refused(Refusal),
}

/// What is said of the request of a client and a number, with what was published then. Only a writer of the board
/// makes one, of what it has published, and none is copied.
pub struct Reported<B: BoardName> {
    pub(crate) published: HistoryPrefix<B>,
    pub(crate) client: ClientId,
    pub(crate) number: RequestNumber,
    pub(crate) word: ReportedWord,
    ghost stands: { stands published client number word ≡ true },
}

// Written out, so that callers need not prove each part's drop.
impl<B: BoardName> Drop for Reported<B> {
    fn drop(self) {
        let Reported {
            published: _,
            client: _,
            number: _,
            word: _,
        } = self;
    }
}

impl<B: BoardName> Reported<B> {
    /// The client whose request it is.
    pub fn client(&self) -> ClientId
        ensures { result ≡ self.now.client }
    {
        self.client
    }

    /// The number of the request.
    pub fn number(&self) -> RequestNumber
        ensures { result ≡ self.now.number }
    {
        self.number
    }

    /// What is said of it. Where that is `Published(length)`, at least `length` entries were published, and one of the
    /// first `length` is that of the client and the number.
    pub fn word(&self) -> &ReportedWord
        ensures value { result.now ≡ self.now.word }
        ensures stands { stands self.now.published self.now.client self.now.number self.now.word ≡ true }
    {
        &self.word
    }
}
