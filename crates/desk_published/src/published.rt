//! What is published: entries with their board, which know that they are a prefix of the history.

ghost use Rattle.std.specs.Prelude.{◌≡◌, ◌≤◌, ◌+◌, ◌∷◌, ◌++◌, [], length, MatchBool, IfSome, is_some};
ghost use Rattle.desk_board.specs.Execute.{execute};
ghost use Rattle.desk_board.specs.Log.{board_of};
ghost use Rattle.desk_types.specs.declared.limits.TheConstants.{LAST_PLACE};
ghost use Rattle.desk_published.specs.History.{EndsWith};
ghost use Rattle.desk_published.specs.Requests.{request_id, is_id_of};
ghost use Rattle.desk_published.specs.Reported.{is_request_at};
ghost use Rattle.desk_published.specs.declared.reported.ReportedWord.TheVariants as words;

use crate::board_name::BoardName;
use crate::history::HistoryPrefix;
use crate::reported::{Reported, ReportedWord};
use desk_board::Board;
use desk_types::limits::LAST_PLACE;
use desk_types::{ClientId, Domain, Entry, Refusal, RequestNumber};
use left_right::Absorb;
use std::alloc::{AllocError, Global};
use std::marker::Model;

/// An entry, with the history up to it. A contract sees the entry.
#[derive(Drop)]
pub struct NextEntry<B: BoardName> {
    entry: Entry,
    history: HistoryPrefix<B>,
}

impl<B: BoardName> Model for NextEntry<B> {
    ghost use Rattle.desk_types.specs.declared.command.Entry.{Entry};
    ghost use Rattle.desk_published.specs.History.{EndsWith};

    ghost Value = { Entry };

    ghost view = { λ n. n.entry };

    ghost invariant = { λ n. EndsWith n.history n.entry };
}

impl<B: BoardName> NextEntry<B> {
    /// An entry with the history that ends with it.
    pub(crate) fn new(entry: Entry, history: HistoryPrefix<B>) -> NextEntry<B>
        requires { EndsWith history entry }
        ensures { result ≡ entry }
    {
        NextEntry { entry, history }
    }
}

/// Whose request an entry is.
#[derive(Clone, Copy)]
struct RequestId {
    client: ClientId,
    number: RequestNumber,
}

/// A list of entries and its board. A contract sees the list; what is stored of an entry beside its board is whose
/// request it is.
pub struct PublishedBoard<B: BoardName> {
    board: Board,
    requests: Vec<RequestId>,
    history: HistoryPrefix<B>,
}

// Written out, so that callers need not prove each part's drop.
impl<B: BoardName> Drop for PublishedBoard<B> {
    fn drop(self) {
        let PublishedBoard {
            board: _,
            requests: _,
            history: _,
        } = self;
    }
}

impl<B: BoardName> Model for PublishedBoard<B> {
    ghost use Rattle.std.specs.Prelude.{◌≡◌, List, map};
    ghost use Rattle.desk_types.specs.declared.command.Entry.{Entry};
    ghost use Rattle.desk_board.specs.Log.{board_of};
    ghost use Rattle.desk_published.specs.Requests.{request_id};

    ghost Value = { List Entry };

    ghost view = { λ p. p.history };

    ghost invariant = { λ p. (p.board ≡ board_of B.domain p.history)
        × (p.requests.items ≡ map request_id p.history) };
}

/// Whose request an entry is.
fn request_id(entry: &Entry) -> RequestId
    ensures { result ≡ request_id entry.now }
{
    RequestId {
        client: entry.client,
        number: entry.number,
    }
}

/// Whether it is the request of this client and number.
fn is_id_of(request: &RequestId, client: ClientId, number: RequestNumber) -> bool
    ensures { result ≡ is_id_of client number request.now }
{
    request.client.get() == client.get() && request.number.get() == number.get()
}

/// Executes the entry at the next place. False where memory is refused, and then the board is as it was.
fn execute(board: &mut Board, place: u64, entry: &Entry) -> bool
    requires next { place ≡ board.old.count + 1 }
    requires within { place ≤ LAST_PLACE }
    ensures { MatchBool result (board.new ≡ (execute board.old place entry.now).0) (board.new ≡ board.old) }
{
    match board.apply(place, entry) {
        Ok(reply) => {
            drop(reply);
            true
        }
        Err(_) => false,
    }
}

impl<B: BoardName> PublishedBoard<B> {
    /// No entries. It takes no memory.
    pub(crate) fn new(
        alloc: Global,
        domain: Domain,
        history: &HistoryPrefix<B>,
    ) -> PublishedBoard<B>
        requires empty { history.now ≡ [] }
        requires domain { domain ≡ B.domain }
        ensures { result ≡ [] }
    {
        PublishedBoard {
            board: Board::new(alloc, domain),
            requests: Vec::new(alloc),
            history: history.copy(),
        }
    }

    /// The board of the entries.
    pub fn board(&self) -> &Board
        ensures { result.now ≡ board_of B.domain self.now }
    {
        &self.board
    }

    /// The entries as a prefix of the history.
    pub fn history(&self) -> &HistoryPrefix<B>
        ensures { result.now ≡ self.now }
    {
        &self.history
    }

    // Whether the entry at the place is the request of this client and number.
    #[tactic(auto, using(crate::proofs::ReportedPlaces::none_beyond, crate::proofs::ReportedPlaces::some_request))]
    fn has_request(&self, client: ClientId, number: RequestNumber, place: u64) -> bool
        ensures { result ≡ is_request_at self.now client number place }
    {
        if place == 0 || place > self.history.len() {
            return false;
        }
        is_id_of(&self.requests[(place - 1) as usize], client, number)
    }

    /// Tells a client that its request is published, where the entry at the place is that request; `None` elsewhere.
    #[tactic(auto, using(crate::proofs::ReportedPlaces::reported_stands))]
    pub(crate) fn tell(
        &self,
        client: ClientId,
        number: RequestNumber,
        place: u64,
    ) -> Option<Reported<B>>
        ensures there { is_some result ≡ is_request_at self.now client number place }
        ensures reported { IfSome result (λ t. (t.published ≡ self.now) × (t.client ≡ client) × (t.number ≡ number)
            × (t.word ≡ words.Published (length self.now))) }
    {
        if !self.has_request(client, number, place) {
            return None;
        }
        let count = self.history.len();
        Some(Reported {
            published: self.history.copy(),
            client,
            number,
            word: ReportedWord::Published(count),
        })
    }

    /// Tells a client that its request was refused.
    pub(crate) fn refuse(
        &self,
        client: ClientId,
        number: RequestNumber,
        refusal: Refusal,
    ) -> Reported<B>
        ensures published { result.published ≡ self.now }
        ensures request { (result.client ≡ client) × (result.number ≡ number) }
        ensures word { result.word ≡ words.Refused refusal }
    {
        Reported {
            published: self.history.copy(),
            client,
            number,
            word: ReportedWord::Refused(refusal),
        }
    }

    // False also where the entry is not the next one of the history.
    #[tactic(auto, using(crate::proofs::Executed::next_place, crate::proofs::Executed::one_more))]
    fn add(&mut self, entry: &Entry, next: &HistoryPrefix<B>) -> bool
        requires { EndsWith next.now entry.now }
        ensures { MatchBool result (self.new ≡ self.old ++ entry.now ∷ []) (self.new ≡ self.old) }
    {
        let place = self.history.len();
        if place >= LAST_PLACE
            || !next.is_other_and(&self.history, entry)
            || self.requests.reserve(1).is_err()
            || !execute(&mut self.board, place + 1, entry)
        {
            return false;
        }
        self.requests.push_reserved(request_id(entry));
        self.history = next.copy();
        true
    }
}

impl<B: BoardName> Absorb<NextEntry<B>> for PublishedBoard<B> {
    // A clause reads an array as a list, of any length.
    type State = [Entry; 0];

    ghost state = { λ list. list };

    ghost applied = { λ list entry. list ++ entry ∷ [] };

    fn absorb_first(
        &mut self,
        operation: &NextEntry<B>,
        _other: &PublishedBoard<B>,
    ) -> Result<(), AllocError> {
        if self.add(&operation.entry, &operation.history) {
            Ok(())
        } else {
            Err(AllocError)
        }
    }
}
