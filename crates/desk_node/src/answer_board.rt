//! The replies to committed entries, by a board that follows them.

ghost use Rattle.std.specs.Prelude.{◌≡◌, ◌<◌, ◌≤◌, ◌+◌, ◌-◌, ◌∷◌, [], length, take, None, IfOk};
ghost use Rattle.desk_board.specs.Execute.{row_of};
ghost use Rattle.desk_board.specs.Log.{board_of};
ghost use Rattle.desk_node.specs.Answers.{answer_at, answers_after};
ghost use Rattle.desk_board.specs.PrefixBoard.{IsPrefixBoard};
ghost use Rattle.desk_node.specs.PrefixBoard.{FollowsLog, row_answer};

use desk_board::Board;
use desk_log::Log;
use desk_types::{ClientId, Domain, Outcome, WantOfMemory};
use std::alloc::Global;

/// A desk's domain, and the board of the first entries of a log. The board is made when it is first wanted, and after
/// memory was refused it is made anew.
pub(crate) struct AnswerBoard {
    pub domain: Domain,
    pub board: Option<Board>,
    pub alloc: Global,
}

// Written out, so that callers need not prove each part's drop.
impl Drop for AnswerBoard {
    fn drop(self) {
        let AnswerBoard {
            domain: _,
            board: _,
            alloc: _,
        } = self;
    }
}

/// Executes the next entry of the log, and gives the answer to its client.
fn next_answer(board: &mut Board, log: &Log) -> Result<Outcome, WantOfMemory>
    requires prefix { IsPrefixBoard board.old.domain board.old log.now }
    requires more { board.old.count < length log.now }
    ensures answer { IfOk result (λ answer. answer_at board.old.domain log.now (board.old.count + 1) ≡ answer ∷ []) }
    ensures prefix { IfOk result (λ _. IsPrefixBoard board.old.domain board.new log.now) }
    ensures count { IfOk result (λ _. board.new.count ≡ board.old.count + 1) }
{
    prove!(board.len() < log.len());
    let entry = log.at(board.len() + 1);
    let reply = board.apply_next(log)?;
    Ok(Outcome::Command {
        client: entry.client,
        number: entry.number,
        reply,
    })
}

/// Executes the next entries of the log, so many of them, and gives the answer to each.
fn next_answers(
    alloc: Global,
    board: &mut Board,
    log: &Log,
    count: u64,
) -> Result<Vec<Outcome>, WantOfMemory>
    requires prefix { IsPrefixBoard board.old.domain board.old log.now }
    requires within { board.old.count + count ≤ length log.now }
    ensures answers { IfOk result (λ answers. answers.items
        ≡ answers_after board.old.domain log.now board.old.count count) }
    ensures prefix { IfOk result (λ _. IsPrefixBoard board.old.domain board.new log.now) }
    ensures count { IfOk result (λ _. board.new.count ≡ board.old.count + count) }
{
    let mut answers = Vec::new(alloc);
    for done in 0..count {
        answers.push(next_answer(board, log)?)?;
    }
    Ok(answers)
}

/// The answer to the latest request of a client, where it made one.
fn row_answers(alloc: Global, board: &Board, client: ClientId) -> Result<Vec<Outcome>, WantOfMemory>
    ensures { IfOk result (λ answers. answers.items ≡ row_answer client (row_of client board.now)) }
{
    let mut answers = Vec::new(alloc);
    if let Some((number, _, reply)) = board.last(client) {
        let reply = reply.copy()?;
        answers.push(Outcome::Command {
            client,
            number,
            reply,
        })?;
    }
    Ok(answers)
}

impl AnswerBoard {
    /// No board yet.
    pub(crate) fn new(alloc: Global, domain: Domain) -> AnswerBoard
        ensures domain { result.domain ≡ domain }
        ensures none { result.board ≡ None }
    {
        AnswerBoard {
            domain,
            board: None,
            alloc,
        }
    }

    /// Drops the board. It is made anew when it is wanted.
    pub(crate) fn forget(&mut self)
        ensures none { self.new.board ≡ None }
        ensures domain { self.new.domain ≡ self.old.domain }
    {
        self.board = None;
    }

    /// The board of the log's first entries, so many of them. It is no longer held then.
    fn board_at(&mut self, log: &Log, upto: u64) -> Result<Board, WantOfMemory>
        requires follows { FollowsLog self.old.domain self.old.board log.now }
        requires within { upto ≤ length log.now }
        ensures prefix { IfOk result (λ board. IsPrefixBoard self.old.domain board log.now) }
        ensures count { IfOk result (λ board. board.count ≡ upto) }
        ensures domain { self.new.domain ≡ self.old.domain }
    {
        if let Some(mut board) = self.board.take() {
            if board.len() <= upto {
                board.advance(log, upto)?;
                return Ok(board);
            }
        }
        Board::replay(self.alloc, self.domain.copy()?, log, upto)
    }

    /// The replies to the entries after a place, up to another, each to its client. The board is that of the entries up
    /// to the latter then. Where there is none to be answered, it is left alone.
    #[tactic(auto, using(crate::proofs::FollowedLogs::follows_first, crate::proofs::FollowedLogs::follows_whole))]
    pub(crate) fn replies(
        &mut self,
        log: &Log,
        after: u64,
        upto: u64,
    ) -> Result<Vec<Outcome>, WantOfMemory>
        requires follows { FollowsLog self.old.domain self.old.board (take upto log.now) }
        requires order { after ≤ upto }
        requires within { upto ≤ length log.now }
        ensures answers { IfOk result (λ answers. answers.items
            ≡ answers_after self.old.domain log.now after (upto - after)) }
        ensures follows { IfOk result (λ _. FollowsLog self.old.domain self.new.board (take upto log.now)) }
        ensures domain { self.new.domain ≡ self.old.domain }
    {
        if upto == after {
            return Ok(Vec::new(self.alloc));
        }
        let mut board = self.board_at(log, after)?;
        let answers = next_answers(self.alloc, &mut board, log, upto - after)?;
        self.board = Some(board);
        Ok(answers)
    }

    /// The reply to the entry at a place again, which is the latest one of its client.
    #[tactic(auto, using(crate::proofs::FollowedLogs::follows_first, crate::proofs::FollowedLogs::follows_whole))]
    pub(crate) fn reply_again(
        &mut self,
        log: &Log,
        commit: u64,
        client: ClientId,
    ) -> Result<Vec<Outcome>, WantOfMemory>
        requires follows { FollowsLog self.old.domain self.old.board (take commit log.now) }
        requires within { commit ≤ length log.now }
        ensures answers { IfOk result (λ answers. answers.items
            ≡ row_answer client (row_of client (board_of self.old.domain (take commit log.now)))) }
        ensures follows { IfOk result (λ _. FollowsLog self.old.domain self.new.board (take commit log.now)) }
        ensures domain { self.new.domain ≡ self.old.domain }
    {
        let board = self.board_at(log, commit)?;
        let answers = row_answers(self.alloc, &board, client)?;
        self.board = Some(board);
        Ok(answers)
    }
}
