//! Boards that follow a log.

ghost use Rattle.std.specs.Prelude.{◌≡◌, ◌<◌, ◌≤◌, ◌+◌, length, take, Some, IfOk, OnOk, OnErr};
ghost use Rattle.desk_board.specs.PrefixBoard.{IsPrefixBoard};
ghost use Rattle.desk_board.specs.Log.{board_of, reply_at};

use crate::board::Board;
use desk_log::Log;
use desk_types::{Domain, Reply, WantOfMemory};
use std::alloc::Global;

impl Board {
    /// Executes the next entry of a log that the board follows, and gives the reply. Where memory is refused the board
    /// is as it was.
    pub fn apply_next(&mut self, log: &Log) -> Result<Reply, WantOfMemory>
        requires follows { IsPrefixBoard self.old.domain self.old log.now }
        requires more { self.old.count < length log.now }
        ensures reply { IfOk result (λ reply. reply_at self.old.domain log.now (self.old.count + 1) ≡ Some reply) }
        ensures count { OnOk result (self.new.count ≡ self.old.count + 1) }
        ensures follows { IsPrefixBoard self.old.domain self.new log.now }
        ensures err { OnErr result (self.new ≡ self.old) }
    {
        // A log has as many places as an entry can be executed at.
        prove!(self.len() < log.len());
        let place = self.len() + 1;
        self.apply(place, log.at(place))
    }

    /// Executes the next entries of a log that the board follows, until it has executed so many of the log. Where
    /// memory is refused the board follows the log as far as it came, and has executed fewer.
    pub fn advance(&mut self, log: &Log, upto: u64) -> Result<(), WantOfMemory>
        requires follows { IsPrefixBoard self.old.domain self.old log.now }
        requires order { self.old.count ≤ upto }
        requires within { upto ≤ length log.now }
        ensures count { OnOk result (self.new.count ≡ upto) }
        ensures follows { IsPrefixBoard self.old.domain self.new log.now }
        ensures err_least { OnErr result (self.old.count ≤ self.new.count) }
        ensures err_most { OnErr result (self.new.count < upto) }
    {
        for executed in self.len()..upto {
            let _reply = self.apply_next(log)?;
        }
        Ok(())
    }

    /// The board of the first entries of a log, so many of them.
    pub fn replay(
        alloc: Global,
        domain: Domain,
        log: &Log,
        upto: u64,
    ) -> Result<Board, WantOfMemory>
        requires { upto ≤ length log.now }
        ensures value { IfOk result (λ board. board ≡ board_of domain (take upto log.now)) }
        ensures count { IfOk result (λ board. board.count ≡ upto) }
        ensures follows { IfOk result (λ board. IsPrefixBoard domain board log.now) }
    {
        let mut board = Board::new(alloc, domain);
        board.advance(log, upto)?;
        Ok(board)
    }
}
