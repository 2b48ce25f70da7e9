//! A log with its board.

ghost use Rattle.std.specs.Prelude.{◌≡◌, ◌≢◌, ◌<◌, ◌≤◌, ◌+◌, [], ◌∷◌, ◌++◌, ℕ, List, length, take, string_bytes};
ghost use Rattle.std.specs.Prelude.{Some, IsSome, Err, IfOk, OnOk, OnErr};
ghost use Rattle.std.specs.Option.{option_map};
ghost use Rattle.desk_types.specs.declared.limits.TheConstants.{DOCUMENT_BYTES};
ghost use Rattle.desk_types.specs.declared.outcome.Outcome.TheVariants as outcomes;
ghost use Rattle.desk_types.specs.declared.refusal.Refusal.TheVariants as refusals;
ghost use Rattle.desk_eido.specs.Reading.{ReadsAs, ask_on_line};
ghost use Rattle.desk_eido.specs.declared.ask.Ask.TheVariants as asks;
ghost use Rattle.desk_lines.specs.Holding.{HoldsLine};
ghost use Rattle.desk_log.specs.Admission.{admission};
ghost use Rattle.desk_board.specs.Execute.{execute, row_of};
ghost use Rattle.desk_board.specs.Log.{board_of};
ghost use Rattle.desk_replay.specs.BoardLog.{HasExecuted};

use desk_arena::DocArena;
use desk_board::Board;
use desk_eido::{Ask, reply_line};
use desk_lines::LineBuffer;
use desk_log::{Admission, Log};
use desk_types::limits::{DOCUMENT_BYTES, LOG_ENTRIES};
use desk_types::{
    ClientId, Domain, Entry, Outcome, Refusal, Reply, RequestNumber, Show, WantOfMemory,
};
use std::alloc::Global;
use std::marker::Model;

/// A log, and the board that follows it. A contract sees the log under the desk's domain.
pub(crate) struct LoggedBoard {
    log: Log,
    // It has executed the whole log.
    board: Board,
    // Into which each document is read.
    arena: DocArena,
    alloc: Global,
}

// Written out, so that callers need not prove each part's drop.
impl Drop for LoggedBoard {
    fn drop(self) {
        let LoggedBoard {
            log: _,
            board: _,
            arena: _,
            alloc: _,
        } = self;
    }
}

impl Model for LoggedBoard {
    ghost use Rattle.std.specs.Prelude.{◌≡◌};
    ghost use Rattle.desk_types.specs.declared.limits.TheConstants.{DOCUMENT_BYTES};
    ghost use Rattle.desk_replay.specs.BoardLog.{BoardLog, HasExecuted};

    ghost Value = { BoardLog };

    ghost view = { λ b. record { domain = b.board.domain; log = b.log } };

    ghost invariant = { λ b. HasExecuted b.board.domain b.board b.log × (b.arena.capacity ≡ DOCUMENT_BYTES) };
}

impl LoggedBoard {
    ghost use Rattle.desk_replay.specs.BoardLog.{BoardLog, log_with_entry, latest_reply};
    ghost use Rattle.desk_replay.specs.Replay.{AnswersAs, IsReply, LacksMemory, append_answer, ask_answer};
    ghost use Rattle.desk_replay.specs.Replay.{reading_answer, line_answer};

    /// The empty log and its board.
    pub(crate) fn new(alloc: Global, domain: Domain) -> Result<LoggedBoard, WantOfMemory>
        ensures { IfOk result (λ b. b ≡ record { domain = domain; log = [] }) }
    {
        match DocArena::with_capacity(alloc, DOCUMENT_BYTES) {
            Ok(arena) => Ok(LoggedBoard {
                log: Log::new(alloc),
                board: Board::new(alloc, domain),
                arena,
                alloc,
            }),
            Err(_) => Err(WantOfMemory),
        }
    }

    /// The reply line to the line that has come. Its entry, where there is one, is then in the log.
    pub(crate) fn reply(&mut self, line: &LineBuffer) -> Result<String, WantOfMemory>
        ensures ok { IfOk result (λ reply. (text : List ℕ) → HoldsLine line.now text →
            IsReply self.old text (string_bytes reply) self.new) }
        ensures err { OnErr result ((text : List ℕ) → HoldsLine line.now text →
            LacksMemory self.old text refusals.WantOfMemory self.new) }
    {
        let alloc = self.alloc;
        let outcome = self.answer_line(line)?;
        let text = reply_line(alloc, &outcome);
        drop(outcome);
        text
    }

    /// Answers the line that has come. Where memory is refused the log is as it was.
    fn answer_line(&mut self, line: &LineBuffer) -> Result<Outcome, WantOfMemory>
        ensures ok { IfOk result (λ o. (text : List ℕ) → HoldsLine line.now text →
            AnswersAs o self.new (line_answer self.old text)) }
        ensures err { OnErr result (self.new ≡ self.old) }
    {
        let read = self.read_line(line);
        self.answer_read(read)
    }

    /// What the line that has come asks for.
    fn read_line(&mut self, line: &LineBuffer) -> Result<Ask, Refusal>
        ensures reads { (text : List ℕ) → HoldsLine line.now text → ReadsAs result (ask_on_line DOCUMENT_BYTES text) }
        ensures same { self.new ≡ self.old }
    {
        line.read(self.alloc, &mut self.arena)
    }

    /// Answers what was read of a line. Where memory is refused the log is as it was.
    fn answer_read(&mut self, read: Result<Ask, Refusal>) -> Result<Outcome, WantOfMemory>
        ensures ok { IfOk result (λ o. AnswersAs o self.new (reading_answer self.old read)) }
        ensures read { OnOk result (read ≢ Err refusals.WantOfMemory) }
        ensures err { OnErr result (self.new ≡ self.old) }
    {
        match read {
            Ok(Ask::Command(entry)) => self.request(entry),
            Ok(Ask::Show(show)) => self.show(&show),
            Err(refusal) => Ok(Outcome::Document(refusal.unless_of_memory()?)),
        }
    }

    /// Answers a command. Where memory is refused the log is as it was.
    fn request(&mut self, entry: Entry) -> Result<Outcome, WantOfMemory>
        ensures ok { IfOk result (λ o. AnswersAs o self.new (ask_answer self.old (asks.Command entry))) }
        ensures err { OnErr result (self.new ≡ self.old) }
    {
        match self.admission(&entry) {
            Admission::Append => self.append(entry),
            Admission::Retry { .. } => {
                let (client, number) = (entry.client, entry.number);
                drop(entry);
                self.repeat_latest(client, number)
            }
            Admission::Stale { latest } => {
                let latest = latest.get();
                let reported = refused(&entry, Refusal::Stale { latest });
                drop(entry);
                Ok(reported)
            }
            Admission::Full => {
                let reported = refused(&entry, Refusal::BookFull);
                drop(entry);
                Ok(reported)
            }
        }
    }

    /// What the log makes of a command.
    fn admission(&self, entry: &Entry) -> Admission
        ensures { result ≡ admission self.now.log entry.now.client entry.now.number }
    {
        self.log.admission(entry.client, entry.number)
    }

    /// Puts a command last in the log, and tells the board's reply. Where memory is refused the log is as it was.
    fn append(&mut self, entry: Entry) -> Result<Outcome, WantOfMemory>
        requires { length self.old.log < LOG_ENTRIES }
        ensures ok { IfOk result (λ o. AnswersAs o self.new (append_answer self.old entry)) }
        ensures err { OnErr result (self.new ≡ self.old) }
    {
        let client = entry.client;
        let number = entry.number;
        let reply = append_entry(self.alloc, &mut self.board, &mut self.log, entry)?;
        Ok(Outcome::Command {
            client,
            number,
            reply,
        })
    }

    /// Tells the reply to the client's latest entry.
    fn repeat_latest(
        &self,
        client: ClientId,
        number: RequestNumber,
    ) -> Result<Outcome, WantOfMemory>
        requires { IsSome (latest_reply self.now client) }
        ensures { IfOk result (λ o.
            option_map (outcomes.Command client number) (latest_reply self.now client) ≡ Some o) }
    {
        let reply = latest_reply(&self.board, client)?.unwrap();
        Ok(Outcome::Command {
            client,
            number,
            reply,
        })
    }

    /// Shows a part of the board.
    fn show(&self, show: &Show) -> Result<Outcome, WantOfMemory>
        ensures { IfOk result (λ o. o ≡ (ask_answer self.now (asks.Show show.now)).outcome) }
    {
        Ok(Outcome::Board {
            client: show.client,
            shown: self.board.show(show)?,
        })
    }
}

/// A command that is refused without an entry.
fn refused(entry: &Entry, refusal: Refusal) -> Outcome
    ensures { result ≡ outcomes.Node entry.now.client entry.now.number refusal }
{
    Outcome::Node {
        client: entry.client,
        number: entry.number,
        refusal,
    }
}

/// Puts an entry last in a log whose board has executed the others, and executes it. Where memory is refused the log is
/// as it was.
fn append_entry(
    alloc: Global,
    board: &mut Board,
    log: &mut Log,
    entry: Entry,
) -> Result<Reply, WantOfMemory>
    requires executed { HasExecuted board.old.domain board.old log.old }
    requires room { length log.old < LOG_ENTRIES }
    ensures reply { IfOk result (λ reply.
        reply ≡ (execute (board_of board.old.domain log.old) (length log.old + 1) entry).1) }
    ensures appended { OnOk result (log.new ≡ log.old ++ entry ∷ []) }
    ensures executed { HasExecuted board.old.domain board.new log.new }
    ensures unchanged { OnErr result (log.new ≡ log.old) }
{
    let before = log.len();
    let Ok(_place) = log.append(entry) else {
        return Err(WantOfMemory);
    };
    let Ok(reply) = board.apply_next(log) else {
        cut(alloc, log, before);
        return Err(WantOfMemory);
    };
    Ok(reply)
}

/// Leaves the first entries of a log, so many of them.
fn cut(alloc: Global, log: &mut Log, upto: u64)
    requires prefix { upto ≤ length log.old }
    requires limit { upto ≤ LOG_ENTRIES }
    ensures { log.new ≡ take upto log.old }
{
    let replaced = log.replace_after(upto, Vec::new(alloc));
    replaced.unwrap();
}

/// The reply to the latest entry of a client, where a board has executed one.
fn latest_reply(board: &Board, client: ClientId) -> Result<Option<Reply>, WantOfMemory>
    ensures { IfOk result (λ reply. reply ≡ option_map (λ r. r.reply) (row_of client board.now)) }
{
    match board.last(client) {
        Some((_, _, reply)) => Ok(Some(reply.copy()?)),
        None => Ok(None),
    }
}
