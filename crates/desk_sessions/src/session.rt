//! A session.

ghost use Rattle.std.specs.Prelude.{◌≡◌, ◌⊎◌, ℕ, List, IfOk, OnErr, MatchResult};
ghost use mathlib.Core.List.{IsPrefix};
ghost use Rattle.desk_types.specs.declared.limits.TheConstants.{DOCUMENT_BYTES};
ghost use Rattle.desk_types.specs.declared.outcome.Outcome.TheVariants as outcomes;
ghost use Rattle.desk_types.specs.declared.refusal.Refusal.TheVariants as refusals;
ghost use Rattle.desk_eido.specs.Reading.{ReadsAs, ask_on_line};
ghost use Rattle.desk_eido.specs.declared.ask.Ask.TheVariants as asks;
ghost use Rattle.desk_board.specs.Log.{board_of};
ghost use Rattle.desk_lines.specs.Holding.{HoldsLine};
ghost use Rattle.desk_published.specs.Reads.{HasFailedOnce};
ghost use Rattle.desk_sessions.specs.Exchanges.{IsNoWord};
ghost use Rattle.desk_sessions.specs.Sessions.{session_standing, replied, AnswersAsk, GivesUpAnswer, ByWord, IfShow};

use crate::line::Line;
use desk_arena::DocArena;
use desk_board::Board;
use desk_eido::Ask;
use desk_lines::LineBuffer;
use desk_published::{BoardName, BoardReader, Reported, ReportedWord};
use desk_types::limits::DOCUMENT_BYTES;
use desk_types::{ClientId, Entry, Outcome, Refusal, RequestNumber, Show, WantOfMemory};
use std::alloc::Global;
use std::sync::Wait;

/// A client's session: a line to a keeper, a reader of its board, and an arena into which documents are read.
#[derive(Drop)]
pub struct Session<B: BoardName, L: Line<B>> {
    pub line: L,
    pub reader: BoardReader<B>,
    pub arena: DocArena,
    ghost room: { arena.capacity ≡ DOCUMENT_BYTES },
}

/// What the client's row on a board makes of its request.
fn reply_on(board: &Board, client: ClientId, number: RequestNumber) -> Result<Outcome, WantOfMemory>
    ensures { IfOk result (λ o. o ≡ replied client number board.now) }
{
    match board.last(client) {
        Some((latest, _, reply)) if latest == number => Ok(Outcome::Command {
            client,
            number,
            reply: reply.copy()?,
        }),
        _ => Ok(refused(client, number, Refusal::Superseded)),
    }
}

/// A request that has no reply of the board.
fn refused(client: ClientId, number: RequestNumber, refusal: Refusal) -> Outcome
    ensures { result ≡ outcomes.Node client number refusal }
{
    Outcome::Node {
        client,
        number,
        refusal,
    }
}

/// What comes of a request that is published.
fn published<B: BoardName>(
    reader: BoardReader<B>,
    reported: &Reported<B>,
) -> (BoardReader<B>, Result<Outcome, WantOfMemory>)
    ensures preserved { IsPrefix reader.pass result.0.pass }
    ensures reported { IsPrefix reported.now.published result.0.pass }
    ensures ok { IfOk result.1 (λ o.
        (o ≡ replied reported.now.client reported.now.number (board_of B.domain result.0.pass))
        ⊎ ((o ≡ outcomes.Node reported.now.client reported.now.number refusals.NodeStopped)
        × HasFailedOnce reader.failed_reads result.0.failed_reads)) }
{
    let client = reported.client();
    let number = reported.number();
    let reader = reader.learn(reported);
    let (reader, outcome) = reader.read(|board| reply_on(board, client, number));
    match outcome {
        Some(outcome) => (reader, outcome),
        None => (reader, Ok(refused(client, number, Refusal::NodeStopped))),
    }
}

/// What a keeper's word makes of its request.
fn follow<B: BoardName>(
    reader: BoardReader<B>,
    reported: &Reported<B>,
) -> (BoardReader<B>, Result<Outcome, WantOfMemory>)
    ensures ok { IfOk result.1 (λ o. (e : Entry) → e.client ≡ reported.now.client → e.number ≡ reported.now.number →
        ByWord B.domain e reported.now.word reported.now.published reader.pass result.0.pass
        (HasFailedOnce reader.failed_reads result.0.failed_reads) o) }
    ensures err { OnErr result.1 (IsPrefix reader.pass result.0.pass) }
{
    let client = reported.client();
    let number = reported.number();
    match reported.word() {
        ReportedWord::Refused(refusal) => match refusal.copy() {
            Ok(refusal) => (reader, Ok(refused(client, number, refusal))),
            Err(_) => (reader, Err(WantOfMemory)),
        },
        ReportedWord::Published(_) => published(reader, reported),
    }
}

/// What comes of a request of which no word came.
fn not_reported(
    client: ClientId,
    number: RequestNumber,
    refusal: Refusal,
) -> Result<Outcome, WantOfMemory>
    requires { IsNoWord refusal }
    ensures ok { IfOk result (λ o. (refusal ≡ refusals.NodeStopped)
        × (o ≡ outcomes.Node client number refusals.NodeStopped)) }
    ensures err { OnErr result (refusal ≡ refusals.WantOfMemory) }
{
    match refusal.unless_of_memory() {
        Ok(refusal) => Ok(refused(client, number, refusal)),
        Err(_) => Err(WantOfMemory),
    }
}

impl<B: BoardName, L: Line<B>> Session<B, L> {
    /// A session of a line and of the reader of its keeper's board. Where memory is refused they come back.
    pub fn new(
        alloc: Global,
        line: L,
        reader: BoardReader<B>,
    ) -> Result<Session<B, L>, (L, BoardReader<B>)>
        ensures { MatchResult result (λ s. (s.line ≡ line) × (s.reader ≡ reader))
            (λ parts. (parts.0 ≡ line) × (parts.1 ≡ reader)) }
    {
        match DocArena::with_capacity(alloc, DOCUMENT_BYTES) {
            Ok(arena) => Ok(Session {
                line,
                reader,
                arena,
            }),
            Err(_) => Err((line, reader)),
        }
    }

    /// What the line that has come asks for.
    pub(crate) fn read(
        self,
        alloc: Global,
        line: &LineBuffer,
    ) -> (Session<B, L>, Result<Ask, Refusal>)
        ensures reads { (text : List ℕ) → HoldsLine line.now text → ReadsAs result.1 (ask_on_line DOCUMENT_BYTES text) }
        ensures line { result.0.line ≡ self.line }
        ensures reader { result.0.reader ≡ self.reader }
    {
        let Session {
            line: own,
            reader,
            mut arena,
        } = self;
        let read = line.read(alloc, &mut arena);
        (
            Session {
                line: own,
                reader,
                arena,
            },
            read,
        )
    }

    fn command<R: Wait>(
        self,
        rt: &R,
        entry: Entry,
    ) -> (Session<B, L>, Result<Outcome, WantOfMemory>)
        ensures ok { IfOk result.1 (λ o. AnswersAsk B.domain (asks.Command entry)
            (session_standing (L.exchanged self.line) self.reader.pass self.reader.failed_reads)
            (session_standing (L.exchanged result.0.line) result.0.reader.pass result.0.reader.failed_reads) o) }
        ensures err { OnErr result.1 (GivesUpAnswer (asks.Command entry)
            (session_standing (L.exchanged self.line) self.reader.pass self.reader.failed_reads)
            (session_standing (L.exchanged result.0.line) result.0.reader.pass result.0.reader.failed_reads)) }
        ensures preserved { L.preserved result.0.line ≡ L.preserved self.line }
    {
        let Session {
            line,
            reader,
            arena,
        } = self;
        let (client, number) = (entry.client, entry.number);
        let (line, answer) = line.ask(rt, entry);
        match answer {
            Ok(reported) => {
                let (reader, outcome) = follow(reader, &reported);
                (
                    Session {
                        line,
                        reader,
                        arena,
                    },
                    outcome,
                )
            }
            Err(refusal) => (
                Session {
                    line,
                    reader,
                    arena,
                },
                not_reported(client, number, refusal),
            ),
        }
    }

    fn show(self, show: &Show) -> (Session<B, L>, Result<Outcome, WantOfMemory>)
        ensures ok { IfOk result.1 (λ o. AnswersAsk B.domain (asks.Show show.now)
            (session_standing (L.exchanged self.line) self.reader.pass self.reader.failed_reads)
            (session_standing (L.exchanged result.0.line) result.0.reader.pass result.0.reader.failed_reads) o) }
        ensures err { OnErr result.1 (GivesUpAnswer (asks.Show show.now)
            (session_standing (L.exchanged self.line) self.reader.pass self.reader.failed_reads)
            (session_standing (L.exchanged result.0.line) result.0.reader.pass result.0.reader.failed_reads)) }
        ensures silent { result.0.line ≡ self.line }
    {
        let Session {
            line,
            reader,
            arena,
        } = self;
        let (reader, shown) = reader.read(|board| board.show(show));
        let outcome = match shown {
            None => Ok(Outcome::Document(Refusal::NodeStopped)),
            Some(Ok(shown)) => Ok(Outcome::Board {
                client: show.client,
                shown,
            }),
            Some(Err(error)) => Err(error),
        };
        (
            Session {
                line,
                reader,
                arena,
            },
            outcome,
        )
    }

    /// Answers what a document asks for.
    ///
    /// A command is asked on the line. Where the word is that it is published, the answer is read off its client's row
    /// on a board that goes on from that word: the row's reply, or `Superseded` where the row has another number. It is
    /// `NodeStopped` where that board cannot be read or no word came, and the keeper's refusal where it was refused. A
    /// show is read off the board, and is `NodeStopped` where that cannot be read. Where memory is refused there is no
    /// answer.
    pub fn answer<R: Wait>(self, rt: &R, ask: Ask) -> (Session<B, L>, Result<Outcome, WantOfMemory>)
        ensures ok { IfOk result.1 (λ o. AnswersAsk B.domain ask
            (session_standing (L.exchanged self.line) self.reader.pass self.reader.failed_reads)
            (session_standing (L.exchanged result.0.line) result.0.reader.pass result.0.reader.failed_reads) o) }
        ensures err { OnErr result.1 (GivesUpAnswer ask
            (session_standing (L.exchanged self.line) self.reader.pass self.reader.failed_reads)
            (session_standing (L.exchanged result.0.line) result.0.reader.pass result.0.reader.failed_reads)) }
        // A show asks the line nothing.
        ensures silent { IfShow ask (result.0.line ≡ self.line) }
        ensures preserved { L.preserved result.0.line ≡ L.preserved self.line }
    {
        match ask {
            Ask::Command(entry) => self.command(rt, entry),
            Ask::Show(show) => self.show(&show),
        }
    }
}
