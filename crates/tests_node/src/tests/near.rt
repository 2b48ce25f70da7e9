//! A keeper of node 0 of three with its last session, all in this thread. Node 1 answers by hand.

ghost use Rattle.std.specs.Prelude.{◌≡◌, false, IfOk, IfErr};
ghost use Rattle.desk_sessions.specs.Exchanges.{IsNoWord};

use super::keeping::{Held, Keeps, Made, SESSION, Sent, Stand, Way, answer_of_node_1};
use super::opening::{open_at, open_store};
use crossbeam_channel::Receiver;
use crossbeam_utils::rule::Protocol;
use desk_log::StateStore;
use desk_published::{NextEntry, PrefixRule, PublishedBoard, Reported, ReportedWord, SeatView};
use desk_saved::SavedState;
use desk_sessions::{Line, NoGate, Session, serve_session};
use desk_threads::limits::WAITING_TICKS;
use desk_threads::{BoardName, BoardReader, Item, NewHistory, SessionEnds};
use desk_types::{ClientId, Domain, Entry, Refusal, RequestNumber, WantOfMemory};
use left_right::Absorb;
use sqlite::{Alter, Connection};
use std::alloc::Global;
use std::io::{Read, Write};
use std::sync::Wait;
use tests_streams::{Sink, Source};

/// Node 1 answers so often to a request. What memory is refused for is done at the next answer.
const ANSWERS: u64 = 4;

/// Ticks come after these, until the session is told to ask again.
const TURNS: u64 = ANSWERS + WAITING_TICKS;

/// What a session is told of its request.
#[derive(Clone, Copy, PartialEq, Eq)]
pub(super) enum Heard {
    /// No word waits for it.
    Nothing,
    /// It is published.
    Published,
    /// It is refused by this number.
    Refused(u8),
}

/// What a word tells.
fn heard_of<B: BoardName>(reported: Option<Reported<B>>) -> Heard {
    match reported {
        None => Heard::Nothing,
        Some(reported) => match reported.word() {
            ReportedWord::Published(_) => Heard::Published,
            ReportedWord::Refused(refusal) => Heard::Refused(refusal.number()),
        },
    }
}

/// What holds a keeper with its last session.
pub(super) trait Serves: Keeps {
    /// Takes the word that waits for the session.
    fn hear(&self) -> Heard;

    /// Serves the session until the reader is at its end, and does its requests in this way: the number of the refusal
    /// by which it ended, 0 where there is none. Where there is no memory for the session that is 40.
    fn serve<'a>(
        self,
        alloc: Global,
        source: &mut Source<'a>,
        sink: &mut Sink,
        way: Way,
    ) -> (Self, u8);
}

/// A keeper, with what its last session is told by and reads.
#[derive(Drop)]
pub(super) struct Near<B: BoardName, K: Keeps, R: Wait + Drop>
where
    PrefixRule: Protocol<PublishedBoard<B>, SeatView>,
{
    keeper: K,
    /// Taken out while the session is served.
    ends: Box<Option<SessionEnds<B>>>,
    rt: R,
}

impl<B: BoardName, K: Keeps, R: Wait + Drop> Near<B, K, R> {
    /// The keeper, whose last session has ended.
    fn into_keeper(self) -> K {
        let Near { keeper, ends, rt } = self;
        drop(rt);
        drop(ends);
        keeper
    }
}

/// A keeper with the last of its sessions.
fn near_of<B: BoardName, K: Keeps, R: Wait + Drop>(
    rt: R,
    alloc: Global,
    keeper: Result<K, WantOfMemory>,
    sessions: Vec<SessionEnds<B>>,
) -> Result<Near<B, K, R>, WantOfMemory> {
    let keeper = keeper?;
    let mut sessions = sessions;
    match Box::new(alloc, sessions.pop()) {
        Ok(ends) => Ok(Near { keeper, ends, rt }),
        Err(refused) => {
            drop(refused);
            drop(keeper);
            Err(WantOfMemory)
        }
    }
}

/// The keeper of node 0 over a store, which goes on where its saved state ends.
fn open_near<B: BoardName, S: StateStore + Drop, R: Wait + Drop + Copy>(
    rt: R,
    alloc: Global,
    history: NewHistory,
    domain: &Domain,
    store: S,
) -> Result<Near<B, Held<B, S, R>, R>, WantOfMemory>
    requires book { history.seen.book ≡ B.book }
    requires domain { domain.now ≡ B.domain }
    requires running { S.stopped store ≡ false }
{
    match open_at::<B, S, R>(&rt, alloc, history, 0, domain, store) {
        Ok((keeper, senders, sessions)) => {
            let mut senders = senders;
            let sender = senders.pop();
            drop(senders);
            near_of(rt, alloc, Held::new(rt, alloc, keeper, sender), sessions)
        }
        Err(refused) => Err(refused),
    }
}

/// What drives a keeper with its last session, and knows afterwards what came of it.
pub(super) trait Drives {
    fn drive<N: Serves>(&mut self, alloc: Global, near: N) -> N;
}

// The one function that names the type of what is driven: a proof takes longer where that is known.
/// Drives the keeper of node 0 over a store, which goes on where its saved state ends, and gives the store, if there is
/// memory for the keeper.
pub(super) fn drive_over<D: Drives, B: BoardName, S: StateStore + Drop, R: Wait + Drop + Copy>(
    driver: &mut D,
    rt: R,
    alloc: Global,
    history: NewHistory,
    domain: &Domain,
    store: S,
) -> Option<S>
    requires book { history.seen.book ≡ B.book }
    requires domain { domain.now ≡ B.domain }
    requires running { S.stopped store ≡ false }
{
    match open_near::<B, S, R>(rt, alloc, history, domain, store) {
        Ok(near) => driver.drive(alloc, near).into_keeper().end(),
        Err(_) => None,
    }
}

/// The same over a database.
pub(super) fn drive_database<D: Drives, B: BoardName, S: Alter + Drop, R: Wait + Drop + Copy>(
    driver: &mut D,
    rt: R,
    alloc: Global,
    history: NewHistory,
    domain: &Domain,
    connection: Connection<S>,
) -> Option<Connection<S>>
    requires book { history.seen.book ≡ B.book }
    requires domain { domain.now ≡ B.domain }
{
    let store = open_store(alloc, connection, 0, domain.copy().ok()?).ok()?;
    let store = drive_over::<D, B, SavedState<S>, R>(driver, rt, alloc, history, domain, store)?;
    Some(store.into_connection())
}

/// A line to a keeper that does what is asked at once, in this way.
struct NearLine<B: BoardName, K: Keeps>
where
    PublishedBoard<B>: Absorb<NextEntry<B>, State = [Entry; 0]>,
    PrefixRule: Protocol<PublishedBoard<B>, SeatView>,
{
    keeper: K,
    words: Receiver<Reported<B>>,
    way: Way,
}

impl<B: BoardName, K: Keeps> Drop for NearLine<B, K> {
    fn drop(self) {
        let NearLine {
            keeper,
            words,
            way: _,
        } = self;
        drop(keeper);
        drop(words);
    }
}

impl<B: BoardName, K: Keeps> NearLine<B, K> {
    /// The keeper, with what its session is told by and this reader.
    fn into_parts(self, reader: BoardReader<B>) -> (K, SessionEnds<B>) {
        let NearLine {
            keeper,
            words,
            way: _,
        } = self;
        (keeper, SessionEnds { words, reader })
    }
}

/// Lets a turn pass: node 1 answers, or time goes by.
fn take_turn<K: Keeps>(keeper: K, turn: u64) -> K {
    if turn >= ANSWERS {
        let (keeper, _, _) = keeper.do_item(Item::Tick);
        return keeper;
    }
    let answer = answer_of_node_1(keeper.stand().entries).unwrap_or(Item::Tick);
    let (keeper, _, _) = keeper.do_item(answer);
    keeper
}

/// Has a keeper do a request. In turns node 1 answers at once, and a stop comes after.
fn do_request<K: Keeps>(keeper: K, request: Item, way: Way) -> K {
    let most = match way {
        Way::Items => {
            let (keeper, _, _) = keeper.do_item(request);
            return keeper;
        }
        Way::Turns(most) => most,
    };
    let place = keeper.stand().entries.saturating_add(1);
    let answer = answer_of_node_1(place).unwrap_or(Item::Tick);
    let keeper = keeper.put(request).put(answer).put(Item::Stop);
    let (keeper, _, _) = keeper.do_turns(most);
    keeper
}

/// The word that waits for a session, if there is one.
fn next_word<B: BoardName, W: Wait>(rt: &W, words: &Receiver<Reported<B>>) -> Option<Reported<B>> {
    words.try_recv(rt).ok()
}

/// Lets turns pass until a word comes.
fn await_word<B: BoardName, K: Keeps, W: Wait>(
    rt: &W,
    keeper: K,
    words: &Receiver<Reported<B>>,
) -> (K, Option<Reported<B>>) {
    let mut keeper = keeper;
    for turn in 0..TURNS {
        if let Some(reported) = next_word(rt, words) {
            return (keeper, Some(reported));
        }
        keeper = take_turn(keeper, turn);
    }
    (keeper, next_word(rt, words))
}

/// The word, where it is that of this request.
fn word_of<B: BoardName>(
    reported: Option<Reported<B>>,
    client: ClientId,
    number: RequestNumber,
) -> Result<Reported<B>, Refusal>
    ensures reported { IfOk result (λ t. (t.client ≡ client) × (t.number ≡ number)) }
    ensures refused { IfErr result IsNoWord }
{
    match reported {
        Some(reported) if reported.client() == client && reported.number() == number => Ok(
            reported,
        ),
        _ => Err(Refusal::NodeStopped),
    }
}

impl<B: BoardName, K: Keeps> Line<B> for NearLine<B, K> {
    ghost use Rattle.std.specs.Prelude.{None};

    ghost exchanged = { λ l. None };

    ghost preserved = { λ _. tt };

    fn ask<W: Wait>(self, rt: &W, entry: Entry) -> (NearLine<B, K>, Result<Reported<B>, Refusal>) {
        let NearLine { keeper, words, way } = self;
        let (client, number) = (entry.client, entry.number);
        let request = Item::Request {
            session: SESSION,
            entry,
        };
        let keeper = do_request(keeper, request, way);
        let (keeper, reported) = await_word(rt, keeper, &words);
        let reported = word_of(reported, client, number);
        (NearLine { keeper, words, way }, reported)
    }
}

/// The number of the refusal, 0 where there is none.
fn number_of(outcome: &Result<(), Refusal>) -> u8 {
    match outcome {
        Ok(()) => 0,
        Err(refusal) => refusal.number(),
    }
}

/// Serves the session of a keeper: the number of the refusal, 0 where there is none.
fn serve_ends<B: BoardName, K: Keeps, I: Read, O: Write, R: Wait>(
    rt: &R,
    alloc: Global,
    keeper: K,
    ends: SessionEnds<B>,
    input: &mut I,
    output: &mut O,
    way: Way,
) -> (K, SessionEnds<B>, u8) {
    let SessionEnds { words, reader } = ends;
    match Session::new(alloc, NearLine { keeper, words, way }, reader) {
        Ok(session) => {
            let (session, outcome) = serve_session(rt, alloc, input, output, session, &NoGate);
            let number = number_of(&outcome);
            drop(outcome);
            let Session {
                line,
                reader,
                arena,
            } = session;
            drop(arena);
            let (keeper, ends) = line.into_parts(reader);
            (keeper, ends, number)
        }
        Err((line, reader)) => {
            let (keeper, ends) = line.into_parts(reader);
            (keeper, ends, Refusal::WantOfMemory.number())
        }
    }
}

impl<B: BoardName, K: Keeps, R: Wait + Drop> Keeps for Near<B, K, R> {
    fn do_item(self, item: Item) -> (Near<B, K, R>, Made, u64) {
        let Near { keeper, ends, rt } = self;
        let (keeper, made, packets) = keeper.do_item(item);
        (Near { keeper, ends, rt }, made, packets)
    }

    fn put(self, item: Item) -> Near<B, K, R> {
        let Near { keeper, ends, rt } = self;
        let keeper = keeper.put(item);
        Near { keeper, ends, rt }
    }

    fn close(self) -> Near<B, K, R> {
        let Near { keeper, ends, rt } = self;
        let keeper = keeper.close();
        Near { keeper, ends, rt }
    }

    fn do_turns(self, most: u64) -> (Near<B, K, R>, Made, Sent) {
        let Near { keeper, ends, rt } = self;
        let (keeper, made, sent) = keeper.do_turns(most);
        (Near { keeper, ends, rt }, made, sent)
    }

    fn stand(&self) -> Stand {
        self.keeper.stand()
    }
}

impl<B: BoardName, K: Keeps, R: Wait + Drop> Serves for Near<B, K, R> {
    fn hear(&self) -> Heard {
        match self.ends.as_ref() {
            Some(ends) => heard_of(next_word(&self.rt, &ends.words)),
            None => Heard::Nothing,
        }
    }

    fn serve<'a>(
        self,
        alloc: Global,
        source: &mut Source<'a>,
        sink: &mut Sink,
        way: Way,
    ) -> (Near<B, K, R>, u8) {
        let Near {
            keeper,
            mut ends,
            rt,
        } = self;
        match Box::replace(&mut ends, None) {
            Some(taken) => {
                let (keeper, taken, number) = serve_ends(
                    &rt, alloc, keeper, taken, source, sink, way,
                );
                drop(Box::replace(&mut ends, Some(taken)));
                (Near { keeper, ends, rt }, number)
            }
            None => (Near { keeper, ends, rt }, Refusal::NodeStopped.number()),
        }
    }
}
