//! A session that may wait for an answer.

ghost use Rattle.std.specs.Prelude.{◌≡◌, ◌⊎◌, false, Some, None, MatchOption, MatchResult};
ghost use Rattle.desk_published.specs.Writer.{published};
ghost use Rattle.desk_threads.specs.declared.awaits.Awaited.TheVariants as awaits;
ghost use Rattle.desk_threads.specs.declared.limits.TheConstants.{WAITING_TICKS};
ghost use Rattle.desk_threads.specs.Keeper.{one_more};
ghost use Rattle.desk_threads.specs.Waiting.{idle, asking, awaiting, given_up, after_tick, after_stop, is_asked};
ghost use Rattle.desk_threads.specs.Waiting.{answered, Hears, said, word_on, word_asked};
ghost use Rattle.desk_replica.specs.Answers.{is_of_node};
ghost use Rattle.desk_threads.specs.Waiting.{word_to_tell, after_word, with_unsent, after_send, Tells};

use crate::awaits::Awaited;
use crate::limits::WAITING_TICKS;
use crossbeam_channel::{Sender, TrySendError};
use desk_published::{BoardName, BoardWriter, Reported};
use desk_replica::{Answer, copy_refusal};
use desk_types::{ClientId, Refusal, RequestNumber};
use std::marker::Model;
use std::sync::Wait;

/// A session that may wait for an answer. A contract sees all but the channel.
pub(crate) struct WaitingSession<B: BoardName> {
    to: Sender<Reported<B>>,
    awaits: Awaited,
    unsent: Option<Reported<B>>,
    asked: Option<(ClientId, RequestNumber)>,
    ticks: u64,
}

// Written out, so that callers need not prove each part's drop.
impl<B: BoardName> Drop for WaitingSession<B> {
    fn drop(self) {
        let WaitingSession {
            to: _,
            awaits: _,
            unsent: _,
            asked: _,
            ticks: _,
        } = self;
    }
}

impl<B: BoardName> Model for WaitingSession<B> {
    ghost use Rattle.std.specs.Option.{option_map};
    ghost use Rattle.desk_threads.specs.Waiting.{SessionValue, said};

    ghost Value = { SessionValue };

    ghost view = { λ s. record {
      awaits = s.awaits;
      unsent = option_map (λ t. said t.published t.client t.number t.word) s.unsent;
      asked = s.asked;
      ticks = s.ticks;
    } };
}

// One tick more, up to the greatest number of them.
fn one_tick_more(ticks: u64) -> u64
    ensures { result ≡ one_more WAITING_TICKS ticks }
{
    if ticks < WAITING_TICKS {
        ticks + 1
    } else {
        ticks
    }
}

// What can be reported of a request; else what it waits for, as it was.
fn word_on<B: BoardName>(
    writer: &BoardWriter<B>,
    client: ClientId,
    number: RequestNumber,
    awaits: Awaited,
) -> Result<Reported<B>, Awaited>
    ensures { MatchResult result
        (λ t. word_on (published writer.now.inner) client number awaits
        ≡ Some (said t.published t.client t.number t.word))
        (λ back. (word_on (published writer.now.inner) client number awaits ≡ None) × (back ≡ awaits)) }
{
    match awaits {
        Awaited::Nothing => Err(Awaited::Nothing),
        Awaited::Commit => Err(Awaited::Commit),
        Awaited::Publish(place) => match writer.tell(client, number, place) {
            Some(reported) => Ok(reported),
            None => Err(Awaited::Publish(place)),
        },
        Awaited::Refusal(refusal) => Ok(writer.refuse(client, number, refusal)),
    }
}

impl<B: BoardName> WaitingSession<B> {
    /// A session that has asked nothing, and is answered on this channel.
    pub(crate) fn new(to: Sender<Reported<B>>) -> WaitingSession<B>
        ensures { result ≡ idle }
    {
        WaitingSession {
            to,
            awaits: Awaited::Nothing,
            unsent: None,
            asked: None,
            ticks: 0,
        }
    }

    // It waits for this from now on.
    fn wait_for(&mut self, next: Awaited)
        ensures { self.new ≡ awaiting next self.old }
    {
        drop(std::mem::replace(&mut self.awaits, next));
    }

    /// It waits for the commit of a request that it has made. What it waited for before is forgotten.
    pub(crate) fn ask(&mut self, client: ClientId, number: RequestNumber)
        ensures { self.new ≡ asking client number }
    {
        self.wait_for(Awaited::Commit);
        drop(self.unsent.take());
        self.asked = Some((client, number));
        self.ticks = 0;
    }

    // Its request is refused, where that is not answered yet.
    fn give_up(&mut self, refusal: Refusal)
        ensures { self.new ≡ given_up refusal self.old }
    {
        if self.awaits.is_open() {
            self.wait_for(Awaited::Refusal(refusal));
        } else {
            drop(refusal);
        }
    }

    /// Counts a tick; at the last one its request is refused.
    pub(crate) fn tick(&mut self)
        ensures { self.new ≡ after_tick self.old }
    {
        self.ticks = one_tick_more(self.ticks);
        if self.ticks == WAITING_TICKS {
            self.give_up(Refusal::Waiting);
        }
    }

    /// The node has stopped: an open request is refused by `NodeStopped`.
    pub(crate) fn stop(&mut self)
        ensures { self.new ≡ after_stop self.old }
    {
        self.give_up(Refusal::NodeStopped);
    }

    // Whether its last request is this one.
    fn has_asked(&self, client: ClientId, number: RequestNumber) -> bool
        ensures { result ≡ is_asked client number self.now.asked }
    {
        match self.asked {
            Some((c, n)) => c.get() == client.get() && n.get() == number.get(),
            None => false,
        }
    }

    // Its request is committed at a place.
    fn hear_reply(&mut self, client: ClientId, number: RequestNumber, place: u64)
        ensures { self.new ≡ answered client number (awaits.Publish place) self.old }
    {
        if self.awaits.is_commit() && self.has_asked(client, number) {
            self.wait_for(Awaited::Publish(place));
        }
    }

    // Its request is refused by the node.
    fn hear_refusal(&mut self, client: ClientId, number: RequestNumber, refusal: &Refusal)
        ensures { (self.new ≡ answered client number (awaits.Refusal refusal.now) self.old)
            ⊎ ((is_of_node refusal.now ≡ false) × (self.new ≡ self.old)) }
    {
        if self.awaits.is_commit() && self.has_asked(client, number) {
            match copy_refusal(refusal) {
                Some(copy) => self.wait_for(Awaited::Refusal(copy)),
                None => {}
            }
        }
    }

    /// Hears an answer. One to another request than the last one changes nothing.
    pub(crate) fn hear(&mut self, answer: &Answer)
        ensures { Hears answer.now self.old self.new }
    {
        match answer {
            Answer::Committed {
                client,
                number,
                place,
            } => self.hear_reply(*client, *number, *place),
            Answer::Refused {
                client,
                number,
                refusal,
            } => self.hear_refusal(*client, *number, refusal),
        }
    }

    // What can be reported of its last request. It is reported once.
    fn word_asked(&mut self, writer: &BoardWriter<B>) -> Option<Reported<B>>
        ensures { MatchOption result
            ((word_asked (published writer.now.inner) self.old.asked self.old.awaits ≡ None)
            × (self.new ≡ self.old))
            (λ t. (word_asked (published writer.now.inner) self.old.asked self.old.awaits
            ≡ Some (said t.published t.client t.number t.word)) × (self.new ≡ awaiting awaits.Nothing self.old)) }
    {
        match self.asked {
            None => None,
            Some((client, number)) => {
                let waited = std::mem::replace(&mut self.awaits, Awaited::Nothing);
                match word_on(writer, client, number, waited) {
                    Ok(reported) => Some(reported),
                    Err(waited) => {
                        self.wait_for(waited);
                        None
                    }
                }
            }
        }
    }

    // What can be reported to it now. It is reported once.
    fn word(&mut self, writer: &BoardWriter<B>) -> Option<Reported<B>>
        ensures { MatchOption result
            ((word_to_tell (published writer.now.inner) self.old ≡ None) × (self.new ≡ self.old))
            (λ t. (word_to_tell (published writer.now.inner) self.old
            ≡ Some (said t.published t.client t.number t.word)) × (self.new ≡ after_word self.old)) }
    {
        match self.unsent.take() {
            Some(reported) => {
                self.wait_for(Awaited::Nothing);
                Some(reported)
            }
            None => self.word_asked(writer),
        }
    }

    // What comes of a word that was given to its channel: where that had no room it is left for the next time, and
    // where its receiver is gone it is not.
    fn keep_unsent(&mut self, sent: Result<(), TrySendError<Reported<B>>>)
        requires { self.old.unsent ≡ None }
        ensures { self.new ≡ after_send sent (λ t. said t.published t.client t.number t.word) self.old }
    {
        match sent {
            Ok(()) => {}
            Err(TrySendError::Disconnected(reported)) => drop(reported),
            Err(TrySendError::Full(reported)) => self.unsent = Some(reported),
            Err(TrySendError::OutOfMemory(reported)) => self.unsent = Some(reported),
        }
    }

    // Gives a word to its channel, and keeps it exactly where `keep_unsent` says.
    fn send<R: Wait>(&mut self, rt: &R, reported: Reported<B>)
        requires { self.old.unsent ≡ None }
        ensures { (self.new ≡ self.old)
            ⊎ (self.new ≡ with_unsent (said reported.published reported.client reported.number reported.word)
            self.old) }
    {
        let sent = self.to.try_send(rt, reported);
        self.keep_unsent(sent);
    }

    /// Reports what can be reported now. A word for which its channel has no room is left for the next time.
    pub(crate) fn tell<R: Wait>(&mut self, rt: &R, writer: &BoardWriter<B>)
        ensures { Tells (published writer.now.inner) self.old self.new }
    {
        match self.word(writer) {
            Some(reported) => self.send(rt, reported),
            None => {}
        }
    }
}
