//! The sessions that wait for an answer. Each waits for one at a time, so a word for each is enough.

ghost use Rattle.std.specs.Prelude.{◌≡◌, ◌++◌, ◌∷◌, [], map, option_to_list, MatchResult};
ghost use Rattle.std.specs.List.{AllZip};
ghost use Rattle.desk_published.specs.Writer.{published};
ghost use Rattle.desk_replica.specs.Answers.{session_answer, session_answers};
ghost use Rattle.desk_threads.specs.Waiting.{idle, after_tick, after_stop, after_item, Hears, HearsAll, Tells};

use crate::waiting_session::WaitingSession;
use crossbeam_channel::Sender;
use desk_mailbox::Item;
use desk_published::{BoardName, BoardWriter, Reported};
use desk_replica::{Answer, StepAnswers, session_answer};
use desk_types::{Outcome, WantOfMemory};
use std::alloc::Global;
use std::marker::Model;
use std::sync::Wait;

/// The sessions of a node, by number from 0 in the order in which they were added. A contract sees what becomes of
/// each: what it waits for, and which answer it is to get.
pub struct WaitingSessions<B: BoardName> {
    sessions: Vec<WaitingSession<B>>,
}

// Written out, so that callers need not prove each part's drop.
impl<B: BoardName> Drop for WaitingSessions<B> {
    fn drop(self) {
        let WaitingSessions { sessions: _ } = self;
    }
}

impl<B: BoardName> Model for WaitingSessions<B> {
    ghost use Rattle.std.specs.Prelude.{List};
    ghost use Rattle.desk_threads.specs.Waiting.{SessionValue};

    ghost Value = { List SessionValue };

    ghost view = { λ w. w.sessions.items };
}

fn tick_all<B: BoardName>(sessions: &mut Vec<WaitingSession<B>>)
    ensures { sessions.new.items ≡ map after_tick sessions.old.items }
{
    for session in sessions.iter_mut() {
        session.tick();
    }
}

fn stop_all<B: BoardName>(sessions: &mut Vec<WaitingSession<B>>)
    ensures { sessions.new.items ≡ map after_stop sessions.old.items }
{
    for session in sessions.iter_mut() {
        session.stop();
    }
}

fn each_hears<B: BoardName>(sessions: &mut Vec<WaitingSession<B>>, answer: &Answer)
    ensures { AllZip (Hears answer.now) sessions.old.items sessions.new.items }
{
    for session in sessions.iter_mut() {
        session.hear(answer);
    }
}

fn each_hears_outcome<B: BoardName>(
    sessions: &mut Vec<WaitingSession<B>>,
    base: u64,
    outcome: &Outcome,
)
    ensures { AllZip (HearsAll (option_to_list (session_answer base outcome.now))) sessions.old.items
        sessions.new.items }
{
    match session_answer(base, outcome) {
        Some(answer) => each_hears(sessions, &answer),
        None => {}
    }
}

fn each_hears_all<B: BoardName>(
    sessions: &mut Vec<WaitingSession<B>>,
    base: u64,
    outcomes: &[Outcome],
)
    ensures { AllZip (HearsAll (session_answers base outcomes.now)) sessions.old.items sessions.new.items }
{
    for outcome in outcomes {
        each_hears_outcome(sessions, base, outcome);
    }
}

fn tell_each<B: BoardName, R: Wait>(
    sessions: &mut Vec<WaitingSession<B>>,
    rt: &R,
    writer: &BoardWriter<B>,
)
    ensures { AllZip (Tells (published writer.now.inner)) sessions.old.items sessions.new.items }
{
    for session in sessions.iter_mut() {
        session.tell(rt, writer);
    }
}

impl<B: BoardName> WaitingSessions<B> {
    /// No sessions. It takes no memory.
    pub fn new(alloc: Global) -> WaitingSessions<B>
        ensures { result ≡ [] }
    {
        WaitingSessions {
            sessions: Vec::new(alloc),
        }
    }

    /// One session more, which gets its answers on this channel. It has the next number.
    pub fn add(&mut self, to: Sender<Reported<B>>) -> Result<(), WantOfMemory>
        ensures { MatchResult result (λ _. self.new ≡ self.old ++ idle ∷ []) (λ _. self.new ≡ self.old) }
    {
        self.sessions.reserve(1)?;
        self.sessions.push_reserved(WaitingSession::new(to));
        Ok(())
    }

    /// An item has come. The session whose request it is waits for that from now on. At a tick those that have waited
    /// for `WAITING_TICKS` of them are refused by `Waiting`, at a stop all that wait by `NodeStopped`.
    pub fn note(&mut self, item: &Item)
        ensures { self.new ≡ after_item item.now self.old }
    {
        match item {
            Item::Request { session, entry } => {
                let at = *session as usize;
                if at < self.sessions.len() {
                    self.sessions[at].ask(entry.client, entry.number);
                }
            }
            Item::Packet(_) => {}
            Item::Tick => tick_all(&mut self.sessions),
            Item::Stop => stop_all(&mut self.sessions),
        }
    }

    /// The node has answered. A session that waits for the commit of an answered request waits from now on for its
    /// publish, or is to get its refusal.
    pub fn hear(&mut self, answers: &StepAnswers)
        ensures { AllZip (HearsAll answers.now) self.old self.new }
    {
        let (base, outcomes, own) = answers.parts();
        each_hears_all(&mut self.sessions, base, outcomes);
        if let Some(answer) = own {
            each_hears(&mut self.sessions, answer);
        }
    }

    /// The node has stopped: all that wait are refused by `NodeStopped`.
    pub fn stop(&mut self)
        ensures { self.new ≡ map after_stop self.old }
    {
        stop_all(&mut self.sessions);
    }

    /// Sends each session the answer that it can have now: that its request is published, only where it stands at its
    /// place among what is. It never waits for a receiver: a word for which a channel has no room is left for the next
    /// time.
    pub fn tell<R: Wait>(&mut self, rt: &R, writer: &BoardWriter<B>)
        ensures { AllZip (Tells (published writer.now.inner)) self.old self.new }
    {
        tell_each(&mut self.sessions, rt, writer);
    }
}
