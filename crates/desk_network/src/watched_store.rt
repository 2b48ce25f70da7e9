//! The store of a node whose saves are announced.

ghost use Rattle.std.specs.Prelude.{◌≡◌, ◌<◌, Some};
ghost use Rattle.std.specs.Option.{option_map};
ghost use Rattle.desk_log.specs.Quorum.{primary};
ghost use Rattle.desk_network.specs.Watched.{epoch_event, level_after, view_begun, view_event, view_after};
ghost use Rattle.desk_network.specs.Watched.{IsUntold};

use desk_events::{Event, EventLog};
use desk_log::{Saved, StateStore};
use desk_types::limits::LOG_ENTRIES;
use desk_types::{Refusal, WantOfMemory};
use std::rt::Clock;
use std::sync::Wait;
use std::time::Instant;

/// A save that takes longer is announced, in milliseconds.
const SLOW_SAVE_MILLISECONDS: u64 = 100;

/// What is announced of the states that a node saves.
pub(crate) struct SaveNews<R> {
    rt: R,
    log: EventLog,
    /// How many nodes its group has.
    nodes: u8,
    /// The epoch of which states are saved.
    epoch: u64,
    /// The view that was announced last, where one was.
    view: Option<u64>,
    /// How many entries the log had that was saved last, where one was.
    entries: Option<u64>,
    ghost some: { 0 < nodes },
}

// Written out, so that callers need not prove each part's drop.
impl<R: Drop> Drop for SaveNews<R> {
    fn drop(self) {
        let SaveNews {
            rt: _,
            log: _,
            nodes: _,
            epoch: _,
            view: _,
            entries: _,
        } = self;
    }
}

/// The view of a saved state, where the node is normal in it, and it is not the one that was announced last.
fn view_begun(last: Option<u64>, saved: &Saved) -> Option<u64>
    ensures { result ≡ view_begun last saved.now }
{
    if !saved.is_normal() || last == Some(saved.view()) {
        return None;
    }
    Some(saved.view())
}

/// The place after which nothing may have been heard of where the node is level at a save of so many entries, and None
/// where the save has nothing to do with that. Whether a view begins counts, since who asked for entries at a change of
/// view may have lacked none.
fn level_after(before: Option<u64>, entries: u64, begins: bool) -> Option<u64>
    ensures { result ≡ level_after before entries begins }
{
    let Some(before) = before else {
        return Some(entries);
    };
    if before < entries || begins {
        Some(LOG_ENTRIES)
    } else {
        None
    }
}

impl<R: Clock + Wait> SaveNews<R> {
    pub(crate) fn new(rt: R, log: EventLog, nodes: u8, epoch: u64) -> SaveNews<R>
        requires { 0 < nodes }
        ensures { IsUntold epoch result.epoch result.entries }
    {
        SaveNews {
            rt,
            log,
            nodes,
            epoch,
            view: None,
            entries: None,
        }
    }

    /// The node that leads in a view.
    fn leader(&self, view: u64) -> u8
        ensures { result ≡ primary self.now.nodes view }
    {
        (view % self.nodes as u64) as u8
    }

    /// When a save begins, where that is of interest.
    fn begin(&self) -> Option<Instant> {
        if !self.log.announces() {
            return None;
        }
        Instant::now(&self.rt).ok()
    }

    /// Tells of a save that took long.
    fn announce_time(&self, begun: Instant) {
        let Ok(passed) = begun.elapsed(&self.rt) else {
            return;
        };
        let milliseconds = u64::try_from(passed.as_millis()).unwrap_or(u64::MAX);
        if milliseconds > SLOW_SAVE_MILLISECONDS {
            self.log
                .announce(&self.rt, Event::SlowSave { milliseconds });
        }
    }

    /// What is to be announced of the epoch of a log of so many entries that was saved, where it begins.
    fn epoch_news(&mut self, entries: u64) -> Option<Event>
        ensures event { result ≡ epoch_event self.old.entries self.old.epoch }
        ensures entries { self.new.entries ≡ Some entries }
    {
        match self.entries.replace(entries) {
            None => Some(Event::Epoch { epoch: self.epoch }),
            Some(_) => None,
        }
    }

    /// Tells what is to be announced, if anything.
    fn announce_news(&self, news: Option<Event>) {
        if let Some(event) = news {
            self.log.announce(&self.rt, event);
        }
    }

    /// Tells that the node lacks nothing, where nothing after a place of its epoch was heard of.
    fn announce_level(&self, place: u64, entries: u64) {
        if !self.log.has_heard_after(self.epoch, place) {
            self.log.announce_level(&self.rt, entries);
        }
    }

    /// What is to be announced of the view of a state that was saved, where it begins.
    fn view_news(&mut self, saved: &Saved) -> Option<Event>
        ensures event { result ≡ option_map (view_event self.old.nodes) (view_begun self.old.view saved.now) }
        ensures view { self.new.view ≡ view_after self.old.view saved.now }
    {
        let view = view_begun(self.view, saved)?;
        self.view = Some(view);
        let leader = self.leader(view);
        Some(Event::View { view, leader })
    }

    /// Tells of a state that was saved, where there is a log.
    fn announce_saved(&mut self, begun: Option<Instant>, saved: &Saved) {
        if !self.log.announces() {
            return;
        }
        if let Some(begun) = begun {
            self.announce_time(begun);
        }
        let (before, entries) = (self.entries, saved.log().len());
        self.log.note_saved(self.epoch, saved.view(), entries);
        let epoch = self.epoch_news(entries);
        let view = self.view_news(saved);
        let after = level_after(before, entries, view.is_some());
        self.announce_news(epoch);
        self.announce_news(view);
        if let Some(place) = after {
            self.announce_level(place, entries);
        }
    }
}

/// A store of which it is announced that its epoch begins, how long saves take, and in which views the node is normal.
pub(crate) struct WatchedStore<S, R> {
    store: S,
    news: SaveNews<R>,
}

// Written out, so that callers need not prove each part's drop.
impl<S: Drop, R: Drop> Drop for WatchedStore<S, R> {
    fn drop(self) {
        let WatchedStore { store: _, news: _ } = self;
    }
}

impl<S, R> WatchedStore<S, R> {
    pub(crate) fn new(store: S, news: SaveNews<R>) -> WatchedStore<S, R>
        ensures store { result.store ≡ store }
        ensures news { result.news ≡ news }
    {
        WatchedStore { store, news }
    }
}

impl<S, R: Drop> WatchedStore<S, R> {
    /// The store.
    pub(crate) fn into_store(self) -> S
        ensures { result ≡ self.store }
    {
        let WatchedStore { store, news: _ } = self;
        store
    }
}

impl<S: StateStore, R: Clock + Wait> StateStore for WatchedStore<S, R> {
    ghost last = { λ w. S.last w.store };

    ghost stopped = { λ w. S.stopped w.store };

    ghost keeps = { λ old new. S.keeps old.store new.store };

    ghost leaves = { λ old saved new. S.leaves old.store saved new.store };

    fn copy_last(&self) -> Result<Saved, WantOfMemory> {
        self.store.copy_last()
    }

    fn save_state(&mut self, saved: &Saved, known: u64) -> Result<(), Refusal> {
        let begun = self.news.begin();
        let outcome = self.store.save_state(saved, known);
        if outcome.is_ok() {
            self.news.announce_saved(begun, saved);
        }
        outcome
    }

    ghost preserved_still = { λ w. S.preserved_still w.store };

    ghost preserved_further = { λ old mid new first last.
        S.preserved_further old.store mid.store new.store first last };
}
