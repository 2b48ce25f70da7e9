//! Where the threads of a node put events.

use crate::event::Event;
use crate::heard::{heard_point, point};
use crossbeam_channel::{Receiver, Sender, TrySendError, bounded};
use desk_types::{EpochPacket, WantOfMemory};
use std::alloc::Global;
use std::rt::Clock;
use std::sync::atomic::{AtomicBool, AtomicU64, Ordering};
use std::sync::{Arc, Wait};
use std::time::Duration;

/// The events that wait for their lines at most.
pub const QUEUE_EVENTS: usize = 256;

/// What both ends of the queue know.
#[derive(Drop)]
struct Known {
    /// How many events found no room.
    lost: AtomicU64,
    /// Whether it was announced last that the node lacks entries.
    is_behind: AtomicBool,
    /// The greatest point that a packet of another node names.
    heard: AtomicU64,
    /// The view of the state that was saved last.
    saved_view: AtomicU64,
    /// The last point of the log that was saved last.
    saved: AtomicU64,
}

/// One end of the queue of events.
pub(crate) struct Putting {
    to: Sender<Event>,
    known: Arc<Known>,
}

// Written out, so that callers need not prove each part's drop.
impl Drop for Putting {
    fn drop(self) {
        let Putting { to: _, known: _ } = self;
    }
}

/// The other end.
pub(crate) struct Taking {
    pub(crate) from: Receiver<Event>,
    known: Arc<Known>,
}

// Written out, so that callers need not prove each part's drop.
impl Drop for Taking {
    fn drop(self) {
        let Taking { from: _, known: _ } = self;
    }
}

impl Taking {
    /// How many found no room since this was asked last.
    pub(crate) fn lost(&self) -> u64 {
        self.known.lost.swap(0, Ordering::SeqCst)
    }
}

/// Where a thread announces the events of its node; without a log nothing is announced.
pub struct EventLog {
    putting: Option<Putting>,
}

// Written out, so that callers need not prove each part's drop.
impl Drop for EventLog {
    fn drop(self) {
        let EventLog { putting: _ } = self;
    }
}

impl EventLog {
    /// That of a node without a log.
    pub fn none() -> EventLog {
        EventLog { putting: None }
    }

    /// Both ends of a new queue.
    pub(crate) fn open(alloc: Global) -> Result<(EventLog, Taking), WantOfMemory> {
        let (to, from): (Sender<Event>, Receiver<Event>) = bounded(alloc, QUEUE_EVENTS)?;
        let known = Known {
            lost: AtomicU64::new(0),
            is_behind: AtomicBool::new(false),
            heard: AtomicU64::new(0),
            saved_view: AtomicU64::new(0),
            saved: AtomicU64::new(0),
        };
        let Ok(known) = Arc::new(alloc, known) else {
            return Err(WantOfMemory);
        };
        let Ok(mine) = Arc::try_clone(&known) else {
            return Err(WantOfMemory);
        };
        let log = EventLog {
            putting: Some(Putting { to, known: mine }),
        };
        Ok((log, Taking { from, known }))
    }

    /// Whether anything is announced.
    pub fn announces(&self) -> bool {
        self.putting.is_some()
    }

    /// The same log, for another thread. Err where memory is refused.
    pub fn share(&self) -> Result<EventLog, WantOfMemory> {
        let Some(Putting { to, known }) = &self.putting else {
            return Ok(EventLog::none());
        };
        let to = to.clone()?;
        match Arc::try_clone(known) {
            Ok(known) => Ok(EventLog {
                putting: Some(Putting { to, known }),
            }),
            Err(_) => Err(WantOfMemory),
        }
    }

    /// Announces an event, where there is room for it. It does not wait for room.
    pub fn announce<R: Wait>(&self, rt: &R, event: Event) {
        let Some(Putting { to, known }) = &self.putting else {
            return;
        };
        match to.try_send(rt, event) {
            Ok(()) | Err(TrySendError::Disconnected(_)) => {}
            Err(_) => {
                known.lost.fetch_add(1, Ordering::SeqCst);
            }
        }
    }

    /// Notes how far a packet of another node says that the history goes.
    pub fn hear(&self, packet: &EpochPacket) {
        if let Some(Putting { to: _, known }) = &self.putting {
            known.heard.fetch_max(heard_point(packet), Ordering::SeqCst);
        }
    }

    /// Whether a packet named a later epoch, or a later place of this epoch that is committed. False without a log.
    pub fn has_heard_after(&self, epoch: u64, place: u64) -> bool {
        match &self.putting {
            Some(Putting { to: _, known }) => {
                known.heard.load(Ordering::SeqCst) > point(epoch, place)
            }
            None => false,
        }
    }

    /// Notes the view of a state that was saved, and how many entries its log of an epoch has.
    pub fn note_saved(&self, epoch: u64, view: u64, entries: u64) {
        if let Some(Putting { to: _, known }) = &self.putting {
            known.saved_view.store(view, Ordering::SeqCst);
            known.saved.store(point(epoch, entries), Ordering::SeqCst);
        }
    }

    /// Whether the state that was saved last is of this view or a later one, and no packet named a committed place
    /// after its log. Who asked for entries in this view has got them then. False without a log.
    pub fn has_all_since(&self, view: u64) -> bool {
        match &self.putting {
            Some(Putting { to: _, known }) => {
                view <= known.saved_view.load(Ordering::SeqCst)
                    && known.heard.load(Ordering::SeqCst) <= known.saved.load(Ordering::SeqCst)
            }
            None => false,
        }
    }

    /// Announces that the node lacks entries after a place, where it was not announced last.
    pub fn announce_behind<R: Wait>(&self, rt: &R, place: u64) {
        if let Some(Putting { to: _, known }) = &self.putting {
            if !known.is_behind.swap(true, Ordering::SeqCst) {
                self.announce(rt, Event::Behind { place });
            }
        }
    }

    /// Announces that the node has got entries up to a place, where it was announced last that it lacks some.
    pub fn announce_level<R: Wait>(&self, rt: &R, place: u64) {
        if let Some(Putting { to: _, known }) = &self.putting {
            if known.is_behind.swap(false, Ordering::SeqCst) {
                self.announce(rt, Event::Level { place });
            }
        }
    }

    /// Announces the last event, and waits for room so long.
    pub(crate) fn announce_last<R: Wait + Clock>(&self, rt: &R, event: Event, limit: Duration) {
        if let Some(Putting { to, known: _ }) = &self.putting {
            let _ = to.send_timeout(rt, event, limit);
        }
    }
}
