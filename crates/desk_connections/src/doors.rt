//! A port that is listened at, as its threads see it.

ghost use Rattle.std.specs.Prelude.{◌≡◌};

use desk_admission::KeyedPort;
use desk_events::{Door, Event, EventLog, Why};
use desk_peers::PacketWatch;
use desk_types::EpochPacket;
use std::io::{Read, Result};
use std::sync::Wait;

/// The key of who is let in at a port, where it has one, and where it is announced who is refused there.
pub struct WatchedDoor {
    pub(crate) keyed: Option<KeyedPort>,
    log: EventLog,
    at: Door,
}

// Written out, so that callers need not prove each part's drop.
impl Drop for WatchedDoor {
    fn drop(self) {
        let WatchedDoor {
            keyed: _,
            log: _,
            at: _,
        } = self;
    }
}

impl WatchedDoor {
    /// The door of a port, with its key where it has one. It announces to the log who is refused there.
    pub fn new(keyed: Option<KeyedPort>, log: EventLog, at: Door) -> WatchedDoor
        ensures { result.keyed ≡ keyed }
    {
        WatchedDoor { keyed, log, at }
    }

    /// Tells that who connected was refused.
    pub(crate) fn announce_refused<R: Wait>(&self, rt: &R, why: Why) {
        self.log.announce(rt, Event::Refused { at: self.at, why });
    }
}

impl PacketWatch for WatchedDoor {
    fn see(&self, packet: &EpochPacket) {
        self.log.hear(packet);
    }
}

/// A reader that notes whether a read of it failed.
#[derive(Drop)]
pub(crate) struct NotedInput<I: Read> {
    inner: I,
    pub(crate) has_failed: bool,
}

impl<I: Read> NotedInput<I> {
    pub(crate) fn new(inner: I) -> NotedInput<I> {
        NotedInput {
            inner,
            has_failed: false,
        }
    }
}

impl<I: Read> Read for NotedInput<I> {
    ghost remaining = { λ noted. I.remaining noted.inner };

    fn read(&mut self, buf: &mut [u8]) -> Result<usize> {
        let read = self.inner.read(buf);
        if read.is_err() {
            self.has_failed = true;
        }
        read
    }
}
