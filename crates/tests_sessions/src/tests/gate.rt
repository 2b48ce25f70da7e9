//! A gate at which a session waits until another has read.

use desk_sessions::Gate;
use std::rt::Clock;
use std::sync::atomic::{AtomicBool, AtomicU64, Ordering};
use std::thread;
use std::time::Duration;

/// So often a session looks whether it may go on, a millisecond apart. Then it goes on all the same.
const TURNS: u64 = 10_000;

/// A flag for which a session waits.
#[derive(Drop)]
pub(super) struct Flag {
    is_raised: AtomicBool,
    /// Who raised it was told the place `seen`.
    is_reported: AtomicBool,
    seen: AtomicU64,
    /// A session went on, though the flag was not raised.
    is_given_up: AtomicBool,
    /// How often a session was told that it had answered.
    answers: AtomicU64,
}

impl Flag {
    pub(super) fn new() -> Flag {
        Flag {
            is_raised: AtomicBool::new(false),
            is_reported: AtomicBool::new(false),
            seen: AtomicU64::new(0),
            is_given_up: AtomicBool::new(false),
            answers: AtomicU64::new(0),
        }
    }

    /// Whoever waits may go on. Who raises it may have been told a place.
    pub(super) fn raise(&self, place: Option<u64>) {
        if let Some(place) = place {
            self.seen.store(place, Ordering::SeqCst);
            self.is_reported.store(true, Ordering::SeqCst);
        }
        self.is_raised.store(true, Ordering::SeqCst);
    }

    /// The place that was told to who raised it, if one was.
    pub(super) fn seen(&self) -> Option<u64> {
        if self.is_reported.load(Ordering::SeqCst) {
            Some(self.seen.load(Ordering::SeqCst))
        } else {
            None
        }
    }

    /// Whether nobody went on before the flag was raised.
    pub(super) fn is_preserved(&self) -> bool {
        !self.is_given_up.load(Ordering::SeqCst)
    }

    /// How many lines were answered by the sessions that it holds.
    pub(super) fn answers(&self) -> u64 {
        self.answers.load(Ordering::SeqCst)
    }

    /// Waits until the flag is raised, or gives up.
    fn await_raised<R: Clock>(&self, rt: &R) {
        for _ in 0..TURNS {
            if self.is_raised.load(Ordering::SeqCst) {
                return;
            }
            thread::sleep(rt, Duration::from_millis(1));
        }
        self.is_given_up.store(true, Ordering::SeqCst);
    }
}

/// Holds a session before each read, until a flag is raised, and counts its answers.
#[derive(Drop)]
pub(super) struct FlagGate<'a, R: Clock> {
    pub(super) rt: &'a R,
    pub(super) flag: &'a Flag,
}

impl<'a, R: Clock> Gate for FlagGate<'a, R> {
    fn before_read(&self) {
        self.flag.await_raised(self.rt);
    }

    // One session alone is held by a flag.
    fn after_answer(&self) {
        let answers = self.flag.answers();
        self.flag
            .answers
            .store(answers.wrapping_add(1), Ordering::SeqCst);
    }
}
