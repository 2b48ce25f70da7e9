//! The thread that writes the lines.

ghost use Rattle.std.specs.Prelude.{◌≡◌, ◌/◌, [], OnOk, MatchResult};
ghost use Rattle.std.specs.Io.KnownBytes.{Appends};
ghost use Rattle.desk_events.specs.Events.{event_kind};
ghost use Rattle.desk_events.specs.Rates.{HaveAnnouncedSame, after_event, is_announced, rates_in};
ghost use Rattle.desk_events.specs.Written.{HasAnnouncedCounts, HasAnnouncedEvent};

use crate::event::Event;
use crate::line::{event_text, suppressed_text};
use crate::log::{EventLog, Taking};
use crate::rates::EventRates;
use crossbeam_channel::{Receiver, RecvTimeoutError, Sender, bounded};
use desk_output::write_text;
use desk_types::{Refusal, WantOfMemory};
use std::alloc::Global;
use std::io::Write;
use std::rt::Clock;
use std::sync::Wait;
use std::thread;
use std::thread::Threads;
use std::time::{Duration, SystemTime};

/// So long is waited at the end for who reads the lines, in milliseconds.
const END_MILLISECONDS: u64 = 1_000;

/// So long is waited for an event before it is written how many got no line, in milliseconds.
const PAUSE_MILLISECONDS: u64 = 1_000;

/// The milliseconds since 1970, 0 where the host tells no time.
fn milliseconds_now<R: Clock>(rt: &R) -> u64 {
    let Ok(now) = SystemTime::now(rt) else {
        return 0;
    };
    match now.duration_since(SystemTime::UNIX_EPOCH) {
        Ok(passed) => u64::try_from(passed.as_millis()).unwrap_or(u64::MAX),
        Err(_) => 0,
    }
}

/// Writes the lines of one node's events.
#[derive(Drop)]
struct EventWriter<W: Write> {
    alloc: Global,
    node: u8,
    writer: W,
    rates: EventRates,
}

impl<W: Write> EventWriter<W> {
    /// Writes a line, all of it at once. Nothing is written where there was no memory for it.
    fn write_line(&mut self, line: Result<Vec<u8>, WantOfMemory>) -> Result<(), Refusal>
        ensures node { self.new.node ≡ self.old.node }
        ensures line { OnOk result (MatchResult line
            (λ l. Appends (W.contents self.old.writer) (W.contents self.new.writer) l.items)
            (λ _. Appends (W.contents self.old.writer) (W.contents self.new.writer) [])) }
        ensures rates { HaveAnnouncedSame self.old.rates self.new.rates }
    {
        match line {
            Ok(line) => write_text(&mut self.writer, line.as_slice()),
            Err(WantOfMemory) => {
                self.rates.suppress(1);
                Ok(())
            }
        }
    }

    /// Writes how many events got no line, where some got none.
    fn write_count(&mut self, time: u64, count: u64) -> Result<(), Refusal>
        ensures node { self.new.node ≡ self.old.node }
        ensures counts { OnOk result
            (HasAnnouncedCounts time self.old.node (W.contents self.old.writer) (W.contents self.new.writer)) }
        ensures rates { HaveAnnouncedSame self.old.rates self.new.rates }
    {
        if count == 0 {
            return Ok(());
        }
        let line = suppressed_text(self.alloc, time, self.node, count);
        self.write_line(line)
    }

    /// Writes how many events got no line in the second before.
    fn turn(&mut self, time: u64) -> Result<(), Refusal>
        ensures node { self.new.node ≡ self.old.node }
        ensures counts { OnOk result
            (HasAnnouncedCounts time self.old.node (W.contents self.old.writer) (W.contents self.new.writer)) }
        ensures rates { HaveAnnouncedSame (rates_in (time / 1000) self.old.rates) self.new.rates }
    {
        let count = self.rates.go_to(time / 1_000);
        self.write_count(time, count)
    }

    /// Writes how many events got no line in the second before, and in the last one.
    fn close(&mut self, time: u64) -> Result<(), Refusal>
        ensures node { self.new.node ≡ self.old.node }
        ensures counts { OnOk result
            (HasAnnouncedCounts time self.old.node (W.contents self.old.writer) (W.contents self.new.writer)) }
        ensures rates { HaveAnnouncedSame (rates_in (time / 1000) self.old.rates) self.new.rates }
    {
        self.turn(time)?;
        let count = self.rates.take_suppressed();
        self.write_count(time, count)
    }

    /// Writes how many events got no line before this one. No count of events follows the last event.
    fn count_before(&mut self, time: u64, event: &Event) -> Result<(), Refusal>
        ensures node { self.new.node ≡ self.old.node }
        ensures counts { OnOk result
            (HasAnnouncedCounts time self.old.node (W.contents self.old.writer) (W.contents self.new.writer)) }
        ensures rates { HaveAnnouncedSame (rates_in (time / 1000) self.old.rates) self.new.rates }
    {
        if matches!(event, Event::End { .. }) {
            self.close(time)
        } else {
            self.turn(time)
        }
    }

    /// Writes the line of an event, where it gets one.
    fn write(&mut self, time: u64, event: &Event) -> Result<(), Refusal>
        // A line is written only where fewer of its kind than may were written in this second, and is counted.
        ensures written { OnOk result (HasAnnouncedEvent time self.old.node event.now
            (is_announced (event_kind event.now) (rates_in (time / 1000) self.old.rates))
            (W.contents self.old.writer) (W.contents self.new.writer)) }
        ensures rates { OnOk result (HaveAnnouncedSame
            (after_event (event_kind event.now) (rates_in (time / 1000) self.old.rates)) self.new.rates) }
    {
        self.count_before(time, event)?;
        if !self.rates.admits(event.kind()) {
            return Ok(());
        }
        let line = event_text(self.alloc, time, self.node, event);
        self.write_line(line)
    }
}

/// Whether no event follows what was taken off the queue.
fn is_last(taken: &Result<Event, RecvTimeoutError>) -> bool {
    matches!(
        taken,
        Ok(Event::End { .. }) | Err(RecvTimeoutError::Disconnected)
    )
}

/// Writes the lines of events to the end of the node, or until they can't be written.
fn write_events<R: Wait + Clock, W: Write>(rt: &R, taking: &Taking, writer: &mut EventWriter<W>) {
    for _ in rt.forever() {
        let taken = taking
            .from
            .recv_timeout(rt, Duration::from_millis(PAUSE_MILLISECONDS));
        writer.rates.suppress(taking.lost());
        let time = milliseconds_now(rt);
        let written = match &taken {
            Ok(event) => writer.write(time, event),
            Err(RecvTimeoutError::Timeout) => writer.turn(time),
            Err(RecvTimeoutError::Disconnected) => writer.close(time),
        };
        if written.is_err() || is_last(&taken) {
            return;
        }
    }
}

/// The log of a node, and the thread that writes its lines, where it has one.
pub struct EventThread {
    log: EventLog,
    /// Gets nothing, and is closed once the thread has ended.
    ended: Option<Receiver<()>>,
}

// Written out, so that callers need not prove each part's drop.
impl Drop for EventThread {
    fn drop(self) {
        let EventThread { log: _, ended: _ } = self;
    }
}

impl EventThread {
    /// That of a node without a log.
    pub fn none() -> EventThread {
        EventThread {
            log: EventLog::none(),
            ended: None,
        }
    }

    /// The log.
    pub fn log(&self) -> &EventLog {
        &self.log
    }

    /// Tells why the node ends, with its standard input or by a fault, and waits until all is written, for two seconds
    /// at most.
    pub fn end<R: Wait + Clock>(self, rt: &R, outcome: &Result<(), Refusal>) {
        let EventThread { log, ended } = self;
        let limit = Duration::from_millis(END_MILLISECONDS);
        let why = match outcome {
            Ok(()) => "input",
            Err(refusal) => refusal.name(),
        };
        log.announce_last(rt, Event::End { why }, limit);
        if let Some(ended) = ended {
            let _ = ended.recv_timeout(rt, limit);
        }
    }
}

/// Starts the thread that writes the lines of a node's events. Err where memory or the thread is refused.
pub fn start_log<
    R: Threads + Wait + Clock + Drop + Copy + Send + Sync + 'static,
    W: Write + Drop + Send + 'static,
>(rt: &R, alloc: Global, node: u8, writer: W) -> Result<EventThread, WantOfMemory> {
    let (log, taking) = EventLog::open(alloc)?;
    let (running, ended): (Sender<()>, Receiver<()>) = bounded(alloc, 1)?;
    let handle = *rt;
    let mut lines = EventWriter {
        alloc,
        node,
        writer,
        rates: EventRates::new(),
    };
    let written = thread::spawn(rt, move || {
        write_events(&handle, &taking, &mut lines);
        drop(running);
    });
    match written {
        Ok(_) => Ok(EventThread {
            log,
            ended: Some(ended),
        }),
        Err(refused) => {
            drop(refused);
            Err(WantOfMemory)
        }
    }
}
