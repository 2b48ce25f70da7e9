//! What the page's server has counted.

ghost use Rattle.std.specs.Prelude.{◌≡◌, ◌-◌, map};
ghost use Rattle.desk_metrics.specs.Counts.{next_count, after_outcome, latency_after, counted_status};

use crate::latency::Latency;
use crate::status::{StatusCount, count_status};

/// What became of a text that a browser sent for nodes, from this site's own page.
#[derive(Clone, Copy, Debug, PartialEq, Eq)]
pub enum CommandOutcome {
    /// Each line got its final reply, and none of these is a refusal.
    Done,
    /// Each line got its final reply, and one of these is a refusal.
    Refused,
    /// Some line got no final reply in time.
    Unanswered,
    /// It was forwarded to no node, since nobody was free to do so in time.
    Busy,
}

/// What the page's server has counted since its start. A counter that has come to 2^64 - 1 stays there.
#[derive(Clone, Copy)]
pub struct Counts {
    /// Texts that browsers sent for nodes, by what became of them.
    pub done: u64,
    pub refused: u64,
    pub unanswered: u64,
    pub busy: u64,
    /// How long they took.
    pub latency: Latency,
    /// Connections of browsers that are open.
    pub connections: u64,
    /// Requests that were refused, by the status of the answer.
    pub statuses: [StatusCount; 10],
}

impl Counts {
    /// Nothing was counted.
    pub fn new() -> Counts {
        Counts {
            done: 0,
            refused: 0,
            unanswered: 0,
            busy: 0,
            latency: Latency::new(),
            connections: 0,
            statuses: [
                StatusCount::new(400),
                StatusCount::new(403),
                StatusCount::new(404),
                StatusCount::new(405),
                StatusCount::new(413),
                StatusCount::new(414),
                StatusCount::new(421),
                StatusCount::new(431),
                StatusCount::new(500),
                StatusCount::new(501),
            ],
        }
    }

    /// Counts what became of a text that a browser sent for nodes.
    pub fn count_outcome(&mut self, outcome: CommandOutcome)
        ensures { self.new ≡ after_outcome outcome self.old }
    {
        match outcome {
            CommandOutcome::Done => self.done = self.done.saturating_add(1),
            CommandOutcome::Refused => self.refused = self.refused.saturating_add(1),
            CommandOutcome::Unanswered => self.unanswered = self.unanswered.saturating_add(1),
            CommandOutcome::Busy => self.busy = self.busy.saturating_add(1),
        }
    }

    /// Counts how many microseconds such a text took.
    pub fn count_latency(&mut self, microseconds: u64)
        ensures latency { self.new.latency ≡ latency_after microseconds self.old.latency }
        ensures connections { self.new.connections ≡ self.old.connections }
        ensures statuses { self.new.statuses ≡ self.old.statuses }
    {
        self.latency.observe(microseconds);
    }

    /// Counts an answer with this status, where it is that of a refused request.
    pub fn count_answer(&mut self, status: u16)
        ensures statuses { self.new.statuses ≡ map (counted_status status) self.old.statuses }
        ensures connections { self.new.connections ≡ self.old.connections }
        ensures latency { self.new.latency ≡ self.old.latency }
    {
        count_status(&mut self.statuses, status);
    }

    /// A connection begins.
    pub fn open_connection(&mut self)
        ensures connections { self.new.connections ≡ next_count self.old.connections }
        ensures statuses { self.new.statuses ≡ self.old.statuses }
        ensures latency { self.new.latency ≡ self.old.latency }
    {
        self.connections = self.connections.saturating_add(1);
    }

    /// A connection ends.
    pub fn close_connection(&mut self)
        ensures connections { self.new.connections ≡ self.old.connections - 1 }
        ensures statuses { self.new.statuses ≡ self.old.statuses }
        ensures latency { self.new.latency ≡ self.old.latency }
    {
        self.connections = self.connections.saturating_sub(1);
    }
}
