//! How many events of each kind get a line.

ghost use Rattle.std.specs.Prelude.{◌≡◌, ◌<◌, ◌⊎◌, nat_lt, slice_index};
ghost use Rattle.desk_events.specs.Rates.{is_announced, after_event, new_rates, rates_in, suppressed_before};
ghost use Rattle.desk_events.specs.Rates.{with_suppressed, without_suppressed};
ghost use Rattle.desk_events.specs.declared.event.TheConstants.{KINDS};
ghost use Rattle.desk_events.specs.declared.rates.TheConstants.{EVENTS_A_SECOND};

use crate::event::KINDS;

/// So many events of a kind get a line in one second at most.
pub const EVENTS_A_SECOND: u64 = 5;

/// The second that runs, how many events of each kind have got a line in it, and how many events got none.
#[derive(Drop)]
pub struct EventRates {
    second: u64,
    announced: [u64; KINDS],
    suppressed: u64,
}

impl EventRates {
    /// No event has come.
    pub fn new() -> EventRates
        ensures { result ≡ new_rates 0 }
    {
        EventRates {
            second: 0,
            announced: [0; KINDS],
            suppressed: 0,
        }
    }

    /// Goes to a second. Where that is another than before, it counts anew, and gives how many events got no line.
    pub fn go_to(&mut self, second: u64) -> u64
        ensures count { result ≡ suppressed_before second self.old }
        ensures rates { self.new ≡ rates_in second self.old }
    {
        if second == self.second {
            return 0;
        }
        let suppressed = self.suppressed;
        *self = EventRates {
            second,
            announced: [0; KINDS],
            suppressed: 0,
        };
        suppressed
    }

    /// Counts an event of a kind, and says whether it gets a line.
    pub fn admits(&mut self, kind: usize) -> bool
        requires { kind < KINDS }
        ensures announced { result ≡ is_announced kind self.old }
        ensures rates { self.new ≡ after_event kind self.old }
    {
        if self.announced[kind] < EVENTS_A_SECOND {
            self.announced[kind] += 1;
            return true;
        }
        self.suppressed = self.suppressed.saturating_add(1);
        false
    }

    /// Counts events that got no line for another reason.
    pub fn suppress(&mut self, count: u64)
        ensures { self.new ≡ with_suppressed count self.old }
    {
        self.suppressed = self.suppressed.saturating_add(count);
    }

    /// Gives how many events have got no line in the second that runs, and counts these anew.
    pub fn take_suppressed(&mut self) -> u64
        ensures count { result ≡ self.old.suppressed }
        ensures rates { self.new ≡ without_suppressed self.old }
    {
        let count = self.suppressed;
        self.suppressed = 0;
        count
    }
}
