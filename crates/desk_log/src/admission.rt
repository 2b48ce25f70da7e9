//! What a log makes of a client's request.

ghost use Rattle.std.specs.Prelude.{◌≡◌, ◌≤◌, length, Some};
ghost use Rattle.desk_log.specs.Admission.{admission, admission_of_new, admission_after};

use crate::log::Log;
use desk_types::limits::LOG_ENTRIES;
use desk_types::{ClientId, RequestNumber};

/// What a log makes of a client's request, by the client, the number and the entries alone.
#[derive(Clone, Copy)]
pub enum Admission {
    /// The request is new, and there is room to put it last.
    Append,
    /// The client's latest entry has the same number, and stands at the place: the request is sent again.
    Retry { place: u64 },
    /// The client's latest entry has a greater number, which is given.
    Stale { latest: RequestNumber },
    /// The request is new, and the log is full.
    Full,
}

impl Log {
    /// What the log makes of a request. Nothing is put into the log. The time is logarithmic in the number of clients.
    pub fn admission(&self, client: ClientId, number: RequestNumber) -> Admission
        ensures { result ≡ admission self.now client number }
    {
        match self.latest(client) {
            None => self.admission_of_new(),
            Some(place) => self.admission_after(number, place),
        }
    }

    /// A new request is put last, unless the log is full.
    fn admission_of_new(&self) -> Admission
        ensures { result ≡ admission_of_new self.now }
    {
        if self.len() >= LOG_ENTRIES {
            return Admission::Full;
        }
        Admission::Append
    }

    /// What the log makes of a request of the client whose latest entry stands at a place.
    fn admission_after(&self, number: RequestNumber, place: u64) -> Admission
        requires { (1 ≤ place) × (place ≤ length self.now) }
        ensures { result ≡ admission_after self.now number (Some place) }
    {
        let latest = self.at(place).number;
        if number.get() < latest.get() {
            return Admission::Stale { latest };
        }
        if number.get() == latest.get() {
            return Admission::Retry { place };
        }
        self.admission_of_new()
    }
}
