//! Requests that were refused, by the status of the answer.

ghost use Rattle.std.specs.Prelude.{◌≡◌, map};
ghost use Rattle.desk_metrics.specs.Counts.{counted_status};

use crate::latency::counted;

/// How many answers had a status.
#[derive(Clone, Copy)]
pub struct StatusCount {
    pub status: u16,
    pub count: u64,
}

impl StatusCount {
    pub(crate) fn new(status: u16) -> StatusCount {
        StatusCount { status, count: 0 }
    }

    /// Counts an answer, where it has this status.
    fn count_answer(&mut self, status: u16)
        ensures { self.new ≡ counted_status status self.old }
    {
        self.count = counted(self.count, status == self.status);
    }
}

/// Counts an answer of this status.
pub(crate) fn count_status(statuses: &mut [StatusCount], status: u16)
    ensures { statuses.new ≡ map (counted_status status) statuses.old }
{
    for row in statuses.iter_mut() {
        row.count_answer(status);
    }
}
