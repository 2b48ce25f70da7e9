//! A log that becomes another, with no copy of the entries that both have.

ghost use Rattle.std.specs.Prelude.{◌≡◌, ◌≤◌, ◌+◌, ◌++◌, length, take, OnOk, OnErr};

use crate::log::Log;
use desk_types::limits::LOG_ENTRIES;
use desk_types::{Entry, WantOfMemory};

/// Puts equal entries last.
fn append_copies(log: &mut Log, entries: &[Entry]) -> Result<(), WantOfMemory>
    requires room { length log.old + length entries.now ≤ LOG_ENTRIES }
    ensures appended { OnOk result (log.new ≡ log.old ++ entries.now) }
    ensures preserved { OnErr result ((more : _) × (log.new ≡ log.old ++ more)) }
    ensures longer { length log.old ≤ length log.new }
    ensures most { length log.new ≤ LOG_ENTRIES }
{
    for entry in entries {
        let Ok(_) = log.append(entry.copy()?) else {
            return Err(WantOfMemory);
        };
    }
    Ok(())
}

impl Log {
    /// Becomes another log, where the caller knows that both begin with the same `front` entries. What is only put last
    /// takes no time in the length of the log. Where memory is refused, all that was in the log stands, and maybe some
    /// of the other's entries after it.
    pub fn follow(&mut self, other: &Log, front: u64) -> Result<(), WantOfMemory>
        requires within { (front ≤ length self.old) × (front ≤ length other.now) }
        requires same { take front self.old ≡ take front other.now }
        ensures ok { OnOk result (self.new ≡ other.now) }
        ensures preserved { OnErr result ((more : _) × (self.new ≡ self.old ++ more)) }
        ensures longer { OnErr result (length self.old ≤ length self.new) }
        ensures most { length self.new ≤ LOG_ENTRIES }
    {
        let after = &other.entries()[front as usize..];
        if front == self.len() {
            return append_copies(self, after);
        }
        let more = other.copy_after(front)?;
        self.replace_after(front, more)
    }
}
