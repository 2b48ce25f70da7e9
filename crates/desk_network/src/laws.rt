//! Laws of the queues of a node that runs.

ghost use Rattle.desk_network.specs.Putting.{PutsIntoQueues, PutsAllIntoQueues, queue_ends};

use crate::keeping::QueuedPackets;
use desk_threads::Out;
use std::sync::Wait;
use std::time::Clock;

/// What becomes of the packets that the keeper of a node hands out while it is served. It does nothing: its clauses are
/// the laws.
pub fn queues<W: Wait + Clock + Drop>()
    // What the queue to a node is put is some of the packets that go to that node, in order, each at most once.
    ensures put { PutsIntoQueues ⟦<QueuedPackets<W> as Out>⟧ queue_ends }
    // So it is of all that was ever handed out.
    ensures all { PutsAllIntoQueues ⟦<QueuedPackets<W> as Out>⟧ queue_ends }
{}
