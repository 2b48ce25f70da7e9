//! The timer of a node.

use crate::ends::EndFlag;
use desk_mailbox::{Item, Sender};
use std::rt::Clock;
use std::sync::Wait;
use std::thread;
use std::time::Duration;

/// The milliseconds between two ticks.
const TICK_MILLISECONDS: u64 = 20;

/// Puts a stop or a tick, and says whether it was put. It is not where the keeper has ended.
fn put_next<R: Wait>(rt: &R, sender: Sender<Item>, stops: bool) -> (Sender<Item>, bool) {
    let item = if stops { Item::Stop } else { Item::Tick };
    let (sender, put) = sender.put(rt, item);
    let is_put = put.is_ok();
    drop(put);
    (sender, is_put)
}

/// Puts a tick every 20 milliseconds, and a stop once the node is to end.
pub(crate) fn tick<R: Clock + Wait>(rt: &R, ends: &EndFlag, sender: Sender<Item>) {
    let mut sender = sender;
    for _ in rt.forever() {
        let stops = ends.is_set();
        let (back, is_put) = put_next(rt, sender, stops);
        sender = back;
        if stops || !is_put {
            break;
        }
        thread::sleep(rt, Duration::from_millis(TICK_MILLISECONDS));
    }
}
