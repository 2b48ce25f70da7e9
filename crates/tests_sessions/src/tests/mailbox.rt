//! When a mailbox tells that no sender is left.

use desk_mailbox::{Sender, Taker, open_mailbox};
use std::alloc::Global;
use std::rt::Clock;
use std::sync::Wait;
use std::thread;
use std::thread::Threads;
use std::time::Duration;

/// What is put, one after the other.
const PUT: [u64; 3] = [7, 8, 9];

/// The pause before each put, and before the sender goes, in milliseconds.
const PAUSE_MS: u64 = 20;

/// Puts all, each after a pause in which the mailbox is empty.
fn put_slowly<R: Wait + Clock>(rt: &R, sender: Sender<u64>) {
    let mut sender = sender;
    for number in PUT {
        thread::sleep(rt, Duration::from_millis(PAUSE_MS));
        let (back, put) = sender.put(rt, number);
        drop(put);
        sender = back;
    }
    thread::sleep(rt, Duration::from_millis(PAUSE_MS));
    drop(sender);
}

/// Whether a taker gives all that was put, and then nothing.
fn gives_all<R: Wait>(rt: &R, taker: Taker<u64>) -> bool {
    let mut taker = taker;
    for number in PUT {
        let (back, sent) = taker.take(rt);
        taker = back;
        match sent {
            Some(sent) if sent.item == number => {}
            _ => return false,
        }
    }
    let (taker, sent) = taker.take(rt);
    drop(taker);
    sent.is_none()
}

/// Whether a taker waits at an empty mailbox as long as a sender is left. True where there is no memory for one.
fn waits_for_senders<R: Threads + Wait + Clock + Sync>(rt: &R, alloc: Global) -> bool {
    let Ok((taker, senders)) = open_mailbox::<u64>(alloc, PUT.len(), 1) else {
        return true;
    };
    let mut senders = senders;
    let Some(sender) = senders.pop() else {
        drop(taker);
        return false;
    };
    let (all, _) = thread::join(rt, || gives_all(rt, taker), || put_slowly(rt, sender));
    all
}

#[test]
fn none_is_taken_only_once_no_sender_is_left(rt: HostRuntime) {
    let alloc = rt.alloc();
    assert!(rt; waits_for_senders(&rt, alloc));
}
