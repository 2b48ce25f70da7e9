//! Long packets, and asks for such, that come again for a node.

use desk_peers::{LONG_PACKET_ENTRIES, PeerQueue, PeerQueues, open_queues};
use desk_types::{
    ClientId, Command, Entry, EpochPacket, Items, Message, Packet, Purpose, RequestNumber, UnitName,
};
use std::alloc::Global;
use std::sync::Wait;
use std::test::Fail;
use std::time::{Clock, Duration};

/// How often each packet comes.
const TIMES: u64 = 20;

/// A client's request to take a unit off duty.
fn entry(alloc: Global) -> Option<Entry> {
    let unit = UnitName::new(alloc, "E1").ok()?;
    Some(Entry {
        client: ClientId::new(7)?,
        number: RequestNumber::new(1)?,
        command: Command::SignOff { at: 0, unit },
    })
}

/// A log of so many entries.
fn log_of(alloc: Global, entries: usize) -> Option<Items<Entry>> {
    let mut log = Items::new(alloc);
    for _ in 0..entries {
        log.push(entry(alloc)?).ok()?;
    }
    Some(log)
}

/// What differs between one offer and the next.
#[derive(Clone, Copy, PartialEq, Eq)]
enum Differs {
    Nothing,
    View,
    Epoch,
    Purpose,
}

/// The offer of a log of so many entries for a view.
fn offer(alloc: Global, view: u64, entries: usize) -> Option<Packet> {
    let message = Message::DoViewChange {
        from: 1,
        view,
        normal: 0,
        commit: 0,
        log: log_of(alloc, entries)?,
    };
    if !message.is_in_range() {
        drop(message);
        return None;
    }
    Some(Packet::new(message))
}

/// The offer that comes after so many others.
fn offer_after(alloc: Global, time: u64, entries: usize, differs: Differs) -> Option<EpochPacket> {
    let view = if differs == Differs::View { time } else { 0 };
    let is_tell = differs == Differs::Purpose && time % 2 == 1;
    Some(EpochPacket {
        epoch: if differs == Differs::Epoch { time } else { 0 },
        purpose: if is_tell {
            Purpose::Tell
        } else {
            Purpose::Step
        },
        packet: offer(alloc, view.wrapping_add(1), entries)?,
    })
}

/// How many offers are put for node 0.
fn count_put<R: Wait + Clock + Drop>(
    alloc: Global,
    queues: &mut PeerQueues<R>,
    entries: usize,
    differs: Differs,
) -> Option<u64> {
    let mut put: u64 = 0;
    for time in 0..TIMES {
        if queues.put(0, offer_after(alloc, time, entries, differs)?) {
            put = put.wrapping_add(1);
        }
    }
    Some(put)
}

/// How many offers are put into new queues.
fn put_of<R: Wait + Clock + Drop + Copy>(
    rt: R,
    alloc: Global,
    entries: usize,
    differs: Differs,
) -> Option<u64> {
    let (mut queues, ends) = open_queues(rt, alloc, 1, 3).ok()?;
    let put = count_put(alloc, &mut queues, entries, differs);
    drop(queues);
    drop(ends);
    put
}

const ROWS: &[(usize, Differs, u64)] = &[
    (LONG_PACKET_ENTRIES, Differs::Nothing, 2),
    (LONG_PACKET_ENTRIES - 1, Differs::Nothing, TIMES),
    (LONG_PACKET_ENTRIES, Differs::View, TIMES),
    (LONG_PACKET_ENTRIES, Differs::Epoch, TIMES),
    (LONG_PACKET_ENTRIES, Differs::Purpose, TIMES),
];

#[test]
fn a_long_packet_that_comes_again_is_put_each_tenth_time(rt: HostRuntime) -> Result<(), Fail> {
    let alloc = rt.alloc();
    for (entries, differs, wanted) in ROWS {
        assert!(rt; put_of(rt, alloc, *entries, *differs) == Some(*wanted));
    }
    Ok(())
}

/// A past log of so many entries, as it is sent to who asked for it.
fn past_log(alloc: Global, entries: usize) -> Option<EpochPacket> {
    let message = Message::NewState {
        from: 1,
        view: 0,
        base: 0,
        commit: entries as u64,
        entries: log_of(alloc, entries)?,
    };
    if !message.is_in_range() {
        drop(message);
        return None;
    }
    Some(EpochPacket {
        epoch: 0,
        purpose: Purpose::Tell,
        packet: Packet::new(message),
    })
}

/// How many of twenty equal past logs are put into new queues.
fn past_logs_put<R: Wait + Clock + Drop + Copy>(rt: R, alloc: Global) -> Option<u64> {
    let (mut queues, ends) = open_queues(rt, alloc, 1, 3).ok()?;
    let mut put: u64 = 0;
    for _ in 0..TIMES {
        if queues.put(0, past_log(alloc, LONG_PACKET_ENTRIES)?) {
            put = put.wrapping_add(1);
        }
    }
    drop(queues);
    drop(ends);
    Some(put)
}

#[test]
fn a_past_log_that_comes_again_is_put_seldom(rt: HostRuntime) {
    let put = past_logs_put(rt, rt.alloc()).unwrap_or(0);
    assert!(rt; 1 <= put && put <= 4, "{put}");
}

/// An ask for the entries after a place, for this purpose.
fn ask(purpose: Purpose, base: u64) -> Option<EpochPacket> {
    let message = Message::GetState {
        from: 1,
        view: 0,
        base,
    };
    if !message.is_in_range() {
        drop(message);
        return None;
    }
    Some(EpochPacket {
        epoch: 0,
        purpose,
        packet: Packet::new(message),
    })
}

/// Asks that come one after the other for one node, the place of each of which is so much past that of the one before,
/// with so long between.
#[derive(Clone, Copy)]
struct Asks {
    purpose: Purpose,
    step: u64,
    times: u64,
    milliseconds: u64,
}

/// How many asks are put into new queues.
fn asks_put<R: Wait + Clock + Drop + Copy>(rt: R, alloc: Global, asks: Asks) -> Option<u64> {
    let (mut queues, ends) = open_queues(rt, alloc, 1, 3).ok()?;
    let mut put: u64 = 0;
    for time in 0..asks.times {
        if queues.put(0, ask(asks.purpose, time.wrapping_mul(asks.step))?) {
            put = put.wrapping_add(1);
        }
        rt.sleep(Duration::from_millis(asks.milliseconds));
    }
    drop(queues);
    drop(ends);
    Some(put)
}

/// Asks, and how many are put at least and at most. Of equal ones by the rules one is put in 200 ms; a busy host may
/// stop for some of these.
const ASK_ROWS: &[(Asks, u64, u64)] = &[
    (
        Asks {
            purpose: Purpose::Step,
            step: 0,
            times: TIMES,
            milliseconds: 0,
        },
        1,
        10,
    ),
    (
        Asks {
            purpose: Purpose::Step,
            step: 0,
            times: 3,
            milliseconds: 250,
        },
        3,
        3,
    ),
    (
        Asks {
            purpose: Purpose::Step,
            step: 1,
            times: TIMES,
            milliseconds: 0,
        },
        TIMES,
        TIMES,
    ),
    (
        Asks {
            purpose: Purpose::Ask,
            step: 0,
            times: TIMES,
            milliseconds: 0,
        },
        TIMES,
        TIMES,
    ),
];

#[test]
fn an_ask_that_comes_again_is_put_once_in_200_milliseconds(rt: HostRuntime) {
    for (asks, least, most) in ASK_ROWS {
        let put = asks_put(rt, rt.alloc(), *asks).unwrap_or(0);
        assert!(rt; *least <= put && put <= *most, "{put}");
    }
}
