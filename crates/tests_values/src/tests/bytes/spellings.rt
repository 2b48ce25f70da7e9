//! Spellings both ways, and bytes that are none.

use super::{Check, ENTRY, PREPARE, first_row, joined, packet_again, piece, put_again};
use desk_codec::{get_body, get_entry, get_packet, put_body};
use desk_types::{Command, Entry, Message, Packet};
use std::alloc::Global;
use std::test::Fail;

/// When a command was made, in eight bytes.
const AT: &[u8] = b"\0\0\0\0\x69\xa4\x2a\x40";

const INCIDENT: &[u8] = b"\x20urn:emergency:uid:incidentid:1:a";

const OTHER: &[u8] = b"\x1furn:nena:uid:incidentid:B-2:b.c";

const CALL: &[u8] = b"\x1durn:emergency:uid:callid:c1:a";

/// Seven bytes of zero, with which a number below 256 begins.
const ZEROS: &[u8] = b"\0\0\0\0\0\0\0";

/// The count of a log of one entry.
const ONE: &[u8] = b"\0\0\0\x01";

/// Client 7 has, by its number 11, `E1` stand down.
const STAND_DOWN: &[u8] =
    b"\0\0\0\0\0\0\0\x07\0\0\0\0\0\0\0\x0b\0\x0c\x10\0\0\0\0\x69\xa4\x2a\x40\x02E1";

/// The count of a log of two entries.
const TWO: &[u8] = b"\0\0\0\x02";

fn is_first_command(command: &Command) -> bool {
    match command {
        Command::Open {
            at,
            kind,
            site,
            incident: None,
            call: None,
        } => *at == 1_772_366_400 && kind.as_str() == "fire" && site.as_str() == "12 Elm St",
        _ => false,
    }
}

fn is_first_entry(entry: &Entry) -> bool {
    entry.client.get() == 7 && entry.number.get() == 1 && is_first_command(&entry.command)
}

/// Whether this is the first entry, and it has 44 bytes.
fn is_first_of_44(found: &(Entry, usize)) -> bool {
    found.1 == 44 && is_first_entry(&found.0)
}

/// Whether the bytes begin with the first entry, and it has 44 of them.
pub fn reads_first_entry(alloc: Global, bytes: &[u8]) -> bool {
    match get_entry(alloc, bytes) {
        Ok(found) => {
            let answer = is_first_of_44(&found);
            drop(found);
            answer
        }
        Err(_) => false,
    }
}

/// Whether bytes begin with the first entry, and no front of it does.
fn is_entry_alone(alloc: Global, bytes: &[u8]) -> bool {
    for count in 0..44 {
        if reads_first_entry(alloc, piece(bytes, 0, count)) {
            return false;
        }
    }
    reads_first_entry(alloc, bytes)
}

#[test]
fn reads_an_entry(rt: HostRuntime) -> Result<(), Fail> {
    let twice = joined(rt.alloc(), &[ENTRY, ENTRY])?;
    assert!(rt; is_entry_alone(rt.alloc(), twice.as_slice()));
    assert!(rt; reads_first_entry(rt.alloc(), ENTRY));
    Ok(())
}

fn is_first_prepare(message: &Message) -> bool {
    match message {
        Message::Prepare {
            from: 0,
            view: 0,
            place: 1,
            commit: 0,
            entry,
        } => is_first_entry(entry),
        _ => false,
    }
}

fn reads_first_prepare(alloc: Global, bytes: &[u8]) -> bool {
    match get_packet(alloc, bytes) {
        Ok(packet) => {
            let message = packet.into_message();
            let answer = is_first_prepare(&message);
            drop(message);
            answer
        }
        Err(_) => false,
    }
}

#[test]
fn reads_a_prepare(rt: HostRuntime) -> Result<(), Fail> {
    let alloc = rt.alloc();
    let frame = joined(alloc, &[PREPARE, ENTRY])?;
    assert!(rt; reads_first_prepare(alloc, piece(frame.as_slice(), 4, 75)));
    Ok(())
}

/// Whether a command is written as these bytes: 0 where it is, 40 where memory was refused, else 255.
fn put_body_again(alloc: Global, command: &Command, bytes: &[u8]) -> u8 {
    let mut again = Vec::new(alloc);
    match put_body(command, &mut again) {
        Err(_) => 40,
        Ok(()) => { if again.as_slice() == bytes { 0 } else { 255 } }
    }
}

/// Reads a body and writes it again: the number of the refusal, or 0 where the same bytes were written.
pub fn body_again(alloc: Global, bytes: &[u8]) -> u8 {
    match get_body(alloc, bytes) {
        Err(fault) => fault.refusal.number(),
        Ok(command) => {
            let answer = put_body_again(alloc, &command, bytes);
            drop(command);
            answer
        }
    }
}

/// A body of each verb.
pub const BODIES: &[&[&[u8]]] = &[
    &[
        b"\x01",
        AT,
        b"\x04fire\x0912 Elm St\x01",
        INCIDENT,
        b"\x01",
        CALL,
    ],
    &[b"\x02", AT, INCIDENT, CALL],
    &[b"\x03", AT, INCIDENT, OTHER],
    &[b"\x04", AT, INCIDENT, OTHER],
    &[b"\x05", AT, INCIDENT, OTHER],
    &[b"\x06", AT, INCIDENT, CALL, b"\x07medical\x04rear"],
    &[b"\x07", AT, INCIDENT],
    &[b"\x08\xff\xff\xff\xff\xff\xff\xff\xff", INCIDENT],
    &[b"\x09", AT, INCIDENT, b"\x05\xc3\xa9t\xc3\xa9"],
    &[b"\x0a", AT, b"\x02E1"],
    &[b"\x0b", AT, b"\x02E1"],
    &[b"\x0c", AT, b"\x02E1", INCIDENT],
    &[b"\x0d", AT, b"\x02E1\0"],
    &[b"\x0d", AT, b"\x02E1\x06"],
    &[b"\x0e", AT, b"\x02E1"],
    &[b"\x0f", AT, b"\x02E1", INCIDENT],
    &[b"\x10", AT, b"\x02E1"],
    &[b"\x11", AT, b"\0", ZEROS, b"\x01"],
    &[b"\x11", AT, b"\x04\0\0\0\xe8\xd4\xa5\x10\0"],
];

/// Bytes that are no body.
const OTHER_BODIES: &[&[&[u8]]] = &[
    &[],
    &[b"\0", AT, INCIDENT],
    &[b"\x0f", AT, b"\x02E1"],
    &[b"\x10", AT, b"\x02E1", INCIDENT],
    &[b"\x11", AT, b"\x02E1"],
    &[b"\x11", AT, b"\x05", ZEROS, b"\x01"],
    &[b"\x11", AT, b"\x02", ZEROS, b"\0"],
    &[b"\x11", AT, b"\x02\0\0\0\xe8\xd4\xa5\x10\x01"],
    &[b"\x11", AT, b"\x02", ZEROS, b"\x01\0"],
    &[b"\x12", AT, b"\x02E1"],
    &[b"\x07", AT, INCIDENT, b"\0"],
    &[b"\x07", AT, b"\x20URN:emergency:uid:incidentid:1:a"],
    &[b"\x07", AT, b"\x20urn:emergency:uid:incidentid:1:A"],
    &[b"\x07", AT, CALL],
    &[b"\x01", AT, b"\x04fire\x0912 Elm St\x02", INCIDENT, b"\0"],
    &[b"\x01", AT, b"\0\x0912 Elm St\0\0"],
    &[b"\x09", AT, INCIDENT, b"\x02\xc3\x28"],
    &[b"\x0a", AT, b"\x03E 1"],
    &[b"\x0a", AT, b"\x19abcdefghijklmnopqrstuvwxy"],
    &[b"\x0d", AT, b"\x02E1\x07"],
    &[b"\x0e", AT, b"\x03E1"],
];

#[test]
fn refuses_other_bodies(rt: HostRuntime) {
    assert!(rt; first_row(rt.alloc(), OTHER_BODIES, Check::NoBody) == None);
}

/// Packets of each kind.
pub const PACKETS: &[&[&[u8]]] = &[
    &[
        b"\x01\x01\0",
        ZEROS,
        b"\x09",
        ZEROS,
        b"\x03",
        ZEROS,
        b"\x02",
        ENTRY,
    ],
    &[b"\x01\x02\x01", ZEROS, b"\0", ZEROS, b"\0"],
    &[b"\x01\x03\xff\0\0\0\xe8\xd4\xa5\x10\0\0\0\0\0\0\0\x40\0"],
    &[b"\x01\x04\x02", ZEROS, b"\x01"],
    &[
        b"\x01\x05\x02",
        ZEROS,
        b"\x05",
        ZEROS,
        b"\x04",
        ZEROS,
        b"\x02",
        TWO,
        ENTRY,
        ENTRY,
    ],
    &[b"\x01\x06\x01", ZEROS, b"\x01", ZEROS, b"\0\0\0\0\0"],
    &[
        b"\x01\x06\x01",
        ZEROS,
        b"\x01",
        ZEROS,
        b"\x01",
        TWO,
        ENTRY,
        ENTRY,
    ],
    &[b"\x01\x07\x01", ZEROS, b"\x01", ZEROS, b"\x04"],
    &[
        b"\x01\x08\x01",
        ZEROS,
        b"\x01",
        ZEROS,
        b"\x04",
        ZEROS,
        b"\x06",
        TWO,
        ENTRY,
        ENTRY,
    ],
    &[
        b"\x02\x06\x01",
        ZEROS,
        b"\x01",
        ZEROS,
        b"\x01",
        TWO,
        ENTRY,
        STAND_DOWN,
    ],
    &[b"\x01\x02\x01", ZEROS, b"\0\0\0\0\0\0\0\x40\0"],
    &[b"\x02\x02\x01", ZEROS, b"\0\0\0\0\0\0\0\x40\x01"],
    &[b"\x02\x03\x01", ZEROS, b"\0\0\0\0\0\0\0\x40\x01"],
    &[b"\x02\x07\x01", ZEROS, b"\0\0\0\0\0\0\x01\0\0"],
    &[
        b"\x02\x01\0",
        ZEROS,
        b"\0\0\0\0\0\0\0\x40\x01",
        ZEROS,
        b"\0",
        ENTRY,
    ],
    &[
        b"\x02\x01\0",
        ZEROS,
        b"\0",
        ZEROS,
        b"\x01\0\0\0\0\0\0\x40\x01",
        ENTRY,
    ],
    &[
        b"\x01\x08\0",
        ZEROS,
        b"\x04\0\0\0\0\0\0\x3f\xff",
        ZEROS,
        b"\0",
        ONE,
        ENTRY,
    ],
    &[
        b"\x02\x08\0",
        ZEROS,
        b"\x04\0\0\0\0\0\0\x40\0",
        ZEROS,
        b"\0",
        ONE,
        ENTRY,
    ],
];

/// Bytes that are no packet.
pub const OTHER_PACKETS: &[&[&[u8]]] = &[
    &[],
    &[b"\x02\x04\x02", ZEROS, b"\x01"],
    &[
        b"\x01\x06\x01",
        ZEROS,
        b"\x01",
        ZEROS,
        b"\x01",
        TWO,
        STAND_DOWN,
        ENTRY,
    ],
    &[
        b"\x02\x06\x01",
        ZEROS,
        b"\x01",
        ZEROS,
        b"\x01",
        TWO,
        ENTRY,
        ENTRY,
    ],
    &[b"\x01\0\x02", ZEROS, b"\x01"],
    &[b"\x01\x09\x02", ZEROS, b"\x01"],
    &[b"\x01\x04\x02", ZEROS, b"\x01\0"],
    &[b"\x01\x04\x02\0\0\0\xe8\xd4\xa5\x10\x01"],
    &[
        b"\x01\x01\0",
        ZEROS,
        b"\0",
        ZEROS,
        b"\0",
        ZEROS,
        b"\0",
        ENTRY,
    ],
    &[b"\x01\x02\0", ZEROS, b"\0\0\0\0\0\0\0\x40\x01"],
    &[b"\x02\x02\0", ZEROS, b"\0\0\0\0\0\0\0\x40\0"],
    &[b"\x02\x07\0", ZEROS, b"\0\0\0\0\0\0\x01\0\x01"],
    &[
        b"\x01\x01\0",
        ZEROS,
        b"\0",
        ZEROS,
        b"\x01\0\0\0\0\0\0\x40\x01",
        ENTRY,
    ],
    &[
        b"\x02\x08\0",
        ZEROS,
        b"\x04\0\0\0\0\0\0\x3f\xff",
        ZEROS,
        b"\0",
        ONE,
        ENTRY,
    ],
    &[
        b"\x02\x08\0",
        ZEROS,
        b"\x04\0\0\0\0\0\x01\0\0",
        ZEROS,
        b"\0",
        ONE,
        ENTRY,
    ],
    &[
        b"\x01\x05\0",
        ZEROS,
        b"\x04",
        ZEROS,
        b"\x04",
        ZEROS,
        b"\0\0\0\0\0",
    ],
    &[b"\x01\x06\0", ZEROS, b"\x04", ZEROS, b"\x02", ONE, ENTRY],
    &[
        b"\x01\x06\0",
        ZEROS,
        b"\x04",
        ZEROS,
        b"\x01\0\0\0\x02",
        ENTRY,
    ],
    &[b"\x01\x06\0", ZEROS, b"\x04", ZEROS, b"\0\0\0\x40\x01"],
    &[
        b"\x01\x08\0",
        ZEROS,
        b"\x04",
        ZEROS,
        b"\x04",
        ZEROS,
        b"\x06",
        ONE,
        ENTRY,
    ],
    &[
        b"\x01\x08\0",
        ZEROS,
        b"\x04\0\0\0\0\0\0\x40\0",
        ZEROS,
        b"\0",
        ONE,
        ENTRY,
    ],
    &[
        b"\x01\x08\0",
        ZEROS,
        b"\x04\xff\xff\xff\xff\xff\xff\xff\xff",
        ZEROS,
        b"\0",
        ONE,
        ENTRY,
    ],
];

/// Whether the copy of a packet is written as these bytes: 0 where it is, 40 where memory was refused, else 255.
fn copy_again(alloc: Global, packet: &Packet, bytes: &[u8]) -> u8 {
    match packet.copy() {
        Ok(copy) => {
            let answer = put_again(alloc, &copy, bytes);
            drop(copy);
            answer
        }
        Err(_) => 40,
    }
}

/// Reads a packet and writes its copy: the number of the refusal, or 0 where the same bytes were written.
pub fn copied_again(alloc: Global, bytes: &[u8]) -> u8 {
    match get_packet(alloc, bytes) {
        Err(fault) => fault.refusal.number(),
        Ok(packet) => {
            let answer = copy_again(alloc, &packet, bytes);
            drop(packet);
            answer
        }
    }
}

#[test]
fn packets_are_copied(rt: HostRuntime) {
    assert!(rt; first_row(rt.alloc(), PACKETS, Check::Copied) == None);
}
