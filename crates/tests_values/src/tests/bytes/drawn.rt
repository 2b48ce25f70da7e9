//! Drawn packets with entries of all verbs: each is read as what its bytes spell, in one piece and as a frame in two,
//! and in the other version, without some of its last bytes or with one more it is none.

use super::generated::next;
use super::pieces::are_given;
use super::{framed, packet_again, piece};
use std::alloc::{AllocError, Global};

/// A number below `n`, or 0.
fn below(state: &mut u64, n: u64) -> u64 {
    *state = next(*state);
    (*state >> 11).checked_rem(n).unwrap_or(0)
}

/// A text that is drawn: what it begins with, how many letters follow at most, and what it ends with.
#[derive(Clone, Copy)]
struct Text(&'static [u8], u64, &'static [u8]);

/// What stands after a command's time.
#[derive(Clone, Copy)]
enum Field {
    Text(Text),
    Maybe(Text),
    /// One byte below a number.
    Below(u64),
    /// Eight bytes, a token of a node.
    Token,
}

const KIND: Field = Field::Text(Text(b"\xc3\xa9", 30, b""));

const SITE: Field = Field::Text(Text(b"12 ", 124, b"."));

const NOTE: Field = Field::Text(Text(b"\xe2\x82\xac ", 196, b""));

const UNIT: Field = Field::Text(Text(b"E-", 21, b"_"));

const OWN: Text = Text(b"urn:emergency:uid:incidentid:", 28, b":desk.example");

const INCIDENT: Field = Field::Text(OWN);

const OTHER: Field = Field::Text(Text(b"urn:nena:uid:incidentid:B-", 28, b":b.c"));

const CALLED: Text = Text(b"urn:nena:uid:callid:", 28, b":psap.example");

const CALL: Field = Field::Text(CALLED);

/// The fields of each verb, in the order of their numbers from 1 on.
const VERBS: &[&[Field]] = &[
    &[KIND, SITE, Field::Maybe(OWN), Field::Maybe(CALLED)],
    &[INCIDENT, CALL],
    &[INCIDENT, OTHER],
    &[INCIDENT, OTHER],
    &[INCIDENT, OTHER],
    &[INCIDENT, CALL, KIND, SITE],
    &[INCIDENT],
    &[INCIDENT],
    &[INCIDENT, NOTE],
    &[UNIT],
    &[UNIT],
    &[UNIT, INCIDENT],
    &[UNIT, Field::Below(7)],
    &[UNIT],
    &[UNIT, INCIDENT],
    &[UNIT],
    &[Field::Below(5), Field::Token],
];

/// The last verb that version 1 tells.
const LAST_OF_ONE: u64 = 14;

/// Puts a text that is drawn, after its length.
fn put_text(bytes: &mut Vec<u8>, state: &mut u64, text: Text) -> Result<(), AllocError> {
    let Text(front, most, end) = text;
    let count = below(state, most).saturating_add(1);
    let length = count
        .wrapping_add(front.len() as u64)
        .wrapping_add(end.len() as u64);
    bytes.push((length % 256) as u8)?;
    bytes.extend_from_slice(front)?;
    for _ in 0..count {
        bytes.push(b'a'.wrapping_add((below(state, 26) % 26) as u8))?;
    }
    bytes.extend_from_slice(end)
}

/// The greatest number of a client and of a request.
const LAST_NUMBER: u64 = 9_007_199_254_740_991;

/// The greatest token of a node.
const LAST_TOKEN: u64 = 1_000_000_000_000;

/// Puts a number that is drawn, from 1 to the most, as eight bytes.
fn put_number(bytes: &mut Vec<u8>, state: &mut u64, most: u64) -> Result<(), AllocError> {
    let number = below(state, most).saturating_add(1);
    bytes.extend_from_slice(&number.to_be_bytes())
}

/// Puts a field that is drawn.
fn put_field(bytes: &mut Vec<u8>, state: &mut u64, field: Field) -> Result<(), AllocError> {
    match field {
        Field::Text(text) => put_text(bytes, state, text),
        Field::Below(most) => Ok(bytes.push((below(state, most) % 256) as u8)?),
        Field::Token => put_number(bytes, state, LAST_TOKEN),
        Field::Maybe(_) if below(state, 2) == 0 => Ok(bytes.push(0)?),
        Field::Maybe(text) => {
            bytes.push(1)?;
            put_text(bytes, state, text)
        }
    }
}

/// Puts fields that are drawn.
fn put_fields(bytes: &mut Vec<u8>, state: &mut u64, fields: &[Field]) -> Result<(), AllocError> {
    for field in fields {
        put_field(bytes, state, *field)?;
    }
    Ok(())
}

/// The body of a command of a verb, at any time.
fn body_of(alloc: Global, state: &mut u64, verb: u64) -> Result<Vec<u8>, AllocError> {
    let mut bytes = Vec::new(alloc);
    bytes.push((verb % 256) as u8)?;
    *state = next(*state);
    bytes.extend_from_slice(&state.to_be_bytes())?;
    if let Some(fields) = VERBS.get(verb.wrapping_sub(1) as usize) {
        put_fields(&mut bytes, state, fields)?;
    }
    Ok(bytes)
}

/// Puts an entry that is drawn, and gives its verb.
fn put_drawn(alloc: Global, bytes: &mut Vec<u8>, state: &mut u64) -> Result<u64, AllocError> {
    put_number(bytes, state, LAST_NUMBER)?;
    put_number(bytes, state, LAST_NUMBER)?;
    let verb = below(state, 17).saturating_add(1);
    let body = body_of(alloc, state, verb)?;
    bytes.push((body.len() / 256 % 256) as u8)?;
    bytes.push((body.len() % 256) as u8)?;
    bytes.extend_from_slice(body.as_slice())?;
    Ok(verb)
}

/// A packet that is drawn.
#[derive(Drop)]
struct Drawn {
    bytes: Vec<u8>,
    /// The verbs of its entries, one bit each.
    verbs: u64,
}

/// Puts numbers in eight bytes each.
fn put_numbers(bytes: &mut Vec<u8>, numbers: &[u64]) -> Result<(), AllocError> {
    for number in numbers {
        bytes.extend_from_slice(&number.to_be_bytes())?;
    }
    Ok(())
}

/// Puts the numbers of a kind, and the count of entries after them where it has one.
fn put_head(bytes: &mut Vec<u8>, state: &mut u64, kind: u8, count: u32) -> Result<(), AllocError> {
    let view = below(state, 1_000_000_000_000).saturating_add(1);
    let commit = below(state, count as u64 + 1);
    let place = below(state, 16_000).saturating_add(1);
    match kind {
        1 => return put_numbers(bytes, &[view, place, commit]),
        5 => put_numbers(bytes, &[view, below(state, view), commit])?,
        6 => put_numbers(bytes, &[view, commit])?,
        _ => put_numbers(bytes, &[view, place, commit])?,
    }
    bytes.extend_from_slice(&count.to_be_bytes())
}

/// The kinds that have entries.
const KINDS: &[u8] = &[1, 5, 6, 8];

/// Draws a packet of one entry or more, in the version that it needs.
fn draw_packet(alloc: Global, state: &mut u64) -> Result<Drawn, AllocError> {
    let kind = *KINDS.get(below(state, 4) as usize).unwrap_or(&1);
    let count = if kind == 1 {
        1
    } else {
        (below(state, 3) % 3) as u32 + 1
    };
    let mut bytes = Vec::new(alloc);
    bytes.extend_from_slice(&[1, kind, (below(state, 256) % 256) as u8])?;
    put_head(&mut bytes, state, kind, count)?;
    let mut verbs = 0u64;
    for _entry in 0..count {
        let verb = put_drawn(alloc, &mut bytes, state)?;
        verbs |= 1u64.wrapping_shl((verb % 64) as u32);
        if verb > LAST_OF_ONE {
            set_version(&mut bytes, 2);
        }
    }
    Ok(Drawn { bytes, verbs })
}

/// Has a packet begin with a version.
fn set_version(packet: &mut Vec<u8>, version: u8) {
    if let Some(first) = packet.get_mut(0) {
        *first = version;
    }
}

/// Whether a packet is read as what it spells, and none is without some of its last bytes or with one more.
fn is_spelled(alloc: Global, packet: &mut Vec<u8>, state: &mut u64) -> bool {
    let length = packet.len();
    let front = below(state, length as u64) as usize;
    let is_front_none = packet_again(alloc, piece(packet.as_slice(), 0, front)) == 42;
    if packet_again(alloc, packet.as_slice()) != 0 || !is_front_none {
        return false;
    }
    if packet.push(0).is_err() || packet_again(alloc, packet.as_slice()) != 42 {
        return false;
    }
    packet.truncate(length);
    true
}

/// Whether a frame is given in two pieces, cut somewhere.
fn is_framed(alloc: Global, packet: &[u8], state: &mut u64) -> bool {
    match framed(alloc, packet) {
        Ok(frame) => {
            let cut = below(state, frame.len() as u64) as usize;
            are_given(alloc, frame.as_slice(), cut, 100_000)
        }
        Err(_) => false,
    }
}

/// Whether a packet is none in the other version.
fn is_of_one_version(alloc: Global, packet: &mut Vec<u8>) -> bool {
    let version = *packet.as_slice().first().unwrap_or(&0);
    set_version(packet, 3u8.wrapping_sub(version));
    packet_again(alloc, packet.as_slice()) == 42
}

/// Draws so many packets: the verbs of those that are read so, up to the first that is not, and how many they are.
fn read_drawn(alloc: Global, count: u64) -> (u64, u64) {
    let (mut state, mut verbs) = (7u64, 0u64);
    for index in 0..count {
        let Ok(mut packet) = draw_packet(alloc, &mut state) else {
            return (verbs, index);
        };
        let is_read = is_spelled(alloc, &mut packet.bytes, &mut state)
            && is_framed(alloc, packet.bytes.as_slice(), &mut state)
            && is_of_one_version(alloc, &mut packet.bytes);
        if !is_read {
            return (verbs, index);
        }
        verbs |= packet.verbs;
    }
    (verbs, count)
}

/// The bits of the verbs from 1 to 17.
const ALL_VERBS: u64 = 0x3_fffe;

#[test]
fn reads_drawn_packets_of_all_verbs(rt: HostRuntime) {
    let (verbs, count) = read_drawn(rt.alloc(), 10_000);
    assert!(rt; count == 10_000, "{count}");
    assert!(rt; verbs == ALL_VERBS, "{verbs}");
}
