//! Frames that are read field by field.

use super::streams::{Came, fed};
use super::{Check, ENTRY, PREPARE, first_row, joined, three_frames};
use desk_frames::FrameReader;
use std::alloc::{AllocError, Global};

/// An entry of 30 bytes: client 7 has, by its number 11, `E1` stand down.
const STAND_DOWN: &[u8] =
    b"\0\0\0\0\0\0\0\x07\0\0\0\0\0\0\0\x0b\0\x0c\x10\0\0\0\0\x69\xa4\x2a\x40\x02E1";

/// An entry of 30 bytes: client 7 has, by its number 1, `E1` sign on.
const SIGN_ON: &[u8] =
    b"\0\0\0\0\0\0\0\x07\0\0\0\0\0\0\0\x01\0\x0c\x0a\0\0\0\0\x69\xa4\x2a\x40\x02E1";

/// View 0, in eight bytes.
const VIEW: &[u8] = b"\0\0\0\0\0\0\0\0";

/// The greatest place that version 1 tells.
const LAST_OF_ONE: &[u8] = b"\0\0\0\0\0\0\x40\0";

/// The first place that version 2 alone tells.
const FIRST_OF_TWO: &[u8] = b"\0\0\0\0\0\0\x40\x01";

/// The greatest place that version 2 tells.
const LAST_OF_TWO: &[u8] = b"\0\0\0\0\0\x01\0\0";

/// A place that no version tells.
const PAST_TWO: &[u8] = b"\0\0\0\0\0\x01\0\x01";

/// A place one below the greatest that version 1 tells.
const NEARLY_LAST: &[u8] = b"\0\0\0\0\0\0\x3f\xff";

/// A count of one.
const ONE: &[u8] = b"\0\0\0\x01";

/// A view that no packet tells.
const PAST_VIEW: &[u8] = b"\0\0\0\xe8\xd4\xa5\x10\x01";

/// The views of a DoViewChange: view 3, normal view 2.
const VIEWS: &[u8] = b"\0\0\0\0\0\0\0\x03\0\0\0\0\0\0\0\x02";

/// Place 2, in eight bytes.
const PLACE_2: &[u8] = b"\0\0\0\0\0\0\0\x02";

/// A count that version 2 alone tells.
const PAST_COUNT_OF_ONE: &[u8] = b"\0\0\x40\x01";

/// A count that no version tells.
const PAST_COUNT: &[u8] = b"\0\x01\0\x01";

/// What a StartView of two entries begins with after its version: node 0, view 3, commit 0.
const TWO_BEHIND: &[u8] = b"\x06\0\0\0\0\0\0\0\0\x03\0\0\0\0\0\0\0\0\0\0\0\x02";

/// A view, a place and a commit.
const PLACE_11: &[u8] = b"\0\0\0\0\0\0\0\0\0\0\0\0\0\0\0\x0b\0\0\0\0\0\0\0\x0a";

/// What a Prepare of an entry of 30 bytes begins with.
const PREPARE_OF_30: &[u8] =
    b"\0\0\0\x39\x01\x01\0\0\0\0\0\0\0\0\0\0\0\0\0\0\0\0\x0b\0\0\0\0\0\0\0\x0a";

/// What a StartView of two entries begins with, up to the first of them: node 0, view 3, commit 1.
const TWO_ENTRIES: &[u8] = b"\x01\x06\0\0\0\0\0\0\0\0\x03\0\0\0\0\0\0\0\x01\0\0\0\x02";

/// Frames of each kind, in parts; the first four bytes of each are its length.
const FRAMES: &[&[&[u8]]] = &[
    &[PREPARE, ENTRY],
    &[b"\0\0\0\x13\x01\x02\x01\0\0\0\0\0\0\0\0\0\0\0\0\0\0\0\x03"],
    &[b"\0\0\0\x13\x01\x03\x01\0\0\0\0\0\0\0\x01\0\0\0\0\0\0\0\0"],
    &[b"\0\0\0\x0b\x01\x04\x02\0\0\0\0\0\0\0\x01"],
    &[
        b"\0\0\0\x4b\x01\x05\x02\0\0\0\0\0\0\0\x03\0\0\0\0\0\0\0\x02\0\0\0\0\0\0\0\x01\0\0\0\x01",
        ENTRY,
    ],
    &[b"\0\0\0\x6f", TWO_ENTRIES, ENTRY, ENTRY],
    &[b"\0\0\0\x13\x01\x07\x01\0\0\0\0\0\0\0\0\0\0\0\0\0\0\x40\0"],
    &[
        b"\0\0\0\x4b\x01\x08\x02\0\0\0\0\0\0\0\x03\0\0\0\0\0\0\0\x02\0\0\0\0\0\0\0\x03\0\0\0\x01",
        ENTRY,
    ],
    &[b"\0\0\0\x17\x01\x06\0\0\0\0\0\0\0\0\x03\0\0\0\0\0\0\0\0\0\0\0\0"],
    &[b"\0\0\0\x39\x02\x01\0", PLACE_11, STAND_DOWN],
    // A base, a place and a commit at the ends of both versions.
    &[b"\0\0\0\x13\x01\x07\x01", VIEW, LAST_OF_ONE],
    &[b"\0\0\0\x13\x02\x07\x01", VIEW, FIRST_OF_TWO],
    &[b"\0\0\0\x13\x02\x07\x01", VIEW, LAST_OF_TWO],
    &[b"\0\0\0\x13\x01\x02\x01", VIEW, LAST_OF_ONE],
    &[b"\0\0\0\x13\x02\x02\x01", VIEW, FIRST_OF_TWO],
    &[b"\0\0\0\x13\x02\x03\0", VIEW, FIRST_OF_TWO],
    // A Prepare of an old command whose place is past version 1, and one whose commit is.
    &[
        b"\0\0\0\x39\x02\x01\0",
        VIEW,
        FIRST_OF_TWO,
        LAST_OF_ONE,
        SIGN_ON,
    ],
    &[
        b"\0\0\0\x39\x02\x01\0",
        VIEW,
        LAST_OF_ONE,
        FIRST_OF_TWO,
        SIGN_ON,
    ],
    // A NewState whose base and count are past version 1 together, and one whose are not.
    &[
        b"\0\0\0\x3d\x02\x08\0",
        VIEW,
        LAST_OF_ONE,
        LAST_OF_ONE,
        ONE,
        SIGN_ON,
    ],
    &[
        b"\0\0\0\x3d\x01\x08\0",
        VIEW,
        NEARLY_LAST,
        LAST_OF_ONE,
        ONE,
        SIGN_ON,
    ],
    // The second command alone needs version 2.
    &[b"\0\0\0\x53\x02", TWO_BEHIND, SIGN_ON, STAND_DOWN],
    // Two logs, one after the other, and a Prepare.
    &[
        b"\0\0\0\x6f",
        TWO_ENTRIES,
        ENTRY,
        ENTRY,
        b"\0\0\0\x6f",
        TWO_ENTRIES,
        ENTRY,
        ENTRY,
        PREPARE,
        ENTRY,
    ],
];

/// Bytes that begin no frame, and with how many of them it is told; 0 where it is not told yet.
const FAULTS: &[(&[&[u8]], usize)] = &[
    // The length: too small, too great, and the greatest, which is no fault.
    (&[b"\0\0\0\x0a\x01"], 4),
    (&[b"\x04\x20\0\x01"], 4),
    (&[b"\x04\x20\0\0"], 0),
    // The version, the kind, the view.
    (&[b"\0\0\0\x13\0\x02\x01\0\0"], 5),
    (&[b"\0\0\0\x13\x03\x02\x01\0\0"], 5),
    (&[b"\0\0\0\x13\x01\x09\x01\0\0"], 6),
    (
        &[b"\0\0\0\x13\x01\x02\x01\0\0\0\xe8\xd4\xa5\x10\x01\0\0"],
        15,
    ),
    // The place of a PrepareOk is past version 1.
    (
        &[b"\0\0\0\x13\x01\x02\x01\0\0\0\0\0\0\0\0\0\0\0\0\0\0\x40\x01\0"],
        23,
    ),
    // The normal view of a DoViewChange is its view.
    (
        &[b"\0\0\0\x1f\x01\x05\x02\0\0\0\0\0\0\0\x03\0\0\0\0\0\0\0\x03\0\0\0\0"],
        23,
    ),
    // The commit of a StartView is above its count.
    (
        &[b"\0\0\0\x43\x01\x06\0\0\0\0\0\0\0\0\x03\0\0\0\0\0\0\0\x02\0\0\0\x01\0\0"],
        27,
    ),
    // The body of the second entry has 1,025 bytes, or none, or is none.
    (
        &[
            b"\0\0\x04\x56",
            TWO_ENTRIES,
            ENTRY,
            b"\0\0\0\0\0\0\0\x07\0\0\0\0\0\0\0\x02\x04\x01\x01",
        ],
        89,
    ),
    (
        &[
            b"\0\0\0\x56",
            TWO_ENTRIES,
            ENTRY,
            b"\0\0\0\0\0\0\0\x07\0\0\0\0\0\0\0\x02\0\0\x01",
        ],
        89,
    ),
    (
        &[
            b"\0\0\0\x57",
            TWO_ENTRIES,
            ENTRY,
            b"\0\0\0\0\0\0\0\x07\0\0\0\0\0\0\0\x02\0\x02\x0d\0\0",
        ],
        91,
    ),
    // Nothing needs the version 2 of a PrepareOk, a StartViewChange, a StartView and a Prepare; a stand_down needs it.
    (
        &[b"\0\0\0\x13\x02\x02\x01\0\0\0\0\0\0\0\0\0\0\0\0\0\0\0\x03\0"],
        23,
    ),
    (&[b"\0\0\0\x0b\x02\x04\x02\0\0\0\0\0\0\0\x01\0"], 15),
    (
        &[b"\0\0\0\x17\x02\x06\0\0\0\0\0\0\0\0\x03\0\0\0\0\0\0\0\0\0\0\0\0\0"],
        27,
    ),
    (&[b"\0\0\0\x47\x02\x01\0", PLACE_11, ENTRY, b"\0"], 75),
    (&[b"\0\0\0\x39\x01\x01\0", PLACE_11, STAND_DOWN, b"\0"], 61),
    // A base, a place, a commit, a count, and a base and a count together, that the version doesn't tell.
    (&[b"\0\0\0\x13\x01\x07\x01", VIEW, FIRST_OF_TWO, b"\0"], 23),
    (&[b"\0\0\0\x13\x02\x07\x01", VIEW, PAST_TWO, b"\0"], 23),
    (
        &[
            b"\0\0\0\x39\x01\x01\0",
            VIEW,
            FIRST_OF_TWO,
            LAST_OF_ONE,
            SIGN_ON,
        ],
        23,
    ),
    (
        &[
            b"\0\0\0\x39\x01\x01\0",
            VIEW,
            LAST_OF_ONE,
            FIRST_OF_TWO,
            SIGN_ON,
        ],
        31,
    ),
    (
        &[
            b"\0\0\0\x3d\x01\x08\0",
            VIEW,
            LAST_OF_ONE,
            LAST_OF_ONE,
            ONE,
            SIGN_ON,
        ],
        35,
    ),
    (
        &[
            b"\0\x0b\0\x43\x01\x06\0",
            VIEW,
            VIEW,
            b"\0\0\x40\x01",
            ENTRY,
        ],
        27,
    ),
    // Nothing needs the version 2 of a GetState and a NewState; the second command of a StartView needs it.
    (&[b"\0\0\0\x13\x02\x07\x01", VIEW, LAST_OF_ONE, b"\0"], 23),
    (
        &[
            b"\0\0\0\x3d\x02\x08\0",
            VIEW,
            NEARLY_LAST,
            LAST_OF_ONE,
            ONE,
            SIGN_ON,
            b"\0",
        ],
        65,
    ),
    (
        &[b"\0\0\0\x53\x01", TWO_BEHIND, SIGN_ON, STAND_DOWN, b"\0"],
        87,
    ),
    // A byte is left over; a field would pass the frame's end, with some bytes to come, or none.
    (
        &[b"\0\0\0\x14\x01\x02\x01\0\0\0\0\0\0\0\0\0\0\0\0\0\0\0\x03\0\0"],
        24,
    ),
    (
        &[b"\0\0\0\x12\x01\x02\x01\0\0\0\0\0\0\0\0\0\0\0\0\0\0\0\x03\0\0"],
        22,
    ),
    (&[b"\0\0\0\x0b\x01\x02\x01\0\0\0\0\0\0\0\0\0\0\0"], 15),
];

/// The same of the kind, the view and the head of an entry.
const HEADS: &[(&[&[u8]], usize)] = &[
    (&[b"\0\0\0\x13\x01\0\x01\0\0"], 6),
    // The view of the other kinds.
    (&[b"\0\0\0\x47\x01\x01\0", PAST_VIEW, b"\0"], 15),
    (&[b"\0\0\0\x13\x01\x03\x01", PAST_VIEW, b"\0"], 15),
    (&[b"\0\0\0\x0b\x01\x04\x02", PAST_VIEW], 15),
    (&[b"\0\0\0\x1f\x01\x05\x02", PAST_VIEW, b"\0"], 15),
    (&[b"\0\0\0\x17\x01\x06\0", PAST_VIEW, b"\0"], 15),
    (&[b"\0\0\0\x13\x01\x07\x01", PAST_VIEW, b"\0"], 15),
    (&[b"\0\0\0\x1f\x02\x08\0", PAST_VIEW, b"\0"], 15),
    // The client of an entry, and its number: 0, and too great; the greatest are no fault.
    (
        &[
            PREPARE_OF_30,
            b"\0\0\0\0\0\0\0\0\0\0\0\0\0\0\0\x01\0\x0c\x0a",
        ],
        49,
    ),
    (
        &[
            PREPARE_OF_30,
            b"\0\x20\0\0\0\0\0\0\0\0\0\0\0\0\0\x01\0\x0c\x0a",
        ],
        49,
    ),
    (
        &[
            PREPARE_OF_30,
            b"\0\0\0\0\0\0\0\x07\0\0\0\0\0\0\0\0\0\x0c\x0a",
        ],
        49,
    ),
    (
        &[
            PREPARE_OF_30,
            b"\0\0\0\0\0\0\0\x07\0\x20\0\0\0\0\0\0\0\x0c\x0a",
        ],
        49,
    ),
    (
        &[
            PREPARE_OF_30,
            b"\0\x1f\xff\xff\xff\xff\xff\xff\0\x1f\xff\xff\xff\xff\xff\xff\0\x0c\x0a",
        ],
        0,
    ),
];

/// The same of the numbers of each kind, and of its version.
const RANGES: &[(&[&[u8]], usize)] = &[
    // The place of a Prepare is 0, or past both versions; its commit is.
    (&[b"\0\0\0\x39\x01\x01\0", VIEW, VIEW, b"\0"], 23),
    (&[b"\0\0\0\x39\x02\x01\0", VIEW, PAST_TWO, b"\0"], 23),
    (
        &[b"\0\0\0\x39\x02\x01\0", VIEW, FIRST_OF_TWO, PAST_TWO, b"\0"],
        31,
    ),
    // The place of a PrepareOk and the commit of a Commit are past a version, or need no version 2.
    (&[b"\0\0\0\x13\x02\x02\x01", VIEW, PAST_TWO, b"\0"], 23),
    (&[b"\0\0\0\x13\x01\x03\0", VIEW, FIRST_OF_TWO, b"\0"], 23),
    (&[b"\0\0\0\x13\x02\x03\0", VIEW, PAST_TWO, b"\0"], 23),
    (&[b"\0\0\0\x13\x02\x03\0", VIEW, LAST_OF_ONE, b"\0"], 23),
    // A DoViewChange: its commit, that above its count, its count, and its version.
    (&[b"\0\0\0\x3d\x01\x05\x02", VIEWS, FIRST_OF_TWO, b"\0"], 31),
    (&[b"\0\0\0\x3d\x02\x05\x02", VIEWS, PAST_TWO, b"\0"], 31),
    (&[b"\0\0\0\x3d\x01\x05\x02", VIEWS, PLACE_2, ONE, b"\0"], 35),
    (
        &[
            b"\0\0\0\x3d\x01\x05\x02",
            VIEWS,
            VIEW,
            PAST_COUNT_OF_ONE,
            b"\0",
        ],
        35,
    ),
    (
        &[b"\0\0\0\x3d\x02\x05\x02", VIEWS, VIEW, PAST_COUNT, b"\0"],
        35,
    ),
    (
        &[
            b"\0\0\0\x3d\x01\x05\x02",
            VIEWS,
            VIEW,
            ONE,
            STAND_DOWN,
            b"\0",
        ],
        65,
    ),
    (
        &[b"\0\0\0\x3d\x02\x05\x02", VIEWS, VIEW, ONE, SIGN_ON, b"\0"],
        65,
    ),
    // A StartView: its commit and its count.
    (&[b"\0\0\0\x35\x01\x06\0", VIEW, FIRST_OF_TWO, b"\0"], 23),
    (&[b"\0\0\0\x35\x02\x06\0", VIEW, PAST_TWO, b"\0"], 23),
    (
        &[b"\0\0\0\x35\x02\x06\0", VIEW, VIEW, PAST_COUNT, b"\0"],
        27,
    ),
    // A NewState: its base, its commit, that above base and count, their sum, and its version.
    (&[b"\0\0\0\x3d\x01\x08\0", VIEW, FIRST_OF_TWO, b"\0"], 23),
    (&[b"\0\0\0\x3d\x02\x08\0", VIEW, PAST_TWO, b"\0"], 23),
    (
        &[b"\0\0\0\x3d\x01\x08\0", VIEW, VIEW, FIRST_OF_TWO, b"\0"],
        31,
    ),
    (&[b"\0\0\0\x3d\x02\x08\0", VIEW, VIEW, PAST_TWO, b"\0"], 31),
    (
        &[b"\0\0\0\x3d\x01\x08\0", VIEW, VIEW, PLACE_2, ONE, b"\0"],
        35,
    ),
    (
        &[
            b"\0\0\0\x3d\x02\x08\0",
            VIEW,
            LAST_OF_TWO,
            LAST_OF_TWO,
            ONE,
            b"\0",
        ],
        35,
    ),
    (
        &[
            b"\0\0\0\x3d\x01\x08\0",
            VIEW,
            VIEW,
            VIEW,
            ONE,
            STAND_DOWN,
            b"\0",
        ],
        65,
    ),
];

/// The same of a frame's end.
const ENDS: &[(&[&[u8]], usize)] = &[
    // Two bytes are left over of the others, of which the second tells it.
    (&[b"\0\0\0\x3b\x01\x01\0", PLACE_11, SIGN_ON, b"\0\0\0"], 63),
    (&[b"\0\0\0\x15\x01\x03\0", VIEW, VIEW, b"\0\0\0"], 25),
    (&[b"\0\0\0\x0d\x01\x04\x02", VIEW, b"\0\0\0"], 17),
    (
        &[
            b"\0\0\0\x3f\x01\x05\x02",
            VIEWS,
            VIEW,
            ONE,
            SIGN_ON,
            b"\0\0\0",
        ],
        67,
    ),
    (
        &[b"\0\0\0\x37\x01\x06\0", VIEW, VIEW, ONE, SIGN_ON, b"\0\0\0"],
        59,
    ),
    (&[b"\0\0\0\x15\x01\x07\x01", VIEW, VIEW, b"\0\0\0"], 25),
    (
        &[
            b"\0\0\0\x3f\x01\x08\0",
            VIEW,
            VIEW,
            VIEW,
            ONE,
            SIGN_ON,
            b"\0\0\0",
        ],
        67,
    ),
    // The same of packets of version 2 that nothing needs.
    (&[b"\0\0\0\x15\x02\x07\x01", VIEW, VIEW, b"\0\0\0"], 25),
    (
        &[
            b"\0\0\0\x3f\x02\x08\0",
            VIEW,
            VIEW,
            VIEW,
            ONE,
            SIGN_ON,
            b"\0\0\0",
        ],
        67,
    ),
    // Two bytes lack at the end of the others.
    (&[b"\0\0\0\x37\x01\x01\0", PLACE_11, SIGN_ON], 59),
    (&[b"\0\0\0\x11\x01\x03\0", VIEW, VIEW], 21),
    (&[b"\0\0\0\x3b\x01\x05\x02", VIEWS, VIEW, ONE, SIGN_ON], 63),
    (&[b"\0\0\0\x33\x01\x06\0", VIEW, VIEW, ONE, SIGN_ON], 55),
    (&[b"\0\0\0\x11\x01\x07\x01", VIEW, VIEW], 21),
    (
        &[b"\0\0\0\x3b\x01\x08\0", VIEW, VIEW, VIEW, ONE, SIGN_ON],
        63,
    ),
];

/// What each packet with entries begins with, up to the first of them. The frames have room for 2,048 bytes.
const BEFORE_ENTRY: &[&[&[u8]]] = &[
    &[b"\0\0\x08\0\x01\x01\0", PLACE_11],
    &[b"\0\0\x08\0\x01\x05\x02", VIEWS, VIEW, ONE],
    &[b"\0\0\x08\0\x01\x06\0", VIEW, VIEW, ONE],
    &[b"\0\0\x08\0\x01\x08\0", VIEW, VIEW, VIEW, ONE],
];

/// What begins no entry, and with how many of these bytes it is told.
const NO_ENTRIES: &[(&[u8], usize)] = &[
    // The client, and the number: 0, and too great.
    (b"\0\0\0\0\0\0\0\0\0\0\0\0\0\0\0\x01\0\x0c\x0a", 18),
    (b"\0\x20\0\0\0\0\0\0\0\0\0\0\0\0\0\x01\0\x0c\x0a", 18),
    (b"\0\0\0\0\0\0\0\x07\0\0\0\0\0\0\0\0\0\x0c\x0a", 18),
    (b"\0\0\0\0\0\0\0\x07\0\x20\0\0\0\0\0\0\0\x0c\x0a", 18),
    // A body of no byte, of 1,025 bytes, and one that is none.
    (b"\0\0\0\0\0\0\0\x07\0\0\0\0\0\0\0\x02\0\0\x01", 18),
    (b"\0\0\0\0\0\0\0\x07\0\0\0\0\0\0\0\x02\x04\x01\x01", 18),
    (b"\0\0\0\0\0\0\0\x07\0\0\0\0\0\0\0\x02\0\x02\x0d\0\0", 20),
];

/// How many of the first frames are one of each kind, a StartView of no entry among them.
const KINDS: usize = 9;

/// With how many bytes, one by one, 42 comes, and nothing before it: 0 where it doesn't.
fn reported_with(alloc: Global, bytes: &[u8]) -> usize {
    let Ok(mut reader) = FrameReader::new(alloc) else {
        return 0;
    };
    let mut out = Vec::new(alloc);
    let mut count: usize = 0;
    for byte in bytes {
        count = count.saturating_add(1);
        match fed(alloc, &mut reader, &[*byte], &mut out) {
            Came::Packets(0) => {}
            Came::Refused(42) => return count,
            _ => return 0,
        }
    }
    0
}

/// The first row, counted from 0, that is not told so.
fn first_untold(alloc: Global, rows: &[(&[&[u8]], usize)]) -> Option<usize> {
    for (index, row) in rows.iter().enumerate() {
        if let Ok(bytes) = joined(alloc, row.0)
            && reported_with(alloc, bytes.as_slice()) != row.1
        {
            return Some(index);
        }
    }
    None
}

#[test]
fn a_fault_is_told_with_its_field(rt: HostRuntime) {
    assert!(rt; first_untold(rt.alloc(), FAULTS) == None);
}

// A test has one table, since the check of one function takes no more rows.

#[test]
fn a_fault_of_a_head_is_told_with_it(rt: HostRuntime) {
    assert!(rt; first_untold(rt.alloc(), HEADS) == None);
}

#[test]
fn a_number_out_of_its_range_is_told_with_it(rt: HostRuntime) {
    assert!(rt; first_untold(rt.alloc(), RANGES) == None);
}

#[test]
fn a_wrong_end_is_told_with_the_last_byte(rt: HostRuntime) {
    assert!(rt; first_untold(rt.alloc(), ENDS) == None);
}

/// Whether what begins no entry is told so in each packet that has entries.
fn is_told_in_each(alloc: Global, row: &(&[u8], usize)) -> bool {
    for front in BEFORE_ENTRY {
        let Ok(mut bytes) = joined(alloc, front) else {
            return false;
        };
        let reported = bytes.len().saturating_add(row.1);
        if bytes.extend_from_slice(row.0).is_err()
            || reported_with(alloc, bytes.as_slice()) != reported
        {
            return false;
        }
    }
    true
}

#[test]
fn what_is_no_entry_is_told_in_each_packet(rt: HostRuntime) {
    for row in NO_ENTRIES {
        assert!(rt; is_told_in_each(rt.alloc(), row));
    }
}

/// Whether a frame is told with its last byte, wherever that comes before the packet's own.
fn is_told_where_it_ends(alloc: Global, parts: &[&[u8]]) -> bool {
    let Ok(bytes) = joined(alloc, parts) else {
        return false;
    };
    let (_, packet) = bytes.as_slice().split_at(bytes.len().min(4));
    let Ok(whole) = u32::try_from(packet.len()) else {
        return false;
    };
    for length in 11..whole {
        let mut cut = Vec::new(alloc);
        let is_made = cut.extend_from_slice(&length.to_be_bytes()).is_ok()
            && cut.extend_from_slice(packet).is_ok();
        if !is_made || reported_with(alloc, cut.as_slice()) != (length as usize).saturating_add(4) {
            return false;
        }
    }
    true
}

#[test]
fn a_frame_that_ends_inside_its_packet_is_told_with_its_last_byte(rt: HostRuntime) {
    for parts in FRAMES.iter().take(KINDS) {
        assert!(rt; is_told_where_it_ends(rt.alloc(), parts));
    }
}

/// Whether bytes that come so many at a time, but for the first few, give packets whose frames are the bytes.
pub fn are_given(alloc: Global, bytes: &[u8], first: usize, most: usize) -> bool {
    let Ok(mut reader) = FrameReader::new(alloc) else {
        return true;
    };
    let mut out = Vec::new(alloc);
    let (mut piece, mut rest) = bytes.split_at(first.min(bytes.len()));
    for _ in 0..1_000 {
        if let Came::Refused(_) = fed(alloc, &mut reader, piece, &mut out) {
            return false;
        }
        if rest.is_empty() {
            return out.as_slice() == bytes;
        }
        (piece, rest) = rest.split_at(most.min(rest.len()));
    }
    false
}

/// Whether bytes are given in two pieces wherever they are cut, and byte by byte.
pub fn is_given_cut_anywhere(alloc: Global, bytes: &[u8]) -> bool {
    for cut in 0..bytes.len() {
        if !are_given(alloc, bytes, cut, 1_000) {
            return false;
        }
    }
    are_given(alloc, bytes, 0, 1)
}

#[test]
fn reads_each_kind_cut_anywhere(rt: HostRuntime) {
    assert!(rt; first_row(rt.alloc(), FRAMES, Check::Cut) == None);
}

/// Whether bytes are given in any pieces of which all but the first have one length.
fn are_given_in_any_pieces(alloc: Global, bytes: &[u8]) -> bool {
    for first in 0..bytes.len() {
        for most in 1..=bytes.len() - first {
            if !are_given(alloc, bytes, first, most) {
                return false;
            }
        }
    }
    true
}

#[test]
fn reads_three_frames_in_any_pieces(rt: HostRuntime) -> Result<(), AllocError> {
    let bytes = three_frames(rt.alloc())?;
    assert!(rt; are_given_in_any_pieces(rt.alloc(), bytes.as_slice()));
    Ok(())
}

/// A StartView of so many entries, in a version.
fn log_in(alloc: Global, version: u8, count: u16) -> Result<Vec<u8>, AllocError> {
    let length = (23 + 30 * count as u32).to_be_bytes();
    let count_bytes = (count as u32).to_be_bytes();
    let mut bytes = joined(
        alloc,
        &[&length, &[version, 6, 0], VIEW, VIEW, &count_bytes],
    )?;
    for _ in 0..count {
        bytes.extend_from_slice(SIGN_ON)?;
    }
    Ok(bytes)
}

/// A version, how many entries a log has, how many bytes come at a time, and whether the log is given.
const LOGS: &[(u8, u16, usize, bool)] = &[
    (1, 300, 1_000, true),
    (1, 300, 30, true),
    (1, 300, 4_096, true),
    (1, 16_384, 1_000, true),
    (2, 16_385, 1_000, true),
    (2, 16_384, 1_000, false),
];

/// Whether a log is given so, or is not.
fn is_log_given(alloc: Global, row: &(u8, u16, usize, bool)) -> bool {
    match log_in(alloc, row.0, row.1) {
        Ok(bytes) => are_given(alloc, bytes.as_slice(), 17, row.2) == row.3,
        Err(_) => false,
    }
}

#[test]
fn reads_long_logs_in_pieces(rt: HostRuntime) {
    for row in LOGS {
        assert!(rt; is_log_given(rt.alloc(), row), "{} {}", row.1, row.2);
    }
}
