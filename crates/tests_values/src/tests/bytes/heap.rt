//! Streams in a program that may hold few bytes: `scripts/faults/refused-requests` refuses what is past them. In any
//! other run this says no more than the rest.

use super::joined;
use super::streams::{Came, fed};
use desk_frames::FrameReader;
use std::alloc::Global;
use std::test::Fail;

/// The greatest length of a frame.
const LONGEST: &[u8] = b"\x04\x20\0\0";

/// A view, also a base and a commit.
const ZERO: &[u8] = b"\0\0\0\0\0\0\0\0";

/// The views of a DoViewChange.
const VIEWS: &[u8] = b"\0\0\0\0\0\0\0\x03\0\0\0\0\0\0\0\x02";

/// The greatest count of a log, and that of a log of no entry.
const MOST: &[u8] = b"\0\x01\0\0";

const NONE: &[u8] = b"\0\0\0\0";

/// What a frame begins with that is not whole yet, and how often a thousand bytes follow after its packet. The first
/// tell of entries that do not come; the others are no frames, which their last byte will tell.
const FRAMES: &[(&[&[u8]], u64)] = &[
    (&[LONGEST, b"\x02\x05\x02", VIEWS, ZERO, MOST], 0),
    (&[LONGEST, b"\x02\x06\0", ZERO, ZERO, MOST], 0),
    (&[LONGEST, b"\x02\x08\0", ZERO, ZERO, ZERO, MOST], 0),
    (&[LONGEST, b"\x01\x02\x01", ZERO, ZERO], 1_000),
    (&[LONGEST, b"\x01\x06\0", ZERO, ZERO, NONE], 1_000),
];

/// Whether nothing comes of bytes, and of others after them so often.
fn are_waited_for(alloc: Global, bytes: &[u8], others: &[u8], count: u64) -> bool {
    let Ok(mut reader) = FrameReader::new(alloc) else {
        return false;
    };
    let mut out = Vec::new(alloc);
    let mut came = fed(alloc, &mut reader, bytes, &mut out);
    for _piece in 0..count {
        if came != Came::Packets(0) {
            return false;
        }
        came = fed(alloc, &mut reader, others, &mut out);
    }
    came == Came::Packets(0)
}

#[test]
fn a_frame_that_is_not_whole_takes_few_bytes(rt: HostRuntime) -> Result<(), Fail> {
    let alloc = rt.alloc();
    let others = vec![in alloc; 0; 1_000]?;
    for (index, row) in FRAMES.iter().enumerate() {
        let bytes = joined(alloc, row.0)?;
        let is_well = are_waited_for(alloc, bytes.as_slice(), others.as_slice(), row.1);
        assert!(rt; is_well, "{index}");
    }
    Ok(())
}
