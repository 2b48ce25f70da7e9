//! What is told of nodes by what each answered, and the places that replies tell.

use desk_follow::shown_place;
use desk_status::NodeAnswer::{Down, Up};
use desk_status::{NodeAnswer, status_of};
use std::alloc::Global;

const AT_0: NodeAnswer = Up {
    place: 0,
    milliseconds: 3,
};

const AT_55: NodeAnswer = Up {
    place: 55,
    milliseconds: 12,
};

const AT_57: NodeAnswer = Up {
    place: 57,
    milliseconds: 3,
};

// What nodes answer, the lines that tell it, and the exit status.
const ROWS: &[(&[NodeAnswer], &[&str], u8)] = &[
    (
        &[AT_57, AT_57, AT_57],
        &[
            "node 0: up, place 57, 0 behind, 3 ms\n",
            "node 1: up, place 57, 0 behind, 3 ms\n",
            "node 2: up, place 57, 0 behind, 3 ms\n",
        ],
        0,
    ),
    (
        &[AT_57, AT_55, Down],
        &[
            "node 0: up, place 57, 0 behind, 3 ms\n",
            "node 1: up, place 55, 2 behind, 12 ms\n",
            "node 2: down\n",
        ],
        1,
    ),
    (
        &[AT_0, Down, AT_0],
        &[
            "node 0: up, place 0, 0 behind, 3 ms\n",
            "node 1: down\n",
            "node 2: up, place 0, 0 behind, 3 ms\n",
        ],
        0,
    ),
    (
        &[Down, Down, Down],
        &["node 0: down\n", "node 1: down\n", "node 2: down\n"],
        1,
    ),
    (
        &[AT_0, AT_57, AT_57, AT_0, Down],
        &[
            "node 0: up, place 0, 57 behind, 3 ms\n",
            "node 1: up, place 57, 0 behind, 3 ms\n",
            "node 2: up, place 57, 0 behind, 3 ms\n",
            "node 3: up, place 0, 57 behind, 3 ms\n",
            "node 4: down\n",
        ],
        1,
    ),
];

/// Whether exactly these lines are told of these answers, with this exit status.
fn is_so(alloc: Global, answers: &[NodeAnswer], lines: &[&str], status: u8) -> bool {
    let (mut output, mut errors) = (Vec::new(alloc), Vec::new(alloc));
    let ended = status_of(answers, &mut output, &mut errors);
    let mut rest = output.as_slice();
    for line in lines {
        match rest.strip_prefix(line.as_bytes()) {
            Some(after) => rest = after,
            None => return false,
        }
    }
    ended == status && rest.is_empty() && errors.is_empty()
}

#[test]
fn tells_nodes(rt: HostRuntime) {
    for (answers, lines, status) in ROWS {
        assert!(rt; is_so(rt.alloc(), answers, lines, *status));
    }
}

// Reply lines, and the places of the boards that they show.
const REPLIES: &[(&str, Option<u64>)] = &[
    (
        "{\"incidents\":2,\"ok\":\"board\",\"place\":4,\"session\":7,\"units\":0}\n",
        Some(4),
    ),
    (
        "{\"incidents\":0,\"ok\":\"board\",\"place\":65536,\"session\":7,\"units\":0}\n",
        Some(65_536),
    ),
    (
        "{\"incidents\":0,\"ok\":\"board\",\"place\":18446744073709551615,",
        Some(18_446_744_073_709_551_615),
    ),
    (
        "{\"incidents\":0,\"ok\":\"board\",\"place\":18446744073709551616,",
        None,
    ),
    (
        "{\"incidents\":0,\"ok\":\"board\",\"place\":,\"session\":7}\n",
        None,
    ),
    (
        "{\"incidents\":0,\"ok\":\"board\",\"place\":4x,\"session\":7}\n",
        None,
    ),
    ("{\"incidents\":0,\"ok\":\"board\",\"place\":4", None),
    (
        "{\"incident\":\"a\",\"ok\":\"board\",\"place\":4,\"session\":7}\n",
        None,
    ),
    ("{\"place\":4,\"refusal\":10,\"session\":7}\n", None),
    ("{\"refusal\":34}\n", None),
    ("", None),
];

#[test]
fn reads_places(rt: HostRuntime) {
    for (reply, place) in REPLIES {
        assert!(rt; shown_place(reply.as_bytes()) == *place);
    }
}
