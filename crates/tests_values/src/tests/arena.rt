//! The document arena: what comes of pushes, look-ups and rewinds, one after another.

use desk_arena::{DocArena, Full, MAX_CAPACITY, Mark, Node, NodeId, Text};
use std::alloc::Global;

// What is done to an arena or asked of it, and what comes of that.
#[derive(Clone, Copy)]
enum Step {
    // A node with this first word is pushed: its place, or none where the arena is full.
    PushNode(u32, Option<u32>),
    // A text is pushed: its distance from the end, or none where the arena is full.
    PushText(&'static str, Option<u32>),
    // The node of a place has this first word, or it is not there.
    Node(u32, Option<u32>),
    // The text of this length and distance from the end, or it is not there.
    Text(u32, u32, Option<&'static str>),
    // The bytes that are taken.
    Used(u32),
    Rewind(u32, u32),
    // How long the two lists are.
    Mark(u32, u32),
    Reset,
}

fn node_of(word: u32) -> Node {
    Node {
        words: [word, 2, 3, 4, 5, 6, 7, u32::MAX],
    }
}

fn pushes_node(arena: &mut DocArena, node: Node, wanted: Option<u32>) -> bool {
    match arena.push_node(node) {
        Ok(id) => wanted == Some(id.index),
        Err(Full) => wanted.is_none(),
    }
}

fn pushes_text(arena: &mut DocArena, text: &str, wanted: Option<u32>) -> bool {
    match arena.push_text(text.as_bytes()) {
        Ok(pushed) => pushed.len as usize == text.len() && wanted == Some(pushed.from_end),
        Err(Full) => wanted.is_none(),
    }
}

fn has_node(arena: &DocArena, index: u32, wanted: Option<u32>) -> bool {
    let id = NodeId { index };
    if !arena.holds_node(id) {
        return wanted.is_none();
    }
    match wanted {
        Some(word) => arena.node(id) == node_of(word),
        None => false,
    }
}

fn has_text(arena: &DocArena, len: u32, from_end: u32, wanted: Option<&str>) -> bool {
    let text = Text { len, from_end };
    if !arena.holds_text(text) {
        return wanted.is_none();
    }
    match wanted {
        Some(wanted) => arena.text(text) == wanted.as_bytes(),
        None => false,
    }
}

fn has_mark(arena: &DocArena, nodes: u32, texts: u32) -> bool {
    let mark = arena.mark();
    mark.nodes == nodes && mark.texts == texts
}

/// Makes a step, and answers whether what was wanted came of it.
fn comes_true(arena: &mut DocArena, step: Step) -> bool {
    match step {
        Step::PushNode(word, wanted) => pushes_node(arena, node_of(word), wanted),
        Step::PushText(text, wanted) => pushes_text(arena, text, wanted),
        Step::Node(index, wanted) => has_node(arena, index, wanted),
        Step::Text(len, from_end, wanted) => has_text(arena, len, from_end, wanted),
        Step::Used(wanted) => arena.used() == wanted,
        Step::Mark(nodes, texts) => has_mark(arena, nodes, texts),
        Step::Rewind(nodes, texts) => {
            arena.rewind(Mark { nodes, texts });
            true
        }
        Step::Reset => {
            arena.reset();
            true
        }
    }
}

/// The first step, counted from 1, of which something else comes in a new arena of so many bytes. It is 0 where there
/// is no such arena.
fn first_wrong(alloc: Global, bytes: u32, steps: &[Step]) -> Option<usize> {
    let Ok(mut arena) = DocArena::with_capacity(alloc, bytes.min(MAX_CAPACITY)) else {
        return Some(0);
    };
    if arena.capacity() != bytes {
        return Some(0);
    }
    for (index, step) in steps.iter().enumerate() {
        if !comes_true(&mut arena, *step) {
            return Some(index + 1);
        }
    }
    None
}

const FORTY_BYTES: &[Step] = &[
    Step::PushNode(7, Some(0)),
    Step::PushText("abcdefgh", Some(8)),
    Step::PushText("x", None),
    Step::PushNode(8, None),
    Step::Text(8, 8, Some("abcdefgh")),
    Step::Rewind(1, 0),
    Step::Text(8, 8, None),
    Step::PushText("ij", Some(2)),
    Step::PushText("k", Some(3)),
    Step::Text(3, 3, Some("kij")),
    Step::Node(0, Some(7)),
];

const DISTANCES: &[Step] = &[
    Step::PushText("one", Some(3)),
    Step::PushText("", Some(3)),
    Step::PushText("three", Some(8)),
    Step::Text(8, 8, Some("threeone")),
    Step::Text(5, 8, Some("three")),
    Step::Text(3, 3, Some("one")),
    Step::Text(2, 4, Some("eo")),
    Step::Text(0, 3, Some("")),
    Step::Text(0, 0, Some("")),
    Step::Text(1, 9, None),
    Step::Text(0, 9, None),
    Step::Text(4, 3, None),
    Step::Text(1, 0, None),
];

const LONG: &str = "zzzzzzzzzzzzzzzzzzzzzzzzzzzzzzzzz";

// To the last byte, and again after a rewind.
const TO_THE_LAST_BYTE: &[Step] = &[
    Step::PushText("abc", Some(3)),
    Step::PushNode(1, Some(0)),
    Step::Mark(1, 3),
    Step::PushNode(2, Some(1)),
    Step::Used(67),
    Step::PushText(LONG, Some(36)),
    Step::Used(100),
    Step::PushText("x", None),
    Step::PushNode(1, None),
    Step::Node(0, Some(1)),
    Step::Node(1, Some(2)),
    Step::Node(2, None),
    Step::Text(3, 3, Some("abc")),
    Step::Text(33, 36, Some(LONG)),
    Step::Rewind(1, 3),
    Step::Used(35),
    Step::PushNode(3, Some(1)),
    Step::Used(67),
    Step::PushText(LONG, Some(36)),
    Step::Used(100),
    Step::PushText("x", None),
    Step::PushNode(1, None),
    Step::Node(0, Some(1)),
    Step::Node(1, Some(3)),
    Step::Node(2, None),
    Step::Text(3, 3, Some("abc")),
    Step::Text(33, 36, Some(LONG)),
    Step::Rewind(1, 3),
    Step::Used(35),
];

const REWINDS: &[Step] = &[
    Step::PushText("ab", Some(2)),
    Step::PushNode(1, Some(0)),
    Step::Rewind(9, 9),
    Step::Mark(1, 2),
    Step::Rewind(1, 1),
    Step::Mark(1, 1),
    Step::Rewind(1, 2),
    Step::Mark(1, 1),
    Step::Rewind(0, u32::MAX),
    Step::Mark(0, 1),
    Step::Text(1, 1, Some("b")),
];

const RESETS: &[Step] = &[
    Step::PushNode(1, Some(0)),
    Step::PushText("x", None),
    Step::Reset,
    Step::Used(0),
    Step::Node(0, None),
    Step::PushText("yyyyyyyyyyyyyyyyyyyyyyyyyyyyyyyy", Some(32)),
    Step::PushNode(1, None),
    Step::Reset,
    Step::Text(32, 32, None),
    Step::PushNode(2, Some(0)),
];

const NO_ROOM: &[Step] = &[
    Step::PushNode(1, None),
    Step::PushText("x", None),
    Step::PushText("", Some(0)),
    Step::Text(0, 0, Some("")),
];

// How many bytes an arena has, and the steps in it.
const RUNS: &[(u32, &[Step])] = &[
    (40, FORTY_BYTES),
    (64, DISTANCES),
    (100, TO_THE_LAST_BYTE),
    (40, REWINDS),
    (32, RESETS),
    (0, NO_ROOM),
    (16_777_216, &[Step::Used(0)]),
];

#[test]
fn each_step_comes_true(rt: HostRuntime) {
    for (index, (bytes, steps)) in RUNS.iter().enumerate() {
        assert!(rt; first_wrong(rt.alloc(), *bytes, steps) == None, "{index}");
    }
    assert!(rt; MAX_CAPACITY == 16_777_216);
}
