//! Which documents fit an arena, and which lines are too long, to the byte.

use super::gives_within;
use super::words::has_text;
use desk_arena::DocArena;
use desk_eido::{copy_document, read_document};
use desk_types::Refusal;
use desk_types::limits::LINE_BYTES;
use std::alloc::Global;

const SHOW: &str = r#"{"do":"show","session":7}"#;

const REPLACED: &str = r#"{"do":"sing","session":[1,2,{"x":null}],"do":"show","session":7}"#;

// An object that holds 126 lists in one another, and one that holds 127.
const LEVELS: &str = "{\"do\":\"show\",\"session\":7,\"x\":\
    [[[[[[[[[[[[[[[[[[[[[[[[[[[[[[[[[[[[[[[[[[[[[[[[[[[[[[[[[[[[[[[[[[[[[[[[[[[[[[[[[[[[[[[[[[[[[[[[[[[[\
    [[[[[[[[[[[[[[[[[[[[[[[[[[\
    ]]]]]]]]]]]]]]]]]]]]]]]]]]]]]]]]]]]]]]]]]]]]]]]]]]]]]]]]]]]]]]]]]]]]]]]]]]]]]]]]]]]]]]]]]]]]]]]]]]]]\
    ]]]]]]]]]]]]]]]]]]]]]]]]]]\
    }";

const MORE_LEVELS: &str = "{\"do\":\"show\",\"session\":7,\"x\":\
    [[[[[[[[[[[[[[[[[[[[[[[[[[[[[[[[[[[[[[[[[[[[[[[[[[[[[[[[[[[[[[[[[[[[[[[[[[[[[[[[[[[[[[[[[[[[[[[[[[[[\
    [[[[[[[[[[[[[[[[[[[[[[[[[[[\
    ]]]]]]]]]]]]]]]]]]]]]]]]]]]]]]]]]]]]]]]]]]]]]]]]]]]]]]]]]]]]]]]]]]]]]]]]]]]]]]]]]]]]]]]]]]]]]]]]]]]]\
    ]]]]]]]]]]]]]]]]]]]]]]]]]]]\
    }";

// Lines, the bytes of an arena, and what is read there: three values and 13 bytes of text take 109 bytes, a replaced
// member takes no room, and no room is told between no JSON and the members. The show, the name of one byte and 126
// lists take 4,142 bytes, and a document has at most 127 levels.
const ROWS: &[(&str, u32, &str)] = &[
    (SHOW, 109, "7 shows board"),
    (SHOW, 108, "9"),
    (REPLACED, 109, "7 shows board"),
    (REPLACED, 108, "9"),
    ("[1]", 0, "1"),
    ("{", 0, "1"),
    ("{}", 31, "9"),
    ("{}", 32, "3 do"),
    (LEVELS, 4_142, "7 shows board"),
    (LEVELS, 4_141, "9"),
    (MORE_LEVELS, 0, "1"),
];

#[test]
fn documents_fit_an_arena_to_the_byte(rt: HostRuntime) {
    for (line, bytes, wanted) in ROWS {
        assert!(rt;
            gives_within(rt.alloc(), line.as_bytes(), *bytes, wanted),
            "{line}"
        );
    }
}

// How many spaces stand before a document, the document, the bytes of an arena, and what is read there.
const LONG: &[(usize, &str, u32, &str)] = &[
    (65_511, SHOW, 109, "7 shows board"),
    (65_512, SHOW, 109, "2"),
    (65_512, SHOW, 0, "2"),
    (65_536, "", 0, "1"),
    (65_537, "", 0, "2"),
];

/// Whether a document after so many spaces is read so.
fn gives_behind(alloc: Global, row: &(usize, &str, u32, &str)) -> bool {
    let Ok(mut line) = Vec::from_elem(alloc, b' ', row.0) else {
        return false;
    };
    line.extend_from_slice(row.1.as_bytes()).is_ok()
        && gives_within(alloc, line.as_slice(), row.2, row.3)
}

#[test]
fn a_line_has_at_most_65536_bytes(rt: HostRuntime) {
    assert!(rt; LINE_BYTES == 65_536);
    for row in LONG {
        assert!(rt; gives_behind(rt.alloc(), row), "{} {}", row.0, row.2);
    }
}
/// Whether the document on a line is read into an arena with this text.
fn gives_in(alloc: Global, line: &str, arena: &mut DocArena, wanted: &str) -> bool {
    has_text(alloc, read_document(alloc, line.as_bytes(), arena), wanted)
}

/// Whether there is no room for a copy of the document on a line after what an arena holds.
fn is_full(alloc: Global, line: &str, arena: &mut DocArena) -> bool {
    match &copy_document(alloc, line.as_bytes(), arena) {
        Err(Refusal::NoRoom) => true,
        _ => false,
    }
}

/// Whether, after a copy that did not fit, the next document is read in an arena of 109 bytes, and fills it.
fn goes_on(alloc: Global) -> bool {
    let Ok(mut arena) = DocArena::with_capacity(alloc, 109) else {
        return false;
    };
    let more = r#"{"do":"show","session":7,"unit":"E1"}"#;
    gives_in(alloc, more, &mut arena, "9")
        && gives_in(alloc, SHOW, &mut arena, "7 shows board")
        && arena.used() == 109
        && is_full(alloc, "{}", &mut arena)
}

#[test]
fn each_document_is_read_into_an_empty_arena(rt: HostRuntime) {
    assert!(rt; goes_on(rt.alloc()));
}
