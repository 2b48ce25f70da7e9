//! What is found of a document's members in its copy.

use super::super::BULLET;
use super::words::has_text;
use desk_arena::DocArena;
use desk_eido::{Ask, command_of, copy_document};
use desk_types::Refusal;
use std::alloc::Global;

/// What the document on a line asks for, copied after another one.
fn asked(alloc: Global, line: &[u8]) -> Result<Ask, Refusal> {
    let Ok(mut arena) = DocArena::with_capacity(alloc, 1_000) else {
        return Err(Refusal::WantOfMemory);
    };
    let other = br#"{"do":"clear","session":8,"unit":"E1"}"#;
    let _first = copy_document(alloc, other, &mut arena)?;
    let id = copy_document(alloc, line, &mut arena)?;
    command_of(alloc, id, &arena)
}

/// Whether the document on a line, copied after another one, has this text.
fn is_asked(alloc: Global, line: &str, wanted: &str) -> bool {
    has_text(alloc, asked(alloc, line.as_bytes()), wanted)
}

// What is inside a member is no member. A name is compared whole. A number past 32 bits is read whole. Of a list the
// session is looked at first, then the state, then the place; of a replacement the node, then the token.
const ROWS: &str = r#"
- {"a":{"do":"open","session":8},"do":"show","session":7,"x":[{"unit":"E1"}]} gives 7 shows board
- {"do":"show","x":{"session":7}} gives 3 session
- {"":1,"D":1,"d":1,"d\u006f":"show","does":1,"sessio":1,"session":7,"sessions":1} gives 7 shows board
- {"do":"show","Session":7} gives 3 session
- {"do":"show","session":4294967303} gives 4294967303 shows board
- {"do":"show","session":9007199254740991} gives 9007199254740991 shows board
- {"do":"list","session":7} gives 7 shows list|any
- {"do":"list","session":7,"state":null,"from":null} gives 7 shows list|any
- {"do":"list","session":7,"state":"open"} gives 7 shows list|open
- {"do":"list","session":7,"state":"cleared","from":1} gives 7 shows list|cleared|1
- {"from":18446744073709551615,"state":"merged","session":7,"do":"list"} gives
  7 shows list|merged|18446744073709551615
- {"do":"list","state":"shut","from":0} gives 3 session
- {"do":"list","session":7,"state":"shut","from":0} gives 5 state
- {"do":"list","session":7,"state":1} gives 4 state
- {"do":"list","session":7,"state":"Open"} gives 5 state
- {"do":"list","session":7,"state":""} gives 5 state
- {"do":"list","session":7,"from":0} gives 5 from
- {"do":"list","session":7,"from":-1} gives 5 from
- {"do":"list","session":7,"from":"1"} gives 4 from
- {"do":"list","session":7,"from":1.0} gives 4 from
- {"do":"list","session":7,"from":18446744073709551616} gives 4 from
- {"do":"List","session":7} gives 6
- {"do":"replace","session":7,"number":1,"at":"2026-03-01T12:00:00Z","node":0,"token":1} gives
  7/1 1772366400 replace|0|1
- {"do":"replace","session":7,"number":1,"at":"2026-03-01T12:00:00Z","node":4,"token":1000000000000} gives
  7/1 1772366400 replace|4|1000000000000
- {"do":"replace","session":7,"number":1,"at":"2026-03-01T12:00:00Z","node":5,"token":0} gives 5 node
- {"do":"replace","session":7,"number":1,"at":"2026-03-01T12:00:00Z","node":256,"token":1} gives 5 node
- {"do":"replace","session":7,"number":1,"at":"2026-03-01T12:00:00Z","node":-1,"token":1} gives 5 node
- {"do":"replace","session":7,"number":1,"at":"2026-03-01T12:00:00Z","node":"2","token":1} gives 4 node
- {"do":"replace","session":7,"number":1,"at":"2026-03-01T12:00:00Z","token":1} gives 3 node
- {"do":"replace","session":7,"number":1,"at":"2026-03-01T12:00:00Z","node":2,"token":0} gives 5 token
- {"do":"replace","session":7,"number":1,"at":"2026-03-01T12:00:00Z","node":2,"token":1000000000001} gives 5 token
- {"do":"replace","session":7,"number":1,"at":"2026-03-01T12:00:00Z","node":2,"token":1.5} gives 4 token
- {"do":"replace","session":7,"number":1,"at":"2026-03-01T12:00:00Z","node":2} gives 3 token
"#;

#[test]
fn members_are_found_in_a_copy_behind_another(rt: HostRuntime) {
    for row in ROWS.split(BULLET) {
        match row.split_once(" gives") {
            Some((line, wanted)) => assert!(rt; is_asked(rt.alloc(), line, wanted), "{line}"),
            None => assert!(rt; row.is_empty(), "{row}"),
        }
    }
}
