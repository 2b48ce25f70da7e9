//! The boards that a page's server tells browsers.

use super::script::{Answer, Scripted};
use desk_browsers::{new_connection, serve_browser};
use desk_follow::Follower;
use desk_page::{PageService, SharedPage, publish_listed};
use std::alloc::{AllocError, Global};
use std::hash::RandomState;
use std::sync::{Arc, Wait};
use std::time::Clock;

/// The number of the run.
const RUN: u64 = 9;

const AT_5: &str = "{\"incidents\":[],\"ok\":\"list\",\"place\":5,\"session\":1,\"units\":[]}\n";

const AT_7: &str = "{\"incidents\":[],\"ok\":\"list\",\"place\":7,\"session\":1,\"units\":[]}\n";

const REFUSED: &str = "{\"refusal\":6}\n";

// What nodes answer to lists, one after the other; what a browser asks for then; and the board that it is sent.
const ROWS: &[(&[Answer], &str, &str)] = &[
    (&[Some(AT_5)], "/board", AT_5),
    (&[Some(AT_5), Some(AT_7)], "/board", AT_7),
    (&[Some(AT_5), Some(AT_7)], "/board?after=5&of=9", AT_7),
    (&[Some(AT_7), Some(AT_5)], "/board", AT_7),
    (&[Some(AT_7), Some(AT_5)], "/board?after=5&of=9", AT_7),
    (
        &[Some(AT_5), Some(REFUSED), Some(AT_7)],
        "/board?after=5&of=9",
        AT_7,
    ),
    (&[Some(AT_7), Some(REFUSED)], "/board?after=7&of=8", AT_7),
];

/// Who asks nodes that answer so.
fn follower(alloc: Global, answers: &'static [Answer]) -> Follower<Scripted<'static>> {
    Follower::new(Scripted::new(alloc, answers), 3)
}

/// What the threads of a page's server share, once nodes have answered so to lists.
fn shared_page<R: Wait>(
    rt: &R,
    alloc: Global,
    lists: &'static [Answer],
) -> SharedPage<Follower<Scripted<'static>>> {
    let shared = SharedPage::new(follower(alloc, &[]), follower(alloc, &[]));
    let mut reader = follower(alloc, lists);
    for _ in 0..lists.len() {
        let (back, _reported) = publish_listed(rt, alloc, &shared, reader, 1);
        reader = back;
    }
    shared
}

/// The bytes of a request.
fn request(alloc: Global, target: &str) -> Result<Vec<u8>, AllocError> {
    let mut text = Vec::from_slice(alloc, b"GET ")?;
    text.extend_from_slice(target.as_bytes())?;
    text.extend_from_slice(b" HTTP/1.1\r\nHost: 127.0.0.1\r\n\r\n")?;
    Ok(text)
}

/// What is sent to a browser that asks for this target.
fn sent<R: Wait + Clock + Drop + Copy>(
    rt: R,
    alloc: Global,
    keys: Option<RandomState>,
    lists: &'static [Answer],
    target: &str,
) -> Option<Vec<u8>> {
    let text = request(alloc, target).ok()?;
    let shared = Arc::new(alloc, shared_page(&rt, alloc, lists)).ok()?;
    let mut service = PageService::new(rt, alloc, RUN, shared);
    let mut connection = new_connection(alloc, keys?);
    let (mut input, mut output) = (text.as_slice(), Vec::new(alloc));
    // what was sent is looked at, and not how it ended
    let _ = serve_browser(&rt, &mut connection, &mut service, &mut input, &mut output);
    Some(output)
}

/// Whether that is an answer whose text is this board.
fn is_board(sent: Option<Vec<u8>>, board: &str) -> bool {
    match sent {
        Some(bytes) => {
            bytes.as_slice().starts_with(b"HTTP/1.1 200 ")
                && bytes.as_slice().ends_with(board.as_bytes())
        }
        None => false,
    }
}

#[test]
fn a_browser_gets_the_newest_board_that_nodes_listed(rt: HostRuntime) {
    let alloc = rt.alloc();
    for &(lists, target, board) in ROWS {
        let keys = RandomState::new(&rt).ok();
        assert!(rt;
            is_board(sent(rt, alloc, keys, lists, target), board),
            "{target}"
        );
    }
}
