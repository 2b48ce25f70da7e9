//! The saved state of a node in a database.

mod answer;
mod costs;
pub mod counting;
pub mod disks;
mod memory;
mod stops;
mod tables;

use desk_codec::{get_entry, put_entry};
use desk_log::{Log, Saved};
use desk_saved::SavedState;
use desk_types::limits::LAST_VIEW;
use desk_types::{Domain, Entry, Owner};
use sqlite::{Alter, Connection, Error};
use std::alloc::Global;

/// Client 7, number 1: a `fire` at `12 Elm St` is opened, without incident and call.
const FIRST: &[u8] =
    b"\0\0\0\0\0\0\0\x07\0\0\0\0\0\0\0\x01\0\x1a\x01\0\0\0\0\x69\xa4\x2a\x40\x04fire\x0912 Elm St\0\0";

/// Client 9, number 1: unit E1 signs on.
const SECOND: &[u8] =
    b"\0\0\0\0\0\0\0\x09\0\0\0\0\0\0\0\x01\0\x0c\x0a\0\0\0\0\x69\xa4\x2a\x40\x02E1";

/// Client 9, number 2: unit E1 signs off.
const OTHER: &[u8] =
    b"\0\0\0\0\0\0\0\x09\0\0\0\0\0\0\0\x02\0\x0c\x0e\0\0\0\0\x69\xa4\x2a\x40\x02E1";

/// A saved state, with the bytes of its entries.
#[derive(Clone, Copy)]
struct State {
    view: u64,
    normal: u64,
    entries: &'static [&'static [u8]],
    commit: u64,
}

/// That of a node that has done nothing.
const INITIAL: State = State {
    view: 0,
    normal: 0,
    entries: &[],
    commit: 0,
};

const OF_TWO_ENTRIES: State = State {
    view: 4,
    normal: 2,
    entries: &[FIRST, SECOND],
    commit: 1,
};

/// `OF_TWO_ENTRIES` with one entry more.
const OF_THREE_ENTRIES: State = State {
    view: 4,
    normal: 2,
    entries: &[FIRST, SECOND, OTHER],
    commit: 1,
};

/// The log is another after its first entry.
const OF_VIEW_5: State = State {
    view: 5,
    normal: 5,
    entries: &[FIRST, OTHER, SECOND],
    commit: 2,
};

/// A node of a group.
#[derive(Clone, Copy)]
struct Node {
    id: u8,
    n: u8,
    domain: &'static str,
}

const NODE_1: Node = Node {
    id: 1,
    n: 3,
    domain: "desk.example",
};

/// The entry of these bytes.
fn entry_of(alloc: Global, bytes: &[u8]) -> Option<Entry> {
    match get_entry(alloc, bytes) {
        Ok((entry, _)) => Some(entry),
        Err(_) => None,
    }
}

/// Puts the entry of these bytes last.
fn is_appended(alloc: Global, log: &mut Log, bytes: &[u8]) -> bool {
    match entry_of(alloc, bytes) {
        Some(entry) => log.append(entry).is_ok(),
        None => false,
    }
}

fn log_of(alloc: Global, entries: &[&[u8]]) -> Option<Log> {
    let mut log = Log::new(alloc);
    for bytes in entries {
        if !is_appended(alloc, &mut log, bytes) {
            return None;
        }
    }
    Some(log)
}

fn saved_of(alloc: Global, state: &State) -> Option<Saved> {
    let log = log_of(alloc, state.entries)?;
    if state.view > LAST_VIEW || state.normal > state.view || state.commit > log.len() {
        return None;
    }
    Some(Saved::new(state.view, state.normal, log, state.commit))
}

/// Whether an entry is spelled by these bytes.
fn is_spelled(alloc: Global, entry: &Entry, wanted: &[u8]) -> bool {
    let mut out = Vec::new(alloc);
    put_entry(entry, &mut out).is_ok() && out.as_slice() == wanted
}

/// Whether the entries are spelled by these, one by one.
fn are_spelled(alloc: Global, entries: &[Entry], wanted: &[&[u8]]) -> bool {
    for (entry, bytes) in entries.iter().zip(wanted) {
        if !is_spelled(alloc, entry, bytes) {
            return false;
        }
    }
    entries.len() == wanted.len()
}

fn is_state(alloc: Global, saved: &Saved, wanted: &State) -> bool {
    saved.view() == wanted.view
        && saved.normal() == wanted.normal
        && saved.commit() == wanted.commit
        && are_spelled(alloc, saved.log().entries(), wanted.entries)
}

/// The same, made again where memory for it is refused.
fn saved_at_last(alloc: Global, state: &State) -> Option<Saved> {
    match saved_of(alloc, state) {
        Some(saved) => Some(saved),
        None => saved_of(alloc, state),
    }
}

/// Saves a state: 0, or the number of the refusal.
fn save<S: Alter>(alloc: Global, file: &mut SavedState<S>, state: &State) -> u8 {
    let Some(saved) = saved_at_last(alloc, state) else {
        return 255;
    };
    let answer = match file.save(&saved) {
        Ok(()) => 0,
        Err(refusal) => refusal.number(),
    };
    drop(saved);
    answer
}

/// Loads the state: 0 where it is this one, the number of the refusal, or 255.
fn load<S: Alter>(alloc: Global, file: &mut SavedState<S>, wanted: &State) -> u8 {
    match file.load() {
        Ok(saved) => {
            let is_wanted = is_state(alloc, &saved, wanted);
            drop(saved);
            if is_wanted { 0 } else { 255 }
        }
        Err(refusal) => refusal.number(),
    }
}

/// Loads a state, and saves others in turn and loads each: 0, or the first answer that is not.
fn save_each<S: Alter>(
    alloc: Global,
    file: &mut SavedState<S>,
    first: &State,
    states: &[State],
) -> u8 {
    let mut answer = load(alloc, file, first);
    for state in states {
        if answer == 0 {
            answer = save(alloc, file, state);
        }
        if answer == 0 {
            answer = load(alloc, file, state);
        }
    }
    answer
}

/// A domain, made again where memory for it is refused.
fn domain_at_last(alloc: Global, text: &str) -> Option<Domain> {
    match Domain::new(alloc, text) {
        Ok(domain) => Some(domain),
        Err(_) => Domain::new(alloc, text).ok(),
    }
}

/// Opens the state of a node, or gives the number of the refusal and the connection.
fn open_file<S: Alter>(
    alloc: Global,
    connection: Connection<S>,
    node: &Node,
) -> Result<SavedState<S>, (u8, Connection<S>)> {
    let Some(domain) = domain_at_last(alloc, node.domain) else {
        return Err((255, connection));
    };
    let owner = Owner {
        id: node.id,
        n: node.n,
        domain,
    };
    match SavedState::open(alloc, connection, owner) {
        Ok(file) => Ok(file),
        Err(refused) => Err((refused.refusal.number(), refused.connection)),
    }
}

/// Opens the state of a node. Where that is the first one, saves the others in turn, and loads each. Gives 0, or the
/// first answer that is not, and the connection.
fn use_file<S: Alter>(
    alloc: Global,
    connection: Connection<S>,
    node: &Node,
    first: &State,
    states: &[State],
) -> (u8, Connection<S>) {
    match open_file(alloc, connection, node) {
        Ok(mut file) => {
            let answer = save_each(alloc, &mut file, first, states);
            (answer, file.into_connection())
        }
        Err(refused) => refused,
    }
}

/// The text that a query answers.
fn text_of<S: Alter>(connection: &mut Connection<S>, sql: &str) -> Result<String, Error> {
    connection.query_row(sql, &[])?.get(0)
}

/// Whether a query answers this text.
fn says<S: Alter>(connection: &mut Connection<S>, sql: &str, wanted: &str) -> bool {
    match text_of(connection, sql) {
        Ok(text) => text.as_str() == wanted,
        Err(_) => false,
    }
}

/// The rows of the node's table.
const NODE_ROWS: &str =
    "SELECT group_concat(slot || ' ' || version || ' ' || id || ' ' || n || ' ' || domain
        || ' ' || view_no || ' ' || normal_no || ' ' || commit_no) FROM node";

/// The rows of the table of entries.
const ENTRY_ROWS: &str =
    "SELECT ifnull(group_concat(place || ' ' || client || ' ' || number || ' ' || hex(body)), '') FROM entry";

/// The rows of the table of clients.
const CLIENT_ROWS: &str =
    "SELECT ifnull(group_concat(client || ' ' || number || ' ' || place), '') FROM client";

/// The rows of the three tables.
#[derive(Clone, Copy)]
struct Rows {
    node: &'static str,
    entries: &'static str,
    clients: &'static str,
}

/// The rows of the tables of `INITIAL`.
const INITIAL_ROWS: Rows = Rows {
    node: "1 2 1 3 desk.example 0 0 0",
    entries: "",
    clients: "",
};

/// The rows of the tables of `OF_TWO_ENTRIES`.
const TWO_ROWS: Rows = Rows {
    node: "1 2 1 3 desk.example 4 2 1",
    entries: "1 7 1 010000000069A42A400466697265093132\
20456C6D2053740000,2 9 1 0A0000000069A42A40024531",
    clients: "7 1 1,9 1 2",
};

/// What makes a file of a state one of version 1.
const SET_BACK: &str = "UPDATE node SET version = 1; DROP TABLE client";

/// Whether the tables hold these rows.
fn has_rows<S: Alter>(connection: &mut Connection<S>, rows: Rows) -> bool {
    says(connection, NODE_ROWS, rows.node)
        && says(connection, ENTRY_ROWS, rows.entries)
        && says(connection, CLIENT_ROWS, rows.clients)
}
