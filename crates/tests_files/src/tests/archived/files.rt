//! What is written of a file: its committed entries from a place on.

use super::entry_of;
use desk_archive::{Archived, archive_database, archived_owner};
use desk_log::{Log, Saved};
use desk_saved::SavedState;
use desk_types::{Domain, Owner};
use sqlite::{Alter, Connection};
use std::alloc::Global;
use tests_streams::Sink;

/// The lines of three entries.
const LINES: [&str; 3] = [
    concat!(
        "{\"session\":7,\"number\":1,\"at\":\"2026-03-01T12:00:00Z\",\"do\":\"open\",",
        "\"kind\":\"fire\",\"where\":\"12 Elm St\"}\n"
    ),
    "{\"session\":9,\"number\":1,\"at\":\"2026-03-01T12:00:00Z\",\"do\":\"sign_on\",\"unit\":\"E1\"}\n",
    "{\"session\":9,\"number\":2,\"at\":\"2026-03-01T12:00:00Z\",\"do\":\"sign_off\",\"unit\":\"E1\"}\n",
];

/// A file with some of the three entries committed, the count of places before it, and the place that is begun with.
#[derive(Clone, Copy)]
struct Row {
    commit: u64,
    past: u64,
    from: u64,
    /// The first of the lines that are written, and the one after the last.
    first: usize,
    end: usize,
}

const ROWS: [Row; 10] = [
    Row {
        commit: 0,
        past: 0,
        from: 1,
        first: 0,
        end: 0,
    },
    Row {
        commit: 1,
        past: 0,
        from: 1,
        first: 0,
        end: 1,
    },
    Row {
        commit: 2,
        past: 0,
        from: 1,
        first: 0,
        end: 2,
    },
    Row {
        commit: 2,
        past: 0,
        from: 2,
        first: 1,
        end: 2,
    },
    Row {
        commit: 2,
        past: 0,
        from: 3,
        first: 2,
        end: 2,
    },
    Row {
        commit: 2,
        past: 0,
        from: 999_999_999_999,
        first: 2,
        end: 2,
    },
    Row {
        commit: 3,
        past: 65_536,
        from: 1,
        first: 0,
        end: 3,
    },
    Row {
        commit: 3,
        past: 65_536,
        from: 65_536,
        first: 0,
        end: 3,
    },
    Row {
        commit: 3,
        past: 65_536,
        from: 65_537,
        first: 0,
        end: 3,
    },
    Row {
        commit: 3,
        past: 65_536,
        from: 65_538,
        first: 1,
        end: 3,
    },
];

/// A node of three.
fn owner(alloc: Global, id: u8) -> Option<Owner> {
    let domain = Domain::new(alloc, "desk.example").ok()?;
    Some(Owner { id, n: 3, domain })
}

/// The state of the three entries, with so many of them committed.
fn saved(alloc: Global, commit: u64) -> Option<Saved> {
    let mut log = Log::new(alloc);
    for line in LINES {
        let entry = entry_of(alloc, line.strip_suffix("\n")?)?;
        log.append(entry).ok()?;
    }
    if commit > log.len() {
        return None;
    }
    Some(Saved::new(0, 0, log, commit))
}

/// Makes a database node 1's file with that state.
// It is generic over the pages: a proof takes longer where the type of a database is known.
fn file<S: Alter + Drop>(
    alloc: Global,
    connection: Connection<S>,
    commit: u64,
) -> Option<Connection<S>> {
    let state = saved(alloc, commit)?;
    let owner = owner(alloc, 1)?;
    let mut file = SavedState::open(alloc, connection, owner).ok()?;
    let is_saved = file.save(&state).is_ok();
    let connection = file.into_connection();
    if is_saved { Some(connection) } else { None }
}

/// What is written of a file, where it counts as committed what it has.
fn archived<S: Alter + Drop>(alloc: Global, connection: Connection<S>, row: &Row) -> Option<Sink> {
    let mut sink = Sink::in_pieces(Vec::new(alloc), 4_096);
    let owner = owner(alloc, 1)?;
    let Archived { result, .. } = archive_database(
        alloc, &mut sink, connection, owner, row.past, row.from,
    );
    if result.ok()? != row.commit {
        return None;
    }
    Some(sink)
}

/// What is written of a row's file, in an empty database.
fn written<S: Alter + Drop>(alloc: Global, connection: Connection<S>, row: &Row) -> Option<Sink> {
    let connection = file(alloc, connection, row.commit)?;
    archived(alloc, connection, row)
}

/// Whether the lines of a row are written of its file, in an empty database.
fn is_written<S: Alter + Drop>(alloc: Global, connection: Connection<S>, row: &Row) -> bool {
    match written(alloc, connection, row) {
        Some(sink) => are_lines_of(row, sink.bytes.as_slice()),
        None => false,
    }
}

/// Whether these are the lines of a row.
fn are_lines_of(row: &Row, bytes: &[u8]) -> bool {
    let mut rest = bytes;
    let mut place = 0usize;
    for line in LINES {
        if row.first <= place && place < row.end {
            match rest.strip_prefix(line.as_bytes()) {
                Some(after) => rest = after,
                None => return false,
            }
        }
        place = place.saturating_add(1);
    }
    rest.is_empty()
}

#[test]
fn committed_entries_are_written_from_a_place_on(rt: HostRuntime) {
    for row in ROWS {
        let is_right = match Connection::open_in_memory(rt.alloc()) {
            Ok(connection) => is_written(rt.alloc(), connection, &row),
            Err(_) => false,
        };
        assert!(rt; is_right, "{} {} {}", row.commit, row.past, row.from);
    }
}

/// Whose files came before.
#[derive(Clone, Copy)]
enum Before {
    Nobody,
    Node(u8),
}

/// The node whose files came before.
fn owner_before(alloc: Global, before: Before) -> Option<Owner> {
    match before {
        Before::Nobody => None,
        Before::Node(id) => owner(alloc, id),
    }
}

/// Whether a database is refused as none of the node whose files came before.
fn is_refused<S: Alter + Drop>(alloc: Global, connection: Connection<S>, before: Before) -> bool {
    let mut connection = connection;
    match archived_owner(alloc, &mut connection, &owner_before(alloc, before)) {
        Ok(_) => false,
        Err(refusal) => refusal.number() == 45,
    }
}

/// Whether node 1's file, in an empty database, is refused as none of the node whose files came before, or is not, as
/// it should be.
fn is_treated<S: Alter + Drop>(
    alloc: Global,
    connection: Connection<S>,
    before: Before,
    is_refusal: bool,
) -> bool {
    match file(alloc, connection, 3) {
        Some(connection) => is_refused(alloc, connection, before) == is_refusal,
        None => false,
    }
}

/// Whose files came before node 1's, and whether that is refused.
const FILES: [(Before, bool); 3] = [
    (Before::Node(2), true),
    (Before::Node(1), false),
    (Before::Nobody, false),
];

#[test]
fn files_of_others_are_refused(rt: HostRuntime) {
    for (before, is_refusal) in FILES {
        let is_right = match Connection::open_in_memory(rt.alloc()) {
            Ok(connection) => is_treated(rt.alloc(), connection, before, is_refusal),
            Err(_) => false,
        };
        assert!(rt; is_right, "{is_refusal}");
    }
}

#[test]
fn a_file_of_nobody_is_refused(rt: HostRuntime) {
    let is_right = match Connection::open_in_memory(rt.alloc()) {
        Ok(connection) => is_refused(rt.alloc(), connection, Before::Nobody),
        Err(_) => false,
    };
    assert!(rt; is_right);
}
