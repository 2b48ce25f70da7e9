//! What the first file of a node preserves of its first start, and later starts.

ghost use Rattle.std.specs.Prelude.{◌≡◌};

use super::databases::Databases;
use super::files::{MOST, NodeFiles, Trial, WORDS, Words};
use super::tried::{Tried, passes_in_memory};
use desk_types::limits::LOG_ENTRIES;
use std::alloc::Global;
use tests_streams::Sink;

/// What a node is started with: the token that is named, where one is, and how many places its epochs have.
type Asked = (Option<u64>, u64);

/// How a node is started first, and how then; its token then, or what is printed of the refusal.
type Row = (Asked, Asked, Result<u64, &'static str>);

const OTHER_TOKEN: &str =
    "desk: 45 WrongFile\ndesk: desk is the file of a node with another token\n";

const NO_TOKEN: &str = "desk: 45 WrongFile\ndesk: desk is the file of a node with no token\n";

const OTHER_PLACES: &str = "desk: 45 WrongFile\ndesk: desk has epochs of 4 places\n";

const FULL_LOGS: &str = "desk: 45 WrongFile\ndesk: desk has epochs of 65536 places\n";

const ROWS: &[Row] = &[
    ((None, LOG_ENTRIES), (None, LOG_ENTRIES), Ok(0)),
    ((None, MOST), (None, MOST), Ok(0)),
    ((Some(5), LOG_ENTRIES), (Some(5), LOG_ENTRIES), Ok(5)),
    ((Some(5), MOST), (None, MOST), Ok(5)),
    ((Some(5), MOST), (Some(6), MOST), Err(OTHER_TOKEN)),
    ((None, MOST), (Some(6), MOST), Err(NO_TOKEN)),
    ((None, LOG_ENTRIES), (Some(6), LOG_ENTRIES), Err(NO_TOKEN)),
    ((Some(5), MOST), (None, LOG_ENTRIES), Err(OTHER_PLACES)),
    ((None, MOST), (None, 3), Err(OTHER_PLACES)),
    ((None, LOG_ENTRIES), (None, MOST), Err(FULL_LOGS)),
];

/// The files of a node whose epochs have so many places.
fn files_with<F: NodeFiles + Drop>(alloc: Global, databases: F::Databases, most: u64) -> Option<F> {
    F::of(alloc, databases, Words { most, ..WORDS })
}

/// Makes the state of the first epoch.
fn make_state<F: NodeFiles + Drop>(files: &mut F) -> Option<()> {
    let store = files.open(0).ok()?;
    let _ = files.close(0, store);
    Some(())
}

/// The databases of a node that is started so, with its state where `has_state`.
fn started<F: NodeFiles + Drop>(
    alloc: Global,
    databases: F::Databases,
    asked: Asked,
    has_state: bool,
) -> Option<F::Databases> {
    let mut files = files_with::<F>(alloc, databases, asked.1)?;
    let _ = files.start(asked.0).ok()?;
    if has_state {
        make_state(&mut files)?;
    }
    Some(files.into_parts())
}

/// Whether a start of files ends so: with this token, or with what is printed of the refusal.
fn ends_as<F: NodeFiles>(
    alloc: Global,
    files: &mut F,
    given: Option<u64>,
    wanted: Result<u64, &str>,
) -> bool {
    let started = files.start(given);
    let mut sink = Sink::whole(Vec::new(alloc));
    match (started, wanted) {
        (Ok(token), Ok(expected)) => token == expected,
        (Err(refusal), Err(expected)) => {
            files.print(&mut sink, &refusal);
            sink.bytes.as_slice() == expected.as_bytes()
        }
        _ => false,
    }
}

/// Whether a start ends as a row says.
fn starts_as<F: NodeFiles + Drop>(alloc: Global, row: &Row, has_state: bool) -> bool {
    let Some(databases) = started::<F>(alloc, F::Databases::empty(alloc), row.0, has_state) else {
        return false;
    };
    match files_with::<F>(alloc, databases, row.1.1) {
        Some(mut files) => ends_as(alloc, &mut files, row.1.0, row.2),
        None => false,
    }
}

/// The databases of a node that is started by no words.
fn opened<F: NodeFiles + Drop>(alloc: Global) -> Option<F::Databases> {
    let mut files = files_with::<F>(alloc, F::Databases::empty(alloc), LOG_ENTRIES)?;
    make_state(&mut files)?;
    Some(files.into_parts())
}

/// Whether a start without a token, with full logs, leaves the first file as it is without the words for both.
fn leaves_no_byte<F: NodeFiles + Drop>(alloc: Global) -> Option<bool> {
    let before = opened::<F>(alloc)?;
    let none = F::Databases::empty(alloc);
    let after = started::<F>(alloc, none, (None, LOG_ENTRIES), true)?;
    let again = started::<F>(alloc, after.copy()?, (None, LOG_ENTRIES), true)?;
    Some(after.is_same(&before, "desk") && again.is_same(&before, "desk"))
}

/// The rows that are tried with a first start that stopped before the state was made.
const STOPPED: &[Row] = &[
    ((Some(5), MOST), (Some(5), MOST), Ok(5)),
    ((Some(5), MOST), (None, MOST), Ok(5)),
    ((Some(5), MOST), (Some(6), MOST), Err(OTHER_TOKEN)),
    // Nothing was made.
    ((None, LOG_ENTRIES), (Some(6), MOST), Ok(6)),
];

/// What a first file preserves, by a row.
#[derive(Clone, Copy)]
pub enum Preserved {
    /// After a whole first start.
    Whole(usize),
    /// After one that stopped.
    Stopped(usize),
    /// No byte, of a node of its group.
    Nothing,
}

impl Trial for Preserved {
    fn passes<F: NodeFiles + Drop>(&self, alloc: Global) -> bool {
        let (rows, index, has_state) = match self {
            Preserved::Whole(index) => (ROWS, *index, true),
            Preserved::Stopped(index) => (STOPPED, *index, false),
            Preserved::Nothing => return leaves_no_byte::<F>(alloc) == Some(true),
        };
        match rows.get(index) {
            Some(row) => starts_as::<F>(alloc, row, has_state),
            None => false,
        }
    }
}

#[test]
fn a_node_starts_with_what_its_first_file_preserves(rt: HostRuntime) {
    for index in 0..ROWS.len() {
        assert!(rt;
            passes_in_memory(rt.alloc(), Tried::Preserved(Preserved::Whole(index))),
            "{index}"
        );
    }
}

#[test]
fn a_table_without_a_state_is_preserved_too(rt: HostRuntime) {
    for index in 0..STOPPED.len() {
        assert!(rt;
            passes_in_memory(rt.alloc(), Tried::Preserved(Preserved::Stopped(index))),
            "{index}"
        );
    }
}

#[test]
fn a_node_of_its_group_has_no_table_more(rt: HostRuntime) {
    assert!(rt; passes_in_memory(rt.alloc(), Tried::Preserved(Preserved::Nothing)));
}
