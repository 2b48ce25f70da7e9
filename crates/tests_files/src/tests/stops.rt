//! A file that stops at each of its calls in turn while a node starts, and the next start.

ghost use Rattle.std.specs.Prelude.{◌≡◌};

use super::databases::{Databases, Stop};
use super::files::{NodeFiles, Trial, WORDS, run_of};
use super::starts::{Start, start};
use super::tried::{Tried, passes_in_memory};
use std::alloc::Global;

/// How many entries each epoch has committed, the file that is lost then, the token that is named for the node, how it
/// starts, and which files stop. Without a token its first file preserves none.
type Row = (
    &'static [u64],
    &'static str,
    Option<u64>,
    Start,
    &'static [&'static str],
);

const ROWS: &[Row] = &[
    (&[], "", None, (0, 0, 0), &["desk", "desk.1"]),
    (&[], "", Some(5), (0, 0, 0), &["desk", "desk.1"]),
    (
        &[4, 1],
        "desk.2",
        None,
        (1, 4, 1),
        &["desk", "desk.1", "desk.2"],
    ),
];

/// The databases before a start.
fn databases_before<F: NodeFiles + Drop>(alloc: Global, row: &Row) -> Option<F::Databases> {
    let mut databases = run_of::<F>(alloc, row.0)?;
    if !row.1.is_empty() {
        databases.rename(row.1, "lost")?;
    }
    Some(databases)
}

/// Where a node starts with its files, with a token or not, or the number of the refusal.
fn start_with<F: NodeFiles>(alloc: Global, files: &mut F, token: Option<u64>) -> Result<Start, u8> {
    if token.is_some() {
        match files.start(token) {
            Ok(_) => {}
            Err(refusal) => return Err(refusal.number()),
        }
    }
    start(alloc, files)
}

/// Where a node starts with databases of which this fails, or the number of the refusal; and what they are then.
fn start_over<F: NodeFiles + Drop>(
    alloc: Global,
    databases: F::Databases,
    token: Option<u64>,
    stop: Option<Stop>,
) -> Option<(Result<Start, u8>, F::Databases)> {
    let mut databases = databases;
    databases.fail(stop);
    let mut files = F::of(alloc, databases, WORDS)?;
    let start = start_with(alloc, &mut files, token);
    Some((start, files.into_parts()))
}

/// Where a node starts with copies of databases, or the number of the refusal; and where it starts with the same ones
/// again, of which nothing fails then.
fn starts<F: NodeFiles + Drop>(
    alloc: Global,
    before: &F::Databases,
    token: Option<u64>,
    stop: Stop,
) -> Option<(Result<Start, u8>, Result<Start, u8>)> {
    let (first, databases) = start_over::<F>(alloc, before.copy()?, token, Some(stop))?;
    let (second, _) = start_over::<F>(alloc, databases, token, None)?;
    Some((first, second))
}

/// Stops a file at each of its calls in turn, until a node starts: how many starts were refused. Each of them is by 41,
/// and the next one ends as it would with no stop. None where one does not.
fn count_stops<F: NodeFiles + Drop>(
    alloc: Global,
    before: &F::Databases,
    row: &Row,
    name: &'static str,
    is_log: bool,
) -> Option<u64> {
    let mut stops = 0u64;
    for calls in 0..1_000u64 {
        let stop = Stop {
            name,
            is_log,
            calls,
        };
        let (first, second) = starts::<F>(alloc, before, row.2, stop)?;
        match first {
            _ if second != Ok(row.3) => return None,
            Ok(start) if start == row.3 => return Some(stops),
            Err(41) => stops = stops.saturating_add(1),
            _ => return None,
        }
    }
    None
}

/// Whether a start is stopped at some call of a file and of its log, and the next one is made.
fn is_stopped_well<F: NodeFiles + Drop>(alloc: Global, row: &Row, name: &'static str) -> bool {
    let Some(before) = databases_before::<F>(alloc, row) else {
        return false;
    };
    let of_log = count_stops::<F>(alloc, &before, row, name, true).unwrap_or(0);
    let of_database = count_stops::<F>(alloc, &before, row, name, false).unwrap_or(0);
    of_log > 0 && of_database > 0
}

/// Starts of a row that a file of this name stops.
#[derive(Clone, Copy)]
pub struct Stopped {
    row: &'static Row,
    name: &'static str,
}

impl Trial for Stopped {
    fn passes<F: NodeFiles + Drop>(&self, alloc: Global) -> bool {
        is_stopped_well::<F>(alloc, self.row, self.name)
    }
}

#[test]
fn a_start_that_a_file_stops_is_made_again(rt: HostRuntime) {
    for row in ROWS {
        for name in row.4 {
            assert!(rt;
                passes_in_memory(rt.alloc(), Tried::Stopped(Stopped { row, name })),
                "{name}"
            );
        }
    }
}
