//! How a node starts with its files, and which files there are then.

ghost use Rattle.std.specs.Prelude.{◌≡◌};

use super::databases::Databases;
use super::files::{MOST, NodeFiles, Trial, WORDS, replaced_run, run_of};
use super::memory::starts_at_last;
use super::tried::{Tried, passes_in_memory};
use desk_epoch_stores::{EpochStores, OpenedEpoch};
use std::alloc::Global;

/// The epoch in which a node starts, how many entries stand before it, and how many of its own are committed.
pub type Start = (u64, u64, u64);

/// Where a node starts with its files, or the number of the refusal.
// It is generic over the files: a proof takes longer where the type of a store is known.
pub fn start<T: EpochStores>(alloc: Global, files: &mut T) -> Result<Start, u8> {
    let opened = match OpenedEpoch::current(alloc, files, MOST) {
        Ok(opened) => opened,
        Err(refusal) => return Err(refusal.number()),
    };
    let committed = opened.committed().len() as u64;
    let base = opened.base();
    let epoch = if base == 0 { 0 } else { base / MOST };
    drop(opened);
    Ok((epoch, base, committed))
}

/// How many entries each epoch has committed; how the node starts, and how many files there are then.
type Row = (&'static [u64], Start, usize);

const STARTS: &[Row] = &[
    (&[], (0, 0, 0), 2),
    (&[3], (0, 0, 3), 2),
    (&[4], (1, 4, 0), 3),
    (&[4, 1], (1, 4, 1), 3),
    (&[4, 4, 2], (2, 8, 2), 4),
    (&[4, 4, 4], (3, 12, 0), 5),
];

/// How a node starts with these databases, and how many files there are then.
fn started<F: NodeFiles + Drop>(
    alloc: Global,
    databases: Option<F::Databases>,
) -> Option<(Start, usize)> {
    let mut files = F::of(alloc, databases?, WORDS)?;
    let start = start(alloc, &mut files).ok()?;
    Some((start, files.into_parts().count()))
}

/// How a node starts after a run, and how many files there are then.
fn started_after<F: NodeFiles + Drop>(alloc: Global, counts: &[u64]) -> Option<(Start, usize)> {
    started::<F>(alloc, run_of::<F>(alloc, counts))
}

/// How many entries each epoch has committed, of which the last names another node; how many stand before the epoch in
/// which the node starts, and how many files there are then.
const REPLACED: &[(&[u64], u64, usize)] = &[
    (&[1], 1, 3),
    (&[3], 3, 3),
    (&[4], 4, 3),
    (&[2, 1], 3, 4),
    (&[4, 1, 3], 8, 5),
];

/// Whether a node starts in the next epoch after such a run.
fn is_next<F: NodeFiles + Drop>(alloc: Global, row: &(&[u64], u64, usize)) -> bool {
    match started::<F>(alloc, replaced_run::<F>(alloc, row.0)) {
        Some(((_, base, committed), count)) => base == row.1 && committed == 0 && count == row.2,
        None => false,
    }
}

/// A start after a run.
#[derive(Clone, Copy)]
pub enum After {
    /// By a row.
    Run(usize),
    ReplacedRun(usize),
    /// One for which memory may be refused.
    RefusedMemory,
}

impl Trial for After {
    fn passes<F: NodeFiles + Drop>(&self, alloc: Global) -> bool {
        match self {
            After::Run(index) => match STARTS.get(*index) {
                Some(row) => started_after::<F>(alloc, row.0) == Some((row.1, row.2)),
                None => false,
            },
            After::ReplacedRun(index) => match REPLACED.get(*index) {
                Some(row) => is_next::<F>(alloc, row),
                None => false,
            },
            After::RefusedMemory => starts_at_last::<F>(alloc),
        }
    }
}

#[test]
fn a_node_goes_on_where_its_files_end(rt: HostRuntime) {
    for index in 0..STARTS.len() {
        assert!(rt;
            passes_in_memory(rt.alloc(), Tried::After(After::Run(index))),
            "{index}"
        );
    }
}

#[test]
fn an_epoch_ends_where_another_node_is_named(rt: HostRuntime) {
    for index in 0..REPLACED.len() {
        assert!(rt;
            passes_in_memory(rt.alloc(), Tried::After(After::ReplacedRun(index))),
            "{index}"
        );
    }
}
