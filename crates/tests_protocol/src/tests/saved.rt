//! The saved state of a node.

use super::{Request, entry, holds, log_of};
use desk_log::{MemoryStore, Saved, StateStore};
use desk_types::limits::LAST_VIEW;
use std::alloc::Global;

const SHORT: &[Request] = &[(7, 1)];

const LONG: &[Request] = &[(7, 1), (9, 1), (9, 2)];

/// The place that a request is given in the log of a saved state, 0 where it is refused.
fn place_given(alloc: Global, saved: &mut Saved, request: Request) -> u64 {
    match entry(alloc, request.0, request.1) {
        Some(entry) => saved.append(entry).unwrap_or(0),
        None => 0,
    }
}

/// The view, the last normal view and the commit.
pub fn numbers_of(saved: &Saved) -> (u64, u64, u64) {
    (saved.view(), saved.normal(), saved.commit())
}

pub fn is_saved(saved: &Saved, numbers: (u64, u64, u64), requests: &[Request]) -> bool {
    numbers_of(saved) == numbers && holds(saved.log(), requests)
}

/// A saved state with a log of requests. `None` where it would not be one.
pub fn saved_of(alloc: Global, numbers: (u64, u64, u64), requests: &[Request]) -> Option<Saved> {
    let (view, normal, commit) = numbers;
    let log = log_of(alloc, requests)?;
    if view > LAST_VIEW || normal > view || commit > log.len() {
        return None;
    }
    Some(Saved::new(view, normal, log, commit))
}

/// Goes to a view and a commit, where neither falls.
fn goes_to(saved: &mut Saved, view: u64, commit: u64) -> bool {
    if view < saved.view() || view > LAST_VIEW {
        return false;
    }
    if commit < saved.commit() || commit > saved.log().len() {
        return false;
    }
    saved.set_commit(commit);
    saved.set_view(view);
    true
}

/// Takes a log of requests, and is normal in a view.
fn installs(
    alloc: Global,
    saved: &mut Saved,
    view: u64,
    commit: u64,
    requests: &[Request],
) -> bool {
    let Some(log) = log_of(alloc, requests) else {
        return false;
    };
    if view < saved.view() || view > LAST_VIEW {
        return false;
    }
    if commit < saved.commit() || commit > log.len() {
        return false;
    }
    saved.install(view, log, commit);
    true
}

// What is done to a saved state.
#[derive(Clone, Copy)]
enum Change {
    // A request is put last, at this place.
    Append(Request, u64),
    // It goes to a view and a commit.
    Go(u64, u64),
    // It takes a log, and is normal in a view, with a commit.
    Install(u64, u64, &'static [Request]),
}

fn is_changed(alloc: Global, saved: &mut Saved, change: Change) -> bool {
    match change {
        Change::Append(request, place) => place_given(alloc, saved, request) == place,
        Change::Go(view, commit) => goes_to(saved, view, commit),
        Change::Install(view, commit, requests) => installs(alloc, saved, view, commit, requests),
    }
}

// What is done, and then the view, the last normal view, the commit and the log.
const CHANGES: &[(Change, (u64, u64, u64), &[Request])] = &[
    (Change::Append((7, 1), 1), (0, 0, 0), SHORT),
    (Change::Append((8, 1), 2), (0, 0, 0), &[(7, 1), (8, 1)]),
    (Change::Go(4, 1), (4, 0, 1), &[(7, 1), (8, 1)]),
    (Change::Install(6, 2, LONG), (6, 6, 2), LONG),
];

/// The first change, counted from 1, of a new state by which it becomes another; 0 where that is not a new one.
fn first_other(alloc: Global, saved: &mut Saved) -> Option<usize> {
    if !is_saved(saved, (0, 0, 0), [].as_slice()) {
        return Some(0);
    }
    for (index, &(change, numbers, requests)) in CHANGES.iter().enumerate() {
        if !is_changed(alloc, saved, change) || !is_saved(saved, numbers, requests) {
            return Some(index + 1);
        }
    }
    None
}

#[test]
fn a_state_changes(rt: HostRuntime) {
    let mut saved = Saved::initial(rt.alloc());
    let other = first_other(rt.alloc(), &mut saved);
    drop(saved);
    assert!(rt; other == None);
}

/// Whether the copy of a saved state is the same.
fn is_copied(alloc: Global, numbers: (u64, u64, u64), requests: &[Request]) -> Option<bool> {
    let saved = saved_of(alloc, numbers, requests)?;
    let copy = saved.copy();
    drop(saved);
    match copy {
        Ok(copy) => Some(is_saved(&copy, numbers, requests)),
        Err(_) => None,
    }
}

#[test]
fn a_saved_state_is_copied(rt: HostRuntime) {
    for (numbers, requests) in [((6, 6, 2), LONG), ((9, 5, 1), SHORT)] {
        let copied = is_copied(rt.alloc(), numbers, requests);
        assert!(rt; copied == Some(true), "{}", numbers.0);
    }
}

/// States that are saved one after the other: of a log that grows, that stays, in which entries are others, and that
/// is cut.
const SAVED: &[((u64, u64, u64), &[Request])] = &[
    ((0, 0, 0), &[(7, 1)]),
    ((0, 0, 1), &[(7, 1), (7, 2)]),
    ((2, 0, 1), &[(7, 1), (7, 2)]),
    ((3, 3, 1), &[(7, 1), (8, 1), (8, 2)]),
    ((4, 3, 1), &[(7, 1)]),
];

/// Saves a state, and gives whether the last one is that state then. `None` where memory is refused.
fn is_preserved(
    store: &mut MemoryStore,
    saved: &Saved,
    numbers: (u64, u64, u64),
    requests: &[Request],
) -> Option<bool> {
    store.save_state(saved, 0).ok()?;
    let copy = store.copy_last().ok()?;
    Some(is_saved(&copy, numbers, requests))
}

/// How many states a store in memory saves until memory is refused. `None` where the last one is not kept.
pub fn kept_states(alloc: Global) -> Option<usize> {
    let mut store = MemoryStore::new(alloc);
    for (before, (numbers, requests)) in SAVED.iter().enumerate() {
        let Some(saved) = saved_of(alloc, *numbers, requests) else {
            return Some(before);
        };
        match is_preserved(&mut store, &saved, *numbers, requests) {
            Some(true) => {}
            Some(false) => return None,
            None => return Some(before),
        }
    }
    Some(SAVED.len())
}

#[test]
fn a_store_in_memory_saves_every_state(rt: HostRuntime) {
    assert!(rt; kept_states(rt.alloc()) == Some(5));
}
