//! What is left of the saved state where memory is refused. These tests are for runs in which one allocation fails; in
//! any other run they say no more than the rest.

use super::OF_THREE_ENTRIES;
use super::disks::{Disks, UNOPENED, crash, run_on_disks};
use super::stops::{Action, SAVES, Task, disks_before};
use sqlite::Files;
use sqlite_disk::Crash;
use std::alloc::Global;

/// The files before an action, made again where memory for them is refused.
fn disks_at_last(alloc: Global, action: &Action) -> Option<Disks> {
    match disks_before(alloc, action) {
        Some(disks) => Some(disks),
        None => disks_before(alloc, action),
    }
}

/// Does something with these files, which lose what is not synced then: as `run_on_disks`.
fn perform_and_crash<D: Crash + Drop>(
    alloc: Global,
    disks: Files<D>,
    task: &Task,
) -> (u8, Files<D>) {
    let (answer, mut disks) = run_on_disks(alloc, disks, task);
    crash(&mut disks);
    (answer, disks)
}

/// Whether tasks on these files are done, one after another.
fn are_done<D: Crash + Drop>(alloc: Global, mut disks: Files<D>, tasks: &[Task]) -> bool {
    let mut is_done = true;
    for task in tasks {
        let (answer, left) = perform_and_crash(alloc, disks, task);
        disks = left;
        is_done = is_done && answer == 0;
    }
    drop(disks);
    is_done
}

/// Whether an action on these files is done. Where it is refused by 40, 41 or because the database does not open, the
/// next open finds the state before it or the state after it, and the action is done when it is made again.
fn is_done_on<D: Crash + Drop>(alloc: Global, disks: Files<D>, action: &Action) -> bool {
    let (answer, disks) = perform_and_crash(alloc, disks, &Task::Act(*action));
    let find = Task::Find(*action, answer);
    let (found, disks) = perform_and_crash(alloc, disks, &find);
    if (answer, found) == (0, 0) {
        drop(disks);
        return true;
    }
    let again = [find, Task::Act(*action), Task::Find(*action, 0)];
    are_done(alloc, disks, again.as_slice()) && matches!(answer, 0 | 40 | 41 | UNOPENED)
}

/// The same of an action on the files before it.
fn is_done_at_last(alloc: Global, action: &Action) -> bool {
    match disks_at_last(alloc, action) {
        Some(disks) => is_done_on(alloc, disks, action),
        None => false,
    }
}

#[test]
fn an_open_is_done_at_last(rt: HostRuntime) {
    assert!(rt; is_done_at_last(rt.alloc(), &Action::Open));
}

#[test]
fn a_file_of_version_1_is_opened_at_last(rt: HostRuntime) {
    assert!(rt; is_done_at_last(rt.alloc(), &Action::Grow));
}

#[test]
fn a_load_is_done_at_last(rt: HostRuntime) {
    assert!(rt; is_done_at_last(rt.alloc(), &Action::Load(OF_THREE_ENTRIES)));
}

/// The same of one of the saves.
fn is_saved_at_last(alloc: Global, number: usize) -> bool {
    match SAVES.get(number) {
        Some((_, action)) => is_done_at_last(alloc, action),
        None => false,
    }
}

// Each save is a test of its own, so that a run in which one of its requests is refused ends with it.

#[test]
fn first_entries_are_saved_at_last(rt: HostRuntime) {
    assert!(rt; is_saved_at_last(rt.alloc(), 0));
}

#[test]
fn an_append_is_saved_at_last(rt: HostRuntime) {
    assert!(rt; is_saved_at_last(rt.alloc(), 1));
}

#[test]
fn a_next_view_is_saved_at_last(rt: HostRuntime) {
    assert!(rt; is_saved_at_last(rt.alloc(), 2));
}

#[test]
fn a_commit_is_saved_at_last(rt: HostRuntime) {
    assert!(rt; is_saved_at_last(rt.alloc(), 3));
}

#[test]
fn another_end_is_saved_at_last(rt: HostRuntime) {
    assert!(rt; is_saved_at_last(rt.alloc(), 4));
}

#[test]
fn a_shorter_log_is_saved_at_last(rt: HostRuntime) {
    assert!(rt; is_saved_at_last(rt.alloc(), 5));
}

#[test]
fn another_log_is_saved_at_last(rt: HostRuntime) {
    assert!(rt; is_saved_at_last(rt.alloc(), 6));
}

#[test]
fn a_cut_log_is_saved_at_last(rt: HostRuntime) {
    assert!(rt; is_saved_at_last(rt.alloc(), 7) && SAVES.len() == 8);
}
