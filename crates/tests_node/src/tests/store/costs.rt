//! What a save costs: it writes the rows of the entries that come and of their clients, and no others.

use super::disks::{Disks, Trial, empty_disks, run_on_disks, settle};
use super::{NODE_1, open_file};
use desk_codec::get_body;
use desk_log::{Log, Saved};
use desk_saved::SavedState;
use desk_types::{ClientId, Entry, RequestNumber};
use sqlite::{Alter, Connection};
use std::alloc::Global;

/// Unit E1 signs on.
const BODY: &[u8] = b"\x0a\0\0\0\0\x69\xa4\x2a\x40\x02E1";

/// The number before that of the first client. Numbers of this size make long rows, of which few stand on a page.
const BEFORE_FIRST: u64 = 9_000_000_000_000_000;

/// The first request of a client.
fn entry_of(alloc: Global, client: u64) -> Option<Entry> {
    let id = ClientId::new(client)?;
    let number = RequestNumber::new(client)?;
    match get_body(alloc, BODY) {
        Ok(command) => Some(Entry {
            client: id,
            number,
            command,
        }),
        Err(_) => None,
    }
}

/// Puts an entry of a client last.
fn is_appended(alloc: Global, log: &mut Log, client: u64) -> bool {
    match entry_of(alloc, client) {
        Some(entry) => log.append(entry).is_ok(),
        None => false,
    }
}

/// A log of one entry by each of so many clients.
fn log_of_clients(alloc: Global, count: u32) -> Option<Log> {
    let mut log = Log::new(alloc);
    for number in 1..=count as u64 {
        if !is_appended(alloc, &mut log, BEFORE_FIRST.saturating_add(number)) {
            return None;
        }
    }
    Some(log)
}

/// Saves the log of so many clients: 0, or the number of the refusal.
fn save_clients<S: Alter>(alloc: Global, file: &mut SavedState<S>, count: u32) -> u8 {
    let Some(log) = log_of_clients(alloc, count) else {
        return 255;
    };
    let saved = Saved::new(0, 0, log, 0);
    let answer = match file.save(&saved) {
        Ok(()) => 0,
        Err(refusal) => refusal.number(),
    };
    drop(saved);
    answer
}

/// A node opens its file and saves the log of so many clients.
#[derive(Clone, Copy)]
struct Clients {
    count: u32,
}

impl Trial for Clients {
    fn run<S: Alter>(&self, alloc: Global, connection: Connection<S>) -> (u8, Connection<S>) {
        match open_file(alloc, connection, &NODE_1) {
            Ok(mut file) => {
                let answer = save_clients(alloc, &mut file, self.count);
                (answer, file.into_connection())
            }
            Err(refused) => refused,
        }
    }
}

/// The files with the log of so many clients.
fn disks_of(alloc: Global, count: u32) -> Option<Disks> {
    let (answer, disks) = run_on_disks(alloc, empty_disks(alloc), &Clients { count });
    if answer == 0 { Some(disks) } else { None }
}

/// How many bytes the database's log has where it holds one save alone: that of an entry by one client more, after
/// those of so many.
fn bytes_of_save(alloc: Global, count: u32) -> Option<usize> {
    let disks = settle(alloc, disks_of(alloc, count)?);
    let next = Clients {
        count: count.saturating_add(1),
    };
    let (answer, disks) = run_on_disks(alloc, disks, &next);
    let bytes = disks.log.inner().bytes().len();
    drop(disks);
    if answer == 0 { Some(bytes) } else { None }
}

// The rows of 400 clients fill more than two pages, and those of as many entries more than four. A contract can't
// refuse a save that writes the table of clients again, or the whole log.
#[test]
fn a_save_writes_no_row_that_stays(rt: HostRuntime) {
    let few = bytes_of_save(rt.alloc(), 10).unwrap_or(0);
    let many = bytes_of_save(rt.alloc(), 400).unwrap_or(1);
    assert!(rt; few == many, "{few} {many}");
}
