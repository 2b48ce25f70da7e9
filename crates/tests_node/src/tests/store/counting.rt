//! How many entries the saved state has in files.

use super::disks::{Trial, run_on_disks};
use super::{Node, open_file};
use desk_saved::SavedState;
use sqlite::{Alter, Connection, Files};
use sqlite_disk::Disk;
use std::alloc::Global;

const NODE_0: Node = Node {
    id: 0,
    n: 3,
    domain: "desk.example",
};

/// What is counted at most. It is less than the number of any refusal of a file.
const MOST: u8 = 20;

/// How many entries the state has that was saved last, or 255.
fn count_last<S: Alter>(file: &SavedState<S>) -> u8 {
    match file.last_saved() {
        Ok(saved) => u8::try_from(saved.log().len()).unwrap_or(255),
        Err(_) => 255,
    }
}

/// Node 0 opens its file, and answers how many entries it finds.
struct Counting;

impl Trial for Counting {
    fn run<S: Alter>(&self, alloc: Global, connection: Connection<S>) -> (u8, Connection<S>) {
        match open_file(alloc, connection, &NODE_0) {
            Ok(file) => (count_last(&file), file.into_connection()),
            Err(refused) => refused,
        }
    }
}

/// How many entries the saved state of node 0 has in these files.
pub fn count_saved<D: Disk + Drop>(alloc: Global, disks: Files<D>) -> Option<u64> {
    let (count, disks) = run_on_disks(alloc, disks, &Counting);
    drop(disks);
    if count <= MOST {
        Some(count as u64)
    } else {
        None
    }
}
