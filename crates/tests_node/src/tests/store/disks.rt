//! Databases on two files in memory, which fail after so many calls.

use sqlite::{Alter, Connection, FileStore, Files, Options};
use sqlite_disk::{Crash, Disk, Fuse, Memory};
use std::alloc::Global;

/// The file of a database, and its log.
pub type Disks = Files<Fuse<Memory>>;

/// How many calls of each file pass before the others fail.
#[derive(Clone, Copy)]
pub struct Fuses {
    pub log: u64,
    pub db: u64,
}

/// Two files without a byte, which do not fail.
pub fn empty_disks(alloc: Global) -> Disks {
    Files {
        log: Fuse::new(Memory::new(alloc), u64::MAX),
        db: Fuse::new(Memory::new(alloc), u64::MAX),
    }
}

/// A file of these bytes, which fails after so many calls.
fn disk_of(alloc: Global, bytes: &[u8], calls: u64) -> Option<Fuse<Memory>> {
    let mut memory = Memory::new(alloc);
    memory.write_at(0, bytes).ok()?;
    memory.sync().ok()?;
    Some(Fuse::new(memory, calls))
}

/// Two files of the same bytes with these fuses.
pub fn copies(alloc: Global, disks: &Disks, fuses: Fuses) -> Option<Disks> {
    let log = disk_of(alloc, disks.log.inner().bytes(), fuses.log)?;
    let db = disk_of(alloc, disks.db.inner().bytes(), fuses.db)?;
    Some(Files { log, db })
}

// It and what uses it are generic over the disk: a proof takes longer where the type of the store is known.
/// Opens a database, or gives its files back. Each commit is copied from the log into the file at once.
pub fn connect<D: Disk + Drop>(
    alloc: Global,
    disks: Files<D>,
) -> Result<Connection<FileStore<D>>, Files<D>> {
    if !disks.may_be_used() {
        return Err(disks);
    }
    let mut options = Options::new(7);
    options.checkpoint_frames = 1;
    // an open asks for each of these pages: as many as hold all that is in these files
    options.cache_pages = 20;
    options.spill_pages = 200;
    match Connection::open_files(alloc, disks, options) {
        Ok(connection) => Ok(connection),
        Err((_, left)) => Err(left.into_files()),
    }
}

/// Loses what is not synced.
pub fn crash<D: Crash>(disks: &mut Files<D>) {
    disks.log.crash();
    disks.db.crash();
}

/// What is done with a database, whatever keeps its pages.
pub trait Trial {
    /// Does it: 0, the number of the refusal, or 255 where something else is found than may be; and the database.
    fn run<S: Alter>(&self, alloc: Global, connection: Connection<S>) -> (u8, Connection<S>);
}

/// The answer where the database does not open.
pub const UNOPENED: u8 = 254;

// No store is let go: the code for that would be proved in this crate, for all that a store is made of.
/// Does it with these files: what it answers, or `UNOPENED`, and the files.
pub fn run_on_disks<T: Trial, D: Disk + Drop>(
    alloc: Global,
    disks: Files<D>,
    trial: &T,
) -> (u8, Files<D>) {
    match connect(alloc, disks) {
        Ok(connection) => {
            let (answer, connection) = trial.run(alloc, connection);
            (answer, connection.into_store().close())
        }
        Err(disks) => (UNOPENED, disks),
    }
}

/// Copies all that is committed from the log into the file, and gives the files.
pub fn settle<D: Disk + Drop>(alloc: Global, disks: Files<D>) -> Files<D> {
    match connect(alloc, disks) {
        Ok(connection) => match connection.close_files() {
            Ok(disks) => disks,
            Err((_, store)) => store.close(),
        },
        Err(disks) => disks,
    }
}

/// What is answered over files without a byte.
pub fn answer_of<T: Trial>(alloc: Global, trial: &T) -> u8 {
    let (answer, disks) = run_on_disks(alloc, empty_disks(alloc), trial);
    drop(disks);
    answer
}
