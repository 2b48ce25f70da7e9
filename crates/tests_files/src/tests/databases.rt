//! Databases on files in memory, by their names.

ghost use Rattle.std.specs.Prelude.{◌≡◌};

use desk_database::open_files;
use desk_epoch_files::NamedDatabases;
use desk_file::{ClosedFile, close_file};
use sqlite::{Connection, Error, ErrorCode, FileStore, Files, Options};
use sqlite_disk::{Crash, Disk, Fuse, Memory};
use std::alloc::{AllocError, Global};

/// The file of a database, and its log.
type Disks = Files<Fuse<Memory>>;

/// What the file of a database holds, and its log.
#[derive(Drop)]
struct MemoryFile {
    name: String,
    db: Vec<u8>,
    log: Vec<u8>,
}

/// A file that fails, and how many of its calls pass before.
#[derive(Clone, Copy)]
pub struct Stop {
    /// The name of the database.
    pub name: &'static str,
    /// Whether it is the log beside it.
    pub is_log: bool,
    pub calls: u64,
}

/// Databases on files in memory. What is opened is a copy of a file, which takes the file's place where it is closed
/// or does not open, but for what is not synced.
#[derive(Drop)]
pub struct MemoryDatabases {
    alloc: Global,
    files: Vec<MemoryFile>,
    /// What fails of a database that is opened from now on.
    stop: Option<Stop>,
}

/// How many calls of a file pass.
fn calls_of(stop: &Option<Stop>, name: &str, is_log: bool) -> u64 {
    match stop {
        Some(stop) if stop.is_log == is_log && stop.name == name => stop.calls,
        _ => u64::MAX,
    }
}

/// A file of these bytes, which fails after so many calls.
fn disk_of(alloc: Global, bytes: &[u8], calls: u64) -> Option<Fuse<Memory>> {
    let mut memory = Memory::new(alloc);
    memory.write_at(0, bytes).ok()?;
    memory.sync().ok()?;
    Some(Fuse::new(memory, calls))
}

fn copied(alloc: Global, bytes: &[u8]) -> Result<Vec<u8>, AllocError> {
    let mut copy = Vec::new(alloc);
    copy.extend_from_slice(bytes)?;
    Ok(copy)
}

impl MemoryFile {
    /// An empty file.
    fn new(alloc: Global, name: &str) -> Result<MemoryFile, AllocError> {
        Ok(MemoryFile {
            name: String::from_str(alloc, name)?,
            db: Vec::new(alloc),
            log: Vec::new(alloc),
        })
    }

    /// A copy of it.
    fn copy(&self, alloc: Global) -> Result<MemoryFile, AllocError> {
        Ok(MemoryFile {
            name: String::from_str(alloc, self.name.as_str())?,
            db: copied(alloc, self.db.as_slice())?,
            log: copied(alloc, self.log.as_slice())?,
        })
    }

    /// It becomes what these files hold.
    fn take(&mut self, alloc: Global, disks: &Disks) -> Result<(), AllocError> {
        let db = copied(alloc, disks.db.inner().bytes())?;
        self.log = copied(alloc, disks.log.inner().bytes())?;
        self.db = db;
        Ok(())
    }
}

/// Databases that a test changes.
pub trait Databases {
    /// No file at all.
    fn empty(alloc: Global) -> Self;

    /// A copy of them, of which no file fails.
    fn copy(&self) -> Option<Self>;

    /// How many files there are.
    fn count(&self) -> usize;

    /// Whether the file of this name has the same bytes there.
    fn is_same(&self, other: &Self, name: &str) -> bool;

    /// Gives a file another name.
    fn rename(&mut self, name: &str, other: &str) -> Option<()>;

    /// Takes out all bytes of a file.
    fn cut(&mut self, name: &str) -> Option<()>;

    /// This fails of a database that is opened from now on, or nothing.
    fn fail(&mut self, stop: Option<Stop>);
}

impl Databases for MemoryDatabases {
    fn empty(alloc: Global) -> MemoryDatabases {
        MemoryDatabases {
            alloc,
            files: Vec::new(alloc),
            stop: None,
        }
    }

    fn copy(&self) -> Option<MemoryDatabases> {
        let mut files = Vec::new(self.alloc);
        for file in &self.files {
            files.push(file.copy(self.alloc).ok()?).ok()?;
        }
        Some(MemoryDatabases {
            alloc: self.alloc,
            files,
            stop: None,
        })
    }

    fn count(&self) -> usize {
        self.files.len()
    }

    fn is_same(&self, other: &MemoryDatabases, name: &str) -> bool {
        let (Some(at), Some(there)) = (self.find(name), other.find(name)) else {
            return false;
        };
        match (self.files.get(at), other.files.get(there)) {
            (Some(file), Some(it)) => file.db.as_slice() == it.db.as_slice(),
            _ => false,
        }
    }

    fn rename(&mut self, name: &str, other: &str) -> Option<()> {
        let at = self.find(name)?;
        let other = String::from_str(self.alloc, other).ok()?;
        let file = self.files.get_mut(at)?;
        file.name = other;
        Some(())
    }

    fn cut(&mut self, name: &str) -> Option<()> {
        let at = self.find(name)?;
        let file = self.files.get_mut(at)?;
        file.db.clear();
        file.log.clear();
        Some(())
    }

    fn fail(&mut self, stop: Option<Stop>) {
        self.stop = stop;
    }
}

impl MemoryDatabases {
    /// Where the file of this name stands.
    fn find(&self, name: &str) -> Option<usize> {
        self.files
            .iter()
            .position(|file| file.name.as_str() == name)
    }

    /// Copies of the file of this name, which is made where it is missing, and of its log.
    fn disks(&mut self, name: &str) -> Option<Disks> {
        if self.find(name).is_none() {
            let made = MemoryFile::new(self.alloc, name).ok()?;
            self.files.push(made).ok()?;
        }
        let at = self.find(name)?;
        let file = self.files.get(at)?;
        Some(Files {
            log: disk_of(
                self.alloc,
                file.log.as_slice(),
                calls_of(&self.stop, name, true),
            )?,
            db: disk_of(
                self.alloc,
                file.db.as_slice(),
                calls_of(&self.stop, name, false),
            )?,
        })
    }

    /// The file of this name becomes what these files hold, but for what is not synced.
    fn put_back(&mut self, name: &str, disks: Disks) -> Option<()> {
        let mut disks = disks;
        disks.log.crash();
        disks.db.crash();
        let at = self.find(name)?;
        let alloc = self.alloc;
        self.files.get_mut(at)?.take(alloc, &disks).ok()
    }
}

impl NamedDatabases for MemoryDatabases {
    type Pages = FileStore<Fuse<Memory>>;

    ghost may_open = { λ _ _ _. Unit {0} };

    ghost may_find = { λ _ _ _. Unit {0} };

    fn is_there(&mut self, name: &str) -> Result<bool, Error> {
        Ok(self.find(name).is_some())
    }

    fn open(&mut self, name: &str) -> Result<Connection<FileStore<Fuse<Memory>>>, Error> {
        let Some(disks) = self.disks(name) else {
            return Err(Error::SqliteFailure(ErrorCode::OutOfMemory));
        };
        if !disks.may_be_used() {
            return Err(Error::SqliteFailure(ErrorCode::CannotOpen));
        }
        match open_files(self.alloc, disks, Options::new(7)) {
            Ok(connection) => Ok(connection),
            Err((error, left)) => {
                let _ = self.put_back(name, left.into_files());
                Err(error)
            }
        }
    }

    fn close(
        &mut self,
        name: &str,
        connection: &mut Option<Connection<FileStore<Fuse<Memory>>>>,
    ) -> bool
        ensures alloc { self.new.alloc ≡ self.old.alloc }
    {
        let ClosedFile { files, is_whole } = close_file(connection.take());
        match files {
            Some(disks) => self.put_back(name, disks).is_some() && is_whole,
            None => is_whole,
        }
    }

    fn covers(&self, other: &MemoryDatabases) -> bool {
        let _ = other;
        true
    }
}
