//! The databases in files of the host.

ghost use Rattle.std.specs.Prelude.{◌≡◌};

use crate::named_databases::NamedDatabases;
use desk_database::open_database;
use desk_file::close_file;
use sqlite::{Connection, Error, ErrorCode, File, FileStore};
use std::fs;

/// Opens databases in files of this host.
#[derive(Clone, Copy, Drop)]
pub struct HostDatabases {
    pub rt: HostRuntime,
}

// The only functions here over the files of the host: each proof of such a one goes over all parts of their store.
impl NamedDatabases for HostDatabases {
    type Pages = FileStore<File>;

    // What a file holds is not known before it is opened, nor whether it is there before it is looked for. That only a
    // name that is opened gets a file, and that a look tells which are there, is trusted of the host.
    ghost may_open = { λ _ _ _. Unit {0} };

    ghost may_find = { λ _ _ _. Unit {0} };

    fn is_there(&mut self, name: &str) -> Result<bool, Error> {
        match fs::exists(&self.rt, name) {
            Ok(is_there) => Ok(is_there),
            Err(_) => Err(Error::SqliteFailure(ErrorCode::CannotOpen)),
        }
    }

    fn open(&mut self, name: &str) -> Result<Connection<FileStore<File>>, Error> {
        open_database(&self.rt, name)
    }

    fn close(&mut self, name: &str, connection: &mut Option<Connection<FileStore<File>>>) -> bool
        ensures same { self.new ≡ self.old }
    {
        // The connection knows its file.
        let _ = name;
        close_file(connection.take()).is_whole
    }

    // All are databases of this host.
    fn covers(&self, other: &HostDatabases) -> bool {
        let _ = other;
        true
    }
}
