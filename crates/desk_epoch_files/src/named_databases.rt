//! Databases by the names of their files.

use sqlite::{Alter, Connection, Error};

/// Opens the databases in files of these names.
pub trait NamedDatabases {
    ghost use Rattle.std.specs.Prelude.{◌≡◌, List, ℕ, Bool, Result, IfOk, true};
    ghost use Rattle.sqlite.specs.Held.{Held};
    ghost use Rattle.sqlite.specs.declared.error.Error.{Error as AnError};
    ghost use Rattle.desk_epoch_files.specs.Additions.{AddsNone, AddsOnly};

    /// What keeps the pages of a database.
    type Pages: Alter + Drop;

    /// The database in the file of this name may be opened as this connection.
    ghost may_open: { Self → List ℕ → Held Self.Pages → Type 0 };

    /// A look for the file of this name may answer so: whether it is there.
    ghost may_find: { Self → List ℕ → Result Bool AnError → Type 0 };

    /// Whether there is a file of this name. Nothing is made.
    fn is_there(&mut self, name: &str) -> Result<bool, Error>
        ensures found { may_find self.old name.now result }
        ensures adds { AddsNone (may_find self.old) (may_find self.new) }
        ensures same { (at : List ℕ) → (c : Held Self.Pages) → may_open self.new at c → may_open self.old at c };

    /// Opens the database in the file of this name, and makes the file where it is missing.
    fn open(&mut self, name: &str) -> Result<Connection<Self::Pages>, Error>
        ensures opened { IfOk result (λ c. may_open self.old name.now c) }
        ensures adds { AddsOnly (may_find self.old) (may_find self.new) (λ at. at ≡ name.now) }
        ensures same { (at : List ℕ) → (c : Held Self.Pages) → may_open self.new at c → may_open self.old at c };

    /// Takes and closes the database in the file of this name, where it is at hand: whether all that was saved stands
    /// in the file. Else it is to be opened with what stands beside it.
    // By reference, as the checker proves no impl that takes a connection of its own.
    fn close(&mut self, name: &str, connection: &mut Option<Connection<Self::Pages>>) -> bool
        ensures adds { AddsNone (may_find self.old) (may_find self.new) }
        ensures same { (at : List ℕ) → (c : Held Self.Pages) → may_open self.new at c → may_open self.old at c };

    /// Whether each database that the other may open may be opened here, too.
    fn covers(&self, other: &Self) -> bool
        ensures { result ≡ true → (at : List ℕ) → (c : Held Self.Pages) → may_open other.now at c
            → may_open self.now at c };
}
