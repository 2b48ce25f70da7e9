//! The state that a node keeps across a restart, in three tables of a database, whatever other tables it has.
#![tactic(auto)]

ghost use Rattle.std.specs.Prelude.{◌≡◌};
ghost use Rattle.sqlite_trees.specs.Tree.{Trees};
ghost use Rattle.sqlite_schema.specs.declared.schema.Schema.{Schema};
ghost use Rattle.sqlite_catalog.specs.Listing.{IsSound};
ghost use Rattle.sqlite.specs.Effect.{Database, IsDatabase};
ghost use Rattle.desk_types.specs.declared.owner.Owner.{Owner};
ghost use Rattle.desk_log.specs.SavedValue.{SavedValue};
ghost use Rattle.desk_saved.specs.DeskTables.{Layout};
ghost use Rattle.desk_saved.specs.File.{HasNoTable, IsState, IsFileOf};
ghost use Rattle.desk_saved.specs.NewTables.{HasRoomForTables, Becomes};
ghost use Rattle.desk_saved.specs.OldFile.{GrowsTo, HasOldTables, HasRoomForClients, IsGrown, IsOldFileOf};

mod changes;
mod last_saved;
mod load;
mod old_file;
mod rows;
mod saved_state;
mod schema;
mod state_store;
mod steps;
mod transactions;

pub use desk_naming::{NamedOwner, named_owner};
pub use desk_types::Owner;
pub use saved_state::{OpenRefused, SavedState};
pub use schema::referring_table;

/// What is true of every database. It does nothing: its clauses are the laws.
pub fn laws()
    // Where the three tables can be added, there is a desk that the database comes to have.
    ensures room { (schema : Schema) → HasRoomForTables schema → (d : Layout) × Becomes schema d }
    // Where the table of the clients can be added to those of version 1, there is a desk that it comes to have.
    ensures grown { (schema : Schema) → HasOldTables schema → HasRoomForClients schema
        → (d : Layout) × GrowsTo schema d }
    // Trees list one schema at most, and a database is that of one saved state of a node at most: so what a stop of a
    // save leaves is opened to the old state or to the new, and what a stop of an open leaves to the state of the file.
    ensures schemas { (trees : Trees) (one other : Schema) → IsSound one trees → IsSound other trees → one ≡ other }
    ensures states { (owner : Owner) (db : Database) (one other : SavedValue)
        → IsFileOf owner db one → IsFileOf owner db other → one ≡ other }
    ensures old_states { (owner : Owner) (db : Database) (one other : SavedValue)
        → IsOldFileOf owner db one → IsOldFileOf owner db other → one ≡ other }
    ensures grown_files { (owner : Owner) (d : Layout) (s : SavedValue) (old : Trees) (db : Database) → IsState s
        → IsDatabase db → IsGrown d owner s old db.trees → IsFileOf owner db s }
    ensures there { (owner : Owner) (db : Database) (s : SavedValue) → IsFileOf owner db s → ¬ HasNoTable db.schema }
{}
