//! A file of version 1, and what makes it one of version 2.

ghost use Rattle.std.specs.Prelude.{◌≡◌, ◌≤◌, ◌↔◌, length, IsTrue, false, IfOk, MatchOption};
ghost use Rattle.std.specs.List.{list_any};
ghost use Rattle.sqlite.specs.State.{HasCleanDisk};
ghost use Rattle.sqlite.specs.Held.{state};
ghost use Rattle.desk_codec.specs.Version.{is_new_entry};
ghost use Rattle.desk_naming.specs.Contents.{schema_of, trees_of};
ghost use Rattle.desk_saved.specs.DeskTables.{LogTables, HasLogTables};
ghost use Rattle.desk_saved.specs.OldFile.{IsOldState, HasOldFile, HasNoOldState};
ghost use Rattle.desk_naming.specs.Reads.{HasRead};

use crate::last_saved::LastSaved;
use crate::load::load_saved;
use desk_codec::has_new_verb;
use desk_types::limits::FIRST_LOG_ENTRIES;
use desk_types::{Entry, Owner, Refusal};
use sqlite::{Alter, Connection};
use std::alloc::Global;

/// The version of such a file, as the row of the node tells it.
const FIRST_VERSION: u64 = 1;

/// Whether a log of these entries is one that a node of version 1 can have.
fn are_old(entries: &[Entry]) -> bool
    ensures { IsTrue result
        ↔ ((length entries.now ≤ FIRST_LOG_ENTRIES) × (list_any is_new_entry entries.now ≡ false)) }
{
    entries.len() as u64 <= FIRST_LOG_ENTRIES && !has_new_verb(entries)
}

/// The saved state in the tables of the node and of the entries, where they hold one of the node in a file of version
/// 1.
pub(crate) fn load_old<S: Alter>(
    conn: &mut Connection<S>,
    alloc: Global,
    owner: &Owner,
) -> Result<Option<LastSaved>, Refusal>
    ensures found { HasCleanDisk (state S.Store conn.new) → (d : LogTables)
        → schema_of S.Store conn.old ≡ d.schema
        → IfOk result (λ found. MatchOption found (HasNoOldState d owner.now (trees_of S.Store conn.old))
        (λ s. IsOldState s × HasOldFile d owner.now s (trees_of S.Store conn.old))) }
    ensures read { HasRead S.Store conn.old conn.new HasLogTables result }
{
    let Some(saved) = load_saved(conn, alloc, FIRST_VERSION, owner)? else {
        return Ok(None);
    };
    let is_old = are_old(saved.log().entries());
    if !is_old {
        drop(saved);
        return Ok(None);
    }
    Ok(Some(saved))
}
