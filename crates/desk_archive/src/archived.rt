//! The archive of one node's file.

ghost use Rattle.std.specs.Prelude.{◌≡◌, ◌⊎◌, IsTrue, IfOk, IfErr, IfSome, OnOk, OnErr, false};
ghost use Rattle.std.specs.Io.KnownBytes.{Keeps};
ghost use Rattle.sqlite.specs.State.{HasCleanDisk, IsUnchanged};
ghost use Rattle.sqlite.specs.Held.{state};
ghost use Rattle.desk_types.specs.declared.refusal.Refusal.TheVariants as refusals;
ghost use Rattle.desk_log.specs.SavedValue.{committed_entries};
ghost use Rattle.desk_saved.specs.Opening.{IsOpeningRefusal};
ghost use Rattle.desk_naming.specs.Contents.{schema_of};
ghost use Rattle.desk_saved.specs.File.{HasNoTable};
ghost use Rattle.desk_archive.specs.Archive.{IsArchiveRefusal, IsWritingRefusal, HasArchived, HasBegunArchive};
ghost use Rattle.desk_archive.specs.Lines.{AppendsLines, AppendsFirstLines, entries_from};

use crate::lines::write_documents;
use desk_saved::{NamedOwner, SavedState, named_owner};
use desk_types::{Owner, Refusal};
use sqlite::{Alter, Connection};
use std::alloc::Global;
use std::io::Write;

/// What the archive of a file came to, with the connection.
#[derive(Drop)]
pub struct Archived<S: Alter> {
    pub connection: Connection<S>,
    /// How many entries the file has committed, 0 to 65,536, where their lines were written.
    pub result: Result<u64, Refusal>,
}

/// Whether the node is the one whose files came before, where there were any.
fn is_same_node(before: &Option<Owner>, owner: &Owner) -> bool
    ensures { IsTrue result → IfSome before.now (λ it. it ≡ owner.now) }
{
    match before {
        Some(it) => {
            it.id == owner.id && it.n == owner.n && it.domain.as_text() == owner.domain.as_text()
        }
        None => true,
    }
}

/// The node whose file a database is, which is the one whose files came before, where there are any. A database that
/// names no node, or another, is refused by `WrongFile`, a refused growth is `WantOfMemory`, and a fault of the
/// database `StoreFault`. Nothing is changed.
pub fn archived_owner<S: Alter>(
    alloc: Global,
    connection: &mut Connection<S>,
    before: &Option<Owner>,
) -> Result<Owner, Refusal>
    ensures there { HasCleanDisk (state S.Store connection.new)
        → OnOk result (¬ HasNoTable (schema_of S.Store connection.old)) }
    ensures same { HasCleanDisk (state S.Store connection.new) → OnOk result ((connection.new ≡ connection.old)
        ⊎ IsUnchanged (state S.Store connection.old) (state S.Store connection.new)) }
    ensures owner { IfOk result (λ owner. IfSome before.now (λ it. it ≡ owner)) }
    ensures fault { IfErr result IsOpeningRefusal }
{
    let Some(named) = named_owner(alloc, connection)? else {
        return Err(Refusal::WrongFile);
    };
    let NamedOwner { id, n, domain, .. } = named;
    let (Ok(id), Ok(n)) = (u8::try_from(id), u8::try_from(n)) else {
        return Err(Refusal::WrongFile);
    };
    let owner = Owner { id, n, domain };
    if is_same_node(before, &owner) {
        Ok(owner)
    } else {
        Err(Refusal::WrongFile)
    }
}

/// Writes the lines of what a state has committed from a place on, and tells how much it has committed.
fn archive_state<S: Alter, W: Write>(
    alloc: Global,
    writer: &mut W,
    file: &SavedState<S>,
    past: u64,
    from: u64,
) -> Result<u64, Refusal>
    requires running { file.now.stopped ≡ false }
    ensures committed { IfOk result (λ committed. committed ≡ file.now.last.commit) }
    ensures ok { OnOk result (AppendsLines (entries_from past from (committed_entries file.now.last))
        (W.contents writer.old) (W.contents writer.new)) }
    ensures err { OnErr result (AppendsFirstLines (entries_from past from (committed_entries file.now.last))
        (W.contents writer.old) (W.contents writer.new)) }
    ensures fault { IfErr result IsWritingRefusal }
{
    let saved = file.last_saved()?;
    let committed = saved.commit();
    let first = from.saturating_sub(past).saturating_sub(1).min(committed);
    let (entries, _) = saved.log().entries().split_at(committed as usize);
    write_documents(alloc, writer, &entries[first as usize..])?;
    Ok(committed)
}

/// Writes the document lines of what a node's file has committed, from a place on, in the order of their places. The
/// first has the place after `past` others, which stand in files before. A database that has none of the node's tables
/// gets them, and a file of version 1 becomes one of version 2 in it, so whoever wants a file as it is gives a copy.
///
/// It ends early where memory is refused (`WantOfMemory`), where the database answers a fault (`StoreFault`), at a
/// write that fails or takes no byte (`WriteFault`), and where the database is no file of the node, or has an instant
/// that no document names (`WrongFile`).
pub fn archive_database<S: Alter, W: Write>(
    alloc: Global,
    writer: &mut W,
    connection: Connection<S>,
    owner: Owner,
    past: u64,
    from: u64,
) -> Archived<S>
    ensures lines { IfOk result.result (HasArchived S.Store past from owner connection result.connection
        (W.contents writer.old) (W.contents writer.new)) }
    // Where it ends early, the first of these lines were written, or none.
    ensures part { OnErr result.result (Keeps (W.contents writer.old) (W.contents writer.new)
        ⊎ HasBegunArchive S.Store past from owner connection result.connection
        (W.contents writer.old) (W.contents writer.new)) }
    ensures fault { IfErr result.result IsArchiveRefusal }
{
    match SavedState::open(alloc, connection, owner) {
        Ok(file) => {
            let result = archive_state(alloc, writer, &file, past, from);
            Archived {
                connection: file.into_connection(),
                result,
            }
        }
        Err(refused) => Archived {
            connection: refused.connection,
            result: Err(refused.refusal),
        },
    }
}
