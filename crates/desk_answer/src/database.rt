//! A node over a database that keeps its state.

ghost use Rattle.std.specs.Prelude.{◌≡◌, ◌≢◌, ◌<◌, List, ℕ, [], false, IsErr, IfErr, OnOk, Err};
ghost use Rattle.std.specs.Io.KnownBytes.{Appends, IsAtEnd};
ghost use Rattle.sqlite.specs.State.{HasCleanDisk};
ghost use Rattle.sqlite.specs.Held.{state};
ghost use Rattle.desk_types.specs.Group.{IsGroup};
ghost use Rattle.desk_types.specs.declared.refusal.Refusal.TheVariants as refusals;
ghost use Rattle.desk_frames.specs.Received.{HasReceived, HasNoFrame};
ghost use Rattle.desk_frames.specs.Stream.{BeginsNone};
ghost use Rattle.desk_log.specs.SavedValue.{SavedValue};
ghost use Rattle.desk_naming.specs.Contents.{schema_of};
ghost use Rattle.desk_saved.specs.File.{HasNoTable, IsFileOf};
ghost use Rattle.desk_saved.specs.OldFile.{HasOldTables, IsOldFileOf};
ghost use Rattle.desk_saved.specs.NewTables.{HasRoomForTables};
ghost use Rattle.desk_saved.specs.Opening.{IsOpeningRefusal};
ghost use Rattle.desk_saved.specs.Saving.{KeepsFile};
ghost use Rattle.desk_saved.specs.SchemaRefusals.{HasTables, IsReferredTo};
ghost use Rattle.desk_types.specs.Refusal.{IsStoreRefusal};
ghost use Rattle.desk_types.specs.Refusal.{HasStored};
ghost use Rattle.desk_answer.specs.AnswerFile.{LeavesFile, IsEither};
ghost use Rattle.desk_types.specs.Refusal.{IsWritingFault};
ghost use Rattle.desk_answer.specs.AnswerStream.{IsAnswerFault};
ghost use Rattle.desk_answer.specs.AnswerRun.{AnswersAll, AnswersButLast, ServesOver, HasEndedRunBy, EndsAtOnceBy};
ghost use Rattle.desk_answer.specs.AnswerRun.{IsUntouched};
ghost use Rattle.desk_output.specs.Prefixes.{AppendsPrefix};

use crate::stream::answer_stream;
use desk_node::Node;
use desk_saved::{Owner, SavedState};
use desk_types::Refusal;
use sqlite::{Alter, Connection};
use std::alloc::Global;
use std::io::{Read, Write};

/// What answering over a database came to, with the connection.
#[derive(Drop)]
pub struct Answered<S: Alter> {
    pub connection: Connection<S>,
    pub result: Result<(), Refusal>,
}

/// Answers packets as the node whose state was saved last.
fn answer_from_last<R: Read, W: Write, S: Alter>(
    alloc: Global,
    reader: &mut R,
    writer: &mut W,
    owner: Owner,
    file: &mut SavedState<S>,
) -> Result<(), Refusal>
    requires group { IsGroup owner.n }
    requires id { owner.id < owner.n }
    requires running { file.old.stopped ≡ false }
    ensures end { OnOk result (IsAtEnd (R.remaining reader.new)) }
    ensures ok { OnOk result (HasReceived (R.remaining reader.old) (R.remaining reader.new)
        (AnswersAll (Appends (W.contents writer.old) (W.contents writer.new)) owner file.old.last file.new.last) []) }
    ensures frame_fault { IfErr result (λ r. r ≡ refusals.FrameFault → (rest : List ℕ) × BeginsNone rest
        × HasReceived (R.remaining reader.old) (R.remaining reader.new)
        (AnswersAll (Appends (W.contents writer.old) (W.contents writer.new)) owner file.old.last file.new.last) rest) }
    ensures read_fault { IfErr result (λ r. r ≡ refusals.ReadFault → (rest : List ℕ) × HasNoFrame rest
        × HasReceived (R.remaining reader.old) (R.remaining reader.new)
        (AnswersAll (Appends (W.contents writer.old) (W.contents writer.new)) owner file.old.last file.new.last) rest) }
    ensures unsaved { IfErr result (λ r. IsStoreRefusal r → (between last : SavedValue) × (rest : List ℕ)
        × HasReceived (R.remaining reader.old) (R.remaining reader.new)
        (AnswersButLast (Appends (W.contents writer.old) (W.contents writer.new)) owner file.old.last between last) rest
        × LeavesFile S.Store file.old file.new (IsEither between last)) }
    ensures cut_short { IfErr result (λ r. IsWritingFault r → (rest : List ℕ)
        × HasReceived (R.remaining reader.old) (R.remaining reader.new)
        (AnswersAll (AppendsPrefix (W.contents writer.old) (W.contents writer.new)) owner file.old.last file.new.last)
        rest) }
    ensures fault { IfErr result IsAnswerFault }
    ensures running { IfErr result (λ r. r ≢ refusals.NodeStopped) }
    ensures rows { HasStored result → KeepsFile S.Store file.old file.new }
    ensures clean { HasCleanDisk (state S.Store file.new.connection)
        → HasCleanDisk (state S.Store file.old.connection) }
    ensures same_owner { file.new.owner ≡ file.old.owner }
{
    let last = file.last_saved()?;
    let mut node = Node::from_saved(alloc, owner.id, owner.n, owner.domain, last);
    let answered = answer_stream(alloc, reader, writer, &mut node, file);
    // Where the function's end drops the node, its proof takes longer.
    drop(node);
    answered
}

/// Answers the packets of the reader on the writer as the node whose state a database holds. A database that has
/// none of the three tables gets them, with the state of a node that has done nothing; one that has the two of version
/// 1 gets the third, and its state goes on. The state after each packet is saved before any of its answers is written.
///
/// It ends early where memory is refused (`WantOfMemory`), where the database answers a fault (`StoreFault`), at bytes
/// that no frame begins with (`FrameFault`), at a read that fails, an end inside a frame, and after 4,294,967,295 reads
/// (`ReadFault`), at a write that fails or takes no byte (`WriteFault`), and where the tables hold no state of the node
/// (`WrongFile`).
pub fn answer_database<R: Read, W: Write, S: Alter>(
    alloc: Global,
    reader: &mut R,
    writer: &mut W,
    connection: Connection<S>,
    owner: Owner,
) -> Answered<S>
    requires group { IsGroup owner.n }
    requires id { owner.id < owner.n }
    // It read to the end, and wrote exactly what the node sends that the database held; the database holds now what
    // this node has saved after these packets, and the other tables as they were.
    ensures end { OnOk result.result (IsAtEnd (R.remaining reader.new)) }
    ensures ok { OnOk result.result (ServesOver S.Store owner connection result.connection
        (R.remaining reader.old) (R.remaining reader.new)
        (Appends (W.contents writer.old) (W.contents writer.new)) []) }
    ensures err { IfErr result.result (λ r. HasEndedRunBy S.Store r owner connection result.connection
        (R.remaining reader.old) (R.remaining reader.new) (W.contents writer.old) (W.contents writer.new)) }
    // Where one of the tables is there, and the rows are those of no state of the node, it ends by `WantOfMemory`,
    // `StoreFault` or `WrongFile` before anything is read.
    ensures refused { ¬ HasNoTable (schema_of S.Store connection)
        → ((s : SavedValue) → ¬ IsFileOf owner (state S.Store connection).now s)
        → ((s : SavedValue) → ¬ IsOldFileOf owner (state S.Store connection).now s)
        → HasCleanDisk (state S.Store result.connection)
        → IsErr result.result × IfErr result.result IsOpeningRefusal
        × IsUntouched (R.remaining reader.old) (R.remaining reader.new)
        (W.contents writer.old) (W.contents writer.new) }
    // Tables that are neither the three of a desk nor the two of version 1 are `WrongFile` at once. Where they are the
    // three but for a foreign key that names one, or where there is none and no room for them, it is `StoreFault`.
    ensures other { ¬ HasNoTable (schema_of S.Store connection)
        → ¬ HasTables (schema_of S.Store connection)
        → ¬ HasOldTables (schema_of S.Store connection)
        → EndsAtOnceBy refusals.WrongFile connection result.connection result.result }
    ensures referred { IsReferredTo (schema_of S.Store connection)
        → EndsAtOnceBy refusals.StoreFault connection result.connection result.result }
    ensures room { HasNoTable (schema_of S.Store connection)
        → ¬ HasRoomForTables (schema_of S.Store connection)
        → EndsAtOnceBy refusals.StoreFault connection result.connection result.result }
{
    let Ok(preserved) = owner.copy() else {
        return Answered {
            connection,
            result: Err(Refusal::WantOfMemory),
        };
    };
    match SavedState::open(alloc, connection, preserved) {
        Ok(mut file) => {
            let result = answer_from_last(alloc, reader, writer, owner, &mut file);
            Answered {
                connection: file.into_connection(),
                result,
            }
        }
        Err(refused) => Answered {
            connection: refused.connection,
            result: Err(refused.refusal),
        },
    }
}
