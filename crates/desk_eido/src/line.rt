//! Lines of documents.

ghost use Rattle.std.specs.Prelude.{◌≡◌, ◌≢◌, IfOk, IfErr, IsTrue, is_some};
ghost use Rattle.serde_json.specs.Data.{Data};
ghost use Rattle.serde_json.specs.Find.{as_object};
ghost use Rattle.serde_json.specs.View.{view};
ghost use Rattle.desk_arena.specs.Contents.{room, empty_contents, IsWithinCapacity};
ghost use Rattle.desk_types.specs.declared.refusal.Refusal.{Refusal};
ghost use Rattle.desk_types.specs.declared.refusal.Refusal.TheVariants as refusals;
ghost use Rattle.desk_eido.specs.Copied.{no_name, with_copy, IsCopied, IsPartOf};
ghost use Rattle.desk_eido.specs.Members.{GivesResult};
ghost use Rattle.desk_eido.specs.Reading.{ReadsAs, CopiesAs, ask_on_line, document, fitted_document};

use crate::ask::Ask;
use crate::copy::{NO_NAME, copy};
use crate::document::command_of;
use desk_arena::{DocArena, Full, NodeId};
use desk_types::Refusal;
use desk_types::limits::LINE_BYTES;
use serde_json::Value;
use std::alloc::Global;

/// The JSON object that a line is.
#[tactic(auto, unfolding(crate::specs::Reading::document))]
fn document_of(alloc: Global, line: &[u8]) -> Result<Value, Refusal>
    ensures document { GivesResult view result (document line.now) }
    ensures object { IfOk result (λ v. IsTrue (is_some (as_object (view v)))) }
{
    if line.len() > LINE_BYTES {
        return Err(Refusal::TooLong);
    }
    match Value::from_slice(alloc, line) {
        Ok(value) => {
            if value.is_object() {
                Ok(value)
            } else {
                Err(Refusal::NotJson)
            }
        }
        Err(error) => {
            if error.is_memory() {
                Err(Refusal::WantOfMemory)
            } else {
                Err(Refusal::NotJson)
            }
        }
    }
}

/// Copies the JSON object of a line into the arena, after what that holds, and answers its node. The line has no
/// newline.
///
/// It is refused with the first that holds of these: it is longer than 65,536 bytes (`TooLong`), it is no JSON object
/// (`NotJson`), the copy does not fit what is left of the arena (`NoRoom`). Where memory is refused the answer is
/// `WantOfMemory`. Where it is refused with `NoRoom` the arena holds a beginning of the copy after what it held; with
/// any other it is as it was.
#[tactic(auto, unfolding(crate::specs::Reading::fitted_document))]
pub fn copy_document(alloc: Global, line: &[u8], arena: &mut DocArena) -> Result<NodeId, Refusal>
    ensures copied { CopiesAs result arena.old arena.new (fitted_document (room arena.old) line.now) }
    ensures object { IfOk result (λ id. IsCopied id arena.new) }
    // What the arena held stands in it as the oldest part.
    ensures preserved { IsPartOf arena.old arena.new }
    // Only a copy that does not fit leaves a part of itself.
    ensures unchanged { IfErr result (λ r. r ≢ refusals.NoRoom → arena.new ≡ arena.old) }
    // No more is pushed than the copy.
    ensures begun { (d : Data) → document line.now ≡ Ok d
        → IsPartOf arena.new (with_copy d no_name arena.old) }
    ensures capacity { arena.new.capacity ≡ arena.old.capacity }
    ensures within { IsWithinCapacity arena.new }
{
    prove!(arena.used() <= arena.capacity());
    let document = document_of(alloc, line)?;
    match copy(&document, NO_NAME, arena) {
        Ok(id) => Ok(id),
        Err(Full) => Err(Refusal::NoRoom),
    }
}

/// What the document on a line asks for. The line is given without its newline. The arena is emptied, and then holds
/// the document's copy alone, whatever is refused of its members; a beginning of the copy where it does not fit; and
/// nothing where the line is no document.
///
/// It is refused with the first that holds of these: it is longer than 65,536 bytes (`TooLong`), it is no JSON object
/// (`NotJson`), its copy does not fit the arena (`NoRoom`), and then, member by member in the order of the verb, from
/// `do` on: the member is missing or null (`Missing`), of the wrong kind (`WrongKind`), an unknown verb
/// (`UnknownVerb`), out of its range (`OutOfRange`), no identifier of its kind (`BadIdentifier`), no instant
/// (`BadTime`). Where memory is refused the answer is `WantOfMemory`.
#[tactic(auto, unfolding(crate::specs::Reading::ask_on_line))]
pub fn read_document(alloc: Global, line: &[u8], arena: &mut DocArena) -> Result<Ask, Refusal>
    ensures reads { ReadsAs result (ask_on_line arena.old.capacity line.now) }
    // The copy of a document that fits is in the arena, alone.
    ensures copied { (d : Data) → fitted_document arena.old.capacity line.now ≡ Ok d
        → result ≢ Err refusals.WantOfMemory
        → arena.new ≡ with_copy d no_name (empty_contents arena.old.capacity) }
    // No more of any document is there than its copy.
    ensures begun { (d : Data) → document line.now ≡ Ok d
        → IsPartOf arena.new (with_copy d no_name (empty_contents arena.old.capacity)) }
    // Of a line that is no document nothing is there.
    ensures empty { (r : Refusal) → document line.now ≡ Err r
        → arena.new ≡ empty_contents arena.old.capacity }
    ensures capacity { arena.new.capacity ≡ arena.old.capacity }
    ensures within { IsWithinCapacity arena.new }
{
    arena.reset();
    let id = copy_document(alloc, line, arena)?;
    command_of(alloc, id, arena)
}
