//! What a document asks for.

ghost use Rattle.serde_json.specs.Data.{Data};
ghost use Rattle.desk_eido.specs.Members.{GivesResult};
ghost use Rattle.desk_eido.specs.Reading.{ReadsAs, ask_of, ask_in, entry_of, show_of, subject_of};
ghost use Rattle.desk_eido.specs.Copied.{IsCopy, IsCopied};
ghost use Rattle.desk_eido.specs.Document.{placed_members};

use crate::ask::Ask;
use crate::copied::Document;
use crate::identifiers::incident_seen;
use crate::list::list_of;
use crate::members::{client_at, instant_at, member_text, request_number_at, unit_seen};
use crate::verb::{command_of_verb, verb_of};
use desk_arena::{DocArena, NodeId};
use desk_types::{Entry, Member, Refusal, Show, Subject, Verb};
use std::alloc::Global;

/// What a copied document asks for. The node is one that `copy_document` answered, and still the last in the arena.
///
/// It is refused with the first that holds of these, member by member in the order of the verb, from `do` on: the
/// member is missing or null (`Missing`), of the wrong kind (`WrongKind`), an unknown verb (`UnknownVerb`), out of its
/// range (`OutOfRange`), no identifier of its kind (`BadIdentifier`), no instant (`BadTime`). Where memory is refused
/// the answer is `WantOfMemory`.
#[tactic(auto, unfolding(crate::specs::Reading::ask_of))]
pub fn command_of(alloc: Global, id: NodeId, arena: &DocArena) -> Result<Ask, Refusal>
    requires { IsCopied id arena.now }
    ensures { (d : Data) → IsCopy d id arena.now → ReadsAs result (ask_of d) }
{
    ask_in(alloc, &Document::new(arena, id))
}

/// What a document asks for, or the first of its members that is refused.
#[tactic(auto, unfolding(crate::specs::Reading::ask_in))]
fn ask_in(alloc: Global, document: &Document<'_>) -> Result<Ask, Refusal>
    ensures { GivesResult (λ a. a) result (ask_in (placed_members document.now)) }
{
    let word = member_text(document, Member::Do)?;
    if word == "show" {
        return Ok(Ask::Show(show_of(alloc, document)?));
    }
    if word == "list" {
        return Ok(Ask::Show(list_of(document)?));
    }
    match verb_of(word) {
        Some(verb) => Ok(Ask::Command(entry_of(alloc, verb, document)?)),
        None => Err(Refusal::UnknownVerb),
    }
}

/// A command of this verb, with its client and number.
#[tactic(auto, unfolding(crate::specs::Reading::entry_of))]
fn entry_of(alloc: Global, verb: Verb, document: &Document<'_>) -> Result<Entry, Refusal>
    ensures { GivesResult (λ e. e) result (entry_of verb (placed_members document.now)) }
{
    let client = client_at(document)?;
    let number = request_number_at(document)?;
    let at = instant_at(document, Member::At)?;
    let command = command_of_verb(verb, alloc, at, document)?;
    Ok(Entry {
        client,
        number,
        command,
    })
}

#[tactic(auto, unfolding(crate::specs::Reading::show_of))]
fn show_of(alloc: Global, document: &Document<'_>) -> Result<Show, Refusal>
    ensures { GivesResult (λ s. s) result (show_of (placed_members document.now)) }
{
    let client = client_at(document)?;
    let subject = subject_of(alloc, document)?;
    Ok(Show { client, subject })
}

/// What a show is about. The unit is looked at only where there is no incident.
#[tactic(auto, unfolding(crate::specs::Reading::subject_of))]
fn subject_of(alloc: Global, document: &Document<'_>) -> Result<Subject, Refusal>
    ensures { GivesResult (λ s. s) result (subject_of (placed_members document.now)) }
{
    if let Some(seen) = document.member(Member::Incident) {
        return Ok(Subject::Incident(incident_seen(alloc, seen, Member::Incident)?));
    }
    if let Some(seen) = document.member(Member::Unit) {
        return Ok(Subject::Unit(unit_seen(alloc, seen, Member::Unit)?));
    }
    Ok(Subject::Board)
}
