//! The commands about incidents. `at` is in whole seconds since 1970.

ghost use Rattle.desk_eido.specs.Members.{GivesResult};
ghost use Rattle.desk_eido.specs.Reading.{open_of, add_call_of, link_of, unlink_of, merge_of, split_of, clear_of};
ghost use Rattle.desk_eido.specs.Reading.{reopen_of, note_of};
ghost use Rattle.desk_eido.specs.Document.{placed_members};

use crate::copied::Document;
use crate::identifiers::{call_at, incident_at, optional_call_at, optional_incident_at};
use crate::members::bounded_at;
use desk_types::{Command, Member, Refusal};
use std::alloc::Global;

#[tactic(auto, unfolding(crate::specs::Reading::open_of))]
pub(crate) fn open_of(alloc: Global, at: i64, document: &Document<'_>) -> Result<Command, Refusal>
    ensures { GivesResult (λ c. c) result (open_of at (placed_members document.now)) }
{
    let kind = bounded_at(alloc, document, Member::Kind)?;
    let site = bounded_at(alloc, document, Member::Where)?;
    let incident = optional_incident_at(alloc, document, Member::Incident)?;
    let call = optional_call_at(alloc, document, Member::Call)?;
    Ok(Command::Open {
        at,
        kind,
        site,
        incident,
        call,
    })
}

#[tactic(auto, unfolding(crate::specs::Reading::add_call_of))]
pub(crate) fn add_call_of(
    alloc: Global,
    at: i64,
    document: &Document<'_>,
) -> Result<Command, Refusal>
    ensures { GivesResult (λ c. c) result (add_call_of at (placed_members document.now)) }
{
    let incident = incident_at(alloc, document, Member::Incident)?;
    let call = call_at(alloc, document, Member::Call)?;
    Ok(Command::AddCall { at, incident, call })
}

#[tactic(auto, unfolding(crate::specs::Reading::link_of))]
pub(crate) fn link_of(alloc: Global, at: i64, document: &Document<'_>) -> Result<Command, Refusal>
    ensures { GivesResult (λ c. c) result (link_of at (placed_members document.now)) }
{
    let incident = incident_at(alloc, document, Member::Incident)?;
    let other = incident_at(alloc, document, Member::Other)?;
    Ok(Command::Link {
        at,
        incident,
        other,
    })
}

#[tactic(auto, unfolding(crate::specs::Reading::unlink_of))]
pub(crate) fn unlink_of(alloc: Global, at: i64, document: &Document<'_>) -> Result<Command, Refusal>
    ensures { GivesResult (λ c. c) result (unlink_of at (placed_members document.now)) }
{
    let incident = incident_at(alloc, document, Member::Incident)?;
    let other = incident_at(alloc, document, Member::Other)?;
    Ok(Command::Unlink {
        at,
        incident,
        other,
    })
}

#[tactic(auto, unfolding(crate::specs::Reading::merge_of))]
pub(crate) fn merge_of(alloc: Global, at: i64, document: &Document<'_>) -> Result<Command, Refusal>
    ensures { GivesResult (λ c. c) result (merge_of at (placed_members document.now)) }
{
    let incident = incident_at(alloc, document, Member::Incident)?;
    let into = incident_at(alloc, document, Member::Into)?;
    Ok(Command::Merge { at, incident, into })
}

#[tactic(auto, unfolding(crate::specs::Reading::split_of))]
pub(crate) fn split_of(alloc: Global, at: i64, document: &Document<'_>) -> Result<Command, Refusal>
    ensures { GivesResult (λ c. c) result (split_of at (placed_members document.now)) }
{
    let incident = incident_at(alloc, document, Member::Incident)?;
    let call = call_at(alloc, document, Member::Call)?;
    let kind = bounded_at(alloc, document, Member::Kind)?;
    let site = bounded_at(alloc, document, Member::Where)?;
    Ok(Command::Split {
        at,
        incident,
        call,
        kind,
        site,
    })
}

#[tactic(auto, unfolding(crate::specs::Reading::clear_of))]
pub(crate) fn clear_of(alloc: Global, at: i64, document: &Document<'_>) -> Result<Command, Refusal>
    ensures { GivesResult (λ c. c) result (clear_of at (placed_members document.now)) }
{
    let incident = incident_at(alloc, document, Member::Incident)?;
    Ok(Command::Clear { at, incident })
}

#[tactic(auto, unfolding(crate::specs::Reading::reopen_of))]
pub(crate) fn reopen_of(alloc: Global, at: i64, document: &Document<'_>) -> Result<Command, Refusal>
    ensures { GivesResult (λ c. c) result (reopen_of at (placed_members document.now)) }
{
    let incident = incident_at(alloc, document, Member::Incident)?;
    Ok(Command::Reopen { at, incident })
}

#[tactic(auto, unfolding(crate::specs::Reading::note_of))]
pub(crate) fn note_of(alloc: Global, at: i64, document: &Document<'_>) -> Result<Command, Refusal>
    ensures { GivesResult (λ c. c) result (note_of at (placed_members document.now)) }
{
    let incident = incident_at(alloc, document, Member::Incident)?;
    let text = bounded_at(alloc, document, Member::Text)?;
    Ok(Command::Note { at, incident, text })
}
