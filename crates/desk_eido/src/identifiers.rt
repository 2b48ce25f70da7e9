//! The identifiers in a document.

ghost use Rattle.desk_types.specs.declared.parts.IdKind.TheVariants as kinds;
ghost use Rattle.desk_eido.specs.Members.{GivesResult, identifier_at, id_seen, optional_id_at};
ghost use Rattle.desk_eido.specs.Document.{placed_members};
ghost use Rattle.desk_eido.specs.SeenViews.{seen_view};

use crate::copied::Document;
use crate::members::{seen_at, text_seen};
use crate::seen::Seen;
use desk_types::{CallId, IncidentId, Member, Refusal};
use std::alloc::Global;

/// The incident that is seen under a member.
#[tactic(auto, unfolding(crate::specs::Members::id_seen))]
pub(crate) fn incident_seen(
    alloc: Global,
    seen: Seen<'_>,
    member: Member,
) -> Result<IncidentId, Refusal>
    ensures { GivesResult (λ i. i) result (id_seen kinds.Incident member (seen_view seen.entry)) }
{
    match IncidentId::parse(alloc, text_seen(seen, member)?) {
        Ok(id) => Ok(id),
        Err(Refusal::BadIdentifier { .. }) => Err(Refusal::BadIdentifier { member }),
        Err(_) => Err(Refusal::WantOfMemory),
    }
}

/// The call that is seen under a member.
#[tactic(auto, unfolding(crate::specs::Members::id_seen))]
fn call_seen(alloc: Global, seen: Seen<'_>, member: Member) -> Result<CallId, Refusal>
    ensures { GivesResult (λ i. i) result (id_seen kinds.Call member (seen_view seen.entry)) }
{
    match CallId::parse(alloc, text_seen(seen, member)?) {
        Ok(id) => Ok(id),
        Err(Refusal::BadIdentifier { .. }) => Err(Refusal::BadIdentifier { member }),
        Err(_) => Err(Refusal::WantOfMemory),
    }
}

/// The incident that a member names.
#[tactic(auto, unfolding(crate::specs::Members::identifier_at))]
pub(crate) fn incident_at(
    alloc: Global,
    document: &Document<'_>,
    member: Member,
) -> Result<IncidentId, Refusal>
    ensures { GivesResult (λ i. i) result (identifier_at kinds.Incident member (placed_members document.now)) }
{
    incident_seen(alloc, seen_at(document, member)?, member)
}

/// The call that a member names.
#[tactic(auto, unfolding(crate::specs::Members::identifier_at))]
pub(crate) fn call_at(
    alloc: Global,
    document: &Document<'_>,
    member: Member,
) -> Result<CallId, Refusal>
    ensures { GivesResult (λ i. i) result (identifier_at kinds.Call member (placed_members document.now)) }
{
    call_seen(alloc, seen_at(document, member)?, member)
}

/// The incident that a member names, if there is the member.
#[tactic(auto, unfolding(crate::specs::Members::optional_id_at))]
pub(crate) fn optional_incident_at(
    alloc: Global,
    document: &Document<'_>,
    member: Member,
) -> Result<Option<IncidentId>, Refusal>
    ensures { GivesResult (λ i. i) result (optional_id_at kinds.Incident member (placed_members document.now)) }
{
    match document.member(member) {
        None => Ok(None),
        Some(seen) => Ok(Some(incident_seen(alloc, seen, member)?)),
    }
}

/// The call that a member names, if there is the member.
#[tactic(auto, unfolding(crate::specs::Members::optional_id_at))]
pub(crate) fn optional_call_at(
    alloc: Global,
    document: &Document<'_>,
    member: Member,
) -> Result<Option<CallId>, Refusal>
    ensures { GivesResult (λ i. i) result (optional_id_at kinds.Call member (placed_members document.now)) }
{
    match document.member(member) {
        None => Ok(None),
        Some(seen) => Ok(Some(call_seen(alloc, seen, member)?)),
    }
}
