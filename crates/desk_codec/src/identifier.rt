//! Readers of identifiers, which stand in their canonical texts.

ghost use Rattle.std.specs.Prelude.{Some, None, if◌then◌else◌};
ghost use Rattle.desk_types.specs.declared.parts.IdKind.TheVariants as kinds;
ghost use Rattle.desk_codec.specs.Reading.{Gives, is_canonical, first_identifier, first_optional};

use crate::fault::{SpellingFault, fault_of_refusal};
use crate::text::read_short_text;
use desk_types::{CallId, IncidentId};
use std::alloc::Global;

/// The identifier of an incident that has this text as its canonical text.
fn incident_of(alloc: Global, text: &str) -> Result<IncidentId, SpellingFault>
    ensures { Gives (λ id. id) result (if is_canonical kinds.Incident text.now then Some text.now else None) }
{
    match IncidentId::parse(alloc, text) {
        Err(refusal) => Err(fault_of_refusal(refusal)),
        Ok(incident) => {
            if incident.as_text() == text {
                Ok(incident)
            } else {
                Err(SpellingFault::NoSpelling)
            }
        }
    }
}

/// The identifier of a call that has this text as its canonical text.
fn call_of(alloc: Global, text: &str) -> Result<CallId, SpellingFault>
    ensures { Gives (λ id. id) result (if is_canonical kinds.Call text.now then Some text.now else None) }
{
    match CallId::parse(alloc, text) {
        Err(refusal) => Err(fault_of_refusal(refusal)),
        Ok(call) => {
            if call.as_text() == text {
                Ok(call)
            } else {
                Err(SpellingFault::NoSpelling)
            }
        }
    }
}

#[tactic(auto, unfolding(crate::specs::Reading::first_identifier))]
pub(crate) fn read_incident(
    alloc: Global,
    bytes: &[u8],
) -> Result<(IncidentId, &[u8]), SpellingFault>
    ensures { Gives (λ x. (x.0, x.1.now)) result (first_identifier kinds.Incident bytes.now) }
{
    let (text, rest) = read_short_text(bytes)?;
    let incident = incident_of(alloc, text)?;
    Ok((incident, rest))
}

#[tactic(auto, unfolding(crate::specs::Reading::first_identifier))]
pub(crate) fn read_call(alloc: Global, bytes: &[u8]) -> Result<(CallId, &[u8]), SpellingFault>
    ensures { Gives (λ x. (x.0, x.1.now)) result (first_identifier kinds.Call bytes.now) }
{
    let (text, rest) = read_short_text(bytes)?;
    let call = call_of(alloc, text)?;
    Ok((call, rest))
}

/// The identifier of an incident after a one, or none after a zero.
#[tactic(auto, unfolding(crate::specs::Reading::first_optional))]
pub(crate) fn read_optional_incident(
    alloc: Global,
    bytes: &[u8],
) -> Result<(Option<IncidentId>, &[u8]), SpellingFault>
    ensures { Gives (λ x. (x.0, x.1.now)) result (first_optional kinds.Incident bytes.now) }
{
    match bytes {
        [0, rest @ ..] => Ok((None, rest)),
        [1, rest @ ..] => {
            let (incident, rest) = read_incident(alloc, rest)?;
            Ok((Some(incident), rest))
        }
        _ => Err(SpellingFault::NoSpelling),
    }
}

/// The identifier of a call after a one, or none after a zero.
#[tactic(auto, unfolding(crate::specs::Reading::first_optional))]
pub(crate) fn read_optional_call(
    alloc: Global,
    bytes: &[u8],
) -> Result<(Option<CallId>, &[u8]), SpellingFault>
    ensures { Gives (λ x. (x.0, x.1.now)) result (first_optional kinds.Call bytes.now) }
{
    match bytes {
        [0, after @ ..] => Ok((None, after)),
        [1, after @ ..] => {
            let (call, rest) = read_call(alloc, after)?;
            Ok((Some(call), rest))
        }
        _ => Err(SpellingFault::NoSpelling),
    }
}
